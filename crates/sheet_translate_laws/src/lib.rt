// Laws alone: what `translate` returns and leaves has demand 3.
#![tactic(auto)]
