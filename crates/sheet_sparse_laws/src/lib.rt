// Laws alone: what `translate_sparse` returns and leaves, beside what `translate` does.
#![tactic(auto)]
