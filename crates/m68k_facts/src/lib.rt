// Laws of what the encoder's entry points give, for proofs of code and for laws.
#![tactic(auto)]
