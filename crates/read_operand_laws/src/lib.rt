// Laws only: what the reader reads is what the encoder writes.
#![tactic(auto)]
