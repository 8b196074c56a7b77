// Laws alone: the reader against the encoder, instruction by instruction.
#![tactic(auto)]
