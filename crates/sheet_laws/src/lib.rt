// Laws alone: an accepted sheet and its image stay together (demand 3).
#![tactic(auto)]
