// Laws alone: what `read` prints for a line speaks of all its words.
#![tactic(auto)]
