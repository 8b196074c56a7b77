// Laws alone: a line is in the form exactly when it is the spelling of some line.
#![tactic(auto)]
