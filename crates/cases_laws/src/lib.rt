// Laws alone: 01's sheet and its cases of START, computed.
#![tactic(auto)]
