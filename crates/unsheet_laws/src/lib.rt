// Laws alone: the sheet of an image, and translating it back (N6).
#![tactic(auto)]
