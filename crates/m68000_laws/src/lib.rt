// Laws alone: the second reader against the first, and what it never shows.
#![tactic(auto)]
