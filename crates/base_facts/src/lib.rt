// Laws only: general facts about lists, tests and numbers.
#![tactic(auto)]
