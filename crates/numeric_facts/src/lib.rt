// Facts about the numeric form that proofs of code need too: what is taken from numbers is exactly what the form says; how many numbers there are.
#![tactic(auto)]
