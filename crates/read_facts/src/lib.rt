// Facts of the reading that proofs of code need too: what is decoded looks at no further word, and how many words are read.
#![tactic(auto)]
