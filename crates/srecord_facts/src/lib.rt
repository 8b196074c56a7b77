// Facts alone: digits, bytes and numbers, each from the others; what the tests of a line tell; words written one after another.
#![tactic(auto)]
