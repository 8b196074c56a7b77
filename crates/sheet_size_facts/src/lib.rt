// Facts alone: each line of an accepted sheet lays down as many words as it counts, so the image is as long as their sum.
#![tactic(auto)]
