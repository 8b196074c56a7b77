// Facts alone: the lines that an image reads as, one after the other, and the stages of what is answered.
#![tactic(auto)]
