// What the code holds of a reading: a tree taken over words by place, how far it looks, and the groups by number.
#![tactic(auto)]
