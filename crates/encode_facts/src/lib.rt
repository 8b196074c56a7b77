// Facts about verdicts, items and the addresses of words, for the encoder's code and for laws.
#![tactic(auto)]
