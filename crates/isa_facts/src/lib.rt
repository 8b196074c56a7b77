// Facts about codes, conditions, sets of modes and the pairs of fields, for code and for laws.
#![tactic(auto)]
