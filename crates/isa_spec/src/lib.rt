// Definitions alone: fields and their ranges, codes, extension words and their bases, conditions, modes and their categories.
#![tactic(auto)]
