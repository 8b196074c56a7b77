// Definitions alone: the words of every instruction, and what `encode`, `size` and `encode_bytes` give.
#![tactic(auto)]
