// The instructions of lines 0 to 3, decoded from the parts of their operation word and its tail.
#![tactic(auto)]

pub mod immediate; // line 0
pub mod movement; // lines 1 to 3
