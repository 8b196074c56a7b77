// The instructions of lines 8 to F, decoded from the parts of their operation word and its tail.
#![tactic(auto)]

pub mod arithmetic; // lines 8 to D
pub mod shift; // line E, and the raw words of lines A and F
