// The instructions of lines 4 to 7, decoded from the parts of their operation word and its tail.
#![tactic(auto)]

pub mod conditional; // lines 5 to 7
pub mod miscellaneous; // line 4
pub mod system; // $4E40 to $4E7F
