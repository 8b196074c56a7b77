// What the fields of operation words and extension words stand for.
#![tactic(auto)]

pub mod number; // signed numbers and addresses
pub mod operation; // what the fields of an operation word name
pub mod operation_word; // the fields of an operation word
pub mod register; // registers
