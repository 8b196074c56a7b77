// Definitions alone: the sentence of a refusal, and a text with the sentences of its refusals.
#![tactic(auto)]

// A refusal as a line prints it, all 0 where it prints none; `sheet`: it has the line of a sheet.
#[derive(Clone, Copy)]
pub struct Refusal {
    pub number: u64,
    pub sheet: bool,
    pub line: u64,
    pub detail: u64,
    pub negative: bool,
    pub value: u64,
}
