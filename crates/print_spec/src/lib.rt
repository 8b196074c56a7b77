// Definitions alone: what the programs print for a line of numbers, a run of words and a sheet.
#![tactic(auto)]

// How many bytes were written; or that the buffer is not wide enough, and nothing was.
#[derive(Clone, Copy)]
pub struct Output {
    pub wide: bool,
    pub count: usize,
}
