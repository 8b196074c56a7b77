// Definitions alone: two's complement, lines and fields of a text, decimal and hexadecimal numbers.
#![tactic(auto)]

/// The next place in the text, and how many bytes were written.
#[derive(Clone, Copy)]
pub struct Step {
    pub next: usize,
    pub count: usize,
}

/// A number that a field says, or that an instruction is written as: its sign and its magnitude.
#[derive(Clone, Copy)]
pub struct Literal {
    pub negative: bool,
    pub magnitude: u64,
}

/// The first `count` numbers of 24 places: fixed memory, no heap.
#[derive(Clone, Copy)]
pub struct Literals {
    pub places: [Literal; 24],
    pub count: usize,
}
