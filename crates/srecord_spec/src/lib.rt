// Definitions alone: Motorola S-records, the text of an image, the reading of a text, and what the programs print of them.
#![tactic(auto)]

// The bytes written, or a refusal: 9 or 11, outside lines.
#[derive(Clone, Copy)]
pub struct Written {
    pub count: usize,
    pub number: u8,
}

// The start and the words, or a refusal with the record's number as its line.
#[derive(Clone, Copy)]
pub struct Loaded {
    pub start: u32,
    pub words: usize,
    pub number: u8,
    pub line: usize,
}
