// Definitions alone: the sheet of an image, what `unsheet` answers and leaves, and what the programs print of it.
#![tactic(auto)]

// The bytes written and the lines, or a refusal: its number, and its value, a place in the image.
#[derive(Clone, Copy)]
pub struct Unsheeted {
    pub bytes: usize,
    pub lines: usize,
    pub number: u8,
    pub value: i64,
}
