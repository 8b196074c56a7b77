// What the code holds of a field.
#![tactic(auto)]

/// What a field in the form says: a number, or a line's number (4,097 where it is above 4,096). A variant's name says its place.
#[derive(Clone, Copy)]
pub enum Value {
    Number { negative: bool, magnitude: u64 },
    Line(u64),
}
