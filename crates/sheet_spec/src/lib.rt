// Definitions alone: a sheet, its lines, its translation and its following. The types that they and the code share.
#![tactic(auto)]

// What a field of a line is: a number, a label, either, or a variant's name of a type.
#[derive(Clone, Copy)]
pub enum Kind {
    Number,
    Target,
    Place,
    Size,
    TargetDirection,
    RegisterOperand,
    AddressWidth,
    Condition,
    BranchSize,
    ShiftDirection,
    Sign,
    BitFieldOperation,
    FieldValue,
    TrapOperand,
    RegisterChoice,
    Operand,
    Instruction,
}

// The counts of lines and words, or a refusal: number, line, detail and value.
#[derive(Clone, Copy)]
pub struct Listed {
    pub lines: usize,
    pub words: usize,
    pub number: u8,
    pub line: usize,
    pub detail: u8,
    pub value: i64,
}
