// What stands in a row of numbers: numbers inside their declared types, enums, registers and operands. An enum is its
// variant's place, counted from 0, then its fields in declared order.
#![tactic(auto)]

use isa::{
    AddressWidth, BitField, FieldValue, IndexRegister, Operand, RegisterOperand, Size, TrapOperand,
};
pub use numeric_places::Numbers;

pub mod number; // numbers inside their declared types
pub mod part; // enums and registers
pub mod operand; // operands

// What stands from a place on, whether it is in the form, and the place after it.
#[derive(Clone, Copy)]
pub struct UnsignedAt {
    pub ok: bool,
    pub value: u64,
    pub next: usize,
}

#[derive(Clone, Copy)]
pub struct SignedAt {
    pub ok: bool,
    pub value: i32,
    pub next: usize,
}

#[derive(Clone, Copy)]
pub struct ByteAt {
    pub ok: bool,
    pub value: u8,
    pub next: usize,
}

#[derive(Clone, Copy)]
pub struct WordAt {
    pub ok: bool,
    pub value: u16,
    pub next: usize,
}

#[derive(Clone, Copy)]
pub struct LongAt {
    pub ok: bool,
    pub value: u32,
    pub next: usize,
}

#[derive(Clone, Copy)]
pub struct SizeAt {
    pub ok: bool,
    pub size: Size,
    pub next: usize,
}

#[derive(Clone, Copy)]
pub struct AddressWidthAt {
    pub ok: bool,
    pub width: AddressWidth,
    pub next: usize,
}

#[derive(Clone, Copy)]
pub struct RegisterAt {
    pub ok: bool,
    pub register: RegisterOperand,
    pub next: usize,
}

#[derive(Clone, Copy)]
pub struct IndexAt {
    pub ok: bool,
    pub index: IndexRegister,
    pub next: usize,
}

#[derive(Clone, Copy)]
pub struct FieldValueAt {
    pub ok: bool,
    pub value: FieldValue,
    pub next: usize,
}

#[derive(Clone, Copy)]
pub struct BitFieldAt {
    pub ok: bool,
    pub field: BitField,
    pub next: usize,
}

#[derive(Clone, Copy)]
pub struct TrapOperandAt {
    pub ok: bool,
    pub operand: TrapOperand,
    pub next: usize,
}

#[derive(Clone, Copy)]
pub struct RegisterChoiceAt {
    pub ok: bool,
    pub register: Option<u8>,
    pub next: usize,
}

#[derive(Clone, Copy)]
pub struct OperandAt {
    pub ok: bool,
    pub operand: Operand,
    pub next: usize,
}
