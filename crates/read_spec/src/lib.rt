// The types of the reader.
#![tactic(auto)]

use isa::{Instruction, Operand, Size};

// What stands between an operation word and the words of its operands: nothing, one word or two.
#[derive(Clone, Copy)]
pub enum Specifier {
    Nothing,
    Word,
    Byte,
    General,
    Multiply,
    Divide,
    Compare,
    BitField,
    Long,
    CompareTwo,
}

// What follows an operation word: whether it is one at all, its specifier, and two effective addresses in six bits
// with the modes that each may be in.
#[derive(Clone, Copy)]
pub struct Layout {
    pub accepted: bool,
    pub specifier: Specifier,
    pub size: Size,
    pub source: u8,
    pub readable: u16,
    pub destination: u8,
    pub writable: u16,
}

// What is read after the operation word.
#[derive(Clone, Copy)]
pub struct Tail {
    pub value: u32,
    pub source: Operand,
    pub destination: Operand,
}

// The groups of operation words that the upper ten bits tell apart.
#[derive(Clone, Copy)]
pub enum Group {
    Unused,
    ImmediateInto,
    StaticBit,
    DynamicBitMovep,
    MOVES,
    Bounds,
    CAS,
    MOVE,
    OneOperand,
    UnsizedOneIllegal,
    NbcdLink,
    PeaSwapBkpt,
    MovemExt,
    MULL,
    DIVL,
    System,
    LeaExtb,
    CHK,
    Quick,
    Conditional,
    Branch,
    MOVEQ,
    IntoData,
    ArithmeticExtended,
    LogicDecimal,
    LogicPack,
    LogicExchange,
    LogicCompare,
    WordIntoData,
    IntoAddress,
    ShiftRegister,
    ShiftMemory,
    BitField,
    LineA,
    LineF,
}

/// What a run of words reads as: an instruction in plain form, and its length in bytes.
#[derive(Clone, Copy)]
pub struct Read {
    pub instruction: Instruction,
    pub bytes: u32,
}

/// Why a run of words does not read: it ends too early, or nothing begins with it.
#[derive(Clone, Copy, Debug, PartialEq, Eq)]
pub enum Unread {
    Short,
    Nothing,
}
