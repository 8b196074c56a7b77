// What the fields of an operation word name (the manual, sections 4 and 6, each instruction's format).
ghost use Rattle.std.specs.Prelude.{◌≡◌, ◌+◌, ◌-◌, ◌*◌, ◌/◌};
ghost use Rattle.read_spec.specs.Decoded.{high_at};
ghost use Rattle.read_spec.specs.Layouts.{is_exchange};
ghost use Rattle.read_spec.specs.Operation.{size_at, move_size, long_at, bounds_at, chk_at, quick_at, word_at, decimal_at, pack_at, exchanged_at, field_in, sign_at, immediate_at, to_status, condition_code_at, status_at, bit_at, to_memory_at, one_at, unsized_at, count_at, pair_at, extend_at, address_at, either_at, shift_at, direction_at, shift_count, bit_field_at, value_at, trap_at};
ghost use Rattle.read_values.specs.OperationWord.{x_in, opmode_in, ea_in};

use crate::operation_word::OperationWord;
use isa::{
    BitField, BitFieldOperation, ConditionCodeOperation, FieldValue, ImmediateOperation,
    OneOperation, Operand, PackOperation, PairOperation, QuickOperation, RegisterOperand,
    RegisterOperation, ShiftDirection, ShiftOperation, Sign, Size, StatusOperation,
    TargetDirection, TrapOperand, UnsizedOneOperation, UnsizedPairOperation,
    UnsizedRegisterOperation, WordOperation,
};

/// The size field: 00 byte, 01 word, 10 long.
pub fn size_at(k: u8) -> Size
    ensures { result ≡ size_at k }
{
    match k {
        0 => Size::Byte,
        1 => Size::Word,
        2 => Size::Long,
        _ => Size::Byte,
    }
}

/// The lines 0001, 0010 and 0011 of MOVE.
pub fn move_size(line: u8) -> Size
    ensures { result ≡ move_size line }
{
    match line {
        0 => Size::Byte,
        1 => Size::Byte,
        2 => Size::Long,
        3 => Size::Word,
        _ => Size::Byte,
    }
}

pub fn sign_at(k: u8) -> Sign
    ensures { result ≡ sign_at k }
{
    if k == 1 { Sign::Signed } else { Sign::Unsigned }
}

/// Bits 11 to 9 of ORI, ANDI, SUBI, ADDI, EORI and CMPI.
pub fn immediate_at(x: u8) -> ImmediateOperation
    ensures { result ≡ immediate_at x }
{
    match x {
        0 => ImmediateOperation::ORI,
        1 => ImmediateOperation::ANDI,
        2 => ImmediateOperation::SUBI,
        3 => ImmediateOperation::ADDI,
        4 => ImmediateOperation::CMPI,
        5 => ImmediateOperation::EORI,
        6 => ImmediateOperation::CMPI,
        _ => ImmediateOperation::CMPI,
    }
}

/// ORI, ANDI and EORI have forms to CCR and SR, where an immediate destination would stand.
pub fn to_status(w: OperationWord) -> bool
    ensures { result ≡ to_status (x_in w.0) (opmode_in w.0) (ea_in w.0) }
{
    (w.ea() == 60) & (w.opmode() < 2) & ((w.x() < 2) | (w.x() == 5))
}

pub fn condition_code_at(x: u8) -> ConditionCodeOperation
    ensures { result ≡ condition_code_at x }
{
    match x {
        0 => ConditionCodeOperation::ORItoCCR,
        1 => ConditionCodeOperation::ANDItoCCR,
        _ => ConditionCodeOperation::EORItoCCR,
    }
}

pub fn status_at(x: u8) -> StatusOperation
    ensures { result ≡ status_at x }
{
    match x {
        0 => StatusOperation::ORItoSR,
        1 => StatusOperation::ANDItoSR,
        _ => StatusOperation::EORItoSR,
    }
}

pub fn bit_at(k: u8) -> UnsizedPairOperation
    ensures { result ≡ bit_at k }
{
    match k {
        0 => UnsizedPairOperation::BTST,
        1 => UnsizedPairOperation::BCHG,
        2 => UnsizedPairOperation::BCLR,
        3 => UnsizedPairOperation::BSET,
        _ => UnsizedPairOperation::BTST,
    }
}

pub fn to_memory_at(k: u8) -> TargetDirection
    ensures { result ≡ to_memory_at k }
{
    if k == 1 {
        TargetDirection::ToMemory
    } else {
        TargetDirection::FromMemory
    }
}

pub fn one_at(x: u8) -> OneOperation
    ensures { result ≡ one_at x }
{
    match x {
        0 => OneOperation::NEGX,
        1 => OneOperation::CLR,
        2 => OneOperation::NEG,
        3 => OneOperation::NOT,
        _ => OneOperation::TST,
    }
}

pub fn unsized_at(w: OperationWord) -> UnsizedOneOperation
    ensures { result ≡ unsized_at (x_in w.0) (opmode_in w.0) }
{
    if w.opmode() == 2 {
        return UnsizedOneOperation::JSR;
    }
    match w.x() {
        0 => UnsizedOneOperation::MOVEfromSR,
        1 => UnsizedOneOperation::MOVEfromCCR,
        2 => UnsizedOneOperation::MOVEtoCCR,
        3 => UnsizedOneOperation::MOVEtoSR,
        4 => UnsizedOneOperation::JMP,
        5 => UnsizedOneOperation::TAS,
        _ => UnsizedOneOperation::JMP,
    }
}

/// A count of 1 to 8, 8 coded 0.
pub fn count_at(x: u8) -> u8
    ensures { result ≡ count_at x }
{
    if x == 0 { 8 } else { x }
}

pub fn pair_at(line: u8) -> PairOperation
    ensures { result ≡ pair_at line }
{
    match line.saturating_sub(8) {
        0 => PairOperation::OR,
        1 => PairOperation::SUB,
        2 => PairOperation::OR,
        3 => PairOperation::OR,
        4 => PairOperation::AND,
        5 => PairOperation::ADD,
        _ => PairOperation::OR,
    }
}

pub fn extend_at(line: u8) -> PairOperation
    ensures { result ≡ extend_at line }
{
    if line == 9 {
        PairOperation::SUBX
    } else {
        PairOperation::ADDX
    }
}

pub fn address_at(line: u8) -> RegisterOperation
    ensures { result ≡ address_at line }
{
    match line.saturating_sub(8) {
        0 => RegisterOperation::ADDA,
        1 => RegisterOperation::SUBA,
        2 => RegisterOperation::ADDA,
        3 => RegisterOperation::CMPA,
        4 => RegisterOperation::ADDA,
        5 => RegisterOperation::ADDA,
        _ => RegisterOperation::ADDA,
    }
}

/// Dy or -(Ay), which bit 3 says.
pub fn either_at(ea: u8, k: u8) -> Operand
    ensures { result ≡ either_at ea k }
{
    if ea < 8 {
        Operand::Register(RegisterOperand::Data(k))
    } else {
        Operand::PreIndirect(k)
    }
}

pub fn shift_at(k: u8) -> ShiftOperation
    ensures { result ≡ shift_at k }
{
    match k {
        0 => ShiftOperation::ASd,
        1 => ShiftOperation::LSd,
        2 => ShiftOperation::ROXd,
        3 => ShiftOperation::ROd,
        _ => ShiftOperation::ASd,
    }
}

pub fn direction_at(k: u8) -> ShiftDirection
    ensures { result ≡ direction_at k }
{
    if k == 1 {
        ShiftDirection::Left
    } else {
        ShiftDirection::Right
    }
}

/// Whether fields of line C are EXG: of two data registers, two address registers, or a data and an address register.
pub fn is_exchange(w: OperationWord) -> bool
    ensures { result ≡ is_exchange (opmode_in w.0) (ea_in w.0) }
{
    (w.ea() < 16) & ((w.opmode() == 5) | (8 <= w.ea()))
}

/// The count of a shift in bits 11 to 9: a register where i/r says so.
pub fn shift_count(w: OperationWord) -> Operand
    ensures { result ≡ shift_count (ea_in w.0) (x_in w.0) }
{
    if w.ea() / 32 == 1 {
        Operand::Register(RegisterOperand::Data(w.x()))
    } else {
        Operand::Immediate(count_at(w.x()) as u32)
    }
}

/// Bits 10 to 8 of a bit-field instruction.
pub fn bit_field_at(k: u8) -> BitFieldOperation
    ensures { result ≡ bit_field_at k }
{
    match k {
        0 => BitFieldOperation::Test,
        1 => BitFieldOperation::ExtractUnsigned,
        2 => BitFieldOperation::Change,
        3 => BitFieldOperation::ExtractSigned,
        4 => BitFieldOperation::Clear,
        5 => BitFieldOperation::FindFirstOne,
        6 => BitFieldOperation::Set,
        7 => BitFieldOperation::Insert,
        _ => BitFieldOperation::Test,
    }
}

/// The operation of a bit-field instruction.
pub fn bit_field_of(w: OperationWord) -> BitFieldOperation
    ensures { result ≡ bit_field_at ((x_in w.0 - 4) * 2 + opmode_in w.0 / 4) }
{
    bit_field_at(w.x().saturating_sub(4) * 2 + w.opmode() / 4)
}

/// The offset or the width of a bit field.
pub fn value_at(n: u8) -> FieldValue
    ensures { result ≡ value_at n }
{
    if n / 32 == 1 {
        FieldValue::Register(n % 8)
    } else {
        FieldValue::Immediate(n % 32)
    }
}

/// The operand of TRAPcc: 010 a word, 011 a long, 100 none.
pub fn trap_at(ea: u8, v: u32) -> TrapOperand
    ensures { result ≡ trap_at ea v }
{
    if ea == 58 {
        TrapOperand::Word((v % 65536) as u16)
    } else if ea == 59 {
        TrapOperand::Long(v)
    } else {
        TrapOperand::None
    }
}

/// ADDQ or SUBQ, which bit 8 says.
pub fn quick_at(opmode: u8) -> QuickOperation
    ensures { result ≡ quick_at opmode }
{
    if 4 <= opmode {
        QuickOperation::SUBQ
    } else {
        QuickOperation::ADDQ
    }
}

/// CHK2 or CMP2, which bit 11 of the specifier says.
pub fn bounds_at(value: u32) -> RegisterOperation
    ensures { result ≡ bounds_at value }
{
    if value / 2048 % 2 == 1 {
        RegisterOperation::CHK2
    } else {
        RegisterOperation::CMP2
    }
}

/// The register of the high half of a 64-bit product.
pub fn high_at(value: u32) -> Option<u8>
    ensures { result ≡ high_at value }
{
    if value / 1024 % 2 == 1 {
        Some((value % 8) as u8)
    } else {
        None
    }
}

/// CHK of a long or of a word.
pub fn chk_at(opmode: u8) -> UnsizedRegisterOperation
    ensures { result ≡ chk_at opmode }
{
    if opmode == 4 {
        UnsizedRegisterOperation::CHKL
    } else {
        UnsizedRegisterOperation::CHK
    }
}

/// SBCD of line 8, ABCD of line C.
pub fn decimal_at(line: u8) -> UnsizedPairOperation
    ensures { result ≡ decimal_at line }
{
    if line == 8 {
        UnsizedPairOperation::SBCD
    } else {
        UnsizedPairOperation::ABCD
    }
}

/// PACK and UNPK.
pub fn pack_at(opmode: u8) -> PackOperation
    ensures { result ≡ pack_at opmode }
{
    if opmode == 5 {
        PackOperation::PACK
    } else {
        PackOperation::UNPK
    }
}

/// DIVU and DIVS of line 8, MULU and MULS of line C.
pub fn word_at(line: u8) -> WordOperation
    ensures { result ≡ word_at line }
{
    if line == 8 {
        WordOperation::DIVx
    } else {
        WordOperation::MULx
    }
}

/// The first register of EXG where the second is an address register.
pub fn exchanged_at(x: u8, opmode: u8) -> RegisterOperand
    ensures { result ≡ exchanged_at x opmode }
{
    if opmode == 5 {
        RegisterOperand::Address(x)
    } else {
        RegisterOperand::Data(x)
    }
}

/// A long where opmode is 111, else a word.
pub fn long_at(opmode: u8) -> Size
    ensures { result ≡ long_at opmode }
{
    if opmode == 7 { Size::Long } else { Size::Word }
}

/// The offset and the width in a bit field's word.
pub fn field_in(value: u32) -> BitField
    ensures { result ≡ field_in value }
{
    let offset = value_at((value / 64 % 64) as u8);
    let width = value_at((value % 64) as u8);
    BitField { offset, width }
}
