// Lines 8, 9, B, C and D.
ghost use Rattle.std.specs.Prelude.{◌≡◌};
ghost use Rattle.read_opcodes_8_f.specs.Parts.{compare_instruction};
ghost use Rattle.isa.specs.declared.Instruction.TheVariants.{IntoRegister, Pair};
ghost use Rattle.isa.specs.declared.RegisterOperand.TheVariants.{Address};
ghost use Rattle.read_spec.specs.Decoded.{data_operand, into_data_decoded, arithmetic_decoded, logic_decimal_decoded, logic_pack_decoded, exchanged, logic_exchange_decoded, word_decoded};
ghost use Rattle.read_spec.specs.Operation.{long_at, address_at};
ghost use Rattle.read_values.specs.OperationWord.{line_in, x_in, opmode_in, ea_in};

use isa::{Instruction, Operand, PairOperation, RegisterOperand, RegisterOperation, Size};
use read_spec::Tail;
use read_values::operation::{
    address_at, decimal_at, either_at, exchanged_at, extend_at, is_exchange, long_at, pack_at,
    pair_at, sign_at, size_at, word_at,
};
use read_values::operation_word::OperationWord;
use read_values::register::data_operand;

/// A data register into an operand.
pub fn from_data(operation: PairOperation, x: u8, target: Operand, size: Size) -> Instruction
    ensures { result ≡ Pair operation (data_operand x) target size }
{
    let register = data_operand(x);
    Instruction::Pair(operation, register, target, size)
}

/// OR, SUB, AND and ADD into a data register, and CMP.
pub fn into_data(w: OperationWord, tail: Tail) -> Instruction
    ensures { result ≡ into_data_decoded (line_in w.0) (x_in w.0) (opmode_in w.0) tail.source }
{
    let size = size_at(w.opmode());
    if w.line() == 11 {
        let register = RegisterOperand::Data(w.x());
        return Instruction::IntoRegister(RegisterOperation::CMP, tail.source, register, size);
    }
    let operation = pair_at(w.line());
    let register = data_operand(w.x());
    Instruction::Pair(operation, tail.source, register, size)
}

/// SUB and ADD of a data register, SUBX and ADDX.
pub fn arithmetic(w: OperationWord, tail: Tail) -> Instruction
    ensures { result ≡ arithmetic_decoded (line_in w.0) (x_in w.0) (opmode_in w.0) (ea_in w.0) tail.source }
{
    let size = size_at(w.opmode().saturating_sub(4));
    if w.ea() < 16 {
        let operation = extend_at(w.line());
        let from = either_at(w.ea(), w.ea() % 8);
        let to = either_at(w.ea(), w.x());
        return Instruction::Pair(operation, from, to, size);
    }
    from_data(pair_at(w.line()), w.x(), tail.source, size)
}

/// OR and AND of a byte in a data register, SBCD and ABCD.
pub fn logic_decimal(w: OperationWord, tail: Tail) -> Instruction
    ensures { result ≡ logic_decimal_decoded (line_in w.0) (x_in w.0) (ea_in w.0) tail.source }
{
    if w.ea() < 16 {
        let operation = decimal_at(w.line());
        let from = either_at(w.ea(), w.ea() % 8);
        let to = either_at(w.ea(), w.x());
        return Instruction::UnsizedPair(operation, from, to);
    }
    from_data(pair_at(w.line()), w.x(), tail.source, Size::Byte)
}

/// OR of a word or a long in a data register, PACK and UNPK.
pub fn logic_pack(w: OperationWord, tail: Tail) -> Instruction
    ensures { result ≡ logic_pack_decoded (x_in w.0) (opmode_in w.0) (ea_in w.0) tail.value tail.source }
{
    if w.ea() < 16 {
        let operation = pack_at(w.opmode());
        let from = either_at(w.ea(), w.ea() % 8);
        let to = either_at(w.ea(), w.x());
        return Instruction::Pack(operation, from, to, (tail.value % 65536) as u16);
    }
    from_data(
        PairOperation::OR,
        w.x(),
        tail.source,
        size_at(w.opmode().saturating_sub(4)),
    )
}

/// The registers of EXG.
pub fn exchanged_of(x: u8, opmode: u8, ea: u8) -> Instruction
    ensures { result ≡ exchanged x opmode ea }
{
    if ea < 8 {
        let first = RegisterOperand::Data(x);
        let second = RegisterOperand::Data(ea % 8);
        return Instruction::EXG(first, second);
    }
    let first = exchanged_at(x, opmode);
    let second = RegisterOperand::Address(ea % 8);
    Instruction::EXG(first, second)
}

/// AND of a word or a long in a data register, and EXG.
pub fn logic_exchange(w: OperationWord, tail: Tail) -> Instruction
    ensures { result ≡ logic_exchange_decoded (x_in w.0) (opmode_in w.0) (ea_in w.0) tail.source }
{
    if is_exchange(w) {
        return exchanged_of(w.x(), w.opmode(), w.ea());
    }
    from_data(
        PairOperation::AND,
        w.x(),
        tail.source,
        size_at(w.opmode().saturating_sub(4)),
    )
}

/// EOR, and CMPM.
pub fn logic_compare(w: OperationWord, tail: Tail) -> Instruction
    ensures { result ≡ compare_instruction (x_in w.0) (opmode_in w.0) (ea_in w.0) tail.source tail.destination }
{
    let size = size_at(w.opmode().saturating_sub(4));
    if w.ea() / 8 == 1 {
        return Instruction::Pair(PairOperation::CMPM, tail.source, tail.destination, size);
    }
    from_data(PairOperation::EOR, w.x(), tail.source, size)
}

/// DIVU, DIVS, MULU and MULS of words.
pub fn word_into_data(w: OperationWord, tail: Tail) -> Instruction
    ensures { result ≡ word_decoded (line_in w.0) (x_in w.0) (opmode_in w.0) tail.source }
{
    let operation = word_at(w.line());
    let register = RegisterOperand::Data(w.x());
    let sign = sign_at(w.opmode() / 4);
    Instruction::WordIntoData(operation, tail.source, register, sign)
}

/// SUBA, CMPA and ADDA.
pub fn into_address(w: OperationWord, tail: Tail) -> Instruction
    ensures { result ≡ IntoRegister (address_at (line_in w.0)) tail.source (Address (x_in w.0)) (long_at (opmode_in w.0)) }
{
    let operation = address_at(w.line());
    let register = RegisterOperand::Address(w.x());
    let size = long_at(w.opmode());
    Instruction::IntoRegister(operation, tail.source, register, size)
}
