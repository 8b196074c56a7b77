// Lines 5 to 7: ADDQ, SUBQ, the instructions with conditions, branches and MOVEQ.
ghost use Rattle.std.specs.Prelude.{◌≡◌};
ghost use Rattle.read_opcodes_4_7.specs.Parts.{branch_target, branch_size, branch_at};
ghost use Rattle.isa.specs.declared.Instruction.TheVariants.{MOVEQ};
ghost use Rattle.isa.specs.declared.RegisterOperand.TheVariants.{Data};
ghost use Rattle.read_spec.specs.Decoded.{quick_decoded, conditional_decoded, branch_decoded};
ghost use Rattle.read_values.specs.OperationWord.{x_in, opmode_in, ea_in, condition_in, byte_in};

use isa::{BranchOperation, BranchSize, Instruction, Operand, RegisterOperand};
use isa_values::condition::from_code;
use read_spec::Tail;
use read_values::number::{byte_target, long_target, word_target};
use read_values::operation::{count_at, quick_at, size_at, trap_at};
use read_values::operation_word::OperationWord;

/// ADDQ and SUBQ.
pub fn quick(w: OperationWord, tail: Tail) -> Instruction
    ensures { result ≡ quick_decoded (x_in w.0) (opmode_in w.0) tail.source }
{
    let operation = quick_at(w.opmode());
    let count = count_at(w.x());
    let size = size_at(w.opmode() % 4);
    Instruction::Quick(operation, count, tail.source, size)
}

/// DBcc, TRAPcc and Scc, by the condition's code.
pub fn conditional(address: u32, w: OperationWord, tail: Tail) -> Instruction
    ensures { result ≡ conditional_decoded address (condition_in w.0) (ea_in w.0) tail.value tail.source }
{
    let condition = from_code(w.condition_code() as u16);
    if w.ea() / 8 == 1 {
        let register = RegisterOperand::Data(w.ea() % 8);
        return Instruction::DBcc(register, word_target(address, tail.value), condition);
    }
    if (58 <= w.ea()) & (w.ea() <= 60) {
        let operand = trap_at(w.ea(), tail.value);
        return Instruction::TRAPcc(condition, operand);
    }
    Instruction::Scc(tail.source, condition)
}

// A branch goes by a word, a long or the byte of its operation word.
fn branch_target(address: u32, byte: u8, value: u32) -> u32
    ensures { result ≡ branch_target address byte value }
{
    if byte == 0 {
        word_target(address, value)
    } else if byte == 255 {
        long_target(address, value)
    } else {
        byte_target(address, byte)
    }
}

fn branch_size(byte: u8) -> BranchSize
    ensures { result ≡ branch_size byte }
{
    if byte == 0 {
        BranchSize::Word
    } else if byte == 255 {
        BranchSize::Long
    } else {
        BranchSize::Short
    }
}

// The conditions T and F of a branch.
fn branch_at(code: u8) -> BranchOperation
    ensures { result ≡ branch_at code }
{
    if code == 0 {
        BranchOperation::BRA
    } else {
        BranchOperation::BSR
    }
}

/// BRA, BSR and Bcc, by the condition's code.
pub fn branch(address: u32, w: OperationWord, tail: Tail) -> Instruction
    ensures { result ≡ branch_decoded address (condition_in w.0) (byte_in w.0) tail.value }
{
    let target = branch_target(address, w.low_byte(), tail.value);
    let size = branch_size(w.low_byte());
    if w.condition_code() < 2 {
        let operation = branch_at(w.condition_code());
        return Instruction::Branch(operation, target, size);
    }
    let condition = from_code(w.condition_code() as u16);
    Instruction::Bcc(target, condition, size)
}

/// MOVEQ.
pub fn moveq(w: OperationWord) -> Instruction
    ensures { result ≡ MOVEQ (byte_in w.0) (Data (x_in w.0)) }
{
    let register = RegisterOperand::Data(w.x());
    Instruction::MOVEQ(w.low_byte(), register)
}
