// Line 0: immediate data, bits, MOVEP, MOVES, CHK2, CMP2 and CAS.
ghost use Rattle.std.specs.Prelude.{◌≡◌};
ghost use Rattle.isa.specs.declared.Instruction.TheVariants.{UnsizedPair};
ghost use Rattle.isa.specs.declared.Operand.TheVariants.{Immediate};
ghost use Rattle.read_spec.specs.Decoded.{status_decoded, immediate_decoded, bounds_decoded, moves_decoded, cas2_decoded, cas_decoded};
ghost use Rattle.read_spec.specs.Operation.{bit_at};
ghost use Rattle.read_opcodes_0_3.specs.Parts.{dynamic_instruction};
ghost use Rattle.read_values.specs.OperationWord.{x_in, opmode_in, ea_in};

use isa::{Instruction, Operand, RegisterOperand, TransferOperation};
use read_spec::Tail;
use read_values::operation::{
    bit_at, bounds_at, condition_code_at, immediate_at, size_at, status_at, to_memory_at, to_status,
};
use read_values::operation_word::OperationWord;
use read_values::register::{data_operand, general_in};

/// ORI, ANDI and EORI to CCR, and to SR.
pub fn status(x: u8, opmode: u8, value: u32) -> Instruction
    ensures { result ≡ status_decoded x opmode value }
{
    if opmode == 0 {
        let operation = condition_code_at(x);
        return Instruction::ConditionCode(operation, (value % 256) as u8);
    }
    let operation = status_at(x);
    Instruction::Status(operation, (value % 65536) as u16)
}

/// ORI, ANDI, SUBI, ADDI, EORI and CMPI, and those.
pub fn immediate_into(w: OperationWord, tail: Tail) -> Instruction
    ensures { result ≡ immediate_decoded (x_in w.0) (opmode_in w.0) (ea_in w.0) tail.value tail.source }
{
    if to_status(w) {
        return status(w.x(), w.opmode(), tail.value);
    }
    let operation = immediate_at(w.x());
    let size = size_at(w.opmode());
    Instruction::ImmediateInto(operation, tail.value, tail.source, size)
}

/// BTST, BCHG, BCLR and BSET by an immediate number.
pub fn static_bit(w: OperationWord, tail: Tail) -> Instruction
    ensures { result ≡ UnsizedPair (bit_at (opmode_in w.0)) (Immediate tail.value) tail.source }
{
    let operation = bit_at(w.opmode());
    let number = Operand::Immediate(tail.value);
    Instruction::UnsizedPair(operation, number, tail.source)
}

/// The same by a data register, and MOVEP.
pub fn dynamic_bit(w: OperationWord, tail: Tail) -> Instruction
    ensures { result ≡ dynamic_instruction (x_in w.0) (opmode_in w.0) (ea_in w.0) tail.source }
{
    if w.ea() / 8 == 1 {
        let direction = to_memory_at(w.opmode() / 2 % 2);
        let size = size_at(1 + w.opmode() % 2);
        let register = RegisterOperand::Data(w.x());
        return Instruction::Transfer {
            operation: TransferOperation::MOVEP,
            direction,
            size,
            register,
            target: tail.source,
        };
    }
    let operation = bit_at(w.opmode().saturating_sub(4));
    let number = data_operand(w.x());
    Instruction::UnsizedPair(operation, number, tail.source)
}

/// MOVES.
pub fn moves(w: OperationWord, tail: Tail) -> Instruction
    ensures { result ≡ moves_decoded (opmode_in w.0) tail.value tail.source }
{
    let direction = to_memory_at((tail.value / 2048 % 2) as u8);
    let size = size_at(w.opmode());
    let register = general_in(tail.value);
    Instruction::Transfer {
        operation: TransferOperation::MOVES,
        direction,
        size,
        register,
        target: tail.source,
    }
}

/// CHK2 and CMP2.
pub fn bounds(w: OperationWord, tail: Tail) -> Instruction
    ensures { result ≡ bounds_decoded (x_in w.0) tail.value tail.source }
{
    let operation = bounds_at(tail.value);
    let register = general_in(tail.value);
    let size = size_at(w.x());
    Instruction::IntoRegister(operation, tail.source, register, size)
}

/// CAS2, by the words of its two comparisons.
pub fn cas2(x: u8, first: u32, second: u32) -> Instruction
    ensures { result ≡ cas2_decoded x first second }
{
    let pointer1 = general_in(first);
    let pointer2 = general_in(second);
    let size = size_at(x.saturating_sub(5));
    Instruction::CAS2 {
        compare1: (first % 8) as u8,
        compare2: (second % 8) as u8,
        update1: (first / 64 % 8) as u8,
        update2: (second / 64 % 8) as u8,
        pointer1,
        pointer2,
        size,
    }
}

/// CAS and CAS2.
pub fn cas(w: OperationWord, tail: Tail) -> Instruction
    ensures { result ≡ cas_decoded (x_in w.0) (ea_in w.0) tail.value tail.source }
{
    if (w.ea() == 60) & (6 <= w.x()) {
        return cas2(w.x(), tail.value / 65536, tail.value % 65536);
    }
    let size = size_at(w.x().saturating_sub(5));
    Instruction::CAS {
        compare: (tail.value % 8) as u8,
        update: (tail.value / 64 % 8) as u8,
        target: tail.source,
        size,
    }
}
