// $4E40 to $4E7F.
ghost use Rattle.std.specs.Prelude.{◌≡◌};
ghost use Rattle.read_spec.specs.Decoded.{return_decoded, movec_decoded, system_decoded};
ghost use Rattle.read_values.specs.OperationWord.{ea_in};

use isa::{
    Instruction, LinkOperation, NoOperandOperation, RegisterOperand, StatusOperation,
    VectorOperation,
};
use read_spec::Tail;
use read_values::number::extended;
use read_values::operation_word::OperationWord;
use read_values::register::general_in;

/// $4E70 to $4E77.
pub fn return_at(k: u8, value: u32) -> Instruction
    ensures { result ≡ return_decoded k value }
{
    match k {
        0 => return Instruction::NoOperand(NoOperandOperation::RESET),
        1 => return Instruction::NoOperand(NoOperandOperation::NOP),
        2 => return Instruction::Status(StatusOperation::STOP, (value % 65536) as u16),
        3 => return Instruction::NoOperand(NoOperandOperation::RTE),
        4 => return Instruction::RTD(extended((value % 65536) as u16)),
        5 => return Instruction::NoOperand(NoOperandOperation::RTS),
        6 => return Instruction::NoOperand(NoOperandOperation::TRAPV),
        7 => return Instruction::NoOperand(NoOperandOperation::RTR),
        _ => return Instruction::NoOperand(NoOperandOperation::NOP),
    }
}

/// MOVEC.
pub fn movec(ea: u8, value: u32) -> Instruction
    ensures { result ≡ movec_decoded ea value }
{
    let register = general_in(value);
    Instruction::MOVEC {
        to_control: ea == 59,
        control: (value % 4096) as u16,
        register,
    }
}

/// TRAP, LINK, UNLK, MOVE USP, the instructions without operands, and MOVEC.
pub fn system(w: OperationWord, tail: Tail) -> Instruction
    ensures { result ≡ system_decoded (ea_in w.0) tail.value }
{
    let register = RegisterOperand::Address(w.ea() % 8);
    match w.ea() / 8 {
        0 => return Instruction::Vector(VectorOperation::TRAP, w.ea()),
        1 => return Instruction::Vector(VectorOperation::TRAP, w.ea()),
        2 => return Instruction::Link(
            LinkOperation::LINK,
            register,
            extended((tail.value % 65536) as u16),
        ),
        3 => return Instruction::UNLK(register),
        4 => return Instruction::MOVEUSP {
            to_usp: true,
            register,
        },
        5 => return Instruction::MOVEUSP {
            to_usp: false,
            register,
        },
        6 => return return_at(w.ea() % 8, tail.value),
        _ => return movec(w.ea(), tail.value),
    }
}
