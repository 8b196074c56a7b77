// Registers in the fields of words.
ghost use Rattle.std.specs.Prelude.{◌≡◌, ◌/◌, ◌%◌};
ghost use Rattle.read_spec.specs.Decoded.{data_operand};
ghost use Rattle.read_spec.specs.Operand.{general_of};

use isa::{Operand, RegisterOperand};

// D/A and a register number, in four bits.
pub fn general_of(k: u8) -> RegisterOperand
    ensures { result ≡ general_of k }
{
    if k < 8 {
        RegisterOperand::Data(k)
    } else {
        RegisterOperand::Address(k - 8)
    }
}

// The register of bits 15 to 12.
pub fn general_in(value: u32) -> RegisterOperand
    ensures { result ≡ general_of (value / 4096 % 16) }
{
    general_of((value / 4096 % 16) as u8)
}

// A data register as an operand.
pub fn data_operand(k: u8) -> Operand
    ensures { result ≡ data_operand k }
{
    let register = RegisterOperand::Data(k);
    Operand::Register(register)
}
