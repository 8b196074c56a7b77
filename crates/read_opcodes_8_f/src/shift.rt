// Line E, and the words of lines A and F.
ghost use Rattle.std.specs.Prelude.{◌≡◌, ◌/◌, ◌<◌};
ghost use Rattle.isa.specs.declared.Instruction.TheVariants.{Shift, Raw};
ghost use Rattle.isa.specs.declared.Operand.TheVariants.{Immediate};
ghost use Rattle.isa.specs.declared.Size.TheVariants.{Word};
ghost use Rattle.read_spec.specs.Decoded.{shift_decoded, bit_field_decoded};
ghost use Rattle.read_spec.specs.Operation.{shift_at, direction_at};
ghost use Rattle.read_values.specs.OperationWord.{x_in, opmode_in, ea_in};

use isa::{Instruction, Operand, RawOperation, Size};
use read_spec::Tail;
use read_values::operation::{
    bit_field_of, direction_at, field_in, shift_at, shift_count, size_at,
};
use read_values::operation_word::OperationWord;
use read_values::register::data_operand;

/// A shift of a data register.
pub fn shift_register(w: OperationWord) -> Instruction
    ensures { result ≡ shift_decoded (x_in w.0) (opmode_in w.0) (ea_in w.0) }
{
    let operation = shift_at(w.ea() / 8 % 4);
    let count = shift_count(w);
    let target = data_operand(w.ea() % 8);
    let direction = direction_at(w.opmode() / 4);
    let size = size_at(w.opmode() % 4);
    Instruction::Shift(operation, count, target, direction, size)
}

/// A shift of a word in memory by one.
pub fn shift_memory(w: OperationWord, tail: Tail) -> Instruction
    ensures { result ≡ Shift (shift_at (x_in w.0)) (Immediate 1) tail.source (direction_at ((opmode_in w.0) / 4)) Word }
{
    let operation = shift_at(w.x());
    let count = Operand::Immediate(1);
    let direction = direction_at(w.opmode() / 4);
    Instruction::Shift(operation, count, tail.source, direction, Size::Word)
}

/// The bit-field instructions.
pub fn bit_field(w: OperationWord, tail: Tail) -> Instruction
    ensures { result ≡ bit_field_decoded (x_in w.0) (opmode_in w.0) tail.value tail.source }
{
    let operation = bit_field_of(w);
    let field = field_in(tail.value);
    Instruction::BF {
        operation,
        target: tail.source,
        field,
        register: (tail.value / 4096 % 8) as u8,
    }
}

/// A word of line A or F.
pub fn raw(operation: RawOperation, w: OperationWord) -> Instruction
    ensures { result ≡ Raw operation w.0 }
{
    Instruction::Raw(operation, w.0)
}
