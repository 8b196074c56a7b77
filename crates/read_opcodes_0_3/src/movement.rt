// Lines 1 to 3: MOVE and MOVEA.
ghost use Rattle.std.specs.Prelude.{◌≡◌};
ghost use Rattle.read_spec.specs.Decoded.{move_decoded};
ghost use Rattle.read_values.specs.OperationWord.{line_in, x_in, opmode_in};

use isa::{Instruction, Operand, PairOperation, RegisterOperand, RegisterOperation};
use read_spec::Tail;
use read_values::operation::move_size;
use read_values::operation_word::OperationWord;

pub fn move_data(w: OperationWord, tail: Tail) -> Instruction
    ensures { result ≡ move_decoded (line_in w.0) (x_in w.0) (opmode_in w.0) tail.source tail.destination }
{
    let size = move_size(w.line());
    if w.opmode() == 1 {
        let register = RegisterOperand::Address(w.x());
        return Instruction::IntoRegister(RegisterOperation::MOVEA, tail.source, register, size);
    }
    Instruction::Pair(PairOperation::MOVE, tail.source, tail.destination, size)
}
