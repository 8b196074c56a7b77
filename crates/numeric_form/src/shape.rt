//! The instructions of each shape, taken from numbers.
#![tactic(auto)]

ghost use Rattle.std.specs.Prelude.{◌≡◌};
ghost use Rattle.numeric_spec.specs.Shape.{into_register, movem, transfer, pair, quick, moveq, immediate_into, word_into_data, swap, exg, unsized_into_register, unsized_one, unsized_pair, ext, one_operand, bcc, scc, dbcc, branch, link, unlk, shift, vector, status, condition_code, moveusp, raw, no_operand, rtd, movec, trapcc, mull, pack, cas, cas2, bf, divl};
ghost use Rattle.numeric_spec.specs.Build.{take_shape};
ghost use Rattle.numeric_form.specs.Numbers.{numbers_in, said};

use crate::lent::LentForm;
use base_spec::Literal;
use isa::{
    BitField, BitFieldOperation, BranchOperation, BranchSize, Condition, ConditionCodeOperation,
    ImmediateOperation, Instruction, LinkOperation, NoOperandOperation, OneOperation, Operand,
    PackOperation, PairOperation, QuickOperation, RawOperation, RegisterOperand, RegisterOperation,
    ShiftDirection, ShiftOperation, Sign, Size, StatusOperation, TargetDirection,
    TransferOperation, TrapOperand, UnsizedOneOperation, UnsizedPairOperation,
    UnsizedRegisterOperation, VectorOperation, WordOperation,
};

pub fn into_register(
    operation: RegisterOperation,
    numbers: &[Literal],
) -> Option<(Instruction, &[Literal])>
    ensures { said (λ rest. numbers_in rest.now) result ≡ take_shape (into_register operation) (numbers_in numbers.now) }
{
    let (source, rest) = Operand::take(numbers)?;
    let (register, rest) = RegisterOperand::take(rest)?;
    let (size, rest) = Size::take(rest)?;
    Some((
        Instruction::IntoRegister(operation, source, register, size),
        rest,
    ))
}

pub fn movem(numbers: &[Literal]) -> Option<(Instruction, &[Literal])>
    ensures { said (λ rest. numbers_in rest.now) result ≡ take_shape movem (numbers_in numbers.now) }
{
    let (direction, rest) = TargetDirection::take(numbers)?;
    let (size, rest) = Size::take(rest)?;
    let ((registers_mask, target), rest) = <(u16, Operand)>::take(rest)?;
    Some((
        Instruction::MOVEM {
            direction,
            size,
            registers_mask,
            target,
        },
        rest,
    ))
}

pub fn transfer(
    operation: TransferOperation,
    numbers: &[Literal],
) -> Option<(Instruction, &[Literal])>
    ensures { said (λ rest. numbers_in rest.now) result ≡ take_shape (transfer operation) (numbers_in numbers.now) }
{
    let (direction, rest) = TargetDirection::take(numbers)?;
    let (size, rest) = Size::take(rest)?;
    let (register, rest) = RegisterOperand::take(rest)?;
    let (target, rest) = Operand::take(rest)?;
    Some((
        Instruction::Transfer {
            operation,
            direction,
            size,
            register,
            target,
        },
        rest,
    ))
}

pub fn pair(operation: PairOperation, numbers: &[Literal]) -> Option<(Instruction, &[Literal])>
    ensures { said (λ rest. numbers_in rest.now) result ≡ take_shape (pair operation) (numbers_in numbers.now) }
{
    let (source, rest) = Operand::take(numbers)?;
    let (destination, rest) = Operand::take(rest)?;
    let (size, rest) = Size::take(rest)?;
    Some((
        Instruction::Pair(operation, source, destination, size),
        rest,
    ))
}

pub fn quick(operation: QuickOperation, numbers: &[Literal]) -> Option<(Instruction, &[Literal])>
    ensures { said (λ rest. numbers_in rest.now) result ≡ take_shape (quick operation) (numbers_in numbers.now) }
{
    let (value, rest) = u8::take(numbers)?;
    let (target, rest) = Operand::take(rest)?;
    let (size, rest) = Size::take(rest)?;
    Some((Instruction::Quick(operation, value, target, size), rest))
}

pub fn moveq(numbers: &[Literal]) -> Option<(Instruction, &[Literal])>
    ensures { said (λ rest. numbers_in rest.now) result ≡ take_shape moveq (numbers_in numbers.now) }
{
    let (value, rest) = u8::take(numbers)?;
    let (register, rest) = RegisterOperand::take(rest)?;
    Some((Instruction::MOVEQ(value, register), rest))
}

pub fn immediate_into(
    operation: ImmediateOperation,
    numbers: &[Literal],
) -> Option<(Instruction, &[Literal])>
    ensures { said (λ rest. numbers_in rest.now) result ≡ take_shape (immediate_into operation) (numbers_in numbers.now) }
{
    let (value, rest) = u32::take(numbers)?;
    let (target, rest) = Operand::take(rest)?;
    let (size, rest) = Size::take(rest)?;
    Some((
        Instruction::ImmediateInto(operation, value, target, size),
        rest,
    ))
}

pub fn word_into_data(
    operation: WordOperation,
    numbers: &[Literal],
) -> Option<(Instruction, &[Literal])>
    ensures { said (λ rest. numbers_in rest.now) result ≡ take_shape (word_into_data operation) (numbers_in numbers.now) }
{
    let (source, rest) = Operand::take(numbers)?;
    let (register, rest) = RegisterOperand::take(rest)?;
    let (sign, rest) = Sign::take(rest)?;
    Some((
        Instruction::WordIntoData(operation, source, register, sign),
        rest,
    ))
}

pub fn swap(numbers: &[Literal]) -> Option<(Instruction, &[Literal])>
    ensures { said (λ rest. numbers_in rest.now) result ≡ take_shape swap (numbers_in numbers.now) }
{
    let (register, rest) = RegisterOperand::take(numbers)?;
    Some((Instruction::SWAP(register), rest))
}

pub fn exg(numbers: &[Literal]) -> Option<(Instruction, &[Literal])>
    ensures { said (λ rest. numbers_in rest.now) result ≡ take_shape exg (numbers_in numbers.now) }
{
    let (first, rest) = RegisterOperand::take(numbers)?;
    let (second, rest) = RegisterOperand::take(rest)?;
    Some((Instruction::EXG(first, second), rest))
}

pub fn unsized_into_register(
    operation: UnsizedRegisterOperation,
    numbers: &[Literal],
) -> Option<(Instruction, &[Literal])>
    ensures { said (λ rest. numbers_in rest.now) result ≡ take_shape (unsized_into_register operation) (numbers_in numbers.now) }
{
    let (source, rest) = Operand::take(numbers)?;
    let (register, rest) = RegisterOperand::take(rest)?;
    Some((
        Instruction::UnsizedIntoRegister(operation, source, register),
        rest,
    ))
}

pub fn unsized_one(
    operation: UnsizedOneOperation,
    numbers: &[Literal],
) -> Option<(Instruction, &[Literal])>
    ensures { said (λ rest. numbers_in rest.now) result ≡ take_shape (unsized_one operation) (numbers_in numbers.now) }
{
    let (target, rest) = Operand::take(numbers)?;
    Some((Instruction::UnsizedOne(operation, target), rest))
}

pub fn unsized_pair(
    operation: UnsizedPairOperation,
    numbers: &[Literal],
) -> Option<(Instruction, &[Literal])>
    ensures { said (λ rest. numbers_in rest.now) result ≡ take_shape (unsized_pair operation) (numbers_in numbers.now) }
{
    let (source, rest) = Operand::take(numbers)?;
    let (destination, rest) = Operand::take(rest)?;
    Some((
        Instruction::UnsizedPair(operation, source, destination),
        rest,
    ))
}

pub fn ext(numbers: &[Literal]) -> Option<(Instruction, &[Literal])>
    ensures { said (λ rest. numbers_in rest.now) result ≡ take_shape ext (numbers_in numbers.now) }
{
    let (register, rest) = RegisterOperand::take(numbers)?;
    let (from, rest) = Size::take(rest)?;
    let (to, rest) = Size::take(rest)?;
    Some((Instruction::EXT(register, from, to), rest))
}

pub fn one_operand(
    operation: OneOperation,
    numbers: &[Literal],
) -> Option<(Instruction, &[Literal])>
    ensures { said (λ rest. numbers_in rest.now) result ≡ take_shape (one_operand operation) (numbers_in numbers.now) }
{
    let (target, rest) = Operand::take(numbers)?;
    let (size, rest) = Size::take(rest)?;
    Some((Instruction::OneOperand(operation, target, size), rest))
}

pub fn bcc(numbers: &[Literal]) -> Option<(Instruction, &[Literal])>
    ensures { said (λ rest. numbers_in rest.now) result ≡ take_shape bcc (numbers_in numbers.now) }
{
    let (target, rest) = u32::take(numbers)?;
    let (condition, rest) = Condition::take(rest)?;
    let (size, rest) = BranchSize::take(rest)?;
    Some((Instruction::Bcc(target, condition, size), rest))
}

pub fn scc(numbers: &[Literal]) -> Option<(Instruction, &[Literal])>
    ensures { said (λ rest. numbers_in rest.now) result ≡ take_shape scc (numbers_in numbers.now) }
{
    let (target, rest) = Operand::take(numbers)?;
    let (condition, rest) = Condition::take(rest)?;
    Some((Instruction::Scc(target, condition), rest))
}

pub fn dbcc(numbers: &[Literal]) -> Option<(Instruction, &[Literal])>
    ensures { said (λ rest. numbers_in rest.now) result ≡ take_shape dbcc (numbers_in numbers.now) }
{
    let (register, rest) = RegisterOperand::take(numbers)?;
    let (target, rest) = u32::take(rest)?;
    let (condition, rest) = Condition::take(rest)?;
    Some((Instruction::DBcc(register, target, condition), rest))
}

pub fn branch(operation: BranchOperation, numbers: &[Literal]) -> Option<(Instruction, &[Literal])>
    ensures { said (λ rest. numbers_in rest.now) result ≡ take_shape (branch operation) (numbers_in numbers.now) }
{
    let (target, rest) = u32::take(numbers)?;
    let (size, rest) = BranchSize::take(rest)?;
    Some((Instruction::Branch(operation, target, size), rest))
}

pub fn link(operation: LinkOperation, numbers: &[Literal]) -> Option<(Instruction, &[Literal])>
    ensures { said (λ rest. numbers_in rest.now) result ≡ take_shape (link operation) (numbers_in numbers.now) }
{
    let (register, rest) = RegisterOperand::take(numbers)?;
    let (displacement, rest) = u32::take(rest)?;
    Some((Instruction::Link(operation, register, displacement), rest))
}

pub fn unlk(numbers: &[Literal]) -> Option<(Instruction, &[Literal])>
    ensures { said (λ rest. numbers_in rest.now) result ≡ take_shape unlk (numbers_in numbers.now) }
{
    let (register, rest) = RegisterOperand::take(numbers)?;
    Some((Instruction::UNLK(register), rest))
}

pub fn shift(operation: ShiftOperation, numbers: &[Literal]) -> Option<(Instruction, &[Literal])>
    ensures { said (λ rest. numbers_in rest.now) result ≡ take_shape (shift operation) (numbers_in numbers.now) }
{
    let (count, rest) = Operand::take(numbers)?;
    let (target, rest) = Operand::take(rest)?;
    let (direction, rest) = ShiftDirection::take(rest)?;
    let (size, rest) = Size::take(rest)?;
    Some((
        Instruction::Shift(operation, count, target, direction, size),
        rest,
    ))
}

pub fn vector(operation: VectorOperation, numbers: &[Literal]) -> Option<(Instruction, &[Literal])>
    ensures { said (λ rest. numbers_in rest.now) result ≡ take_shape (vector operation) (numbers_in numbers.now) }
{
    let (vector, rest) = u8::take(numbers)?;
    Some((Instruction::Vector(operation, vector), rest))
}

pub fn status(operation: StatusOperation, numbers: &[Literal]) -> Option<(Instruction, &[Literal])>
    ensures { said (λ rest. numbers_in rest.now) result ≡ take_shape (status operation) (numbers_in numbers.now) }
{
    let (value, rest) = u16::take(numbers)?;
    Some((Instruction::Status(operation, value), rest))
}

pub fn condition_code(
    operation: ConditionCodeOperation,
    numbers: &[Literal],
) -> Option<(Instruction, &[Literal])>
    ensures { said (λ rest. numbers_in rest.now) result ≡ take_shape (condition_code operation) (numbers_in numbers.now) }
{
    let (value, rest) = u8::take(numbers)?;
    Some((Instruction::ConditionCode(operation, value), rest))
}

pub fn moveusp(numbers: &[Literal]) -> Option<(Instruction, &[Literal])>
    ensures { said (λ rest. numbers_in rest.now) result ≡ take_shape moveusp (numbers_in numbers.now) }
{
    let (to_usp, rest) = bool::take(numbers)?;
    let (register, rest) = RegisterOperand::take(rest)?;
    Some((Instruction::MOVEUSP { to_usp, register }, rest))
}

pub fn raw(operation: RawOperation, numbers: &[Literal]) -> Option<(Instruction, &[Literal])>
    ensures { said (λ rest. numbers_in rest.now) result ≡ take_shape (raw operation) (numbers_in numbers.now) }
{
    let (word, rest) = u16::take(numbers)?;
    Some((Instruction::Raw(operation, word), rest))
}

pub fn no_operand(
    operation: NoOperandOperation,
    numbers: &[Literal],
) -> Option<(Instruction, &[Literal])>
    ensures { said (λ rest. numbers_in rest.now) result ≡ take_shape (no_operand operation) (numbers_in numbers.now) }
{
    Some((Instruction::NoOperand(operation), numbers))
}

pub fn rtd(numbers: &[Literal]) -> Option<(Instruction, &[Literal])>
    ensures { said (λ rest. numbers_in rest.now) result ≡ take_shape rtd (numbers_in numbers.now) }
{
    let (displacement, rest) = u32::take(numbers)?;
    Some((Instruction::RTD(displacement), rest))
}

pub fn movec(numbers: &[Literal]) -> Option<(Instruction, &[Literal])>
    ensures { said (λ rest. numbers_in rest.now) result ≡ take_shape movec (numbers_in numbers.now) }
{
    let (to_control, rest) = bool::take(numbers)?;
    let (control, rest) = u16::take(rest)?;
    let (register, rest) = RegisterOperand::take(rest)?;
    Some((
        Instruction::MOVEC {
            to_control,
            control,
            register,
        },
        rest,
    ))
}

pub fn trapcc(numbers: &[Literal]) -> Option<(Instruction, &[Literal])>
    ensures { said (λ rest. numbers_in rest.now) result ≡ take_shape trapcc (numbers_in numbers.now) }
{
    let (condition, rest) = Condition::take(numbers)?;
    let (operand, rest) = TrapOperand::take(rest)?;
    Some((Instruction::TRAPcc(condition, operand), rest))
}

pub fn mull(numbers: &[Literal]) -> Option<(Instruction, &[Literal])>
    ensures { said (λ rest. numbers_in rest.now) result ≡ take_shape mull (numbers_in numbers.now) }
{
    let (source, rest) = Operand::take(numbers)?;
    let (low, rest) = u8::take(rest)?;
    let (high, rest) = <Option<u8> as LentForm>::take(rest)?;
    let (sign, rest) = Sign::take(rest)?;
    Some((
        Instruction::MULL {
            source,
            low,
            high,
            sign,
        },
        rest,
    ))
}

pub fn pack(operation: PackOperation, numbers: &[Literal]) -> Option<(Instruction, &[Literal])>
    ensures { said (λ rest. numbers_in rest.now) result ≡ take_shape (pack operation) (numbers_in numbers.now) }
{
    let (source, rest) = Operand::take(numbers)?;
    let (destination, rest) = Operand::take(rest)?;
    let (adjustment, rest) = u16::take(rest)?;
    Some((
        Instruction::Pack(operation, source, destination, adjustment),
        rest,
    ))
}

pub fn cas(numbers: &[Literal]) -> Option<(Instruction, &[Literal])>
    ensures { said (λ rest. numbers_in rest.now) result ≡ take_shape cas (numbers_in numbers.now) }
{
    let (compare, rest) = u8::take(numbers)?;
    let (update, rest) = u8::take(rest)?;
    let (target, rest) = Operand::take(rest)?;
    let (size, rest) = Size::take(rest)?;
    Some((
        Instruction::CAS {
            compare,
            update,
            target,
            size,
        },
        rest,
    ))
}

pub fn cas2(numbers: &[Literal]) -> Option<(Instruction, &[Literal])>
    ensures { said (λ rest. numbers_in rest.now) result ≡ take_shape cas2 (numbers_in numbers.now) }
{
    let (compare1, rest) = u8::take(numbers)?;
    let (compare2, rest) = u8::take(rest)?;
    let (update1, rest) = u8::take(rest)?;
    let (update2, rest) = u8::take(rest)?;
    let (pointer1, rest) = RegisterOperand::take(rest)?;
    let (pointer2, rest) = RegisterOperand::take(rest)?;
    let (size, rest) = Size::take(rest)?;
    Some((
        Instruction::CAS2 {
            compare1,
            compare2,
            update1,
            update2,
            pointer1,
            pointer2,
            size,
        },
        rest,
    ))
}

pub fn bf(numbers: &[Literal]) -> Option<(Instruction, &[Literal])>
    ensures { said (λ rest. numbers_in rest.now) result ≡ take_shape bf (numbers_in numbers.now) }
{
    let (operation, rest) = BitFieldOperation::take(numbers)?;
    let (target, rest) = Operand::take(rest)?;
    let (field, rest) = BitField::take(rest)?;
    let (register, rest) = u8::take(rest)?;
    Some((
        Instruction::BF {
            operation,
            target,
            field,
            register,
        },
        rest,
    ))
}

pub fn divl(numbers: &[Literal]) -> Option<(Instruction, &[Literal])>
    ensures { said (λ rest. numbers_in rest.now) result ≡ take_shape divl (numbers_in numbers.now) }
{
    let (source, rest) = Operand::take(numbers)?;
    let (quotient, rest) = u8::take(rest)?;
    let (remainder, rest) = u8::take(rest)?;
    let (wide, rest) = bool::take(rest)?;
    let (sign, rest) = Sign::take(rest)?;
    Some((
        Instruction::DIVL {
            source,
            quotient,
            remainder,
            wide,
            sign,
        },
        rest,
    ))
}
