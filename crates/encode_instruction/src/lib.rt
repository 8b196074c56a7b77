// From an instruction to its shape.
#![tactic(auto)]

ghost use Rattle.std.specs.Prelude.{◌≡◌, Ok};
ghost use Rattle.encode_spec.specs.Instruction.{parts_of};
ghost use Rattle.encode_state.specs.Encoder.{run, run_parts};
ghost use Rattle.encode_instruction.specs.Typed.{typed_items, parts_after};

use encode_state::{Encoder, Refusal};
use isa::Instruction;

// Refusal 1 of the operands, which stands before everything else. By `?` in each arm of `shape_words` every call began by
// clearing what each `?` leaves: 125 instructions.
fn typed(e: Encoder, i: &Instruction) -> Result<Encoder, Refusal>
    ensures { result ≡ run (typed_items i.now) (Ok e) }
{
    match i {
        Instruction::IntoRegister(_, o, _, _) => encode_ea::typed(e, *o),
        Instruction::MOVEM { target, .. } => encode_ea::typed(e, *target),
        Instruction::Transfer { target, .. } => encode_ea::typed(e, *target),
        Instruction::Pair(_, o, d, _) => encode_operations::typed_two(e, *o, *d),
        Instruction::Quick(_, _, o, _) => encode_ea::typed(e, *o),
        Instruction::ImmediateInto(_, _, o, _) => encode_ea::typed(e, *o),
        Instruction::WordIntoData(_, o, _, _) => encode_ea::typed(e, *o),
        Instruction::UnsizedIntoRegister(_, o, _) => encode_ea::typed(e, *o),
        Instruction::UnsizedOne(_, o) => encode_ea::typed(e, *o),
        Instruction::UnsizedPair(_, o, d) => encode_operations::typed_two(e, *o, *d),
        Instruction::OneOperand(_, o, _) => encode_ea::typed(e, *o),
        Instruction::Scc(o, _) => encode_ea::typed(e, *o),
        Instruction::Shift(_, count, o, _, _) => encode_operations::typed_two(e, *count, *o),
        Instruction::MULL { source, .. } => encode_ea::typed(e, *source),
        Instruction::Pack(_, o, d, _) => encode_operations::typed_two(e, *o, *d),
        Instruction::CAS { target, .. } => encode_ea::typed(e, *target),
        Instruction::BF { target, .. } => encode_ea::typed(e, *target),
        Instruction::DIVL { source, .. } => encode_ea::typed(e, *source),
        Instruction::MOVEQ(_, _)
        | Instruction::SWAP(_)
        | Instruction::EXG(_, _)
        | Instruction::EXT(_, _, _)
        | Instruction::Bcc(_, _, _)
        | Instruction::DBcc(_, _, _)
        | Instruction::Branch(_, _, _)
        | Instruction::Link(_, _, _)
        | Instruction::UNLK(_)
        | Instruction::Vector(_, _)
        | Instruction::Status(_, _)
        | Instruction::ConditionCode(_, _)
        | Instruction::MOVEUSP { .. }
        | Instruction::Raw(_, _)
        | Instruction::NoOperand(_)
        | Instruction::RTD(_)
        | Instruction::MOVEC { .. }
        | Instruction::TRAPcc(_, _)
        | Instruction::CAS2 { .. } => Ok(e),
    }
}

// What stands behind it: an instruction's shape, handed to its group. A group with `?` is not inlined, since what its `?` leave
// would be cleared here; operands are lent to it, since a copy for each arm would be too.
fn shape_words(e: Encoder, i: &Instruction) -> Result<Encoder, Refusal>
    ensures { result ≡ run_parts (parts_after i.now) (Ok e) }
{
    match i {
        Instruction::IntoRegister(op, o, r, s) => encode_operations::into_register(
            e, *op, o, *r, *s,
        ),
        Instruction::MOVEM {
            direction,
            size,
            registers_mask,
            target,
        } => { encode_movement::movem(e, *direction, *size, *registers_mask, target) }
        Instruction::Transfer {
            operation,
            direction,
            size,
            register,
            target,
        } => { encode_operations::transfer(e, *operation, *direction, *size, *register, target) }
        Instruction::Pair(op, o, d, s) => encode_operations::pair(e, *op, o, d, *s),
        Instruction::Quick(op, n, o, s) => encode_arithmetic::quick(e, *op, *n, o, *s),
        Instruction::MOVEQ(v, r) => encode_movement::moveq(e, *v, *r),
        Instruction::ImmediateInto(op, v, o, s) => encode_arithmetic::immediate_into(
            e, *op, *v, o, *s,
        ),
        Instruction::WordIntoData(op, o, r, sign) => encode_operations::word_into_data(
            e, *op, o, *r, *sign,
        ),
        Instruction::SWAP(r) => encode_arithmetic::swap(e, *r),
        Instruction::EXG(x, y) => encode_movement::exg(e, *x, *y),
        Instruction::UnsizedIntoRegister(op, o, r) => encode_operations::unsized_into_register(
            e, *op, o, *r,
        ),
        Instruction::UnsizedOne(op, o) => encode_operations::unsized_one(e, *op, o),
        Instruction::UnsizedPair(op, o, d) => encode_operations::unsized_pair(e, *op, o, d),
        Instruction::EXT(r, from, to) => encode_arithmetic::ext(e, *r, *from, *to),
        Instruction::OneOperand(op, o, s) => encode_operations::one_operand(e, *op, o, *s),
        Instruction::Bcc(t, condition, s) => encode_control::bcc(e, *t, *condition, *s),
        Instruction::Scc(o, condition) => encode_control::scc(e, o, *condition),
        Instruction::DBcc(r, t, condition) => encode_control::dbcc(e, *r, *t, *condition),
        Instruction::Branch(op, t, s) => encode_operations::branches(e, *op, *t, *s),
        Instruction::Link(op, r, d) => encode_operations::links(e, *op, *r, *d),
        Instruction::UNLK(r) => encode_movement::unlk(e, *r),
        Instruction::Shift(op, count, o, direction, s) => encode_logic::shift(
            e, *op, count, o, *direction, *s,
        ),
        Instruction::Vector(op, v) => encode_system::vector(e, *op, *v),
        Instruction::Status(op, v) => encode_system::status(e, *op, *v),
        Instruction::ConditionCode(op, v) => encode_system::condition_code(e, *op, *v),
        Instruction::MOVEUSP { to_usp, register } => encode_system::moveusp(e, *to_usp, *register),
        Instruction::Raw(op, w) => encode_system::raw(e, *op, *w),
        Instruction::NoOperand(op) => encode_system::no_operand(e, *op),
        Instruction::RTD(d) => encode_control::rtd(e, *d),
        Instruction::MOVEC {
            to_control,
            control,
            register,
        } => encode_system::movec(e, *to_control, *control, *register),
        Instruction::TRAPcc(condition, x) => encode_control::trapcc(e, *condition, *x),
        Instruction::MULL {
            source,
            low,
            high,
            sign,
        } => encode_arithmetic::mull(e, source, *low, *high, *sign),
        Instruction::Pack(op, o, d, adjustment) => encode_operations::packs(
            e,
            *op,
            o,
            d,
            *adjustment,
        ),
        Instruction::CAS {
            compare,
            update,
            target,
            size,
        } => encode_system::cas(e, *compare, *update, target, *size),
        Instruction::CAS2 {
            compare1,
            compare2,
            update1,
            update2,
            pointer1,
            pointer2,
            size,
        } => {
            encode_system::cas2(
                e, *compare1, *compare2, *update1, *update2, *pointer1, *pointer2, *size,
            )
        }
        Instruction::BF {
            operation,
            target,
            field,
            register,
        } => { encode_bits::bit_field(e, *operation, target, *field, *register) }
        Instruction::DIVL {
            source,
            quotient,
            remainder,
            wide,
            sign,
        } => { encode_arithmetic::divl(e, source, *quotient, *remainder, *wide, *sign) }
    }
}

// The words and checks of an instruction, in order.
#[tactic(auto, using(crate::specs::Typed::passed))]
pub fn instruction_words(e: Encoder, i: Instruction) -> Result<Encoder, Refusal>
    ensures { result ≡ run_parts (parts_of i) (Ok e) }
{
    shape_words(typed(e, &i)?, &i)
}
