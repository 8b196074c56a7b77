// Branches, conditions, and returns.
#![tactic(auto)]

ghost use Rattle.std.specs.Prelude.{◌≡◌, ◌<◌, [], ◌∷◌, Ok};
ghost use Rattle.encode_spec.specs.Control.{relative_word, relative_long, condition_operation, short_branch, branch_parts, bcc_parts, dbcc_parts, scc_parts, trap_opmode, trap_items, trapcc_parts, rtd_parts};
ghost use Rattle.encode_spec.specs.Item.{fixed};
ghost use Rattle.isa.specs.declared.Field.TheVariants as field;
ghost use Rattle.encode_state.specs.Encoder.{step, run, run_parts, next_address};

use encode_state::{Encoder, Refusal};
use isa::{BranchSize, Condition, Field, Operand, RegisterOperand, Size, TrapOperand};

// An operation word with a condition in bits 11 to 8.
fn condition_operation(
    e: Encoder,
    line: u16,
    condition: Condition,
    x: u16,
    ea: u16,
) -> Result<Encoder, Refusal>
    requires { (line < 16) × (x < 4) × (ea < 64) }
    ensures { result ≡ step e (condition_operation line condition x ea) }
{
    let code = isa_values::condition::code(condition);
    Ok(e.operation(line, code / 2, 4 * (code % 2) + x, ea))
}

// The distance in the operation word's low byte.
fn short_branch(e: Encoder, condition: Condition, target: u32) -> Result<Encoder, Refusal>
    ensures { result ≡ run (short_branch condition target (next_address e)) (Ok e) }
{
    let after = std::num::wrapping_add_u32(e.next(), 2);
    let distance = base_signed::to_signed(base_signed::minus(target, after));
    let e = e.fits(Field::ShortBranch, distance)?;
    let byte = base_signed::low8(distance);
    condition_operation(e, 6, condition, byte / 64, byte % 64)
}

// The byte $00, and the distance in a word.
fn word_branch(e: Encoder, condition: Condition, target: u32) -> Result<Encoder, Refusal>
    ensures { result ≡ run_parts (fixed (condition_operation 6 condition 0 0 ∷ []) ∷ relative_word field.WordBranch target ∷ []) (Ok e) }
{
    let e = condition_operation(e, 6, condition, 0, 0)?;
    encode_ea::displacement_to(e, target, Field::WordBranch)
}

// The byte $FF, and the distance in a long.
fn long_branch(e: Encoder, condition: Condition, target: u32) -> Result<Encoder, Refusal>
    ensures { result ≡ run_parts (fixed (condition_operation 6 condition 3 63 ∷ []) ∷ relative_long target ∷ []) (Ok e) }
{
    let e = condition_operation(e, 6, condition, 3, 63)?;
    Ok(e.long(base_signed::minus(target, e.next())))
}

// BRA on True, BSR on False, or a Bcc.
#[tactic(auto, unfolding(encode_spec::specs::Control::branch_parts))]
pub fn branch(
    e: Encoder,
    condition: Condition,
    target: u32,
    size: BranchSize,
) -> Result<Encoder, Refusal>
    ensures { result ≡ run_parts (branch_parts condition target size) (Ok e) }
{
    match size {
        BranchSize::Short => short_branch(e, condition, target),
        BranchSize::Word => word_branch(e, condition, target),
        BranchSize::Long => long_branch(e, condition, target),
    }
}

// Bcc.
#[tactic(auto, unfolding(encode_spec::specs::Control::bcc_parts, encode_spec::specs::Control::branch_parts))]
#[inline(never)]
pub fn bcc(
    e: Encoder,
    target: u32,
    condition: Condition,
    size: BranchSize,
) -> Result<Encoder, Refusal>
    ensures { result ≡ run_parts (bcc_parts target condition size) (Ok e) }
{
    let code = isa_values::condition::code(condition);
    let e = e.allow(2 <= code, 36)?;
    branch(e, condition, target, size)
}

// DBcc.
#[tactic(auto, unfolding(encode_spec::specs::Control::dbcc_parts))]
#[inline(never)]
pub fn dbcc(
    e: Encoder,
    register: RegisterOperand,
    target: u32,
    condition: Condition,
) -> Result<Encoder, Refusal>
    ensures { result ≡ run_parts (dbcc_parts register target condition) (Ok e) }
{
    let e = condition_operation(
        e,
        5,
        condition,
        3,
        8 + encode_state::register_bits(register),
    )?;
    let e = e.data_register(register)?;
    encode_ea::displacement_to(e, target, Field::WordBranch)
}

// Scc.
#[tactic(auto, unfolding(encode_spec::specs::Control::scc_parts, encode_spec::specs::Ea::single))]
#[inline(never)]
pub fn scc(e: Encoder, target: &Operand, condition: Condition) -> Result<Encoder, Refusal>
    ensures { result ≡ run_parts (scc_parts target.now condition) (Ok e) }
{
    let code = isa_values::condition::code(condition);
    encode_ea::single(
        e,
        5,
        code / 2,
        4 * (code % 2) + 3,
        *target,
        Size::Byte,
        isa_operands::DATA_ALTERABLE,
        35,
    )
}

// The opmode of TRAPcc.
fn trap_opmode(operand: TrapOperand) -> u16
    ensures { (result ≡ trap_opmode operand) × (result < 8) }
{
    match operand {
        TrapOperand::None => 4,
        TrapOperand::Word(_) => 2,
        TrapOperand::Long(_) => 3,
    }
}

// The words of its operand.
fn trap_words(e: Encoder, operand: TrapOperand) -> Result<Encoder, Refusal>
    ensures { result ≡ run (trap_items operand) (Ok e) }
{
    match operand {
        TrapOperand::None => Ok(e),
        TrapOperand::Word(v) => Ok(e.word(v)),
        TrapOperand::Long(v) => Ok(e.long(v)),
    }
}

// TRAPcc.
#[tactic(auto, unfolding(encode_spec::specs::Control::trapcc_parts))]
#[inline(never)]
pub fn trapcc(e: Encoder, condition: Condition, operand: TrapOperand) -> Result<Encoder, Refusal>
    ensures { result ≡ run_parts (trapcc_parts condition operand) (Ok e) }
{
    let e = condition_operation(e, 5, condition, 3, 56 + trap_opmode(operand))?;
    trap_words(e, operand)
}

// RTD.
#[tactic(auto, unfolding(encode_spec::specs::Control::rtd_parts))]
#[inline(never)]
pub fn rtd(e: Encoder, displacement: u32) -> Result<Encoder, Refusal>
    ensures { result ≡ run_parts (rtd_parts displacement) (Ok e) }
{
    let e = e.operation(4, 7, 1, 52);
    encode_ea::word_displacement(
        e,
        Field::RtdDisplacement,
        base_signed::to_signed(displacement),
    )
}
