// Logical instructions, shifts and rotates.
#![tactic(auto)]

ghost use Rattle.std.specs.Prelude.{◌≡◌, ◌<◌, Ok};
ghost use Rattle.encode_spec.specs.Logic.{logical_parts, shift_kind, left_bit, count_bits, count_items, shift_register_parts, is_one, shift_memory_parts, shift_parts};
ghost use Rattle.encode_state.specs.Encoder.{run, run_parts};

use encode_state::{Encoder, Refusal};
use isa::{Field, Operand, RegisterOperand, ShiftDirection, ShiftOperation, Size};

// AND and OR: <ea>,Dn or Dn,<ea>.
#[tactic(auto, unfolding(encode_spec::specs::Logic::logical_parts, encode_spec::specs::Ea::with_data, encode_spec::specs::Ea::from_data))]
pub fn logical(
    e: Encoder,
    line: u16,
    source: Operand,
    destination: Operand,
    size: Size,
) -> Result<Encoder, Refusal>
    requires { line < 16 }
    ensures { result ≡ run_parts (logical_parts line source destination size) (Ok e) }
{
    if isa_operands::is_register(destination) {
        let register = isa_operands::register_in(destination);
        encode_ea::with_data(
            e,
            line,
            register,
            encode_state::standard_size(size),
            source,
            size,
            isa_operands::DATA,
            57,
        )
    } else {
        encode_ea::from_data(
            e,
            line,
            isa_operands::MEMORY_ALTERABLE,
            58,
            source,
            destination,
            size,
        )
    }
}

// The kind, two bits.
pub fn shift_kind(operation: ShiftOperation) -> u16
    ensures { (result ≡ shift_kind operation) × (result < 4) }
{
    match operation {
        ShiftOperation::ASd => 0,
        ShiftOperation::LSd => 1,
        ShiftOperation::ROXd => 2,
        ShiftOperation::ROd => 3,
    }
}

// The bit that says left.
pub fn left_bit(direction: ShiftDirection) -> u16
    ensures { (result ≡ left_bit direction) × (result < 2) }
{
    match direction {
        ShiftDirection::Right => 0,
        ShiftDirection::Left => 1,
    }
}

// The count in three bits: 1 to 8, 8 coded 0, or the number of a register.
pub fn count_bits(count: Operand) -> u16
    ensures { (result ≡ count_bits count) × (result < 8) }
{
    if isa_operands::is_register(count) {
        encode_state::register_bits(isa_operands::register_in(count))
    } else {
        (isa_operands::immediate_in(count) % 8) as u16
    }
}

// A count is a data register or 1 to 8.
pub fn shift_count(e: Encoder, count: Operand) -> Result<Encoder, Refusal>
    ensures { result ≡ run (count_items count) (Ok e) }
{
    if isa_operands::is_register(count) {
        e.data_register(isa_operands::register_in(count))
    } else if isa_operands::is_immediate(count) {
        e.fits(Field::Count, isa_operands::immediate_in(count) as i64)
    } else {
        Err(Refusal::NoEncoding(63))
    }
}

// A shift of a data register.
#[tactic(auto, unfolding(encode_spec::specs::Logic::shift_register_parts))]
pub fn shift_register(
    e: Encoder,
    operation: ShiftOperation,
    count: Operand,
    register: RegisterOperand,
    direction: ShiftDirection,
    size: Size,
) -> Result<Encoder, Refusal>
    ensures { result ≡ run_parts (shift_register_parts operation count register direction size) (Ok e) }
{
    let opmode = 4 * left_bit(direction) + encode_state::standard_size(size);
    let by_register = encode_state::bit(isa_operands::is_register(count));
    let low = 32 * by_register + 8 * shift_kind(operation) + encode_state::register_bits(register);
    let e = e.operation(14, count_bits(count), opmode, low);
    let e = e.data_register(register)?;
    shift_count(e, count)
}

// Whether a count is the immediate 1.
pub fn is_one(count: Operand) -> bool
    ensures { result ≡ is_one count }
{
    isa_operands::is_immediate(count) & (isa_operands::immediate_in(count) == 1)
}

// A shift in memory, of a word by one place.
#[tactic(auto, unfolding(encode_spec::specs::Logic::shift_memory_parts, encode_spec::specs::Ea::single))]
pub fn shift_memory(
    e: Encoder,
    operation: ShiftOperation,
    count: Operand,
    target: Operand,
    direction: ShiftDirection,
    size: Size,
) -> Result<Encoder, Refusal>
    ensures { result ≡ run_parts (shift_memory_parts operation count target direction size) (Ok e) }
{
    let e = e.allow(is_one(count) & encode_state::is_word(size), 64)?;
    let opmode = 4 * left_bit(direction) + 3;
    encode_ea::single(
        e,
        14,
        shift_kind(operation),
        opmode,
        target,
        Size::Word,
        isa_operands::MEMORY_ALTERABLE,
        65,
    )
}

// A shift or rotate.
#[tactic(auto, unfolding(encode_spec::specs::Logic::shift_parts, encode_spec::specs::Logic::shift_register_parts, encode_spec::specs::Logic::shift_memory_parts, encode_spec::specs::Ea::single))]
#[inline(never)]
pub fn shift(
    e: Encoder,
    operation: ShiftOperation,
    count: &Operand,
    target: &Operand,
    direction: ShiftDirection,
    size: Size,
) -> Result<Encoder, Refusal>
    ensures { result ≡ run_parts (shift_parts operation count.now target.now direction size) (Ok e) }
{
    if isa_operands::is_register(*target) {
        shift_register(
            e,
            operation,
            *count,
            isa_operands::register_in(*target),
            direction,
            size,
        )
    } else {
        shift_memory(e, operation, *count, *target, direction, size)
    }
}
