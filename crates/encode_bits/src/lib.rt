// Bit manipulation, bit fields, and PACK and UNPK.
#![tactic(auto)]

ghost use Rattle.std.specs.Prelude.{◌≡◌, ◌<◌, Ok};
ghost use Rattle.encode_spec.specs.Item.{check};
ghost use Rattle.encode_spec.specs.Bits.{dynamic_parts, static_parts, bit_parts, value_number, value_bits, value_holds, larger, bit_field_verdict, bit_field_parts, pack_parts};
ghost use Rattle.encode_state.specs.Encoder.{step, run_parts};

use encode_state::{Encoder, Refusal};
use isa::{BitField, BitFieldOperation, Field, FieldValue, Operand, RegisterOperand, Size};
use isa_values::bit_field_operation;

// The bit number in a data register.
#[tactic(auto, unfolding(encode_spec::specs::Bits::dynamic_parts, encode_spec::specs::Ea::with_data, encode_spec::specs::Ea::permits))]
pub fn dynamic_bit(
    e: Encoder,
    kind: u16,
    register: RegisterOperand,
    target: Operand,
) -> Result<Encoder, Refusal>
    requires { kind < 4 }
    ensures { result ≡ run_parts (dynamic_parts kind register target) (Ok e) }
{
    if kind == 0 {
        encode_ea::with_data(
            e,
            0,
            register,
            4 + kind,
            target,
            Size::Byte,
            isa_operands::DATA,
            50,
        )
    } else {
        encode_ea::with_data(
            e,
            0,
            register,
            4 + kind,
            target,
            Size::Byte,
            isa_operands::DATA_ALTERABLE,
            51,
        )
    }
}

// The bit number in the word after the operation word.
#[tactic(auto, unfolding(encode_spec::specs::Bits::static_parts, encode_spec::specs::Ea::permits))]
pub fn static_bit(e: Encoder, kind: u16, number: u32, target: Operand) -> Result<Encoder, Refusal>
    requires { kind < 4 }
    ensures { result ≡ run_parts (static_parts kind number target) (Ok e) }
{
    let e = e.operation(0, 4, kind, isa_operands::ea_field(target));
    let e = e.fits(Field::BitNumber, number as i64)?;
    let e = e.word((number % 256) as u16);
    if kind == 0 {
        encode_ea::effective(e, target, Size::Byte, isa_operands::DATA_NOT_IMMEDIATE, 52)
    } else {
        encode_ea::effective(e, target, Size::Byte, isa_operands::DATA_ALTERABLE, 51)
    }
}

// BTST, BCHG, BCLR and BSET, by kind.
#[tactic(auto, unfolding(encode_spec::specs::Bits::bit_parts, encode_spec::specs::Bits::dynamic_parts, encode_spec::specs::Bits::static_parts, encode_spec::specs::Ea::with_data))]
pub fn bit(e: Encoder, kind: u16, number: Operand, target: Operand) -> Result<Encoder, Refusal>
    requires { kind < 4 }
    ensures { result ≡ run_parts (bit_parts kind number target) (Ok e) }
{
    if isa_operands::is_register(number) {
        dynamic_bit(e, kind, isa_operands::register_in(number), target)
    } else if isa_operands::is_immediate(number) {
        static_bit(e, kind, isa_operands::immediate_in(number), target)
    } else {
        Err(Refusal::NoEncoding(53))
    }
}

// The number of an offset or width: its value or its register's.
pub fn value_number(value: FieldValue) -> u8
    ensures { result ≡ value_number value }
{
    match value {
        FieldValue::Immediate(n) => n,
        FieldValue::Register(n) => n,
    }
}

// Its six bits: Do or Dw, and five.
pub fn value_bits(value: FieldValue) -> u16
    ensures { (result ≡ value_bits value) × (result < 64) }
{
    match value {
        FieldValue::Immediate(n) => (n % 32) as u16,
        FieldValue::Register(n) => 32 + (n % 8) as u16,
    }
}

// Whether those bits hold its number.
pub fn value_holds(value: FieldValue) -> bool
    ensures { result ≡ value_holds value }
{
    match value {
        FieldValue::Immediate(n) => n < 32,
        FieldValue::Register(n) => n < 8,
    }
}

pub fn larger(x: u8, y: u8) -> u8
    ensures { result ≡ larger x y }
{
    if x < y { y } else { x }
}

// Out of range where either is too large; the larger is reported.
pub fn in_range(e: Encoder, field: BitField) -> Result<Encoder, Refusal>
    ensures { result ≡ step e (check (bit_field_verdict field)) }
{
    let offset = field.offset;
    let width = field.width;
    let number = larger(value_number(offset), value_number(width));
    if value_holds(offset) & value_holds(width) {
        Ok(e)
    } else {
        Err(Refusal::OutOfRange(Field::BitField, number as i64))
    }
}

// The bit-field instructions.
#[tactic(auto, unfolding(encode_spec::specs::Bits::bit_field_parts, encode_spec::specs::Ea::permits))]
#[inline(never)]
pub fn bit_field(
    e: Encoder,
    operation: BitFieldOperation,
    target: &Operand,
    field: BitField,
    register: u8,
) -> Result<Encoder, Refusal>
    ensures { result ≡ run_parts (bit_field_parts operation target.now field register) (Ok e) }
{
    let code = bit_field_operation::code(operation);
    let offset = field.offset;
    let width = field.width;
    let e = e.operation(
        14,
        4 + code / 2,
        4 * (code % 2) + 3,
        isa_operands::ea_field(*target),
    );
    let e = in_range(e, field)?;
    let e = e.register(register)?;
    let number = (register % 8) as u16;
    let e = e.word(number * 4096 + value_bits(offset) * 64 + value_bits(width));
    if bit_field_operation::writes(operation) {
        encode_ea::effective(e, *target, Size::Byte, isa_operands::BIT_FIELD_WRITTEN, 32)
    } else {
        encode_ea::effective(e, *target, Size::Byte, isa_operands::BIT_FIELD_READ, 33)
    }
}

// PACK and UNPK, by opmode.
#[tactic(auto, unfolding(encode_spec::specs::Bits::pack_parts))]
pub fn pack(
    e: Encoder,
    opmode: u16,
    source: Operand,
    destination: Operand,
    adjustment: u16,
) -> Result<Encoder, Refusal>
    requires { opmode < 8 }
    ensures { result ≡ run_parts (pack_parts opmode source destination adjustment) (Ok e) }
{
    let low = 8 * isa_operands::memory_bit(source) + isa_operands::register_field(source);
    let e = e.operation(8, isa_operands::register_field(destination), opmode, low);
    let e = e.allow(isa_operands::paired(source, destination), 48)?;
    let e = e.word(adjustment);
    let e = e.register(isa_operands::register_number(destination))?;
    e.register(isa_operands::register_number(source))
}
