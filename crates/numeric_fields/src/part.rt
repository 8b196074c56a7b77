// Enums and registers: a variant's place, then its fields.
ghost use Rattle.std.specs.Prelude.{◌≡◌};
ghost use Rattle.numeric_fields.specs.Number.{numbers_in};
ghost use Rattle.numeric_spec.specs.Value.{size_by_place, address_width_by_place, register_by_place, field_value_by_place};
ghost use Rattle.numeric_fields.specs.Part.{size_at, address_width_at, register_at, index_at, field_value_at, bit_field_at, trap_operand_of, trap_operand_at, register_choice_of, register_choice_at};

use crate::number::{byte_at, long_at, unsigned_at, word_at};
use crate::{
    AddressWidthAt, BitFieldAt, FieldValueAt, IndexAt, RegisterAt, RegisterChoiceAt, SizeAt,
    TrapOperandAt,
};
use isa::{AddressWidth, BitField, FieldValue, IndexRegister, RegisterOperand, Size, TrapOperand};

fn size_of(place: u64) -> Size
    ensures { result ≡ size_by_place place }
{
    match place {
        0 => Size::Byte,
        1 => Size::Word,
        2 => Size::Long,
        _ => Size::Byte,
    }
}

pub fn size_at(count: usize, negative: &[bool; 24], magnitude: &[u64; 24], k: usize) -> SizeAt
    ensures { result ≡ size_at (numbers_in count negative.now magnitude.now) k }
{
    let n = unsigned_at(count, negative, magnitude, k, 2);
    let size = size_of(n.value);
    SizeAt {
        ok: n.ok,
        size,
        next: n.next,
    }
}

fn address_width_of(place: u64) -> AddressWidth
    ensures { result ≡ address_width_by_place place }
{
    match place {
        0 => AddressWidth::Word,
        1 => AddressWidth::Long,
        _ => AddressWidth::Word,
    }
}

pub fn address_width_at(
    count: usize,
    negative: &[bool; 24],
    magnitude: &[u64; 24],
    k: usize,
) -> AddressWidthAt
    ensures { result ≡ address_width_at (numbers_in count negative.now magnitude.now) k }
{
    let n = unsigned_at(count, negative, magnitude, k, 1);
    let width = address_width_of(n.value);
    AddressWidthAt {
        ok: n.ok,
        width,
        next: n.next,
    }
}

fn register_of(place: u64, number: u8) -> RegisterOperand
    ensures { result ≡ register_by_place place number }
{
    match place {
        0 => RegisterOperand::Address(number),
        1 => RegisterOperand::Data(number),
        _ => RegisterOperand::Address(number),
    }
}

pub fn register_at(
    count: usize,
    negative: &[bool; 24],
    magnitude: &[u64; 24],
    k: usize,
) -> RegisterAt
    ensures { result ≡ register_at (numbers_in count negative.now magnitude.now) k }
{
    let a = unsigned_at(count, negative, magnitude, k, 1);
    let b = byte_at(count, negative, magnitude, a.next);
    let register = register_of(a.value, b.value);
    RegisterAt {
        ok: a.ok & b.ok,
        register,
        next: b.next,
    }
}

fn field_value_of(place: u64, number: u8) -> FieldValue
    ensures { result ≡ field_value_by_place place number }
{
    match place {
        0 => FieldValue::Immediate(number),
        1 => FieldValue::Register(number),
        _ => FieldValue::Immediate(number),
    }
}

pub fn field_value_at(
    count: usize,
    negative: &[bool; 24],
    magnitude: &[u64; 24],
    k: usize,
) -> FieldValueAt
    ensures { result ≡ field_value_at (numbers_in count negative.now magnitude.now) k }
{
    let a = unsigned_at(count, negative, magnitude, k, 1);
    let b = byte_at(count, negative, magnitude, a.next);
    let value = field_value_of(a.value, b.value);
    FieldValueAt {
        ok: a.ok & b.ok,
        value,
        next: b.next,
    }
}

pub fn index_at(count: usize, negative: &[bool; 24], magnitude: &[u64; 24], k: usize) -> IndexAt
    ensures { result ≡ index_at (numbers_in count negative.now magnitude.now) k }
{
    let a = register_at(count, negative, magnitude, k);
    let b = size_at(count, negative, magnitude, a.next);
    let register = a.register;
    let size = b.size;
    let index = IndexRegister { register, size };
    IndexAt {
        ok: a.ok & b.ok,
        index,
        next: b.next,
    }
}

pub fn bit_field_at(
    count: usize,
    negative: &[bool; 24],
    magnitude: &[u64; 24],
    k: usize,
) -> BitFieldAt
    ensures { result ≡ bit_field_at (numbers_in count negative.now magnitude.now) k }
{
    let a = field_value_at(count, negative, magnitude, k);
    let b = field_value_at(count, negative, magnitude, a.next);
    let offset = a.value;
    let width = b.value;
    let field = BitField { offset, width };
    BitFieldAt {
        ok: a.ok & b.ok,
        field,
        next: b.next,
    }
}

fn trap_operand_of(
    place: u64,
    count: usize,
    negative: &[bool; 24],
    magnitude: &[u64; 24],
    k: usize,
) -> TrapOperandAt
    ensures { result ≡ trap_operand_of place (numbers_in count negative.now magnitude.now) k }
{
    match place {
        0 => TrapOperandAt {
            ok: true,
            operand: TrapOperand::None,
            next: k,
        },
        1 => {
            let n = word_at(count, negative, magnitude, k);
            TrapOperandAt {
                ok: n.ok,
                operand: TrapOperand::Word(n.value),
                next: n.next,
            }
        }
        2 => {
            let n = long_at(count, negative, magnitude, k);
            TrapOperandAt {
                ok: n.ok,
                operand: TrapOperand::Long(n.value),
                next: n.next,
            }
        }
        _ => TrapOperandAt {
            ok: true,
            operand: TrapOperand::None,
            next: k,
        },
    }
}

fn register_choice_of(
    place: u64,
    count: usize,
    negative: &[bool; 24],
    magnitude: &[u64; 24],
    k: usize,
) -> RegisterChoiceAt
    ensures { result ≡ register_choice_of place (numbers_in count negative.now magnitude.now) k }
{
    match place {
        0 => RegisterChoiceAt {
            ok: true,
            register: None,
            next: k,
        },
        1 => {
            let n = byte_at(count, negative, magnitude, k);
            RegisterChoiceAt {
                ok: n.ok,
                register: Some(n.value),
                next: n.next,
            }
        }
        _ => RegisterChoiceAt {
            ok: true,
            register: None,
            next: k,
        },
    }
}

pub fn trap_operand_at(
    count: usize,
    negative: &[bool; 24],
    magnitude: &[u64; 24],
    k: usize,
) -> TrapOperandAt
    ensures { result ≡ trap_operand_at (numbers_in count negative.now magnitude.now) k }
{
    let a = unsigned_at(count, negative, magnitude, k, 2);
    let b = trap_operand_of(a.value, count, negative, magnitude, a.next);
    let operand = b.operand;
    TrapOperandAt {
        ok: a.ok & b.ok,
        operand,
        next: b.next,
    }
}

pub fn register_choice_at(
    count: usize,
    negative: &[bool; 24],
    magnitude: &[u64; 24],
    k: usize,
) -> RegisterChoiceAt
    ensures { result ≡ register_choice_at (numbers_in count negative.now magnitude.now) k }
{
    let a = unsigned_at(count, negative, magnitude, k, 1);
    let b = register_choice_of(a.value, count, negative, magnitude, a.next);
    let register = b.register;
    RegisterChoiceAt {
        ok: a.ok & b.ok,
        register,
        next: b.next,
    }
}
