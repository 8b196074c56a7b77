// Operands: the variant's place, then its fields.
ghost use Rattle.std.specs.Prelude.{◌≡◌};
ghost use Rattle.numeric_fields.specs.Number.{numbers_in};
ghost use Rattle.numeric_fields.specs.Operand.{immediate_at, register_operand_at, indirect_at, post_indirect_at, pre_indirect_at, indirect_displacement_at, indirect_index_at, pc_displacement_at, pc_index_at, extended_at, absolute_at, operand_of, operand_at};

use crate::OperandAt;
use crate::number::{byte_at, long_at, signed_at, unsigned_at, word_at};
use crate::part::{address_width_at, index_at, register_at};
use isa::Operand;

fn immediate_at(count: usize, negative: &[bool; 24], magnitude: &[u64; 24], k: usize) -> OperandAt
    ensures { result ≡ immediate_at (numbers_in count negative.now magnitude.now) k }
{
    let a = long_at(count, negative, magnitude, k);
    let ok = a.ok;
    let operand = Operand::Immediate(a.value);
    OperandAt {
        ok,
        operand,
        next: a.next,
    }
}

fn register_operand_at(
    count: usize,
    negative: &[bool; 24],
    magnitude: &[u64; 24],
    k: usize,
) -> OperandAt
    ensures { result ≡ register_operand_at (numbers_in count negative.now magnitude.now) k }
{
    let a = register_at(count, negative, magnitude, k);
    let ok = a.ok;
    let register = a.register;
    let operand = Operand::Register(register);
    OperandAt {
        ok,
        operand,
        next: a.next,
    }
}

fn indirect_at(count: usize, negative: &[bool; 24], magnitude: &[u64; 24], k: usize) -> OperandAt
    ensures { result ≡ indirect_at (numbers_in count negative.now magnitude.now) k }
{
    let a = byte_at(count, negative, magnitude, k);
    let ok = a.ok;
    let operand = Operand::Indirect(a.value);
    OperandAt {
        ok,
        operand,
        next: a.next,
    }
}

fn post_indirect_at(
    count: usize,
    negative: &[bool; 24],
    magnitude: &[u64; 24],
    k: usize,
) -> OperandAt
    ensures { result ≡ post_indirect_at (numbers_in count negative.now magnitude.now) k }
{
    let a = byte_at(count, negative, magnitude, k);
    let ok = a.ok;
    let operand = Operand::PostIndirect(a.value);
    OperandAt {
        ok,
        operand,
        next: a.next,
    }
}

fn pre_indirect_at(
    count: usize,
    negative: &[bool; 24],
    magnitude: &[u64; 24],
    k: usize,
) -> OperandAt
    ensures { result ≡ pre_indirect_at (numbers_in count negative.now magnitude.now) k }
{
    let a = byte_at(count, negative, magnitude, k);
    let ok = a.ok;
    let operand = Operand::PreIndirect(a.value);
    OperandAt {
        ok,
        operand,
        next: a.next,
    }
}

fn indirect_displacement_at(
    count: usize,
    negative: &[bool; 24],
    magnitude: &[u64; 24],
    k: usize,
) -> OperandAt
    ensures { result ≡ indirect_displacement_at (numbers_in count negative.now magnitude.now) k }
{
    let a = signed_at(count, negative, magnitude, k);
    let b = register_at(count, negative, magnitude, a.next);
    let ok = a.ok & b.ok;
    let base = b.register;
    let operand = Operand::IndirectDisplacement {
        offset: a.value,
        base,
    };
    OperandAt {
        ok,
        operand,
        next: b.next,
    }
}

fn indirect_index_at(
    count: usize,
    negative: &[bool; 24],
    magnitude: &[u64; 24],
    k: usize,
) -> OperandAt
    ensures { result ≡ indirect_index_at (numbers_in count negative.now magnitude.now) k }
{
    let a = register_at(count, negative, magnitude, k);
    let b = signed_at(count, negative, magnitude, a.next);
    let c = index_at(count, negative, magnitude, b.next);
    let ok = a.ok & b.ok & c.ok;
    let base = a.register;
    let index = c.index;
    let operand = Operand::IndirectIndex {
        base,
        offset: b.value,
        index,
    };
    OperandAt {
        ok,
        operand,
        next: c.next,
    }
}

fn pc_displacement_at(
    count: usize,
    negative: &[bool; 24],
    magnitude: &[u64; 24],
    k: usize,
) -> OperandAt
    ensures { result ≡ pc_displacement_at (numbers_in count negative.now magnitude.now) k }
{
    let a = long_at(count, negative, magnitude, k);
    let ok = a.ok;
    let operand = Operand::PcDisplacement { target: a.value };
    OperandAt {
        ok,
        operand,
        next: a.next,
    }
}

fn pc_index_at(count: usize, negative: &[bool; 24], magnitude: &[u64; 24], k: usize) -> OperandAt
    ensures { result ≡ pc_index_at (numbers_in count negative.now magnitude.now) k }
{
    let a = long_at(count, negative, magnitude, k);
    let b = index_at(count, negative, magnitude, a.next);
    let ok = a.ok & b.ok;
    let index = b.index;
    let operand = Operand::PcIndex {
        target: a.value,
        index,
    };
    OperandAt {
        ok,
        operand,
        next: b.next,
    }
}

fn extended_at(count: usize, negative: &[bool; 24], magnitude: &[u64; 24], k: usize) -> OperandAt
    ensures { result ≡ extended_at (numbers_in count negative.now magnitude.now) k }
{
    let a = byte_at(count, negative, magnitude, k);
    let b = word_at(count, negative, magnitude, a.next);
    let c = signed_at(count, negative, magnitude, b.next);
    let d = signed_at(count, negative, magnitude, c.next);
    let ok = a.ok & b.ok & c.ok & d.ok;
    let operand = Operand::Extended {
        base: a.value,
        word: b.value,
        displacement: c.value,
        outer: d.value,
    };
    OperandAt {
        ok,
        operand,
        next: d.next,
    }
}

fn absolute_at(count: usize, negative: &[bool; 24], magnitude: &[u64; 24], k: usize) -> OperandAt
    ensures { result ≡ absolute_at (numbers_in count negative.now magnitude.now) k }
{
    let a = unsigned_at(count, negative, magnitude, k, 18446744073709551615);
    let b = address_width_at(count, negative, magnitude, a.next);
    let ok = a.ok & b.ok;
    let width = b.width;
    let operand = Operand::Absolute {
        address: a.value,
        width,
    };
    OperandAt {
        ok,
        operand,
        next: b.next,
    }
}

fn operand_of(
    place: u64,
    count: usize,
    negative: &[bool; 24],
    magnitude: &[u64; 24],
    k: usize,
) -> OperandAt
    ensures { result ≡ operand_of place (numbers_in count negative.now magnitude.now) k }
{
    match place {
        0 => immediate_at(count, negative, magnitude, k),
        1 => register_operand_at(count, negative, magnitude, k),
        2 => indirect_at(count, negative, magnitude, k),
        3 => post_indirect_at(count, negative, magnitude, k),
        4 => pre_indirect_at(count, negative, magnitude, k),
        5 => indirect_displacement_at(count, negative, magnitude, k),
        6 => indirect_index_at(count, negative, magnitude, k),
        7 => pc_displacement_at(count, negative, magnitude, k),
        8 => pc_index_at(count, negative, magnitude, k),
        9 => extended_at(count, negative, magnitude, k),
        10 => absolute_at(count, negative, magnitude, k),
        _ => immediate_at(count, negative, magnitude, k),
    }
}

pub fn operand_at(count: usize, negative: &[bool; 24], magnitude: &[u64; 24], k: usize) -> OperandAt
    ensures { result ≡ operand_at (numbers_in count negative.now magnitude.now) k }
{
    let a = unsigned_at(count, negative, magnitude, k, 10);
    let b = operand_of(a.value, count, negative, magnitude, a.next);
    let operand = b.operand;
    OperandAt {
        ok: a.ok & b.ok,
        operand,
        next: b.next,
    }
}
