// The places of names of more than eight bytes: few, and told apart by their lengths first.
#![tactic(auto, unfolding(crate::specs::Place::long_place))]

ghost use Rattle.std.specs.Prelude.{◌≡◌};
ghost use Rattle.sheet_field.specs.Place.{long_place};

use crate::equal;
use sheet_spec::Kind;

fn long_target_direction(f: &[u8]) -> Option<u64>
    ensures { result ≡ long_place Kind.TargetDirection f.now }
{
    if equal(f, b"FromMemory") {
        Some(1)
    } else {
        None
    }
}

fn long_condition(f: &[u8]) -> Option<u64>
    ensures { result ≡ long_place Kind.Condition f.now }
{
    if equal(f, b"LowOrSame") {
        Some(3)
    } else if equal(f, b"CarryClear") {
        Some(4)
    } else if equal(f, b"OverflowClear") {
        Some(8)
    } else if equal(f, b"OverflowSet") {
        Some(9)
    } else if equal(f, b"GreaterThanOrEqual") {
        Some(12)
    } else if equal(f, b"GreaterThan") {
        Some(14)
    } else if equal(f, b"LessThanOrEqual") {
        Some(15)
    } else {
        None
    }
}

fn long_bit_field_operation(f: &[u8]) -> Option<u64>
    ensures { result ≡ long_place Kind.BitFieldOperation f.now }
{
    if equal(f, b"ExtractUnsigned") {
        Some(1)
    } else if equal(f, b"ExtractSigned") {
        Some(3)
    } else if equal(f, b"FindFirstOne") {
        Some(5)
    } else {
        None
    }
}

fn long_field_value(f: &[u8]) -> Option<u64>
    ensures { result ≡ long_place Kind.FieldValue f.now }
{
    if equal(f, b"Immediate") {
        Some(0)
    } else {
        None
    }
}

fn long_operand(f: &[u8]) -> Option<u64>
    ensures { result ≡ long_place Kind.Operand f.now }
{
    if equal(f, b"Immediate") {
        Some(0)
    } else if equal(f, b"PostIndirect") {
        Some(3)
    } else if equal(f, b"PreIndirect") {
        Some(4)
    } else if equal(f, b"IndirectDisplacement") {
        Some(5)
    } else if equal(f, b"IndirectIndex") {
        Some(6)
    } else if equal(f, b"PcDisplacement") {
        Some(7)
    } else {
        None
    }
}

fn long_instruction(f: &[u8]) -> Option<u64>
    ensures { result ≡ long_place Kind.Instruction f.now }
{
    if equal(f, b"MOVEtoCCR") {
        Some(64)
    } else if equal(f, b"MOVEfromCCR") {
        Some(65)
    } else if equal(f, b"MOVEfromSR") {
        Some(67)
    } else if equal(f, b"ANDItoCCR") {
        Some(68)
    } else if equal(f, b"EORItoCCR") {
        Some(70)
    } else {
        None
    }
}

/// The place of the name of a kind that a field of more than eight bytes is.
pub fn long_place(kind: Kind, f: &[u8]) -> Option<u64>
    ensures { result ≡ long_place kind f.now }
{
    match kind {
        Kind::TargetDirection => long_target_direction(f),
        Kind::Condition => long_condition(f),
        Kind::BitFieldOperation => long_bit_field_operation(f),
        Kind::FieldValue => long_field_value(f),
        Kind::Operand => long_operand(f),
        Kind::Instruction => long_instruction(f),
        _ => None,
    }
}
