// The fields that hold a number.
ghost use Rattle.std.specs.Prelude.{◌≡◌, ◌<◌};
ghost use Rattle.isa_values.specs.Pairs.{signed_pair, unsigned_pair, pair_by_formula};
ghost use Rattle.isa_spec.specs.Field.{field_number, immediate_size, lowest, highest, also_holds, excludes, holds};

use crate::size::to_bits;
use isa::{Field, Range, Size};

const TWO_TO_32: i64 = 1 << 32;

/// The number of a field, 1 to 20.
pub fn number(field: Field) -> u8
    ensures { (result ≡ field_number field) × (0 < result) × (result < 21) }
{
    match field {
        Field::ShortBranch => 1,
        Field::WordBranch => 2,
        Field::PcDisplacement => 3,
        Field::PcIndex => 4,
        Field::Displacement => 5,
        Field::IndexDisplacement => 6,
        Field::ShortAddress => 7,
        Field::LongAddress => 8,
        Field::Immediate(_) => 9,
        Field::Count => 10,
        Field::TrapVector => 11,
        Field::BitNumber => 12,
        Field::LinkDisplacement => 13,
        Field::Register => 14,
        Field::RtdDisplacement => 15,
        Field::BreakpointVector => 16,
        Field::BaseDisplacement => 17,
        Field::OuterDisplacement => 18,
        Field::NullDisplacement => 19,
        Field::BitField => 20,
    }
}

// The pair of so many bits, half of its values below 0.
fn signed_pair(width: usize) -> Range
    requires { (0 < width) × (width < 33) }
    ensures { result ≡ signed_pair width }
{
    let top = ((1u64 << (width - 1)) - 1) as i64;
    Range {
        low: -1 - top,
        high: top,
    }
}

// The pair of so many bits, from the first value on.
fn unsigned_pair(width: usize, first: u64) -> Range
    requires { (width < 33) × (first < 2) }
    ensures { result ≡ unsigned_pair width first }
{
    Range {
        low: first as i64,
        high: ((1u64 << width) - 1 + first) as i64,
    }
}

/// The pair of a field, from its sign and its width: a displacement is signed, a byte in a short branch, d8(PC,Xn)
/// and d8(An,Xn), or else a word; an Immediate has the bits of its size; Count begins at 1.
#[tactic(auto, unfolding(isa_spec::specs::Field::ranges))]
pub fn range(field: Field) -> Range
    ensures ends { (result.low ≡ lowest field) × (result.high ≡ highest field) }
    ensures by_formula { result ≡ pair_by_formula field }
{
    match field {
        Field::ShortBranch | Field::PcIndex | Field::IndexDisplacement => signed_pair(8),
        Field::WordBranch
        | Field::PcDisplacement
        | Field::Displacement
        | Field::ShortAddress
        | Field::LinkDisplacement
        | Field::RtdDisplacement
        | Field::BaseDisplacement
        | Field::OuterDisplacement => signed_pair(16),
        Field::LongAddress => unsigned_pair(32, 0),
        Field::Immediate(size) => unsigned_pair(to_bits(size), 0),
        Field::Count => unsigned_pair(3, 1),
        Field::TrapVector => unsigned_pair(4, 0),
        Field::BitNumber => unsigned_pair(8, 0),
        Field::Register | Field::BreakpointVector => unsigned_pair(3, 0),
        Field::NullDisplacement => unsigned_pair(0, 0),
        Field::BitField => unsigned_pair(5, 0),
    }
}

// Whether an Immediate holds the value beside its pair: -128 to -1 as a byte, -32768 to -1 as a
// word, with 2^32 added.
fn also_holds(field: Field, value: i64) -> bool
    ensures { result ≡ also_holds (immediate_size field) value }
{
    let Field::Immediate(size) = field else {
        return false;
    };
    match size {
        Size::Byte => (TWO_TO_32 - 128 <= value) & (value < TWO_TO_32),
        Size::Word => (TWO_TO_32 - 32768 <= value) & (value < TWO_TO_32),
        Size::Long => false,
    }
}

// Whether the field excludes the value: in the byte of a short branch 0 calls for a word branch,
// -1 for a long one.
fn excludes(field: Field, value: i64) -> bool
    ensures { result ≡ excludes field value }
{
    matches!(field, Field::ShortBranch) && matches!(value, -1 | 0)
}

/// Whether the field holds the value.
pub fn holds(field: Field, value: i64) -> bool
    ensures { result ≡ holds field value }
{
    let ends = range(field);
    let also = also_holds(field, value);
    // one test without branches: with && and || the proof did not close
    ((ends.low <= value) & (value <= ends.high) | also) & !excludes(field, value)
}
