// Effective addresses.
#![tactic(auto, using(crate::specs::ReadLaws::read_more, crate::specs::ReadLaws::read_bind))]

ghost use Rattle.std.specs.Prelude.{◌≡◌, ◌<◌, ℕ};
ghost use Rattle.read_places.specs.RunAt.{run_at};
ghost use Rattle.read_spec.specs.Operand.{immediate_tree, special_tree, mode_tree, operand_tree};
ghost use Rattle.read_operands.specs.Read.{read_of_at};
ghost use Rattle.read_operands.specs.Part.{displaced_tree, short_address_tree, long_address_tree, pc_displacement_tree, immediate_operand_tree};

use crate::{index, specifier};
use isa::{AddressWidth, Operand, RegisterOperand, Size};
use read_spec::{Specifier, Unread};
use read_values::number;

/// #<data>.
pub fn immediate(words: &[u16], at: usize, size: Size) -> Result<(u32, usize), Unread>
    ensures { (a : ℕ) → result ≡ read_of_at (run_at (immediate_tree size) a words.now at) }
{
    match size {
        Size::Byte => specifier::one_word(words, at, Specifier::Byte),
        Size::Word => specifier::one_word(words, at, Specifier::Word),
        Size::Long => specifier::two_words(words, at, Specifier::Long),
    }
}

fn immediate_operand(words: &[u16], at: usize, size: Size) -> Result<(Operand, usize), Unread>
    ensures { (a : ℕ) → result ≡ read_of_at (run_at (immediate_operand_tree size) a words.now at) }
{
    let (v, next) = immediate(words, at, size)?;
    Ok((Operand::Immediate(v), next))
}

// d16(An).
fn displaced(words: &[u16], at: usize, k: u8) -> Result<(Operand, usize), Unread>
    ensures { (a : ℕ) → result ≡ read_of_at (run_at (displaced_tree k) a words.now at) }
{
    let (w, next) = specifier::word(words, at)?;
    let operand = Operand::IndirectDisplacement {
        offset: number::signed16(w),
        base: RegisterOperand::Address(k),
    };
    Ok((operand, next))
}

// (xxx).W.
fn short_address(words: &[u16], at: usize) -> Result<(Operand, usize), Unread>
    ensures { (a : ℕ) → result ≡ read_of_at (run_at short_address_tree a words.now at) }
{
    let (w, next) = specifier::word(words, at)?;
    let operand = Operand::Absolute {
        address: u64::from(number::extended(w)),
        width: AddressWidth::Word,
    };
    Ok((operand, next))
}

// (xxx).L.
fn long_address(words: &[u16], at: usize) -> Result<(Operand, usize), Unread>
    ensures { (a : ℕ) → result ≡ read_of_at (run_at long_address_tree a words.now at) }
{
    let (v, next) = specifier::two_words(words, at, Specifier::Long)?;
    let operand = Operand::Absolute {
        address: v as u64,
        width: AddressWidth::Long,
    };
    Ok((operand, next))
}

// d16(PC).
fn pc_displacement(words: &[u16], address: u32, at: usize) -> Result<(Operand, usize), Unread>
    ensures { result ≡ read_of_at (run_at pc_displacement_tree address words.now at) }
{
    let (w, next) = specifier::word(words, at)?;
    let place = number::word_address(address, at);
    let target = number::reach(place, number::signed16(w));
    Ok((Operand::PcDisplacement { target }, next))
}

// Mode 7, by the register field.
fn special(
    words: &[u16],
    address: u32,
    at: usize,
    size: Size,
    k: u8,
) -> Result<(Operand, usize), Unread>
    ensures { result ≡ read_of_at (run_at (special_tree size k) address words.now at) }
{
    match k {
        0 => short_address(words, at),
        1 => long_address(words, at),
        2 => pc_displacement(words, address, at),
        3 => index::indexed(words, address, at, 8),
        4 => immediate_operand(words, at, size),
        _ => Err(Unread::Nothing),
    }
}

// By the mode field and the register field, where words follow.
// Not inlined: the operands without words would go by memory.
#[inline(never)]
fn with_words(
    words: &[u16],
    address: u32,
    at: usize,
    size: Size,
    m: u8,
    k: u8,
) -> Result<(Operand, usize), Unread>
    ensures { 4 < m → result ≡ read_of_at (run_at (mode_tree size m k) address words.now at) }
{
    match m {
        5 => displaced(words, at, k),
        6 => index::indexed(words, address, at, k),
        7 => special(words, address, at, size, k),
        _ => Err(Unread::Nothing),
    }
}

// By the mode field and the register field.
fn by_mode(
    words: &[u16],
    address: u32,
    at: usize,
    size: Size,
    m: u8,
    k: u8,
) -> Result<(Operand, usize), Unread>
    ensures { result ≡ read_of_at (run_at (mode_tree size m k) address words.now at) }
{
    match m {
        0 => Ok((Operand::Register(RegisterOperand::Data(k)), at)),
        1 => Ok((Operand::Register(RegisterOperand::Address(k)), at)),
        2 => Ok((Operand::Indirect(k), at)),
        3 => Ok((Operand::PostIndirect(k), at)),
        4 => Ok((Operand::PreIndirect(k), at)),
        _ => with_words(words, address, at, size, m, k),
    }
}

/// An operand by its effective address in six bits, its words from `at` on.
pub fn operand(
    words: &[u16],
    address: u32,
    at: usize,
    size: Size,
    ea: u8,
) -> Result<(Operand, usize), Unread>
    ensures { result ≡ read_of_at (run_at (operand_tree size ea) address words.now at) }
{
    by_mode(words, address, at, size, ea / 8, ea % 8)
}
