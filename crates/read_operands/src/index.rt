// Extension words and what follows them.
#![tactic(auto, using(crate::specs::ReadLaws::read_more, crate::specs::ReadLaws::read_bind))]

ghost use Rattle.std.specs.Prelude.{◌≡◌, ℕ};
ghost use Rattle.read_places.specs.RunAt.{run_at};
ghost use Rattle.read_spec.specs.Operand.{base_tree, full_tree, index_of, index_operand, scaled_operand, brief_operand, indexed_tree};
ghost use Rattle.read_operands.specs.Read.{read_of_at};

use crate::{displacement, specifier};
use isa::{IndexRegister, Operand, RegisterOperand};
use isa_values::extension_word::ExtensionWord;
use isa_values::index_base::IndexBase;
use read_spec::Unread;
use read_values::number;

// The base displacement and the outer displacement of a full word at `place`.
fn with_displacements(
    words: &[u16],
    at: usize,
    base: u8,
    place: u32,
    w: u16,
) -> Result<(Operand, usize), Unread>
    ensures { (a : ℕ) → result ≡ read_of_at (run_at (base_tree base place w) a words.now at) }
{
    let size = ExtensionWord(w).base_displacement_size();
    let (z, at_outer) = displacement::displacement(words, at, size)?;
    let outer_size = ExtensionWord(w).outer_displacement_size();
    let (outer, next) = displacement::displacement(words, at_outer, outer_size)?;
    let operand = Operand::Extended {
        base,
        word: w,
        displacement: displacement::landed(isa_operands::from_pc(base, w), place, z),
        outer,
    };
    Ok((operand, next))
}

// What follows a full word at `place`.
fn full(words: &[u16], at: usize, base: u8, place: u32, w: u16) -> Result<(Operand, usize), Unread>
    ensures { (a : ℕ) → result ≡ read_of_at (run_at (full_tree base place w) a words.now at) }
{
    if ExtensionWord(w).is_canonical() {
        with_displacements(words, at, base, place, w)
    } else {
        Err(Unread::Nothing)
    }
}

// The index register of an extension word, and its width.
fn index_of(w: u16) -> IndexRegister
    ensures { result ≡ index_of w }
{
    ExtensionWord(w).index_register()
}

// The MC68000's index.
fn index_operand(base: u8, place: u32, w: u16, z: i32) -> Operand
    ensures { result ≡ index_operand base place w z }
{
    let index = index_of(w);
    if IndexBase(base).is_pc() {
        Operand::PcIndex {
            target: number::reach(place, z),
            index,
        }
    } else {
        Operand::IndirectIndex {
            base: RegisterOperand::Address(base),
            offset: z,
            index,
        }
    }
}

// An index with a scale.
fn scaled_operand(base: u8, place: u32, w: u16, z: i32) -> Operand
    ensures { result ≡ scaled_operand base place w z }
{
    Operand::Extended {
        base,
        word: w / 512 * 512,
        displacement: displacement::landed(IndexBase(base).is_pc(), place, z),
        outer: 0,
    }
}

// The operand of a brief word at `place`.
fn brief_operand(base: u8, place: u32, w: u16) -> Operand
    ensures { result ≡ brief_operand base place w }
{
    let z = number::signed8(w);
    if w / 512 % 4 == 0 {
        index_operand(base, place, w, z)
    } else {
        scaled_operand(base, place, w, z)
    }
}

/// An extension word and what follows it; base is an IndexBase.
pub fn indexed(words: &[u16], address: u32, at: usize, base: u8) -> Result<(Operand, usize), Unread>
    ensures { result ≡ read_of_at (run_at (indexed_tree base) address words.now at) }
{
    let (w, next) = specifier::word(words, at)?;
    let place = number::word_address(address, at);
    if ExtensionWord(w).is_full() {
        full(words, next, base, place, w)
    } else {
        Ok((brief_operand(base, place, w), next))
    }
}
