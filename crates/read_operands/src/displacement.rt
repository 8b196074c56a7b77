// The displacements of a full extension word.
#![tactic(auto, using(crate::specs::ReadLaws::read_more, crate::specs::ReadLaws::read_bind))]

ghost use Rattle.std.specs.Prelude.{◌≡◌, ℕ};
ghost use Rattle.isa.specs.declared.DisplacementSize.TheVariants as size;
ghost use Rattle.read_places.specs.RunAt.{run_at};
ghost use Rattle.read_spec.specs.Operand.{displacement_tree, landed};
ghost use Rattle.read_operands.specs.Read.{read_of_at};

use crate::specifier;
use isa::DisplacementSize;
use read_spec::{Specifier, Unread};
use read_values::number;

// A displacement of one word.
fn word_displacement(words: &[u16], at: usize) -> Result<(i32, usize), Unread>
    ensures { (a : ℕ) → result ≡ read_of_at (run_at (displacement_tree size.Word) a words.now at) }
{
    let (w, next) = specifier::word(words, at)?;
    Ok((number::signed16(w), next))
}

// A displacement of two.
fn long_displacement(words: &[u16], at: usize) -> Result<(i32, usize), Unread>
    ensures { (a : ℕ) → result ≡ read_of_at (run_at (displacement_tree size.Long) a words.now at) }
{
    let (v, next) = specifier::two_words(words, at, Specifier::Long)?;
    Ok((number::signed32(v), next))
}

/// A base or outer displacement.
pub fn displacement(
    words: &[u16],
    at: usize,
    size: DisplacementSize,
) -> Result<(i32, usize), Unread>
    ensures { (a : ℕ) → result ≡ read_of_at (run_at (displacement_tree size) a words.now at) }
{
    match size {
        DisplacementSize::Null => Ok((0, at)),
        DisplacementSize::Word => word_displacement(words, at),
        DisplacementSize::Long => long_displacement(words, at),
    }
}

/// What an Extended operand holds of a displacement, its word at `place`.
pub fn landed(pc: bool, place: u32, z: i32) -> i32
    ensures { result ≡ landed pc place z }
{
    if pc {
        number::signed32(number::reach(place, z))
    } else {
        z
    }
}
