// The reader of what follows an operation word. Where the words' address does not matter, a contract holds at each
// address a.
#![tactic(auto)]

ghost use Rattle.std.specs.Prelude.{◌≡◌};
ghost use Rattle.read_places.specs.RunAt.{run_at};
ghost use Rattle.read_spec.specs.Layout.{accepts, tail_tree};
ghost use Rattle.read_operands.specs.Read.{read_of_at};
ghost use Rattle.read_operands.specs.Part.{specified_tree};

use read_spec::{Layout, Tail, Unread};

pub mod mode; // addressing modes
pub mod specifier; // the words before those of the operands
pub mod displacement; // the displacements of a full extension word
pub mod index; // extension words
pub mod operand; // effective addresses

// Whether the operation word is one, with operands in modes that it takes.
pub fn accepts(layout: Layout) -> bool
    ensures { result ≡ accepts layout }
{
    layout.accepted
        & mode::permitted(layout.readable, layout.source)
        & mode::permitted(layout.writable, layout.destination)
}

// The specifier and the operands.
#[tactic(auto, using(crate::specs::ReadLaws::read_bind))]
fn specified(words: &[u16], address: u32, layout: Layout) -> Result<(Tail, usize), Unread>
    ensures { result ≡ read_of_at (run_at (specified_tree layout) address words.now 1) }
{
    let size = layout.size;
    let (value, at) = specifier::specifier(words, 1, layout.specifier)?;
    let (source, at) = operand::operand(words, address, at, size, layout.source)?;
    let (destination, at) = operand::operand(words, address, at, size, layout.destination)?;
    let tail = Tail {
        value,
        source,
        destination,
    };
    Ok((tail, at))
}

/// What follows the operation word at an address, in this layout, and the place after it.
pub fn follow(words: &[u16], address: u32, layout: Layout) -> Result<(Tail, usize), Unread>
    ensures { result ≡ read_of_at (run_at (tail_tree layout) address words.now 1) }
{
    if accepts(layout) {
        specified(words, address, layout)
    } else {
        Err(Unread::Nothing)
    }
}
