// The reader: from words and an address to the instruction that they begin with.
#![tactic(auto)]

ghost use Rattle.std.specs.Prelude.{◌≡◌};
ghost use Rattle.read_spec.specs.Reading.{as_reading};
ghost use Rattle.read_spec.specs.Read.{read_of};
ghost use Rattle.read_instruction.specs.ReadAt.{FollowsAs};

use read_spec::{Read, Unread};
use read_values::operation_word::OperationWord;

pub mod decoding; // the instruction of a group and its tail

// The instruction of an operation word and the words behind it.
fn read_word(words: &[u16], address: u32, w: OperationWord) -> Result<Read, Unread>
    ensures { FollowsAs address words.now w.0 (as_reading result) }
{
    let group = read_layouts::map::group(w.0 / 64);
    let layout = read_layouts::layout(group, w);
    let (tail, at) = read_operands::follow(words, address, layout)?;
    decoding::decode(group, address, w, tail, (at % 16) as u32)
}

/// The instruction that words at an address begin with, in plain form, and its length in bytes.
pub fn read(words: &[u16], address: u32) -> Result<Read, Unread>
    ensures { as_reading result ≡ read_of words.now address }
{
    if words.len() == 0 {
        return Err(Unread::Short);
    }
    read_word(words, address, OperationWord(words[0]))
}
