// The entry point of the reader: from words and an address to an instruction.
#![tactic(auto)]

ghost use Rattle.std.specs.Prelude.{◌≡◌};
ghost use Rattle.read_spec.specs.Read.{read_of};
ghost use Rattle.read_spec.specs.Reading.{as_reading};

use read_spec::{Read, Unread};

/// The instruction that words at an address begin with, in plain form, and its length in bytes.
pub fn read(words: &[u16], address: u32) -> Result<Read, Unread>
    ensures { as_reading result ≡ read_of words.now address }
{
    read_instruction::read(words, address)
}
