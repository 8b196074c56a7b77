// The entry point of the second reader, for boards with an MC68000: from words and an address to an instruction of the MC68000.
#![tactic(auto)]

ghost use Rattle.std.specs.Prelude.{◌≡◌};
ghost use Rattle.m68000_spec.specs.Reading68000.{as_reading_68000};
ghost use Rattle.m68000_spec.specs.Read68000.{read_68000_of};

use m68000_spec::Unread68000;
use read_spec::Read;

/// What `read` gives; an instruction that is not of the MC68000 is refused.
#[tactic(auto, unfolding(m68000_spec::specs::Read68000::read_68000_of))]
pub fn read_68000(words: &[u16], address: u32) -> Result<Read, Unread68000>
    ensures { as_reading_68000 result ≡ read_68000_of words.now address }
{
    m68000_instruction::restricted(m68k_read::read(words, address))
}
