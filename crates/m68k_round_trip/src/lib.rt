// The round trip on the code itself.
#![tactic(auto)]

ghost use Rattle.std.specs.Prelude.{◌≡◌};
ghost use Rattle.read_spec.specs.ReadingRefusal.{refused_run};
ghost use Rattle.read_spec.specs.Read.{read_of};
ghost use Rattle.read_spec.specs.Reading.{as_reading};
ghost use Rattle.read_spec.specs.RoundTrip.{read_back_of, ReadsBack, refused_back, written_back, WritesBack};

use isa::{Encoded, Instruction};
use read_spec::{Read, Unread};

// What `read` gives of the words that `encode` lays down: the plain form and the size. A refused instruction has no words,
// which read as nothing yet (5).
pub fn read_back(instruction: Instruction, address: u32) -> Result<Read, Unread>
    ensures { (as_reading result ≡ read_back_of instruction address) × ReadsBack instruction address (as_reading result) }
{
    let e = m68k::encode(instruction, address);
    let words = e.words;
    let count = e.count;
    m68k::read(&words[..count], address)
}

fn refused(number: u8) -> Encoded
    ensures { result ≡ refused_back (refused_run number) }
{
    Encoded {
        words: [0; 11],
        count: 0,
        number,
        detail: 0,
        value: 0,
    }
}

// What `encode` gives of the instruction that `read` gives: the words read.
pub fn write_back(words: &[u16], address: u32) -> Encoded
    ensures { (result ≡ written_back (read_of words.now address) address) × WritesBack words.now address result }
{
    let reading = m68k::read(words, address);
    match reading {
        Ok(read) => m68k::encode(read.instruction, address),
        Err(Unread::Short) => refused(5),
        Err(Unread::Nothing) => refused(6),
    }
}
