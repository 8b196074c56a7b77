// The entry points of the encoder: from an instruction and an address to words, to bytes and to a size.
#![tactic(auto)]

ghost use Rattle.std.specs.Prelude.{◌≡◌, true, false, ◌++◌, ◌*◌, ◌/◌, ◌%◌, ◌≤◌, ◌<◌, length, take, drop};
ghost use Rattle.encode_spec.specs.Encode.{encoded_as, refusal_of, words_of, encode_of, size_of, bytes_of, lent_of, bytes_in};
ghost use Rattle.encode_state.specs.Laws.{finished};
ghost use Rattle.m68k_facts.specs.Measure.{measured};

use encode_state::{Encoder, Refusal};
use isa::{Encoded, Instruction, Measured};

// The words, or the refusal without words.
pub fn finish(e: Result<Encoder, Refusal>) -> Encoded
    ensures { result ≡ finished e }
{
    match e {
        Ok(e) => {
            let words = e.words;
            Encoded {
                words,
                count: e.count,
                number: 0,
                detail: 0,
                value: 0,
            }
        }
        Err(refusal) => Encoded {
            words: [0; 11],
            count: 0,
            number: refusal.number(),
            detail: refusal.detail(),
            value: refusal.value(),
        },
    }
}

// The two bytes of a word.
pub fn high_byte(w: u16) -> u8
    ensures { result ≡ w / 256 }
{
    (w / 256) as u8
}

pub fn low_byte(w: u16) -> u8
    ensures { result ≡ w % 256 }
{
    (w % 256) as u8
}

// Each word high byte first.
fn put_bytes(lent: &mut [u8], words: [u16; 11], count: usize)
    requires { (count ≤ 11) × (count ≤ length words) × (2 * count ≤ length lent.old) }
    ensures { lent.new ≡ bytes_in (take count words) ++ drop (2 * count) lent.old }
{
    let mut k: usize = 0;
    while k < count {
        lent[2 * k] = high_byte(words[k]);
        lent[2 * k + 1] = low_byte(words[k]);
        k += 1;
    }
}

// The words of an instruction, with or without the range checks.
fn encoded(instruction: Instruction, address: u32, check: bool) -> Encoded
    ensures { (result ≡ encoded_as (refusal_of check instruction address) (words_of instruction address)) × (result.count < 12) }
{
    finish(encode_instruction::instruction_words(Encoder::begin(address, check), instruction))
}

// The words of an instruction at an address.
pub fn encode(instruction: Instruction, address: u32) -> Encoded
    ensures { result ≡ encode_of instruction address }
{
    encoded(instruction, address, true)
}

// Twice the count, or the refusal.
fn measure(e: Encoded) -> Measured
    requires { e.count < 12 }
    ensures { result ≡ measured e }
{
    Measured {
        size: 2 * e.count as u32,
        number: e.number,
        detail: e.detail,
        value: e.value,
    }
}

// How many bytes an instruction encodes to, wherever it is placed.
pub fn size(instruction: Instruction) -> Measured
    ensures { result ≡ size_of instruction }
{
    measure(encoded(instruction, 0, false))
}

// The words of an instruction as bytes in a lent slice, the high byte of each word first.
pub fn encode_bytes(instruction: Instruction, address: u32, lent: &mut [u8]) -> Measured
    ensures { (result ≡ bytes_of instruction address (length lent.old)) × (lent.new ≡ lent_of instruction address lent.old) }
{
    let e = encode(instruction, address);
    let count = e.count;
    if e.number != 0 {
        return measure(e);
    }
    if lent.len() < 2 * count {
        return Measured {
            size: 0,
            number: 4,
            detail: 0,
            value: 0,
        };
    }
    let words = e.words;
    put_bytes(lent, words, count);
    measure(e)
}
