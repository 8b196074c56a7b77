// The answer to a line that says how many bytes are lent to `encode_bytes`, then an address and an instruction.
#![tactic(auto)]

ghost use Rattle.std.proofs.Common.{rules};
ghost use Rattle.std.specs.Prelude.{◌≡◌, ◌+◌, ◌≤◌, length};
ghost use Rattle.base_spec.specs.Written.{placed};
ghost use Rattle.base_text.specs.Wrote.{Wrote};
ghost use Rattle.base_spec.specs.Lines.{answered_of, step_of};
ghost use Rattle.encode_spec.specs.Encode.{bytes_of, lent_of};
ghost use Rattle.print_spec.specs.BytesAnswer.{lent_before, listed_bytes, bytes_text, called_text, bytes_answer_of};
ghost use Rattle.numeric_fields.specs.Number.{unsigned_at};
ghost use Rattle.bytes_answers.specs.Places.{lent_places_text};

use base_spec::Step;
use encode_answers::{numbers_in, put_measured};
use isa::{Instruction, Measured};
use line_program::{Answer, AnswerLines};
use numeric_fields::UnsignedAt;
use numeric_places::Numbers;
use numeric_spec::Built;

// The bytes that are lent.
fn lent_bytes() -> [u8; 32]
    ensures { result ≡ lent_before 32 }
{
    [
        160, 161, 162, 163, 164, 165, 166, 167, 168, 169, 170, 171, 172, 173, 174, 175, 176, 177,
        178, 179, 180, 181, 182, 183, 184, 185, 186, 187, 188, 189, 190, 191,
    ]
}

// A tab and each byte.
fn put_lent(out: &mut [u8], at: usize, lent: &[u8]) -> usize
    requires { (at + 96 ≤ length out.old) × (length lent.now ≤ 32) }
    ensures { Wrote out.old at (listed_bytes lent.now) out.new result × (result ≤ at + 96) }
{
    let mut next = at;
    let mut i: usize = 0;
    while i < lent.len() {
        next = base_text::put_byte(out, next, b'\t');
        next = base_text::put_hex2(out, next, lent[i]);
        i += 1;
    }
    next
}

// What is returned, => and the bytes.
fn put_returned(out: &mut [u8], at: usize, m: Measured, lent: &[u8]) -> usize
    requires { (at + 136 ≤ length out.old) × (length lent.now ≤ 32) }
    ensures { Wrote out.old at (bytes_text m lent.now) out.new result × (result ≤ at + 136) }
{
    let mut next = put_measured(out, at, m);
    next = base_text::put(out, next, b"\t=>");
    next = put_lent(out, next, lent);
    base_text::put_byte(out, next, b'\n')
}

fn put_called(out: &mut [u8], at: usize, i: Instruction, address: u32, lent: &mut [u8]) -> usize
    requires { (at + 136 ≤ length out.old) × (length lent.old ≤ 32) }
    ensures { Wrote out.old at (bytes_text (bytes_of i address (length lent.old)) (lent_of i address lent.old)) out.new result × (result ≤ at + 136) }
{
    let m = m68k_encode::encode_bytes(i, address, lent);
    put_returned(out, at, m, lent)
}

fn put_built(out: &mut [u8], at: usize, built: Built, n: usize, address: u32) -> usize
    requires { (at + 136 ≤ length out.old) × (n ≤ 32) }
    ensures { Wrote out.old at (called_text built n address) out.new result × (result ≤ at + 136) }
{
    let mut lent = lent_bytes();
    match built {
        Built::Instruction(i) => put_called(out, at, i, address, &mut lent[..n]),
        Built::NotInForm => base_text::put_not_in_form(out, at),
    }
}

// How many bytes are lent.
fn lent_in(numbers: Numbers) -> UnsignedAt
    ensures { result ≡ unsigned_at 32 numbers 0 }
{
    let negative = numbers.negative;
    let magnitude = numbers.magnitude;
    numeric_fields::number::unsigned_at(numbers.count, &negative, &magnitude, 0, 32)
}

// How many bytes are lent, the address, then the numbers of the instruction.
fn put_numbers(out: &mut [u8], at: usize, numbers: Numbers) -> usize
    requires { at + 136 ≤ length out.old }
    ensures { Wrote out.old at (lent_places_text numbers) out.new result × (result ≤ at + 136) }
{
    let lent = lent_in(numbers);
    let address = numeric_fields::number::long_in(numbers, lent.next);
    if lent.ok & address.ok {
        let built = numeric_build::build(numbers, address.next);
        put_built(out, at, built, lent.value as usize, address.value)
    } else {
        base_text::put_not_in_form(out, at)
    }
}

/// The answer to a line, from place `at` on; the next place.
pub fn answer(line: &[u8], out: &mut [u8], at: usize) -> usize
    requires { at + 136 ≤ length out.old }
    ensures { (result ≡ at + length (bytes_answer_of line.now)) × (out.new ≡ placed out.old at (bytes_answer_of line.now)) × (result ≤ at + 136) }
{
    let n = base_text::read_numbers(line);
    if n.ok {
        put_numbers(out, at, numbers_in(n))
    } else {
        base_text::put_not_in_form(out, at)
    }
}

/// What `encode_bytes` returns and leaves in the bytes that are lent.
pub struct EncodingBytes;

impl Answer for EncodingBytes {
    ghost answer_of = { bytes_answer_of };

    ghost ROOM = { 136 };

    const ROOM: usize = 136;

    fn answer(&self, line: &[u8], out: &mut [u8], at: usize) -> usize {
        answer(line, out, at)
    }

    ghost room = { Prim.search rules };
}

impl AnswerLines for EncodingBytes {
    fn answers(&self, text: &[u8], from: usize, out: &mut [u8]) -> Step {
        answers(text, from, out)
    }
}

/// The answers to the lines from a place on, while the buffer has room.
pub fn answers(text: &[u8], from: usize, out: &mut [u8]) -> Step
    ensures { (result ≡ step_of bytes_answer_of 136 text.now from (length out.old)) × (out.new ≡ placed out.old 0 (answered_of bytes_answer_of 136 text.now from (length out.old))) }
{
    line_program::answers(&EncodingBytes, text, from, out)
}
