// The answer to a line of the numeric form, written into a lent buffer.
#![tactic(auto)]

ghost use Rattle.std.proofs.Common.{rules};
ghost use Rattle.std.specs.Prelude.{◌≡◌, ◌+◌, ◌≤◌, length, take};
ghost use Rattle.base_spec.specs.Written.{placed};
ghost use Rattle.base_text.specs.Wrote.{Wrote};
ghost use Rattle.base_spec.specs.Lines.{answered_of, step_of};
ghost use Rattle.print_spec.specs.EncodeAnswer.{words_text, encoded_text, measured_text, result_text, built_text, answer_of};
ghost use Rattle.encode_answers.specs.Places.{places_in, places_text};

use base_spec::Step;
use isa::{Encoded, Measured};
use line_program::{Answer, AnswerLines};
use numeric_places::Numbers;
use numeric_spec::Built;

// Each word, and a tab.
fn put_words(out: &mut [u8], at: usize, words: [u16; 11], count: usize) -> usize
    requires { (at + 55 ≤ length out.old) × (count ≤ 11) × (count ≤ length words) }
    ensures { Wrote out.old at (words_text (take count words)) out.new result × (result ≤ at + 55) }
{
    let mut next = at;
    let mut i: usize = 0;
    while i < count {
        next = base_text::put_hex4(out, next, words[i]);
        next = base_text::put_byte(out, next, b'\t');
        i += 1;
    }
    next
}

// The words or the refusal, and a tab.
fn put_encoded(out: &mut [u8], at: usize, e: Encoded) -> usize
    requires { (at + 55 ≤ length out.old) × (e.count ≤ 11) × (e.count ≤ length e.words) }
    ensures { Wrote out.old at (encoded_text e) out.new result × (result ≤ at + 55) }
{
    if e.number == 0 {
        let words = e.words;
        return put_words(out, at, words, e.count);
    }
    let next = base_text::put_refusal(out, at, e.number, e.detail, e.value);
    base_text::put_byte(out, next, b'\t')
}

// The size or the refusal.
pub fn put_measured(out: &mut [u8], at: usize, m: Measured) -> usize
    requires { at + 36 ≤ length out.old }
    ensures { Wrote out.old at (measured_text m) out.new result × (result ≤ at + 36) }
{
    if m.number == 0 {
        return base_text::put_decimal(out, at, m.size as u64);
    }
    base_text::put_refusal(out, at, m.number, m.detail, m.value)
}

// The words, => and the size.
fn put_result(out: &mut [u8], at: usize, e: Encoded, m: Measured) -> usize
    requires { (at + 95 ≤ length out.old) × (e.count ≤ 11) × (e.count ≤ length e.words) }
    ensures { Wrote out.old at (result_text e m) out.new result × (result ≤ at + 95) }
{
    let mut next = put_encoded(out, at, e);
    next = base_text::put(out, next, b"=>\t");
    next = put_measured(out, next, m);
    base_text::put_byte(out, next, b'\n')
}

fn put_built(out: &mut [u8], at: usize, built: Built, address: u32) -> usize
    requires { at + 95 ≤ length out.old }
    ensures { Wrote out.old at (built_text built address) out.new result × (result ≤ at + 95) }
{
    match built {
        Built::Instruction(i) => put_result(
            out,
            at,
            m68k_encode::encode(i, address),
            m68k_encode::size(i),
        ),
        Built::NotInForm => base_text::put_not_in_form(out, at),
    }
}

// The address, then the numbers of the instruction.
fn put_numbers(out: &mut [u8], at: usize, numbers: Numbers) -> usize
    requires { at + 95 ≤ length out.old }
    ensures { Wrote out.old at (places_text numbers) out.new result × (result ≤ at + 95) }
{
    let address = numeric_fields::number::long_in(numbers, 0);
    if address.ok {
        put_built(out, at, numeric_build::build(numbers, 1), address.value)
    } else {
        base_text::put_not_in_form(out, at)
    }
}

pub fn numbers_in(n: base_text::LineNumbers) -> Numbers
    ensures { result ≡ places_in n }
{
    let negative = n.negative;
    let magnitude = n.magnitude;
    Numbers {
        count: n.count,
        negative,
        magnitude,
    }
}

/// The answer to a line, from place `at` on; the next place.
pub fn answer(line: &[u8], out: &mut [u8], at: usize) -> usize
    requires { at + 95 ≤ length out.old }
    ensures { (result ≡ at + length (answer_of line.now)) × (out.new ≡ placed out.old at (answer_of line.now)) × (result ≤ at + 95) }
{
    let n = base_text::read_numbers(line);
    if n.ok {
        put_numbers(out, at, numbers_in(n))
    } else {
        base_text::put_not_in_form(out, at)
    }
}

/// Words and size of an instruction in numeric form.
pub struct Encoding;

impl Answer for Encoding {
    ghost answer_of = { answer_of };

    ghost ROOM = { 128 };

    const ROOM: usize = 128;

    fn answer(&self, line: &[u8], out: &mut [u8], at: usize) -> usize {
        answer(line, out, at)
    }

    ghost room = { Prim.search rules };
}

impl AnswerLines for Encoding {
    fn answers(&self, text: &[u8], from: usize, out: &mut [u8]) -> Step {
        answers(text, from, out)
    }
}

/// The answers to the lines from a place on, while the buffer has room.
pub fn answers(text: &[u8], from: usize, out: &mut [u8]) -> Step
    ensures { (result ≡ step_of answer_of 128 text.now from (length out.old)) × (out.new ≡ placed out.old 0 (answered_of answer_of 128 text.now from (length out.old))) }
{
    line_program::answers(&Encoding, text, from, out)
}
