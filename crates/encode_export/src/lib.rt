// `encode` for Rust and C: from the numbers of an instruction and an address to words (docs/BENCHMARKS.md).
#![tactic(auto)]

ghost use Rattle.std.specs.Prelude.{◌≡◌, length};
ghost use Rattle.numeric_form.specs.Numbers.{as_built};
ghost use Rattle.encode_export.specs.Answer.{answered_as, answer_for};
ghost use Rattle.encode_export.specs.Places.{numbers_in, built_from, literals_from};

use base_spec::Literal;
use isa::{Encoded, Instruction};

// The words and their count, or the refusal; 7 where the numbers are not in the form.
#[repr(C)]
#[derive(Clone, Copy)]
pub struct Answer {
    pub words: [u16; 11],
    pub count: usize,
    pub number: u8,
    pub detail: u8,
    pub value: i64,
}

// At two addresses.
#[repr(C)]
#[derive(Clone, Copy)]
pub struct Answers {
    pub first: Answer,
    pub second: Answer,
}

fn answered(e: Encoded) -> Answer
    ensures { result ≡ answered_as e }
{
    let words = e.words;
    Answer {
        words,
        count: e.count,
        number: e.number,
        detail: e.detail,
        value: e.value,
    }
}

// Two arrays and a count come from C; from here on they are literals.
fn literals(negative: &[bool; 24], magnitude: &[u64; 24]) -> [Literal; 24]
    requires { (length negative.now ≡ 24) × (length magnitude.now ≡ 24) }
    ensures { result ≡ literals_from negative.now magnitude.now }
{
    let mut literals = [Literal {
        negative: false,
        magnitude: 0,
    }; 24];
    let mut i: usize = 0;
    while i < 24 {
        literals[i] = Literal {
            negative: negative[i],
            magnitude: magnitude[i],
        };
        i += 1;
    }
    literals
}

// The instruction whose numbers are all those from a place on.
fn build(
    count: usize,
    negative: &[bool; 24],
    magnitude: &[u64; 24],
    from: usize,
) -> Option<Instruction>
    ensures { as_built result ≡ built_from (numbers_in count negative.now magnitude.now) from }
{
    let literals = literals(negative, magnitude);
    if from <= count && count <= 24 {
        numeric_form::build(&literals[from..count])
    } else {
        None
    }
}

fn placed(built: Option<Instruction>, address: u32) -> Answer
    ensures { result ≡ answer_for (as_built built) address }
{
    match built {
        Some(i) => answered(m68k_encode::encode(i, address)),
        None => Answer {
            words: [0; 11],
            count: 0,
            number: 7,
            detail: 0,
            value: 0,
        },
    }
}

// The instruction whose numbers are given, at an address.
#[unsafe(no_mangle)]
pub extern "C" fn encode_export_once(
    count: usize,
    negative: &[bool; 24],
    magnitude: &[u64; 24],
    address: u32,
) -> Answer
    ensures { result ≡ answer_for (built_from (numbers_in count negative.now magnitude.now) 0) address }
{
    placed(build(count, negative, magnitude, 0), address)
}

// The same at two addresses: built once, encoded twice.
#[unsafe(no_mangle)]
pub extern "C" fn encode_export_twice(
    count: usize,
    negative: &[bool; 24],
    magnitude: &[u64; 24],
    address: u32,
    other: u32,
) -> Answers
    ensures { (result.first ≡ answer_for (built_from (numbers_in count negative.now magnitude.now) 0) address) × (result.second ≡ answer_for (built_from (numbers_in count negative.now magnitude.now) 0) other) }
{
    let built = build(count, negative, magnitude, 0);
    let first = placed(built, address);
    let second = placed(built, other);
    Answers { first, second }
}
