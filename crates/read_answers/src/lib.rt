// The answer to a line of an address and words, written into a lent buffer.
#![tactic(auto)]

ghost use Rattle.std.proofs.Common.{rules};
ghost use Rattle.std.specs.Prelude.{◌≡◌, ◌+◌, ◌≤◌, length};
ghost use Rattle.base_spec.specs.Written.{placed};
ghost use Rattle.base_text.specs.Wrote.{Wrote};
ghost use Rattle.base_spec.specs.Lines.{answered_of, step_of};
ghost use Rattle.numeric_spec.specs.Form.{numbers_of};
ghost use Rattle.print_spec.specs.ReadAnswer.{read_text, reading_text};
ghost use Rattle.read_spec.specs.Reading.{as_reading};
ghost use Rattle.read_runs.specs.Kept.{run_text, kept_answer_of};
ghost use Rattle.read_answers.specs.Put.{minus_if, literal_text, literals_text, put_text};

use base_spec::{Literal, Step};
use isa::Instruction;
use line_program::{Answer, AnswerLines};
use read_runs::Run;
use read_spec::{Read, Unread};

fn put_sign(out: &mut [u8], at: usize, negative: bool) -> usize
    requires { at + 1 ≤ length out.old }
    ensures { Wrote out.old at (minus_if negative) out.new result × (result ≤ at + 1) }
{
    if negative {
        return base_text::put_byte(out, at, b'-');
    }
    at
}

// A number and a tab.
fn put_number(out: &mut [u8], at: usize, number: Literal) -> usize
    requires { at + 22 ≤ length out.old }
    ensures { Wrote out.old at (literal_text number) out.new result × (result ≤ at + 22) }
{
    let mut next = put_sign(out, at, number.negative);
    next = base_text::put_decimal(out, next, number.magnitude);
    base_text::put_byte(out, next, b'\t')
}

// At most 17 numbers of at most 22 bytes.
fn put_numbers(out: &mut [u8], at: usize, numbers: &[Literal]) -> usize
    requires { (at + 374 ≤ length out.old) × (length numbers.now ≤ 17) }
    ensures { Wrote out.old at (literals_text numbers.now) out.new result × (result ≤ at + 374) }
{
    let mut next = at;
    for number in numbers {
        next = put_number(out, next, *number);
    }
    next
}

// The numbers, => and the length.
fn put_read(out: &mut [u8], at: usize, numbers: &[Literal], bytes: u32) -> usize
    requires { (at + 398 ≤ length out.old) × (length numbers.now ≤ 17) }
    ensures { Wrote out.old at (put_text numbers.now bytes) out.new result × (result ≤ at + 398) }
{
    let mut next = put_numbers(out, at, numbers);
    next = base_text::put(out, next, b"=>\t");
    next = base_text::put_decimal(out, next, bytes as u64);
    base_text::put_byte(out, next, b'\n')
}

fn put_instruction(out: &mut [u8], at: usize, instruction: Instruction, bytes: u32) -> usize
    requires { at + 398 ≤ length out.old }
    ensures { Wrote out.old at (read_text (numbers_of instruction) bytes) out.new result × (result ≤ at + 398) }
{
    let mut numbers = numeric_form::NO_NUMBERS;
    numeric_form::write_numbers(instruction, &mut numbers);
    put_read(out, at, &numbers.places[..numbers.count], bytes)
}

pub fn put_reading(out: &mut [u8], at: usize, reading: Result<Read, Unread>) -> usize
    requires { at + 398 ≤ length out.old }
    ensures { Wrote out.old at (reading_text (as_reading reading)) out.new result × (result ≤ at + 398) }
{
    match reading {
        Ok(read) => put_instruction(out, at, read.instruction, read.bytes),
        Err(Unread::Short) => base_text::put_refused(out, at, 5),
        Err(Unread::Nothing) => base_text::put_refused(out, at, 6),
    }
}

fn put_run(out: &mut [u8], at: usize, run: Run) -> usize
    requires { (at + 398 ≤ length out.old) × (run.count ≤ 16) × (run.count ≤ length run.words) }
    ensures { Wrote out.old at (run_text run) out.new result × (result ≤ at + 398) }
{
    let words = run.words;
    let count = run.count;
    put_reading(out, at, m68k_read::read(&words[..count], run.address))
}

/// The answer to a line, from place `at` on; the next place.
pub fn answer(line: &[u8], out: &mut [u8], at: usize) -> usize
    requires { at + 398 ≤ length out.old }
    ensures { (result ≡ at + length (kept_answer_of line.now)) × (out.new ≡ placed out.old at (kept_answer_of line.now)) × (result ≤ at + 398) }
{
    let run = read_runs::read_run(line);
    if run.ok {
        put_run(out, at, run)
    } else {
        base_text::put_not_in_form(out, at)
    }
}

/// The instruction that a run of words reads as.
pub struct ReadingRuns;

impl Answer for ReadingRuns {
    ghost answer_of = { kept_answer_of };

    ghost ROOM = { 512 };

    const ROOM: usize = 512;

    fn answer(&self, line: &[u8], out: &mut [u8], at: usize) -> usize {
        answer(line, out, at)
    }

    ghost room = { Prim.search rules };
}

impl AnswerLines for ReadingRuns {
    fn answers(&self, text: &[u8], from: usize, out: &mut [u8]) -> Step {
        answers(text, from, out)
    }
}

/// The answers to the lines from a place on, while the buffer has room.
pub fn answers(text: &[u8], from: usize, out: &mut [u8]) -> Step
    ensures { (result ≡ step_of kept_answer_of 512 text.now from (length out.old)) × (out.new ≡ placed out.old 0 (answered_of kept_answer_of 512 text.now from (length out.old))) }
{
    line_program::answers(&ReadingRuns, text, from, out)
}
