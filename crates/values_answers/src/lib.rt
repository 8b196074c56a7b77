// The answer to a line that asks for what the functions on values give, written into a lent buffer.
#![tactic(auto)]

ghost use Rattle.std.proofs.Common.{rules};
ghost use Rattle.std.specs.Prelude.{◌≡◌, ◌+◌, ◌*◌, ◌≤◌, length, ◌++◌};
ghost use Rattle.base_spec.specs.Written.{placed, decimal_of};
ghost use Rattle.base_spec.specs.Refused.{tab};
ghost use Rattle.base_spec.specs.Lines.{answered_of, step_of};
ghost use Rattle.base_text.specs.Wrote.{Wrote};
ghost use Rattle.values_answers.specs.Asked.{listed_values, values_text, asked_text, is_asked, values_answer_of};

use base_spec::Step;
use base_text::LineNumbers;
use line_program::{Answer, AnswerLines};

pub mod asked; // the values that numbers ask for, and what the functions on them give

// A tab and a value.
fn put_value(out: &mut [u8], at: usize, v: u16) -> usize
    requires { at + 21 ≤ length out.old }
    ensures { Wrote out.old at (tab ++ decimal_of v) out.new result × (result ≤ at + 21) }
{
    let next = base_text::put_byte(out, at, b'\t');
    base_text::put_decimal(out, next, v as u64)
}

// A tab and each value.
fn put_listed(out: &mut [u8], at: usize, values: &[u16]) -> usize
    requires { (at + 21 * length values.now ≤ length out.old) × (length values.now ≤ 17) }
    ensures { Wrote out.old at (listed_values values.now) out.new result × (result ≤ at + 21 * length values.now) }
{
    let mut next = at;
    let mut i: usize = 0;
    while i < values.len() {
        next = put_value(out, next, values[i]);
        i += 1;
    }
    next
}

// => and the values.
fn put_values(out: &mut [u8], at: usize, values: &[u16]) -> usize
    requires { (at + 360 ≤ length out.old) × (length values.now ≤ 17) }
    ensures { Wrote out.old at (values_text values.now) out.new result × (result ≤ at + 360) }
{
    let mut next = base_text::put(out, at, b"=>");
    next = put_listed(out, next, values);
    base_text::put_byte(out, next, b'\n')
}

fn put_asked(out: &mut [u8], at: usize, m: [u64; 24]) -> usize
    requires { at + 360 ≤ length out.old }
    ensures { Wrote out.old at (asked_text m) out.new result × (result ≤ at + 360) }
{
    match m[0] {
        0 => put_values(out, at, &asked::word_values((m[1] % 65536) as u16)),
        1 => put_values(out, at, &asked::size_values(m[1])),
        2 => put_values(out, at, &asked::register_values(m[1], m[2])),
        3 => put_values(out, at, &asked::displacement_values(m[1])),
        4 => put_values(out, at, &asked::condition_values(m[1])),
        5 => put_values(out, at, &asked::bit_field_values(m[1])),
        6 => put_values(out, at, &asked::base_values(m[1])),
        7 => put_values(out, at, &asked::brief_values(m)),
        8 => put_values(out, at, &asked::full_values(m)),
        9 => put_values(out, at, &asked::constant_values()),
        _ => base_text::put_not_in_form(out, at),
    }
}

// Ten numbers, none below 0.
fn is_asked(n: LineNumbers) -> bool
    ensures { result ≡ is_asked n }
{
    let s = n.negative;
    let below = s[0] | s[1] | s[2] | s[3] | s[4] | s[5] | s[6] | s[7] | s[8] | s[9];
    n.ok & (n.count == 10) & !below
}

/// The answer to a line, from place `at` on; the next place.
pub fn answer(line: &[u8], out: &mut [u8], at: usize) -> usize
    requires { at + 360 ≤ length out.old }
    ensures { (result ≡ at + length (values_answer_of line.now)) × (out.new ≡ placed out.old at (values_answer_of line.now)) × (result ≤ at + 360) }
{
    let n = base_text::read_numbers(line);
    if is_asked(n) {
        let m = n.magnitude;
        put_asked(out, at, m)
    } else {
        base_text::put_not_in_form(out, at)
    }
}

/// What the functions on values give.
pub struct AskingValues;

impl Answer for AskingValues {
    ghost answer_of = { values_answer_of };

    ghost ROOM = { 360 };

    const ROOM: usize = 360;

    fn answer(&self, line: &[u8], out: &mut [u8], at: usize) -> usize {
        answer(line, out, at)
    }

    ghost room = { Prim.search rules };
}

impl AnswerLines for AskingValues {
    fn answers(&self, text: &[u8], from: usize, out: &mut [u8]) -> Step {
        answers(text, from, out)
    }
}

/// The answers to the lines from a place on, while the buffer has room.
pub fn answers(text: &[u8], from: usize, out: &mut [u8]) -> Step
    ensures { (result ≡ step_of values_answer_of 360 text.now from (length out.old)) × (out.new ≡ placed out.old 0 (answered_of values_answer_of 360 text.now from (length out.old))) }
{
    line_program::answers(&AskingValues, text, from, out)
}
