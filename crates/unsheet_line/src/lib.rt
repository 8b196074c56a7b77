// The line of an instruction, written into a lent buffer.
#![tactic(auto)]

ghost use Rattle.std.specs.Prelude.{◌≡◌, [], ◌∷◌, ◌++◌, ◌+◌, ◌≤◌, length};
ghost use Rattle.base_text.specs.Wrote.{Wrote};
ghost use Rattle.sheet_spec.specs.Line.{literal};
ghost use Rattle.sheet_spec.specs.Spell.{number_text, spell};
ghost use Rattle.unsheet_spec.specs.Text.{tokens_of};
ghost use Rattle.unsheet_line.specs.Table.{as_line, number_at, lands_in};
ghost use Rattle.unsheet_line.specs.Field.{target_text, field_spelled, ending};

use base_spec::Literal;
use isa::Instruction;
use sheet_spec::Kind;

// The number of the line on whose first word a target lands, 0 where it lands on none.
pub fn line_at(lines: &[u16], start: u32, target: u64) -> u16
    ensures { result ≡ number_at start lines.now target }
{
    let from = start as u64;
    if target < from {
        return 0;
    }
    if (target - from) % 2 != 0 {
        return 0;
    }
    let place = ((target - from) / 2) as usize;
    if place < lines.len() {
        return lines[place];
    }
    0
}

// A number with its sign.
fn put_number(out: &mut [u8], at: usize, number: Literal) -> usize
    requires { at + 21 ≤ length out.old }
    ensures { Wrote out.old at (number_text (literal number.negative number.magnitude)) out.new result × (result ≤ at + 21) }
{
    if number.negative {
        let next = base_text::put_byte(out, at, b'-');
        return base_text::put_decimal(out, next, number.magnitude);
    }
    base_text::put_decimal(out, at, number.magnitude)
}

// `@` and the number of a line, or a target that lands on none.
fn put_target(out: &mut [u8], at: usize, line: u16, target: u64) -> usize
    requires { at + 21 ≤ length out.old }
    ensures { Wrote out.old at (target_text (as_line line) target) out.new result × (result ≤ at + 21) }
{
    if line != 0 {
        let next = base_text::put_byte(out, at, b'@');
        return base_text::put_decimal(out, next, line as u64);
    }
    base_text::put_decimal(out, at, target)
}

// A field, by its kind.
fn put_field(
    out: &mut [u8],
    at: usize,
    kind: Kind,
    number: Literal,
    lines: &[u16],
    start: u32,
) -> usize
    requires { at + 21 ≤ length out.old }
    ensures { Wrote out.old at (field_spelled (lands_in start lines.now) kind number.negative number.magnitude) out.new result × (result ≤ at + 21) }
{
    let magnitude = number.magnitude;
    match kind {
        Kind::Number => put_number(out, at, number),
        Kind::Target => put_target(out, at, line_at(lines, start, magnitude), magnitude),
        Kind::Place => put_target(out, at, line_at(lines, start, magnitude), magnitude),
        _ => unsheet_names::put_name(out, at, kind, magnitude),
    }
}

// LF after the last field, a tab after the others.
fn put_end(out: &mut [u8], at: usize, last: bool) -> usize
    requires { at + 1 ≤ length out.old }
    ensures { Wrote out.old at (ending last) out.new result × (result ≤ at + 1) }
{
    if last {
        return base_text::put_byte(out, at, b'\n');
    }
    base_text::put_byte(out, at, b'\t')
}

// At most 17 fields of at most 21 bytes, each ended; the next place.
pub fn put_line(
    out: &mut [u8],
    at: usize,
    instruction: Instruction,
    lines: &[u16],
    start: u32,
) -> usize
    requires { at + 374 ≤ length out.old }
    ensures { Wrote out.old at (spell (tokens_of (lands_in start lines.now) instruction) ++ (10 ∷ [])) out.new result × (result ≤ at + 374) }
{
    let mut numbers = numeric_form::NO_NUMBERS;
    numeric_form::write_numbers(instruction, &mut numbers);
    let count = numbers.count;
    let mut kinds = sheet_kinds::INSTRUCTION;
    let mut next = at;
    let mut i: usize = 0;
    while i < count {
        if kinds == 0 {
            return next;
        }
        let kind = sheet_kinds::first(kinds);
        let number = numbers.places[i];
        next = put_field(out, next, kind, number, lines, start);
        kinds = sheet_kinds::next(kinds, number.magnitude);
        i += 1;
        next = put_end(out, next, (kinds == 0) | (i == count));
    }
    next
}
