// The refusal that a line prints.
#![tactic(auto)]

ghost use Rattle.std.specs.Prelude.{◌≡◌};
ghost use Rattle.base_spec.specs.Number.{number_in};
ghost use Rattle.base_text.specs.PartLaws.{parts_from};
ghost use Rattle.base_spec.specs.Numbers as numbers;
ghost use Rattle.explain_spec.specs.Refusal.{first_number, others, is_closed, is_below_zero, is_plain, no_refusal, refusal_of, three_or_four, refusal_from, refusal_in};

use base_spec::Literal;
use explain_spec::Refusal;

// What the field that begins at `from` says; none begins past the end.
fn first_number(line: &[u8], from: usize) -> Option<Literal>
    ensures { number_in result ≡ first_number (parts_from 9 line.now from) }
{
    if line.len() < from {
        return None;
    }
    let e = base_text::field_end(line, from);
    base_text::read_number(&line[from..e])
}

// Where the field after it begins.
fn next_field(line: &[u8], from: usize) -> usize
    ensures { parts_from 9 line.now result ≡ others (parts_from 9 line.now from) }
{
    if line.len() < from {
        return from;
    }
    base_text::field_end(line, from) + 1
}

// Whether a refusal ends here.
fn is_closed(line: &[u8], from: usize) -> bool
    ensures { result ≡ is_closed (parts_from 9 line.now from) }
{
    if line.len() < from {
        return true;
    }
    let e = base_text::field_end(line, from);
    sheet_field::equal(&line[from..e], b"=>")
}

fn is_number(n: Option<Literal>) -> bool
    ensures { result ≡ numbers.is_number (number_in n) }
{
    n.is_some()
}

fn is_below_zero(n: Option<Literal>) -> bool
    ensures { result ≡ is_below_zero (number_in n) }
{
    match n {
        Some(literal) => literal.negative,
        None => false,
    }
}

fn magnitude_of(n: Option<Literal>) -> u64
    ensures { result ≡ numbers.magnitude_of (number_in n) }
{
    match n {
        Some(literal) => literal.magnitude,
        None => 0,
    }
}

// A number with no sign.
fn is_plain(n: Option<Literal>) -> bool
    ensures { result ≡ is_plain (number_in n) }
{
    is_number(n) & !is_below_zero(n)
}

fn no_refusal() -> Refusal
    ensures { result ≡ no_refusal }
{
    Refusal {
        number: 0,
        sheet: false,
        line: 0,
        detail: 0,
        negative: false,
        value: 0,
    }
}

fn refusal_of(
    sheet: bool,
    number: Option<Literal>,
    line: Option<Literal>,
    detail: Option<Literal>,
    value: Option<Literal>,
) -> Refusal
    ensures { result ≡ refusal_of sheet (number_in number) (number_in line) (number_in detail) (number_in value) }
{
    if is_plain(number) & is_plain(line) & is_plain(detail) & is_number(value) {
        return Refusal {
            number: magnitude_of(number),
            sheet: sheet,
            line: magnitude_of(line),
            detail: magnitude_of(detail),
            negative: is_below_zero(value),
            value: magnitude_of(value),
        };
    }
    no_refusal()
}

// Three numbers, or four; the field after the third begins at `from`.
fn three_or_four(
    line: &[u8],
    from: usize,
    a: Option<Literal>,
    b: Option<Literal>,
    c: Option<Literal>,
) -> Refusal
    ensures { result ≡ three_or_four (number_in a) (number_in b) (number_in c) (parts_from 9 line.now from) }
{
    if is_closed(line, from) {
        let none = Some(Literal {
            negative: false,
            magnitude: 0,
        });
        return refusal_of(false, a, none, b, c);
    }
    let next = next_field(line, from);
    if is_closed(line, next) {
        return refusal_of(true, a, b, c, first_number(line, from));
    }
    no_refusal()
}

// The refusal that the fields behind `refused` write.
fn refusal_from(line: &[u8], from: usize) -> Refusal
    ensures { result ≡ refusal_from (parts_from 9 line.now from) }
{
    let second = next_field(line, from);
    let third = next_field(line, second);
    let rest = next_field(line, third);
    let a = first_number(line, from);
    let b = first_number(line, second);
    let c = first_number(line, third);
    three_or_four(line, rest, a, b, c)
}

pub fn refusal_in(line: &[u8]) -> Refusal
    ensures { result ≡ refusal_in line.now }
{
    let e = base_text::field_end(line, 0);
    if sheet_field::equal(&line[..e], b"refused") {
        return refusal_from(line, e + 1);
    }
    no_refusal()
}
