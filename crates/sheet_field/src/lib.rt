// What one field of a sheet's line says, by its kind.
#![tactic(auto)]

ghost use Rattle.std.specs.Prelude.{◌≡◌};
ghost use Rattle.base_spec.specs.Number.{number_of};
ghost use Rattle.sheet_spec.specs.Line.{as_number, as_label, as_variant, token};
ghost use Rattle.sheet_spec.specs.Line as line;
ghost use Rattle.sheet_tokens.specs.Values.{value_of};
ghost use Rattle.sheet_tokens.specs.Values as values;
ghost use Rattle.sheet_field.specs.LineNumber.{line_after};
ghost use Rattle.sheet_field.specs.Place.{place_value};

use crate::long::long_place;
use crate::short::{key, short_place};
use sheet_spec::Kind;
use sheet_tokens::Value;

mod long;
mod short;

/// Whether two texts are equal.
pub fn equal(f: &[u8], g: &[u8]) -> bool
    ensures { result ≡ line.equal f.now g.now }
{
    f == g
}

// What a number's field says.
fn number(f: &[u8]) -> Option<Value>
    ensures { result ≡ value_of (as_number (number_of f.now)) }
{
    match base_text::read_number(f) {
        Some(literal) => Some(Value::Number {
            negative: literal.negative,
            magnitude: literal.magnitude,
        }),
        None => None,
    }
}

// A line's number, 4,097 where it is more than 4,096.
fn capped(n: u64) -> u64
    ensures { result ≡ values.capped n }
{
    n.min(4_097)
}

// The line whose number digits write, of any length.
fn line_number(digits: &[u8]) -> Option<Value>
    ensures { result ≡ line_after 0 digits.now }
{
    let mut line = 0;
    for &digit in digits {
        if !digit.is_ascii_digit() {
            return None;
        }
        line = capped(line * 10 + u64::from(digit - b'0'));
    }
    Some(Value::Line(line))
}

// `@` and a line's number with no leading zero.
fn line_name(f: &[u8]) -> Option<Value>
    ensures { result ≡ value_of (as_label f.now) }
{
    match f {
        [b'@', b'0', _, ..] => None,
        [b'@', digits @ ..] if !digits.is_empty() => line_number(digits),
        _ => None,
    }
}

// A label or a number.
fn place(f: &[u8]) -> Option<Value>
    ensures { result ≡ value_of (token Kind.Place f.now) }
{
    match f {
        [b'@', ..] => line_name(f),
        _ => number(f),
    }
}

// The value of a variant's name, by its place.
fn at(place: Option<u64>) -> Option<Value>
    ensures { result ≡ place_value place }
{
    match place {
        Some(magnitude) => Some(Value::Number {
            negative: false,
            magnitude,
        }),
        None => None,
    }
}

// A variant's name. No name ends in a byte 0, so a key decides a field.
fn variant(kind: Kind, f: &[u8]) -> Option<Value>
    ensures { result ≡ value_of (as_variant kind f.now) }
{
    if f.len() == 0 {
        return None;
    }
    if 8 < f.len() {
        return at(long_place(kind, f));
    }
    if f[f.len() - 1] == 0 {
        return None;
    }
    at(short_place(kind, key(f)))
}

/// What a field of a kind says; none where it is not in the form.
pub fn value(kind: Kind, f: &[u8]) -> Option<Value>
    ensures { result ≡ value_of (token kind f.now) }
{
    match kind {
        Kind::Number => number(f),
        Kind::Target => line_name(f),
        Kind::Place => place(f),
        _ => variant(kind, f),
    }
}
