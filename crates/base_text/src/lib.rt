// Text as bytes: lines and fields, decimal numbers, and their writing into lent places.
#![tactic(auto)]

ghost use Rattle.std.specs.Prelude.{◌≡◌, [], ◌∷◌, ◌+◌, ◌/◌, ◌%◌, ◌≤◌, ◌<◌, length, Some};
ghost use Rattle.base_text.specs.Parts.{part_end};
ghost use Rattle.base_text.specs.Number.{digits_from};
ghost use Rattle.base_spec.specs.Number.{number_in, unsigned_of, negated, number_of};
ghost use Rattle.base_text.specs.Numbers.{no_numbers, line_numbers, placed_number, with_number};
ghost use Rattle.base_spec.specs.Written.{placed, hex_digit, hex2_of, hex4_of, hex8_of, decimal_of, signed_of};
ghost use Rattle.base_text.specs.Wrote.{Wrote};
ghost use Rattle.base_spec.specs.Refused.{field_text, refused_text, refusal_text, not_in_form, too_long};

use base_spec::Literal;

/// Where the part that begins at `from` ends: the next `stop`, or the end.
pub fn part_end(s: &[u8], from: usize, stop: u8) -> usize
    requires { from ≤ length s.now }
    ensures { (result ≡ part_end stop s.now from) × (result ≤ length s.now) }
{
    for i in from..s.len() {
        if s[i] == stop {
            return i;
        }
    }
    s.len()
}

/// Where the line that begins at `from` ends.
// Eight bytes at a time: 73 instructions a line of 23 bytes, 122 by `part_end`; the kit's `memchr` (57) would be one more crate to trust.
pub fn line_end(text: &[u8], from: usize) -> usize
    requires { from ≤ length text.now }
    ensures { (result ≡ part_end 10 text.now from) × (result ≤ length text.now) }
{
    let mut i = from;
    while 8 <= text.len() - i {
        if (text[i] == b'\n')
            | (text[i + 1] == b'\n')
            | (text[i + 2] == b'\n')
            | (text[i + 3] == b'\n')
            | (text[i + 4] == b'\n')
            | (text[i + 5] == b'\n')
            | (text[i + 6] == b'\n')
            | (text[i + 7] == b'\n')
        {
            return part_end(text, i, b'\n');
        }
        i += 8;
    }
    part_end(text, i, b'\n')
}

/// Where the field that begins at `from` ends.
pub fn field_end(line: &[u8], from: usize) -> usize
    requires { from ≤ length line.now }
    ensures { (result ≡ part_end 9 line.now from) × (result ≤ length line.now) }
{
    part_end(line, from, b'\t')
}

// The number that digits write.
fn digits(f: &[u8]) -> Option<Literal>
    ensures { number_in result ≡ digits_from 0 f.now }
{
    let mut a: u64 = 0;
    for &b in f {
        if b < b'0' || b'9' < b {
            return None;
        }
        a = a.checked_mul(10)?.checked_add(u64::from(b - b'0'))?;
    }
    Some(Literal {
        negative: false,
        magnitude: a,
    })
}

// A number with no sign and no leading zeros.
fn unsigned(f: &[u8]) -> Option<Literal>
    ensures { number_in result ≡ unsigned_of f.now }
{
    if f.len() == 0 {
        return None;
    }
    if f[0] == b'0' {
        if f.len() == 1 {
            return Some(Literal {
                negative: false,
                magnitude: 0,
            });
        }
        return None;
    }
    digits(f)
}

// The number with a minus before it; 0 has none.
fn below_zero(n: Literal) -> Option<Literal>
    ensures { number_in result ≡ negated (number_in (Some n)) }
{
    if n.magnitude == 0 {
        None
    } else {
        Some(Literal {
            negative: true,
            magnitude: n.magnitude,
        })
    }
}

/// What a field says.
pub fn read_number(f: &[u8]) -> Option<Literal>
    ensures { number_in result ≡ number_of f.now }
{
    if f.len() == 0 {
        return None;
    }
    if f[0] == b'-' {
        return below_zero(unsigned(&f[1..])?);
    }
    unsigned(f)
}

// The numbers of a line, where all its fields are numbers and at most 24.
#[derive(Clone, Copy)]
pub struct LineNumbers {
    pub ok: bool,
    pub count: usize,
    pub negative: [bool; 24],
    pub magnitude: [u64; 24],
}

fn no_numbers() -> LineNumbers
    ensures { result ≡ no_numbers }
{
    LineNumbers {
        ok: false,
        count: 0,
        negative: [false; 24],
        magnitude: [0; 24],
    }
}

// One number more.
fn place_number(r: LineNumbers, negative: bool, magnitude: u64) -> LineNumbers
    ensures { result ≡ placed_number r negative magnitude }
{
    let count = r.count;
    if r.ok & (count < 24) {
        let mut s = r;
        s.negative[count] = negative;
        s.magnitude[count] = magnitude;
        s.count = count + 1;
        return s;
    }
    no_numbers()
}

fn with_number(r: LineNumbers, n: Option<Literal>) -> LineNumbers
    ensures { result ≡ with_number r (number_in n) }
{
    match n {
        Some(literal) => place_number(r, literal.negative, literal.magnitude),
        None => no_numbers(),
    }
}

// What the fields of a line say.
pub fn read_numbers(line: &[u8]) -> LineNumbers
    ensures { result ≡ line_numbers line.now }
{
    let mut r = LineNumbers {
        ok: true,
        count: 0,
        negative: [false; 24],
        magnitude: [0; 24],
    };
    let mut from: usize = 0;
    while from <= line.len() {
        let e = field_end(line, from);
        let n = read_number(&line[from..e]);
        r = with_number(r, n);
        from = e + 1;
    }
    r
}

// Byte by byte: a call of memcpy costs more than a short text.
fn put_short(out: &mut [u8], at: usize, text: &[u8]) -> usize
    requires { at + length text.now ≤ length out.old }
    ensures { (result ≡ at + length text.now) × (out.new ≡ placed out.old at text.now) }
{
    let mut i: usize = 0;
    while i < text.len() {
        out[at + i] = text[i];
        i += 1;
    }
    at + i
}

fn put_long(out: &mut [u8], at: usize, text: &[u8]) -> usize
    requires { at + length text.now ≤ length out.old }
    ensures { (result ≡ at + length text.now) × (out.new ≡ placed out.old at text.now) }
{
    let end = at + text.len();
    out[at..end].copy_from_slice(text);
    end
}

/// The text from place `at` on; the next place.
pub fn put(out: &mut [u8], at: usize, text: &[u8]) -> usize
    requires { at + length text.now ≤ length out.old }
    ensures { (result ≡ at + length text.now) × (out.new ≡ placed out.old at text.now) }
{
    if text.len() < 16 {
        put_short(out, at, text)
    } else {
        put_long(out, at, text)
    }
}

/// One byte at place `at`; the next place.
pub fn put_byte(out: &mut [u8], at: usize, b: u8) -> usize
    requires { at + 1 ≤ length out.old }
    ensures { (result ≡ at + 1) × (out.new ≡ placed out.old at (b ∷ [])) }
{
    out[at] = b;
    at + 1
}

// The last hexadecimal digit. By `match`, and eight in one `put`: 0.15 M of the 13.3 M instructions of `sheet` (docs/BENCHMARKS.md).
fn hex_digit(w: u16) -> u8
    ensures { result ≡ hex_digit (w % 16) }
{
    match w % 16 {
        0 => b'0',
        1 => b'1',
        2 => b'2',
        3 => b'3',
        4 => b'4',
        5 => b'5',
        6 => b'6',
        7 => b'7',
        8 => b'8',
        9 => b'9',
        10 => b'A',
        11 => b'B',
        12 => b'C',
        13 => b'D',
        14 => b'E',
        _ => b'F',
    }
}

/// A byte as two hexadecimal digits.
pub fn put_hex2(out: &mut [u8], at: usize, b: u8) -> usize
    requires { at + 2 ≤ length out.old }
    ensures { (result ≡ at + 2) × (out.new ≡ placed out.old at (hex2_of b)) }
{
    let digits = [hex_digit(u16::from(b / 16)), hex_digit(u16::from(b))];
    put(out, at, &digits)
}

/// A word as four hexadecimal digits.
pub fn put_hex4(out: &mut [u8], at: usize, w: u16) -> usize
    requires { at + 4 ≤ length out.old }
    ensures { (result ≡ at + 4) × (out.new ≡ placed out.old at (hex4_of w)) }
{
    let digits = [
        hex_digit(w / 4096),
        hex_digit(w / 256),
        hex_digit(w / 16),
        hex_digit(w),
    ];
    put(out, at, &digits)
}

/// A long word as eight hexadecimal digits.
pub fn put_hex8(out: &mut [u8], at: usize, x: u32) -> usize
    requires { at + 8 ≤ length out.old }
    ensures { (result ≡ at + 8) × (out.new ≡ placed out.old at (hex8_of x)) }
{
    let high = (x / 65536) as u16;
    let low = (x % 65536) as u16;
    let digits = [
        hex_digit(high / 4096),
        hex_digit(high / 256),
        hex_digit(high / 16),
        hex_digit(high),
        hex_digit(low / 4096),
        hex_digit(low / 256),
        hex_digit(low / 16),
        hex_digit(low),
    ];
    put(out, at, &digits)
}

// The digits of n, where just they fit.
fn put_digits(out: &mut [u8], at: usize, n: u64) -> usize
    requires { at + length (decimal_of n) ≤ length out.old }
    ensures { (result ≡ at + length (decimal_of n)) × (out.new ≡ placed out.old at (decimal_of n)) }
{
    if n < 10 {
        return put_byte(out, at, b'0' + n as u8);
    }
    let next = put_digits(out, at, n / 10);
    put_byte(out, next, b'0' + (n % 10) as u8)
}

// Both digits of a number below 100.
fn put_two(out: &mut [u8], at: usize, n: u64) -> usize
    requires { (n < 100) × (at + 2 ≤ length out.old) }
    ensures { (result ≡ at + 2) × (out.new ≡ placed out.old at ((48 + n / 10) ∷ (48 + n % 10) ∷ [])) }
{
    out[at] = b'0' + (n / 10) as u8;
    out[at + 1] = b'0' + (n % 10) as u8;
    at + 2
}

// The digits of a number below 100.
fn put_below_100(out: &mut [u8], at: usize, n: u64) -> usize
    requires { (n < 100) × (at + 2 ≤ length out.old) }
    ensures { (result ≡ at + length (decimal_of n)) × (out.new ≡ placed out.old at (decimal_of n)) }
{
    if n < 10 {
        return put_byte(out, at, b'0' + n as u8);
    }
    put_two(out, at, n)
}

// A number below 10,000 two digits at a time.
pub fn put_decimal(out: &mut [u8], at: usize, n: u64) -> usize
    requires { at + 20 ≤ length out.old }
    ensures { (result ≡ at + length (decimal_of n)) × (out.new ≡ placed out.old at (decimal_of n)) }
{
    if n < 100 {
        return put_below_100(out, at, n);
    }
    if n < 10000 {
        let next = put_below_100(out, at, n / 100);
        return put_two(out, next, n % 100);
    }
    put_digits(out, at, n)
}

pub fn put_signed(out: &mut [u8], at: usize, v: i64) -> usize
    requires { at + 20 ≤ length out.old }
    ensures { (result ≡ at + length (signed_of v)) × (out.new ≡ placed out.old at (signed_of v)) }
{
    let b = base_signed::bits(v);
    if b < 0x8000_0000_0000_0000 {
        return put_digits(out, at, b);
    }
    let next = put_byte(out, at, b'-');
    put_digits(out, next, 0xFFFF_FFFF_FFFF_FFFF - b + 1)
}

// A number and a tab.
pub fn put_field(out: &mut [u8], at: usize, n: u64) -> usize
    requires { at + 21 ≤ length out.old }
    ensures { Wrote out.old at (field_text n) out.new result × (result ≤ at + 21) }
{
    let next = put_decimal(out, at, n);
    put_byte(out, next, b'\t')
}

// `refused`, number, detail and value.
pub fn put_refusal(out: &mut [u8], at: usize, number: u8, detail: u8, value: i64) -> usize
    requires { at + 36 ≤ length out.old }
    ensures { Wrote out.old at (refused_text number detail value) out.new result × (result ≤ at + 36) }
{
    let mut next = put(out, at, b"refused\t");
    next = put_field(out, next, number as u64);
    next = put_field(out, next, detail as u64);
    put_signed(out, next, value)
}

// A refusal with no detail and no value, a line of its own.
pub fn put_refused(out: &mut [u8], at: usize, number: u8) -> usize
    requires { at + 37 ≤ length out.old }
    ensures { Wrote out.old at (refusal_text number) out.new result × (result ≤ at + 37) }
{
    let next = put_refusal(out, at, number, 0, 0);
    put_byte(out, next, b'\n')
}

// What a line gets that is not in the form.
pub fn put_not_in_form(out: &mut [u8], at: usize) -> usize
    requires { at + 37 ≤ length out.old }
    ensures { Wrote out.old at not_in_form out.new result × (result ≤ at + 37) }
{
    put_refused(out, at, 7)
}

// What is printed for an input that is longer than a program takes.
pub fn too_long() -> [u8; 15]
    ensures { result ≡ too_long }
{
    *b"refused\t10\t0\t0\n"
}
