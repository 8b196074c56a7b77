// An image line that is read: the start in decimal, then words of four capital hexadecimal digits, parted by tabs, ended by LF.
#![tactic(auto)]

ghost use Rattle.std.specs.Prelude.{◌≡◌, true, map, ◌+◌, ◌≤◌, length};
ghost use Rattle.base_spec.specs.Number.{number_in};
ghost use Rattle.base_text.specs.PartLaws.{parts_from};
ghost use Rattle.sheet_spec.specs.Translate.{over};
ghost use Rattle.srecord_line.specs.Line.{address_or, four_or, word_or, Counts, no_line, body_of, body_left, line_of, words_left};
ghost use Rattle.srecord_line.specs.LineForm.{are_capital_words, capital_word};

use base_spec::Literal;

// The start and how many words there are; or that it is no image line, or has more words than are lent.
#[derive(Clone, Copy)]
pub struct ImageLine {
    pub ok: bool,
    pub start: u32,
    pub count: usize,
}

// The word of four digits; 65,536 where one is none.
fn four_digits(a: usize, b: usize, c: usize, d: usize) -> usize
    ensures { (result ≡ four_or a b c d) × (result ≤ 65536) }
{
    if (a < 16) & (b < 16) & (c < 16) & (d < 16) {
        return a * 4096 + b * 256 + c * 16 + d;
    }
    65536
}

// The word of a field; 65,536 where it is none.
fn read_word(f: &[u8]) -> usize
    ensures { (result ≡ word_or f.now) × (result ≤ 65536) }
{
    if f.len() != 4 {
        return 65536;
    }
    four_digits(
        srecord_digits::digit_value(f[0]),
        srecord_digits::digit_value(f[1]),
        srecord_digits::digit_value(f[2]),
        srecord_digits::digit_value(f[3]),
    )
}

// The address that a field says; 2^32 where it says none.
fn address_in(n: Option<Literal>) -> u64
    ensures { result ≡ address_or (number_in n) }
{
    match n {
        Some(literal) => {
            if !literal.negative & (literal.magnitude < 0x1_0000_0000) {
                literal.magnitude
            } else {
                0x1_0000_0000
            }
        }
        None => 0x1_0000_0000,
    }
}

// Whether all fields from `from` on are words, and how many.
#[derive(Clone, Copy)]
struct Fields {
    pub ok: bool,
    pub count: usize,
}

fn count_words(body: &[u8], from: usize) -> Fields
    requires { from ≤ length body.now + 1 }
    ensures { Counts (parts_from 9 body.now from) result }
{
    let mut at = from;
    let mut count: usize = 0;
    while at <= body.len() {
        let e = base_text::field_end(body, at);
        if 65535 < read_word(&body[at..e]) {
            return Fields {
                ok: false,
                count: 0,
            };
        }
        count += 1;
        at = e + 1;
    }
    Fields {
        ok: true,
        count: count,
    }
}

// The words of all fields from `from` on, from the first place on.
fn fill(body: &[u8], from: usize, words: &mut [u16])
    requires { (from ≤ length body.now + 1) × (length (parts_from 9 body.now from) ≤ length words.old) × (are_capital_words (parts_from 9 body.now from) ≡ true) }
    ensures { words.new ≡ over (map capital_word (parts_from 9 body.now from)) words.old }
{
    let mut at = from;
    let mut i: usize = 0;
    while at <= body.len() {
        let e = base_text::field_end(body, at);
        words[i] = read_word(&body[at..e]) as u16;
        i += 1;
        at = e + 1;
    }
}

fn no_line() -> ImageLine
    ensures { result ≡ no_line }
{
    ImageLine {
        ok: false,
        start: 0,
        count: 0,
    }
}

// A line without its LF.
fn read_body(body: &[u8], words: &mut [u16]) -> ImageLine
    ensures { (result ≡ body_of body.now (length words.old)) × (words.new ≡ body_left body.now words.old) }
{
    let e = base_text::field_end(body, 0);
    let start = address_in(base_text::read_number(&body[..e]));
    if 0xFFFF_FFFF < start {
        return no_line();
    }
    let fields = count_words(body, e + 1);
    if !fields.ok {
        return no_line();
    }
    if words.len() < fields.count {
        return no_line();
    }
    fill(body, e + 1, words);
    ImageLine {
        ok: true,
        start: start as u32,
        count: fields.count,
    }
}

// The words of a line into the lent places, where it is an image line and they are enough.
pub fn read_image_line(line: &[u8], words: &mut [u16]) -> ImageLine
    ensures { (result ≡ line_of line.now (length words.old)) × (words.new ≡ words_left line.now words.old) }
{
    let n = line.len();
    if n == 0 {
        return no_line();
    }
    if line[n - 1] != b'\n' {
        return no_line();
    }
    read_body(&line[..n - 1], words)
}
