// The sheet translator: a sheet's words into a lent image, its lines' addresses into a lent scratch.
#![tactic(auto)]

ghost use Rattle.std.specs.Prelude.{◌≡◌, ◌≤◌, length, replicate};
ghost use Rattle.sheet_spec.specs.Sheet.{start_in};
ghost use Rattle.sheet_spec.specs.Translate as stage;
ghost use Rattle.sheet_spec.specs.Translate.{in_order, refused, full, listed_as};
ghost use Rattle.sheet_translate.specs.Translated.{outcome_number, SizedSheet};
ghost use Rattle.sheet_spec.specs.Promises.{Translated};

use sheet_passes::Passed;
use sheet_spec::Listed;

fn zero(s: &mut [u32])
    ensures { s.new ≡ replicate (length s.old) 0 }
{
    let mut i: usize = 0;
    while i < s.len() {
        s[i] = 0;
        i += 1;
    }
}

// A refusal; every place of the scratch is 0.
pub fn refuse(scratch: &mut [u32], number: u8, line: usize, detail: u8, value: i64) -> Listed
    ensures { (result ≡ listed_as (refused number line detail value) 0 0) × (scratch.new ≡ replicate (length scratch.old) 0) }
{
    zero(scratch);
    Listed {
        lines: 0,
        words: 0,
        number: number,
        line: line,
        detail: detail,
        value: value,
    }
}

// The refusal of a pass over the lines.
pub fn refuse_pass(scratch: &mut [u32], p: Passed) -> Listed
    ensures { (result ≡ listed_as (refused p.number p.line p.detail p.value) 0 0) × (scratch.new ≡ replicate (length scratch.old) 0) }
{
    refuse(scratch, p.number, p.line, p.detail, p.value)
}

// Before the lines: the sheet's outline, START, the scratch. 0 where all are in order.
pub fn opening(text: &[u8], places: usize) -> u8
    ensures { result ≡ outcome_number (stage.opening full text.now (start_in text.now) places) }
{
    if !sheet_start::is_sheet(text) {
        return 10;
    }
    let s = sheet_start::start(text);
    if !s.ok {
        return 7;
    }
    if s.address % 2 != 0 {
        return 9;
    }
    if places < sheet_start::feeds(text) - 1 {
        return 11;
    }
    0
}

// After all lines: the end, the image's room. 0 where both are in order.
pub fn closing(start: u32, words: usize, room: usize) -> u8
    requires { words ≤ 45056 }
    ensures { result ≡ outcome_number (stage.closing start words room) }
{
    if 4294967296 < start as usize + 2 * words {
        return 9;
    }
    if room < words {
        return 11;
    }
    0
}

// The lines' ranges, then their words.
fn lay_down(
    text: &[u8],
    from: usize,
    lines: usize,
    words: usize,
    settled: bool,
    image: &mut [u16],
    scratch: &mut [u32],
) -> Listed
    requires { SizedSheet text.now from lines words settled image.old scratch.old }
    ensures { Translated full text.now image.old scratch.old image.new scratch.new result }
{
    let p = sheet_passes::ranges(text, from, &scratch[..lines], settled);
    if p.number != 0 {
        return refuse_pass(scratch, p);
    }
    sheet_passes::write(text, from, &scratch[..lines], image);
    Listed {
        lines: lines,
        words: words,
        number: 0,
        line: 0,
        detail: 0,
        value: 0,
    }
}

// The lines of a sheet whose opening is in order.
fn translate_lines(text: &[u8], image: &mut [u16], scratch: &mut [u32]) -> Listed
    requires { stage.opening full text.now (start_in text.now) (length scratch.old) ≡ in_order }
    ensures { Translated full text.now image.old scratch.old image.new scratch.new result }
{
    let lines = sheet_start::feeds(text) - 1;
    let from = sheet_start::lines_begin(text);
    let s = sheet_start::start(text);
    let start = s.address;
    let sized = sheet_passes::sizes(text, from, lines, start, scratch);
    let p = sized.passed;
    if p.number != 0 {
        return refuse_pass(scratch, p);
    }
    let words = p.words;
    let number = closing(start, words, image.len());
    if number != 0 {
        return refuse(scratch, number, 0, 0, 0);
    }
    lay_down(text, from, lines, words, sized.settled, image, scratch)
}

// The sheet's counts of lines and words, with the words in the image and the lines' addresses in the scratch; or its refusal.
pub fn translate(text: &[u8], image: &mut [u16], scratch: &mut [u32]) -> Listed
    ensures { Translated full text.now image.old scratch.old image.new scratch.new result }
{
    let number = opening(text, scratch.len());
    if number != 0 {
        return refuse(scratch, number, 0, 0, 0);
    }
    translate_lines(text, image, scratch)
}
