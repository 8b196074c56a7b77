// The translator's passes over the lines of a sheet, one loop each.
#![tactic(auto)]

ghost use Rattle.std.specs.Prelude.{◌≡◌, ◌+◌, ◌<◌, ◌≤◌, true, length};
ghost use Rattle.sheet_spec.specs.Line.{line_of};
ghost use Rattle.sheet_spec.specs.Made.{turned_back, judged};
ghost use Rattle.sheet_spec.specs.Sheet.{sized_as, sizes_of, encoded_line, encoded_words, all_words};
ghost use Rattle.sheet_spec.specs.Translate.{in_order, refused, encoding, over};
ghost use Rattle.sheet_passes.specs.Passes.{parsed_at, passed_of, filled_of, line_encoded, Placed, encoded_at};
ghost use Rattle.sheet_passes.specs.Settle.{judged_instruction, judged_made, judged_line, sized_sheet, has_at, not_refused, why_refused, Settled};

use isa::{Encoded, Instruction, Measured};
use numeric_spec::Built;

// What `size` says of a line, and whether the line, unless it has a label, is accepted by `encode`.
#[derive(Clone, Copy)]
struct LineJudged {
    measured: Measured,
    settled: bool,
}

// The first refusal with its line, or the words that were counted.
#[derive(Clone, Copy)]
pub struct Passed {
    pub number: u8,
    pub line: usize,
    pub detail: u8,
    pub value: i64,
    pub words: usize,
}

// The words that were counted, and whether each line without a label is accepted at its address; or the first refusal.
#[derive(Clone, Copy)]
pub struct Sized {
    pub passed: Passed,
    pub settled: bool,
}

// The size of what a line makes, or why the line is turned back.
pub fn sized_as(b: Built, named: bool) -> Measured
    ensures { result ≡ sized_as (judged b named) }
{
    match b {
        Built::Instruction(i) => {
            if named {
                return m68k_encode::size(i);
            }
            turned_back(8)
        }
        Built::NotInForm => turned_back(7),
    }
}

fn turned_back(number: u8) -> Measured
    ensures { result ≡ sized_as (turned_back number) }
{
    Measured {
        size: 0,
        number,
        detail: 0,
        value: 0,
    }
}

// The size of an instruction by its words, where it has an encoding.
fn judge_instruction(i: Instruction, address: u32) -> LineJudged
    ensures { result ≡ judged_instruction i address }
{
    let e = m68k_encode::encode(i, address);
    if e.number == 0 {
        let measured = Measured {
            size: 2 * e.count as u32,
            number: 0,
            detail: 0,
            value: 0,
        };
        return LineJudged {
            measured,
            settled: true,
        };
    }
    let measured = m68k_encode::size(i);
    LineJudged {
        measured,
        settled: false,
    }
}

fn judge_unlabelled(b: Built, address: u32) -> LineJudged
    ensures { result ≡ judged_made address (judged b true) }
{
    match b {
        Built::Instruction(i) => judge_instruction(i, address),
        Built::NotInForm => {
            let measured = turned_back(7);
            LineJudged {
                measured,
                settled: false,
            }
        }
    }
}

// A line of a sheet of so many lines, at its address.
fn judge(line: &[u8], lines: usize, address: u32) -> LineJudged
    requires { lines ≤ 4096 }
    ensures { result ≡ judged_line lines address (line_of line.now) }
{
    let made = sheet_line::read_line(line, lines, &[]);
    let built = made.built;
    if made.labelled {
        let measured = sized_as(built, made.resolves);
        return LineJudged {
            measured,
            settled: true,
        };
    }
    judge_unlabelled(built, address)
}

pub fn encoded_as(b: Built, address: u32) -> Encoded
    ensures { result ≡ encoded_line address (judged b true) }
{
    match b {
        Built::Instruction(i) => m68k_encode::encode(i, address),
        Built::NotInForm => Encoded {
            words: [0; 11],
            count: 0,
            number: 7,
            detail: 0,
            value: 0,
        },
    }
}

// A line's words at its address, its labels made addresses.
fn encoded(line: &[u8], addresses: &[u32], address: u32) -> Encoded
    requires { length addresses.now ≤ 4096 }
    ensures { result ≡ line_encoded addresses.now (line_of line.now) address }
{
    let made = sheet_line::read_line(line, addresses.len(), addresses);
    let built = made.built;
    encoded_as(built, address)
}

pub fn refused_at(k: usize, number: u8, detail: u8, value: i64) -> Passed
    requires { k < 4096 }
    ensures { result ≡ passed_of (refused number (k + 1) detail value) 0 }
{
    Passed {
        number,
        line: k + 1,
        detail,
        value,
        words: 0,
    }
}

pub fn in_order(words: usize) -> Passed
    ensures { result ≡ passed_of in_order words }
{
    Passed {
        number: 0,
        line: 0,
        detail: 0,
        value: 0,
        words,
    }
}

// Each line measured, and its address put into the scratch.
pub fn sizes(text: &[u8], from: usize, lines: usize, start: u32, scratch: &mut [u32]) -> Sized
    requires { (lines ≡ length (parsed_at text.now from)) × (lines ≤ 4096) × (lines ≤ length scratch.old) }
    ensures { (result ≡ sized_sheet start (parsed_at text.now from))
        × (scratch.new ≡ over (filled_of start (sizes_of (parsed_at text.now from))) scratch.old) }
{
    let mut next = from;
    let mut k: usize = 0;
    let mut words: usize = 0;
    let mut settled = true;
    while next < text.len() {
        let e = base_text::line_end(text, next);
        let address = std::num::wrapping_add_u32(start, 2 * words as u32);
        let j = judge(&text[next..e], lines, address);
        let m = j.measured;
        if m.number != 0 {
            let passed = refused_at(k, m.number, m.detail, m.value);
            return Sized {
                passed,
                settled: false,
            };
        }
        scratch[k] = address;
        words = words + (m.size / 2) as usize;
        settled = settled & j.settled;
        k += 1;
        next = e + 1;
    }
    let passed = in_order(words);
    Sized { passed, settled }
}

fn has_at(line: &[u8]) -> bool
    ensures { result ≡ has_at line.now }
{
    let mut i: usize = 0;
    while i < line.len() {
        if line[i] == b'@' {
            return true;
        }
        i += 1;
    }
    false
}

fn not_refused() -> Measured
    ensures { result ≡ not_refused }
{
    Measured {
        size: 0,
        number: 0,
        detail: 0,
        value: 0,
    }
}

// Why `encode` refuses a line at its address. Where the lines are settled, it accepts one without a label.
fn why_refused(line: &[u8], addresses: &[u32], address: u32, settled: bool) -> Measured
    requires { length addresses.now ≤ 4096 }
    ensures { result ≡ why_refused addresses.now line.now address settled }
{
    if has_at(line) | !settled {
        let e = encoded(line, addresses, address);
        return Measured {
            size: 0,
            number: e.number,
            detail: e.detail,
            value: e.value,
        };
    }
    not_refused()
}

// Each line encoded at its address, to the first that is refused.
pub fn ranges(text: &[u8], from: usize, addresses: &[u32], settled: bool) -> Passed
    requires { Placed addresses.now (parsed_at text.now from) × (settled ≡ true → Settled addresses.now (parsed_at text.now from)) }
    ensures { result ≡ passed_of (encoding (encoded_at addresses.now (parsed_at text.now from))) 0 }
{
    let mut next = from;
    let mut k: usize = 0;
    while next < text.len() {
        let end = base_text::line_end(text, next);
        let m = why_refused(&text[next..end], addresses, addresses[k], settled);
        if m.number != 0 {
            return refused_at(k, m.number, m.detail, m.value);
        }
        k += 1;
        next = end + 1;
    }
    in_order(0)
}

// The words that count, at the front of the part.
pub fn put_words(part: &mut [u16], e: Encoded)
    requires { (e.count ≤ 11) × (e.count ≤ length part.old) }
    ensures { part.new ≡ over (encoded_words e) part.old }
{
    let words = e.words;
    let count = e.count;
    let mut i: usize = 0;
    while i < count {
        part[i] = words[i];
        i += 1;
    }
}

// Each line's words, from the image's first word on; how many there are.
pub fn write(text: &[u8], from: usize, addresses: &[u32], image: &mut [u16]) -> usize
    requires { Placed addresses.now (parsed_at text.now from) × (length (all_words (encoded_at addresses.now (parsed_at text.now from))) ≤ length image.old) }
    ensures { (result ≡ length (all_words (encoded_at addresses.now (parsed_at text.now from))))
        × (image.new ≡ over (all_words (encoded_at addresses.now (parsed_at text.now from))) image.old) }
{
    let mut next = from;
    let mut k: usize = 0;
    let mut at: usize = 0;
    while next < text.len() {
        let end = base_text::line_end(text, next);
        let e = encoded(&text[next..end], addresses, addresses[k]);
        put_words(&mut image[at..], e);
        at = at + e.count;
        k += 1;
        next = end + 1;
    }
    at
}
