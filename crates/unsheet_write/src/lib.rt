// The sheet of an image, written into lent bytes.
#![tactic(auto)]

ghost use Rattle.std.specs.Prelude.{◌≡◌, [], ◌∷◌, ◌++◌, ◌+◌, ◌*◌, ◌^◌, ◌≤◌, ◌<◌, pos, length, drop, replicate};
ghost use Rattle.base_text.specs.Wrote.{Wrote};
ghost use Rattle.read_spec.specs.Read.{read_of};
ghost use Rattle.read_spec.specs.Reading.{as_reading};
ghost use Rattle.sheet_spec.specs.Sheet.{end_of};
ghost use Rattle.sheet_spec.specs.Made.{is_some};
ghost use Rattle.sheet_spec.specs.Follow.{next_of};
ghost use Rattle.sheet_spec.specs.Promises.{start_text};
ghost use Rattle.sheet_spec.specs.Translate.{refused};
ghost use Rattle.unsheet_spec.specs.Lines.{address_at, lines_in};
ghost use Rattle.unsheet_spec.specs.Text.{spelled_line, text_by, sheet_text};
ghost use Rattle.unsheet_spec.specs.Unsheet.{goes_to_line, length_outcome, landed_outcome, found_outcome, unsheeted_as};
ghost use Rattle.unsheet_spec.specs.Promises.{SheetFound};
ghost use Rattle.unsheet_line.specs.Table.{lands_in};
ghost use Rattle.unsheet_write.specs.Survey.{taken_by, surveyed, stored, numbered, lands_by, astray, text_within};
ghost use Rattle.unsheet_write.specs.Chain.{Gives};

use isa::Instruction;
use read_spec::{Read, Unread};
use unsheet_spec::Unsheeted;

// What is read at a place of the image.
fn read_at(start: u32, image: &[u16], place: usize) -> Result<Read, Unread>
    requires { (end_of start (length image.now) ≤ 2 ^ 32) × (place < length image.now) }
    ensures { as_reading result ≡ read_of (drop place image.now) (address_at start place) }
{
    m68k_read::read(&image[place..], start + 2 * (place as u32))
}

// The words that a reading takes, or 5 or 6.
#[derive(Clone, Copy)]
struct Taken {
    pub words: usize,
    pub number: u8,
}

fn taken_by(reading: Result<Read, Unread>) -> Taken
    ensures { result ≡ taken_by (as_reading reading) }
{
    match reading {
        Ok(read) => Taken {
            words: (read.bytes / 2) as usize,
            number: 0,
        },
        Err(Unread::Short) => Taken {
            words: 0,
            number: 5,
        },
        Err(Unread::Nothing) => Taken {
            words: 0,
            number: 6,
        },
    }
}

// The number of a line at the place where it begins, while it is at most 4,096.
fn store(lines: &mut [u16], place: usize, count: usize)
    ensures { lines.new ≡ stored lines.old place count }
{
    if count <= 4096 {
        if place < lines.len() {
            lines[place] = count as u16;
        }
    }
}

// How many lines there are, or 5 or 6 at a place.
#[derive(Clone, Copy)]
struct Surveyed {
    pub lines: usize,
    pub number: u8,
    pub place: usize,
}

// The lines counted, each with its number in the table.
fn survey(start: u32, image: &[u16], lines: &mut [u16]) -> Surveyed
    requires { end_of start (length image.now) ≤ 2 ^ 32 }
    ensures { (result ≡ surveyed 0 (lines_in start image.now)) × (lines.new ≡ numbered 1 (lines_in start image.now) lines.old) × (result.place ≤ length image.now) }
{
    let mut place: usize = 0;
    let mut count: usize = 0;
    while place < image.len() {
        let l = taken_by(read_at(start, image, place));
        if l.number != 0 {
            return Surveyed {
                lines: count,
                number: l.number,
                place,
            };
        }
        count += 1;
        store(lines, place, count);
        place += l.words;
    }
    Surveyed {
        lines: count,
        number: 0,
        place: 0,
    }
}

fn is_line(lines: &[u16], start: u32, target: u32) -> bool
    ensures { result ≡ is_some (lands_in start lines.now target) }
{
    unsheet_line::line_at(lines, start, target as u64) != 0
}

// Whether an instruction lands on a line, if it is a branch.
fn instruction_lands(i: Instruction, lines: &[u16], start: u32) -> bool
    ensures { result ≡ goes_to_line (lands_in start lines.now) (next_of i) }
{
    match i {
        Instruction::Bcc(t, _, _) => is_line(lines, start, t),
        Instruction::DBcc(_, t, _) => is_line(lines, start, t),
        Instruction::Branch(_, t, _) => is_line(lines, start, t),
        _ => true,
    }
}

fn lands(reading: Result<Read, Unread>, lines: &[u16], start: u32) -> bool
    ensures { result ≡ lands_by (lands_in start lines.now) (as_reading reading) }
{
    match reading {
        Ok(read) => instruction_lands(read.instruction, lines, start),
        Err(Unread::Short) => true,
        Err(Unread::Nothing) => true,
    }
}

// The place of the first branch that lands on no line; the image's length where each lands.
fn first_astray(start: u32, image: &[u16], lines: &[u16]) -> usize
    requires { end_of start (length image.now) ≤ 2 ^ 32 }
    ensures { (result ≡ astray (lands_in start lines.now) (length image.now) (lines_in start image.now)) × (result ≤ length image.now) }
{
    let mut place: usize = 0;
    while place < image.len() {
        let reading = read_at(start, image, place);
        if !lands(reading, lines, start) {
            return place;
        }
        let l = taken_by(reading);
        if l.number != 0 {
            return image.len();
        }
        place += l.words;
    }
    image.len()
}

// START and the start's address.
fn put_start(out: &mut [u8], start: u32) -> usize
    requires { 27 ≤ length out.old }
    ensures { Wrote out.old 0 (start_text start ++ (10 ∷ [])) out.new result × (result ≤ 27) }
{
    let mut next = base_text::put(out, 0, b"START\t");
    next = base_text::put_decimal(out, next, start as u64);
    base_text::put_byte(out, next, b'\n')
}

// The line of a reading.
fn put_reading(
    out: &mut [u8],
    at: usize,
    reading: Result<Read, Unread>,
    lines: &[u16],
    start: u32,
) -> usize
    requires { at + 374 ≤ length out.old }
    ensures { Wrote out.old at (spelled_line (lands_in start lines.now) (as_reading reading)) out.new result × (result ≤ at + 374) }
{
    match reading {
        Ok(read) => unsheet_line::put_line(out, at, read.instruction, lines, start),
        Err(Unread::Short) => at,
        Err(Unread::Nothing) => at,
    }
}

// The lines from place `from` on, each that begins within 65,536 bytes; the next place.
fn put_lines(out: &mut [u8], from: usize, start: u32, image: &[u16], lines: &[u16]) -> usize
    requires { (end_of start (length image.now) ≤ 2 ^ 32) × (from ≤ 65536) × (65910 ≤ length out.old) }
    ensures { Wrote out.old from (text_within (lands_in start lines.now) from (lines_in start image.now)) out.new result × (result ≤ 65910) }
{
    let mut at = from;
    let mut place: usize = 0;
    while place < image.len() {
        if 65536 < at {
            return at;
        }
        let reading = read_at(start, image, place);
        at = put_reading(out, at, reading, lines, start);
        let l = taken_by(reading);
        if l.number != 0 {
            return at;
        }
        place += l.words;
    }
    at
}

fn refusal(number: u8, place: usize) -> Unsheeted
    requires { place < 2 ^ 32 }
    ensures { result ≡ unsheeted_as (refused number 0 0 (pos place)) 0 0 }
{
    Unsheeted {
        bytes: 0,
        lines: 0,
        number,
        value: place as i64,
    }
}

// 65,536 bytes, and a line that begins within them.
fn text_places() -> [u8; 65910]
    ensures { (result ≡ replicate 65910 0) × (65910 ≡ length result) }
{
    [0; 65910]
}

// The text, or 17.
fn written(start: u32, image: &[u16], lines: &[u16], count: usize, text: &mut [u8]) -> Unsheeted
    requires { end_of start (length image.now) ≤ 2 ^ 32 }
    ensures { Gives (length_outcome (text_by (lands_in start lines.now) start (lines_in start image.now)) (length text.old)) (text_by (lands_in start lines.now) start (lines_in start image.now)) count text.old text.new result }
{
    let mut out = text_places();
    let from = put_start(&mut out, start);
    let n = put_lines(&mut out, from, start, image, lines);
    if 65536 < n {
        return refusal(17, 0);
    }
    if text.len() < n {
        return refusal(17, 0);
    }
    base_text::put(text, 0, &out[..n]);
    Unsheeted {
        bytes: n,
        lines: count,
        number: 0,
        value: 0,
    }
}

// 16 for the first branch that lands on no line, then the text.
fn landed(start: u32, image: &[u16], lines: &[u16], count: usize, text: &mut [u8]) -> Unsheeted
    requires { end_of start (length image.now) ≤ 2 ^ 32 }
    ensures { Gives (landed_outcome (lands_in start lines.now) (lines_in start image.now) (text_by (lands_in start lines.now) start (lines_in start image.now)) (length text.old)) (text_by (lands_in start lines.now) start (lines_in start image.now)) count text.old text.new result }
{
    let place = first_astray(start, image, lines);
    if place < image.len() {
        return refusal(16, place);
    }
    written(start, image, lines, count, text)
}

// A place for each word of 4,096 lines; a reading takes 13 at most.
fn line_places() -> [u16; 53248]
    ensures { (result ≡ replicate 53248 0) × (53248 ≡ length result) }
{
    [0; 53248]
}

// 5 or 6 along the image, 10 for over 4,096 lines, then 16 and the text.
fn found(start: u32, image: &[u16], text: &mut [u8]) -> Unsheeted
    requires { end_of start (length image.now) ≤ 2 ^ 32 }
    ensures { Gives (found_outcome start image.now (length text.old)) (sheet_text start image.now) (length (lines_in start image.now)) text.old text.new result }
{
    let mut lines = line_places();
    let s = survey(start, image, &mut lines);
    if s.number != 0 {
        return refusal(s.number, s.place);
    }
    if 4096 < s.lines {
        return refusal(10, 0);
    }
    landed(start, image, &lines, s.lines, text)
}

// The sheet of the image from `start` on; the bytes written and the lines, or a refusal with the text unchanged.
pub fn unsheet(start: u32, image: &[u16], text: &mut [u8]) -> Unsheeted
    ensures { SheetFound start image.now text.old text.new result }
{
    if start % 2 != 0 {
        return refusal(9, 0);
    }
    if (4294967296 - start as usize) / 2 < image.len() {
        return refusal(9, 0);
    }
    if image.len() == 0 {
        return refusal(5, 0);
    }
    found(start, image, text)
}
