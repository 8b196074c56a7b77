// The passes over the lines of a sheet with one place for each block, 64 lines or as many as are left: a line's address is found from its block's place and the sizes of the lines before it in the block.
#![tactic(auto)]

ghost use Rattle.std.specs.Prelude.{◌≡◌, ◌/◌, ◌%◌, ◌<◌, ◌≤◌, map, length, take, if◌then◌else◌, nat_eq, slice_set};
ghost use Rattle.sheet_spec.specs.Line.{line_of};
ghost use Rattle.sheet_spec.specs.Made.{built_as};
ghost use Rattle.sheet_spec.specs.Sheet.{sized_of, sizes_of, half_of, total, sheet_in, addresses, all_words};
ghost use Rattle.sheet_spec.specs.Translate.{in_order, sparse, sizing, encoding, over};
ghost use Rattle.sheet_labels.specs.Labels as labels;
ghost use Rattle.sheet_labels.specs.Labels.{listed, aimed_to};
ghost use Rattle.sheet_passes.specs.Passes.{parsed_at, passed_of, line_encoded, encoded_at};
ghost use Rattle.sheet_blocks.specs.Blocks.{block_place, blocks_from, address_held, Blocks, BlockLines};

use isa::{Encoded, Measured};
use numeric_spec::Built;
use sheet_passes::Passed;

// A line of a sheet of so many lines, measured.
pub fn measure(line: &[u8], lines: usize) -> Measured
    requires { lines ≤ 4096 }
    ensures { result ≡ sized_of lines (line_of line.now) }
{
    let made = sheet_line::read_line(line, lines, &[]);
    let built = made.built;
    sheet_passes::sized_as(built, made.resolves)
}

// Line k + 1 begins at a place of the text, with so many words before it; where it is the first of a block, the block's place holds both.
fn put_block(places: &mut [u32], k: usize, at: usize, words: usize)
    requires { (at < 65536) × (words < 65536) × (k / 64 < length places.old) }
    ensures { places.new ≡ (if nat_eq (k % 64) 0 then slice_set places.old (k / 64) (block_place at words) else places.old) }
{
    if k % 64 == 0 {
        let block = k / 64;
        places[block] = (at * 65536 + words) as u32;
    }
}

// Each line measured, and the blocks put into the places.
pub fn sizes(text: &[u8], from: usize, lines: usize, places: &mut [u32]) -> Passed
    requires { (length text.now ≤ 65536) × (lines ≡ length (parsed_at text.now from)) × (lines ≤ 4096) × (sparse.needed lines ≤ length places.old) }
    ensures { (result ≡ passed_of (sizing (parsed_at text.now from)) (total (map half_of (sizes_of (parsed_at text.now from)))))
        × (places.new ≡ over (blocks_from text.now lines 0 from 0 (parsed_at text.now from)) places.old) }
{
    let mut next = from;
    let mut k: usize = 0;
    let mut words: usize = 0;
    while next < text.len() {
        let e = base_text::line_end(text, next);
        let m = measure(&text[next..e], lines);
        if m.number != 0 {
            return sheet_passes::refused_at(k, m.number, m.detail, m.value);
        }
        put_block(places, k, next, words);
        words = words + (m.size / 2) as usize;
        k += 1;
        next = e + 1;
    }
    sheet_passes::in_order(words)
}

// The words of so many lines from a place of the text on, of a sheet of `lines` lines.
fn words_of(text: &[u8], from: usize, count: usize, lines: usize) -> usize
    requires { (lines ≤ 4096) × (count ≤ 64) × (count ≤ length (parsed_at text.now from)) }
    ensures { (result ≡ total (take count (map half_of (map (sized_of lines) (parsed_at text.now from))))) × (result ≤ 704) }
{
    let mut next = from;
    let mut left = count;
    let mut words: usize = 0;
    while 0 < left {
        let e = base_text::line_end(text, next);
        let m = measure(&text[next..e], lines);
        words = words + (m.size / 2) as usize;
        left -= 1;
        next = e + 1;
    }
    words
}

fn wide(x: u32) -> usize
    ensures { result ≡ x }
{
    x as usize
}

// The address of line k, or 0 where there is none.
fn address_of(text: &[u8], lines: usize, start: u32, places: &[u32], k: u64) -> u64
    requires { Blocks text.now lines start places.now }
    ensures { result ≡ labels.address_in (addresses (sheet_in text.now)) k }
{
    if k == 0 {
        return 0;
    }
    if (lines as u64) < k {
        return 0;
    }
    let i = (k - 1) as usize;
    let place = wide(places[i / 64]);
    let words = place % 65536 + words_of(text, place / 65536, i % 64, lines);
    start as u64 + 2 * words as u64
}

// A number, or of a label the address of its line.
fn aim(text: &[u8], lines: usize, start: u32, places: &[u32], label: bool, number: u64) -> u64
    requires { Blocks text.now lines start places.now }
    ensures { result ≡ (if label then labels.address_in (addresses (sheet_in text.now)) number else number) }
{
    if label {
        return address_of(text, lines, start, places, number);
    }
    number
}

// Each label of the first places made its line's address.
fn aim_all(
    text: &[u8],
    lines: usize,
    start: u32,
    places: &[u32],
    count: usize,
    label: &[bool; 24],
    magnitude: &mut [u64; 24],
)
    requires { Blocks text.now lines start places.now × (count ≤ 24) }
    ensures { magnitude.new ≡ aimed_to count (labels.address_in (addresses (sheet_in text.now))) label.now magnitude.old }
{
    let mut i: usize = 0;
    while i < count {
        magnitude[i] = aim(text, lines, start, places, label[i], magnitude[i]);
        i += 1;
    }
}

// What a line makes, each label made its line's address.
fn built(text: &[u8], line: &[u8], lines: usize, start: u32, places: &[u32]) -> Built
    requires { Blocks text.now lines start places.now }
    ensures { result ≡ built_as (listed (addresses (sheet_in text.now))) (line_of line.now) }
{
    let mut negative: [bool; 24] = [false; 24];
    let mut magnitude: [u64; 24] = [0; 24];
    let mut label: [bool; 24] = [false; 24];
    let r = sheet_line::read_fields(line, lines, &mut negative, &mut magnitude, &mut label);
    if !r.ok {
        return Built::NotInForm;
    }
    if r.labelled {
        aim_all(text, lines, start, places, r.count, &label, &mut magnitude);
    }
    numeric_build::build_in(r.count, &negative, &magnitude, 0)
}

// A line's words at its address, each label made its line's address.
fn encoded(
    text: &[u8],
    line: &[u8],
    lines: usize,
    start: u32,
    places: &[u32],
    address: u32,
) -> Encoded
    requires { Blocks text.now lines start places.now }
    ensures { result ≡ line_encoded (addresses (sheet_in text.now)) (line_of line.now) address }
{
    let b = built(text, line, lines, start, places);
    sheet_passes::encoded_as(b, address)
}

// Each line encoded at its address, to the first that is refused.
pub fn ranges(text: &[u8], from: usize, lines: usize, start: u32, places: &[u32]) -> Passed
    requires { BlockLines text.now from lines start places.now }
    ensures { result ≡ passed_of (encoding (encoded_at (addresses (sheet_in text.now)) (parsed_at text.now from))) 0 }
{
    let mut next = from;
    let mut k: usize = 0;
    let mut words: usize = 0;
    while next < text.len() {
        let end = base_text::line_end(text, next);
        let address = std::num::wrapping_add_u32(start, 2 * words as u32);
        let e = encoded(text, &text[next..end], lines, start, places, address);
        if e.number != 0 {
            return sheet_passes::refused_at(k, e.number, e.detail, e.value);
        }
        words = words + e.count;
        k += 1;
        next = end + 1;
    }
    sheet_passes::in_order(0)
}

// Each line's words, from the image's first word on; how many there are.
pub fn write(
    text: &[u8],
    from: usize,
    lines: usize,
    start: u32,
    places: &[u32],
    image: &mut [u16],
) -> usize
    requires { BlockLines text.now from lines start places.now
        × (encoding (encoded_at (addresses (sheet_in text.now)) (parsed_at text.now from)) ≡ in_order)
        × (length (all_words (encoded_at (addresses (sheet_in text.now)) (parsed_at text.now from))) ≤ length image.old) }
    ensures { (result ≡ length (all_words (encoded_at (addresses (sheet_in text.now)) (parsed_at text.now from))))
        × (image.new ≡ over (all_words (encoded_at (addresses (sheet_in text.now)) (parsed_at text.now from))) image.old) }
{
    let mut next = from;
    let mut at: usize = 0;
    while next < text.len() {
        let end = base_text::line_end(text, next);
        let address = std::num::wrapping_add_u32(start, 2 * at as u32);
        let e = encoded(text, &text[next..end], lines, start, places, address);
        sheet_passes::put_words(&mut image[at..], e);
        at = at + e.count;
        next = end + 1;
    }
    at
}

// The address of each of so many blocks put into its place.
pub fn put_addresses(start: u32, blocks: usize, places: &mut [u32])
    requires { blocks ≤ length places.old }
    ensures { places.new ≡ over (map (address_held start) (take blocks places.old)) places.old }
{
    let mut i: usize = 0;
    while i < blocks {
        places[i] = std::num::wrapping_add_u32(start, 2 * (places[i] % 65536));
        i += 1;
    }
}
