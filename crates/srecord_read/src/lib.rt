// From a text of S-records to an image.
#![tactic(auto)]

ghost use Rattle.std.specs.Prelude.{◌≡◌, ◌+◌, ◌*◌, ◌-◌, ◌%◌, ◌^◌, ◌≤◌, ◌<◌, length};
ghost use Rattle.sheet_spec.specs.Translate.{over};
ghost use Rattle.srecord_spec.specs.Record.{address_width, pair_bytes, number_from};
ghost use Rattle.srecord_spec.specs.Promises.{RecordsRead};
ghost use Rattle.srecord_read.specs.Line.{sum_of, form_of, no_record, line_says, is_due, refusal_number};
ghost use Rattle.srecord_read.specs.Text.{refused_as, closed_as, checked_of};
ghost use Rattle.srecord_read.specs.Words.{word_of, words_of, data_words, data_in};

use srecord_spec::Loaded;

// What a line says: whether its form is right, whether its checksum is, and of a record in form whether it closes, its address and how many data bytes it has.
#[derive(Clone, Copy)]
struct Record {
    form: bool,
    right: bool,
    closing: bool,
    address: u32,
    size: usize,
}

// The low byte of the sum of the bytes that digits write; 256 where they are no pairs of digits.
fn sum_of(digits: &[u8]) -> usize
    ensures { result ≡ sum_of 0 digits.now }
{
    let mut sum: usize = 0;
    let mut i: usize = 0;
    while 2 <= digits.len() - i {
        let high = srecord_digits::digit_value(digits[i]);
        let low = srecord_digits::digit_value(digits[i + 1]);
        if !((high < 16) & (low < 16)) {
            return 256;
        }
        sum = (sum + (high * 16 + low)) % 256;
        i += 2;
    }
    if i < digits.len() {
        return 256;
    }
    sum
}

// The low 32 bits of the number that digits write.
fn number_of(digits: &[u8]) -> u32
    ensures { result ≡ number_from 0 (pair_bytes digits.now) % 2 ^ 32 }
{
    let mut n: usize = 0;
    let mut i: usize = 0;
    while 2 <= digits.len() - i {
        n = (n * 256 + srecord_digits::byte_of(digits[i], digits[i + 1])) % 0x1_0000_0000;
        i += 2;
    }
    n as u32
}

// The bytes of the address, by the digit of the type.
fn address_width(digit: u8) -> usize
    ensures { (result ≡ address_width (digit - 48)) × (result ≤ 4) }
{
    if (digit == b'1') | (digit == b'9') {
        return 2;
    }
    if (digit == b'2') | (digit == b'8') {
        return 3;
    }
    if (digit == b'3') | (digit == b'7') {
        return 4;
    }
    0
}

// Whether a line of so many bytes is in form, by `S` and the digit of the type, the width of its address, the sum of its bytes and its count.
fn is_form(first: u8, digit: u8, width: usize, sum: usize, count: usize, length: usize) -> bool
    requires { (width ≤ 4) × (count ≤ 272) }
    ensures { result ≡ form_of first digit width sum count length }
{
    (first == b'S')
        & (1 <= width)
        & (sum < 256)
        & (length == 4 + 2 * count)
        & (width + 1 <= count)
        & ((count + width) % 2 == 1)
        & ((digit < b'7') | (count == width + 1))
}

fn no_record() -> Record
    ensures { result ≡ no_record }
{
    Record {
        form: false,
        right: false,
        closing: false,
        address: 0,
        size: 0,
    }
}

// What a line says.
fn record_in(line: &[u8]) -> Record
    ensures { result ≡ line_says line.now }
{
    if line.len() < 4 {
        return no_record();
    }
    let digit = line[1];
    let width = address_width(digit);
    let sum = sum_of(&line[2..]);
    let count = srecord_digits::byte_of(line[2], line[3]);
    if !is_form(line[0], digit, width, sum, count, line.len()) {
        return no_record();
    }
    let end = 4 + 2 * width;
    let address = number_of(&line[4..end]);
    Record {
        form: true,
        right: sum == 255,
        closing: b'7' <= digit,
        address,
        size: count - width - 1,
    }
}

// Whether a record stands where it is due: a closing one names the start, another begins at next and does not pass 2^32.
fn is_due(r: Record, start: u32, next: u64) -> bool
    ensures { result ≡ is_due r start next }
{
    if r.closing {
        return r.address == start;
    }
    (r.address as u64 == next) & (r.size as u64 <= 0x1_0000_0000 - r.address as u64)
}

// The number of the refusal of a record, 0 where it is accepted.
fn refusal(r: Record, start: u32, next: u64) -> u8
    ensures { result ≡ refusal_number r start next }
{
    if !r.form {
        return 12;
    }
    if !r.right {
        return 13;
    }
    if is_due(r, start, next) {
        return 0;
    }
    14
}

fn refused_at(number: u8, line: usize) -> Loaded
    ensures { result ≡ refused_as number line }
{
    Loaded {
        start: 0,
        words: 0,
        number,
        line,
    }
}

// What is answered behind k records and a closing one, which is last or not.
fn closed(last: bool, start: u32, next: u64, k: usize) -> Loaded
    requires { (start ≤ next) × (k + 2 < 2 ^ 64) }
    ensures { result ≡ closed_as last start next k }
{
    if last {
        return Loaded {
            start,
            words: ((next - start as u64) / 2) as usize,
            number: 0,
            line: 0,
        };
    }
    refused_at(12, k + 2)
}

// Every record in turn: the start and the words, or the first refusal.
fn check(text: &[u8]) -> Loaded
    ensures { result ≡ checked_of text.now }
{
    let first = base_text::line_end(text, 0);
    let opening = record_in(&text[..first]);
    let start = opening.address;
    let mut next = start as u64;
    let mut k: usize = 0;
    let mut from: usize = 0;
    while from < text.len() {
        let e = base_text::line_end(text, from);
        if e == text.len() {
            return refused_at(12, k + 1);
        }
        let r = record_in(&text[from..e]);
        let number = refusal(r, start, next);
        if number != 0 {
            return refused_at(number, k + 1);
        }
        if r.closing {
            return closed(e + 1 == text.len(), start, next, k);
        }
        next = next + r.size as u64;
        k += 1;
        from = e + 1;
    }
    refused_at(12, k + 1)
}

// The word of four digits.
fn word_of(a: u8, b: u8, c: u8, d: u8) -> u16
    ensures { result ≡ word_of a b c d }
{
    ((srecord_digits::byte_of(a, b) * 256 + srecord_digits::byte_of(c, d)) % 65536) as u16
}

// The words of digits, four a word, at the front of the part; how many there are.
fn put_words(part: &mut [u16], digits: &[u8]) -> usize
    requires { length (words_of digits.now) ≤ length part.old }
    ensures { (result ≡ length (words_of digits.now)) × (part.new ≡ over (words_of digits.now) part.old) }
{
    let mut at: usize = 0;
    let mut i: usize = 0;
    while 4 <= digits.len() - i {
        part[at] = word_of(digits[i], digits[i + 1], digits[i + 2], digits[i + 3]);
        at += 1;
        i += 4;
    }
    at
}

// The data of a line.
fn put_data(part: &mut [u16], line: &[u8]) -> usize
    requires { length (data_words line.now) ≤ length part.old }
    ensures { (result ≡ length (data_words line.now)) × (part.new ≡ over (data_words line.now) part.old) }
{
    if line.len() < 2 {
        return 0;
    }
    let begin = 4 + 2 * address_width(line[1]);
    if line.len() < begin + 2 {
        return 0;
    }
    let end = line.len() - 2;
    put_words(part, &line[begin..end])
}

// The data of all lines, from the image's first word on.
fn fill(text: &[u8], image: &mut [u16])
    requires { length (data_in text.now) ≤ length image.old }
    ensures { image.new ≡ over (data_in text.now) image.old }
{
    let mut at: usize = 0;
    let mut from: usize = 0;
    while from < text.len() {
        let e = base_text::line_end(text, from);
        let n = put_data(&mut image[at..], &text[from..e]);
        at = at + n;
        from = e + 1;
    }
}

// The text's words into the image: its start and how many words there are, or the refusal with the record's number as its line.
pub fn read_records(text: &[u8], image: &mut [u16]) -> Loaded
    ensures { RecordsRead text.now image.old image.new result }
{
    let r = check(text);
    if r.number != 0 {
        return r;
    }
    if image.len() < r.words {
        return refused_at(11, 0);
    }
    fill(text, image);
    r
}
