// An image written as Motorola S-records into a lent text.
#![tactic(auto)]

ghost use Rattle.std.specs.Prelude.{◌≡◌, ◌++◌, ◌+◌, ◌*◌, ◌-◌, ◌/◌, ◌%◌, ◌^◌, ◌≤◌, ◌<◌, min, length};
ghost use Rattle.encode_spec.specs.Encode.{bytes_in};
ghost use Rattle.sheet_spec.specs.Sheet.{total};
ghost use Rattle.base_text.specs.Wrote.{Wrote};
ghost use Rattle.srecord_spec.specs.Record.{address_width, bytes_to, digits_of};
ghost use Rattle.srecord_spec.specs.Write.{image_text};
ghost use Rattle.srecord_spec.specs.Promises.{RecordsWritten};
ghost use Rattle.srecord_write.specs.Text.{head_text, record_text, text_length};

use srecord_spec::Written;

// The sum of both bytes of a word.
fn word_sum(w: u16) -> u32
    ensures { (result ≡ w / 256 + w % 256) × (result ≤ 510) }
{
    (w / 256 + w % 256) as u32
}

// The sum of the bytes of words.
fn data_sum(words: &[u16]) -> u32
    requires { length words.now ≤ 16 }
    ensures { (result ≡ total (bytes_in words.now)) × (result ≤ 8160) }
{
    let mut sum: u32 = 0;
    let mut i: usize = 0;
    while i < words.len() {
        sum += word_sum(words[i]);
        i += 1;
    }
    sum
}

// The sum of the four bytes of an address.
fn address_sum(address: u32) -> u32
    ensures { (result ≡ total (bytes_to 4 address)) × (result ≤ 1020) }
{
    address / 16777216 + address / 65536 % 256 + address / 256 % 256 + address % 256
}

// The checksum over a count, an address and data.
fn checksum_of(count: u32, address: u32, words: &[u16]) -> u8
    requires { (count < 256) × (length words.now ≤ 16) }
    ensures { result ≡ 255 - (count + total (bytes_to 4 address ++ bytes_in words.now)) % 256 }
{
    let sum = count + address_sum(address) + data_sum(words);
    (255 - sum % 256) as u8
}

// `S`, a type, a count and an address.
fn put_head(out: &mut [u8], at: usize, record_type: u8, count: u8, address: u32) -> usize
    requires { (at + 12 ≤ length out.old) × (record_type < 10) }
    ensures { Wrote out.old at (head_text record_type count address) out.new result × (result ≡ at + 12) }
{
    let mut next = base_text::put_byte(out, at, b'S');
    next = base_text::put_byte(out, next, 48 + record_type);
    next = base_text::put_hex2(out, next, count);
    base_text::put_hex8(out, next, address)
}

// The digits of words.
fn put_data(out: &mut [u8], at: usize, words: &[u16]) -> usize
    requires { at + 4 * length words.now ≤ length out.old }
    ensures { Wrote out.old at (digits_of (bytes_in words.now)) out.new result × (result ≡ at + 4 * length words.now) }
{
    let mut next = at;
    let mut i: usize = 0;
    while i < words.len() {
        next = base_text::put_hex4(out, next, words[i]);
        i += 1;
    }
    next
}

// A record of a type with four address bytes, ended by LF.
fn put_record(out: &mut [u8], at: usize, record_type: u8, address: u32, words: &[u16]) -> usize
    requires { (at + 15 + 4 * length words.now ≤ length out.old) × (address_width record_type ≡ 4) × (record_type < 10) × (length words.now ≤ 16) }
    ensures { Wrote out.old at (record_text record_type address words.now) out.new result × (result ≡ at + 15 + 4 * length words.now) }
{
    let count = 5 + 2 * words.len();
    let checksum = checksum_of(count as u32, address, words);
    let mut next = put_head(out, at, record_type, count as u8, address);
    next = put_data(out, next, words);
    next = base_text::put_hex2(out, next, checksum);
    base_text::put_byte(out, next, b'\n')
}

// The words of the next record, where so many are left.
fn next_words(left: usize) -> usize
    ensures { result ≡ min 16 left }
{
    if left < 16 {
        return left;
    }
    16
}

// All records, from the first place on.
fn put_records(start: u32, image: &[u16], out: &mut [u8]) -> usize
    requires { (start + 2 * length image.now ≤ 2 ^ 32) × (text_length (length image.now) ≤ length out.old) }
    ensures { Wrote out.old 0 (image_text start image.now) out.new result }
{
    let mut at: usize = 0;
    let mut from: usize = 0;
    while from < image.len() {
        let to = from + next_words(image.len() - from);
        at = put_record(out, at, 3, start + 2 * (from as u32), &image[from..to]);
        from = to;
    }
    put_record(out, at, 7, start, &image[..0])
}

// The length of the text of so many words.
fn text_length(words: usize) -> usize
    requires { words ≤ 2 ^ 31 }
    ensures { result ≡ text_length words }
{
    15 * ((words + 15) / 16 + 1) + 4 * words
}

// The image from `start` on as S-records; the bytes written, or 9 or 11 with the text unchanged.
pub fn write_records(start: u32, image: &[u16], text: &mut [u8]) -> Written
    ensures { RecordsWritten start image.now text.old text.new result }
{
    if (4294967296 - start as usize) / 2 < image.len() {
        return Written {
            count: 0,
            number: 9,
        };
    }
    if text.len() < text_length(image.len()) {
        return Written {
            count: 0,
            number: 11,
        };
    }
    Written {
        count: put_records(start, image, text),
        number: 0,
    }
}
