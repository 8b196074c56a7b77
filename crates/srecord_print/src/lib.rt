// What is printed of S-records: an image line or the text of an image, or a refusal, written into a lent buffer.
#![tactic(auto)]

ghost use Rattle.std.specs.Prelude.{◌≡◌, ◌+◌, ◌*◌, ◌≤◌, length};
ghost use Rattle.base_text.specs.Wrote.{Wrote};
ghost use Rattle.srecord_spec.specs.Read.{image_left};
ghost use Rattle.srecord_spec.specs.Printed.{image_line, loaded_text, written_text};
ghost use Rattle.srecord_spec.specs.Promises.{PrintedInto};

// The start in decimal, and the words.
fn put_image_line(out: &mut [u8], start: u32, words: &[u16]) -> usize
    requires { 21 + 5 * length words.now ≤ length out.old }
    ensures { Wrote out.old 0 (image_line start words.now) out.new result × (result ≤ length out.old) }
{
    let mut next = base_text::put_decimal(out, 0, start as u64);
    next = print_parts::put_words(out, next, words);
    base_text::put_byte(out, next, b'\n')
}

// What is printed for a text of S-records that is read into the image.
pub fn print_loaded(text: &[u8], image: &mut [u16], out: &mut [u8]) -> usize
    requires { 92 + 5 * length image.old ≤ length out.old }
    ensures printed_into { PrintedInto (loaded_text text.now (length image.old)) out.old out.new result × (result ≤ length out.old) }
    ensures image_after { image.new ≡ image_left text.now image.old }
{
    let r = srecord_read::read_records(text, image);
    if r.number == 0 {
        let words = r.words;
        return put_image_line(out, r.start, &image[..words]);
    }
    print_parts::put_refusal(out, r.number, r.line, 0, 0)
}

// What is printed for an image that is written into the first `room` bytes.
pub fn print_written(start: u32, image: &[u16], room: usize, out: &mut [u8]) -> usize
    requires { (92 ≤ length out.old) × (room ≤ length out.old) }
    ensures { PrintedInto (written_text start image.now room) out.old out.new result × (result ≤ length out.old) }
{
    let r = srecord_write::write_records(start, image, &mut out[..room]);
    if r.number == 0 {
        return r.count;
    }
    print_parts::put_refusal(out, r.number, 0, 0, 0)
}
