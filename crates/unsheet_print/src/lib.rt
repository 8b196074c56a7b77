// What is printed of the sheet of an image, or its refusal, written into a lent buffer.
#![tactic(auto)]

ghost use Rattle.std.specs.Prelude.{◌≡◌, ◌≤◌, length};
ghost use Rattle.srecord_spec.specs.Read.{image_left};
ghost use Rattle.srecord_spec.specs.Promises.{PrintedInto};
ghost use Rattle.unsheet_spec.specs.Printed.{unsheet_text, records_sheet};

// What is printed for an image, its sheet in the first `room` bytes.
pub fn print_unsheet(start: u32, image: &[u16], room: usize, out: &mut [u8]) -> usize
    requires { (92 ≤ length out.old) × (room ≤ length out.old) }
    ensures { PrintedInto (unsheet_text start image.now room) out.old out.new result × (result ≤ length out.old) }
{
    let r = unsheet_write::unsheet(start, image, &mut out[..room]);
    if r.number == 0 {
        return r.bytes;
    }
    print_parts::put_refusal(out, r.number, 0, 0, r.value)
}

// What is printed for a text of S-records that is read into the image, its sheet in the first `room` bytes.
pub fn print_records(text: &[u8], image: &mut [u16], room: usize, out: &mut [u8]) -> usize
    requires { (92 ≤ length out.old) × (room ≤ length out.old) }
    ensures printed_into { PrintedInto (records_sheet text.now (length image.old) room) out.old out.new result × (result ≤ length out.old) }
    ensures image_after { image.new ≡ image_left text.now image.old }
{
    let r = srecord_read::read_records(text, image);
    if r.number == 0 {
        let words = r.words;
        return print_unsheet(r.start, &image[..words], room, out);
    }
    print_parts::put_refusal(out, r.number, r.line, 0, 0)
}
