// What is printed of a sheet that is translated with the small scratch: its listing or its refusal, written into a lent buffer.
#![tactic(auto)]

ghost use Rattle.std.specs.Prelude.{◌*◌, ◌≤◌, length};
ghost use Rattle.base_text.specs.Wrote.{Wrote};
ghost use Rattle.sheet_spec.specs.Sheet.{addresses};
ghost use Rattle.sheet_spec.specs.Translate.{sparse};
ghost use Rattle.print_spec.specs.Printed.{Printed};
ghost use Rattle.sheet_print.specs.Listing.{lines_text, PrintedWide};
ghost use Rattle.sheet_sparse_print.specs.Counted.{sheet_from, Counted};

use print_spec::Output;

// The lines of the text from `from` on, each with as many of the words as it counts, at the addresses from `start` on.
fn put_lines(
    text: &[u8],
    from: usize,
    lines: usize,
    start: u32,
    words: &[u16],
    out: &mut [u8],
) -> usize
    requires { (282624 ≤ length out.old) × Counted (sheet_from start text.now from) lines words.now }
    ensures { Wrote out.old 0 (lines_text 1 (addresses (sheet_from start text.now from)) words.now) out.new result × (result ≤ 69 * lines) }
{
    let mut at: usize = 0;
    let mut next = from;
    let mut k: usize = 0;
    let mut begin: usize = 0;
    while next < text.len() {
        let e = base_text::line_end(text, next);
        let m = sheet_blocks::measure(&text[next..e], lines);
        let end = begin + (m.size / 2) as usize;
        let address = start + 2 * begin as u32;
        at = sheet_print::put_line(out, at, k + 1, address, &words[begin..end]);
        begin = end;
        k += 1;
        next = e + 1;
    }
    at
}

// The listing or the refusal of a sheet, from the first place on; how many places it takes.
fn print_wide(text: &[u8], image: &mut [u16], scratch: &mut [u32], out: &mut [u8]) -> usize
    requires { 282624 ≤ length out.old }
    ensures { PrintedWide sparse text.now image.old scratch.old out.old image.new scratch.new out.new result }
{
    let r = sheet_sparse::translate_sparse(text, image, scratch);
    if r.number == 0 {
        let from = sheet_start::lines_begin(text);
        let words = r.words;
        return put_lines(text, from, r.lines, scratch[0], &image[..words], out);
    }
    print_parts::put_refusal(out, r.number, r.line, r.detail, r.value)
}

// The same, where the buffer is wide enough; how much was written.
pub fn print_sparse(text: &[u8], image: &mut [u16], scratch: &mut [u32], out: &mut [u8]) -> Output
    ensures { Printed sparse text.now image.old scratch.old out.old image.new scratch.new out.new result × (result.count ≤ 282624) }
{
    if out.len() < 282624 {
        return sheet_print::not_wide();
    }
    sheet_print::wide(print_wide(text, image, scratch, out))
}
