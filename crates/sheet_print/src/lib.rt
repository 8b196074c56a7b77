// What the program `sheet` prints: a sheet's listing or its refusal, written into a lent buffer.
#![tactic(auto)]

ghost use Rattle.std.specs.Prelude.{◌≡◌, ◌+◌, ◌*◌, ◌-◌, ◌/◌, ◌≤◌, length};
ghost use Rattle.base_text.specs.Wrote.{Wrote};
ghost use Rattle.sheet_spec.specs.Translate.{full};
ghost use Rattle.print_spec.specs.Printed.{line_text, Printed};
ghost use Rattle.sheet_print.specs.Listing.{first_count, lines_text, Rises, Laid, not_wide, wide_by, PrintedWide};

use print_spec::Output;

// A line's number, address and words.
pub fn put_line(out: &mut [u8], at: usize, k: usize, address: u32, words: &[u16]) -> usize
    requires { (at + 69 ≤ length out.old) × (k ≤ 4096) × (length words.now ≤ 11) }
    ensures { Wrote out.old at (line_text k address words.now) out.new result × (result ≤ at + 69) }
{
    let mut next = base_text::put_field(out, at, k as u64);
    next = base_text::put_hex8(out, next, address);
    next = print_parts::put_words(out, next, words);
    base_text::put_byte(out, next, b'\n')
}

// The words from an address to the next.
fn words_between(address: u32, next: u32) -> usize
    requires { address ≤ next }
    ensures { result ≡ (next - address) / 2 }
{
    ((next - address) / 2) as usize
}

// The words of the first line, where so many are left.
fn first_count(addresses: &[u32], left: usize) -> usize
    requires { Rises addresses.now }
    ensures { result ≡ first_count addresses.now left }
{
    if addresses.len() < 2 {
        return left;
    }
    words_between(addresses[0], addresses[1])
}

// The lines at these addresses, which share out the words.
fn put_listing(addresses: &[u32], words: &[u16], out: &mut [u8]) -> usize
    requires { (282624 ≤ length out.old) × (length addresses.now ≤ 4096) × Laid addresses.now words.now }
    ensures { Wrote out.old 0 (lines_text 1 addresses.now words.now) out.new result × (result ≤ 69 * length addresses.now) }
{
    let mut at: usize = 0;
    let mut from: usize = 0;
    let mut k: usize = 0;
    while k < addresses.len() {
        let to = from + first_count(&addresses[k..], words.len() - from);
        at = put_line(out, at, k + 1, addresses[k], &words[from..to]);
        from = to;
        k += 1;
    }
    at
}

// The listing or the refusal of a sheet, from the first place on; how many places it takes.
fn print_wide(text: &[u8], image: &mut [u16], scratch: &mut [u32], out: &mut [u8]) -> usize
    requires { 282624 ≤ length out.old }
    ensures { PrintedWide full text.now image.old scratch.old out.old image.new scratch.new out.new result }
{
    let r = sheet_translate::translate(text, image, scratch);
    if r.number == 0 {
        let lines = r.lines;
        let words = r.words;
        return put_listing(&scratch[..lines], &image[..words], out);
    }
    print_parts::put_refusal(out, r.number, r.line, r.detail, r.value)
}

pub fn not_wide() -> Output
    ensures { result ≡ not_wide }
{
    Output {
        wide: false,
        count: 0,
    }
}

pub fn wide(count: usize) -> Output
    ensures { result ≡ wide_by count }
{
    Output {
        wide: true,
        count: count,
    }
}

// The same, where the buffer is wide enough; how much was written.
pub fn print(text: &[u8], image: &mut [u16], scratch: &mut [u32], out: &mut [u8]) -> Output
    ensures { Printed full text.now image.old scratch.old out.old image.new scratch.new out.new result × (result.count ≤ 282624) }
{
    if out.len() < 282624 {
        return not_wide();
    }
    wide(print_wide(text, image, scratch, out))
}
