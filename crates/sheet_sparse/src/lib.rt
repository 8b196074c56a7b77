// The sheet translator for a scratch with one place per 64 lines: a sheet's words into a lent image, the addresses of lines 1, 65, 129, … into the scratch.
#![tactic(auto)]

ghost use Rattle.std.specs.Prelude.{◌≡◌, ◌*◌, length};
ghost use Rattle.sheet_spec.specs.Sheet.{start_in};
ghost use Rattle.sheet_spec.specs.Translate as stage;
ghost use Rattle.sheet_spec.specs.Translate.{in_order, sparse};
ghost use Rattle.sheet_spec.specs.Promises.{Translated};
ghost use Rattle.sheet_sparse.specs.SizedBlocks.{lines_served, SizedBlocks};

use sheet_spec::Listed;

// How many lines so many places serve; no sheet has more than 4,096.
fn lines_served(places: usize) -> usize
    ensures { result ≡ lines_served places }
{
    if places < 64 {
        return 64 * places;
    }
    4096
}

// The lines' ranges, then their words and the blocks' addresses.
fn lay_down(
    text: &[u8],
    from: usize,
    lines: usize,
    words: usize,
    start: u32,
    image: &mut [u16],
    scratch: &mut [u32],
) -> Listed
    requires { SizedBlocks text.now from lines words start image.old scratch.old }
    ensures { Translated sparse text.now image.old scratch.old image.new scratch.new result }
{
    let blocks = (lines + 63) / 64;
    let p = sheet_blocks::ranges(text, from, lines, start, &scratch[..blocks]);
    if p.number != 0 {
        return sheet_translate::refuse_pass(scratch, p);
    }
    sheet_blocks::write(text, from, lines, start, &scratch[..blocks], image);
    sheet_blocks::put_addresses(start, blocks, scratch);
    Listed {
        lines: lines,
        words: words,
        number: 0,
        line: 0,
        detail: 0,
        value: 0,
    }
}

// The lines of a sheet whose opening is in order.
fn translate_lines(text: &[u8], image: &mut [u16], scratch: &mut [u32]) -> Listed
    requires { stage.opening sparse text.now (start_in text.now) (length scratch.old) ≡ in_order }
    ensures { Translated sparse text.now image.old scratch.old image.new scratch.new result }
{
    let lines = sheet_start::feeds(text) - 1;
    let from = sheet_start::lines_begin(text);
    let s = sheet_start::start(text);
    let start = s.address;
    let p = sheet_blocks::sizes(text, from, lines, scratch);
    if p.number != 0 {
        return sheet_translate::refuse_pass(scratch, p);
    }
    let words = p.words;
    let number = sheet_translate::closing(start, words, image.len());
    if number != 0 {
        return sheet_translate::refuse(scratch, number, 0, 0, 0);
    }
    lay_down(text, from, lines, words, start, image, scratch)
}

// The sheet's counts of lines and words, with the words in the image and the addresses of lines 1, 65, 129, … in the scratch; or its refusal.
pub fn translate_sparse(text: &[u8], image: &mut [u16], scratch: &mut [u32]) -> Listed
    ensures { Translated sparse text.now image.old scratch.old image.new scratch.new result }
{
    let number = sheet_translate::opening(text, lines_served(scratch.len()));
    if number != 0 {
        return sheet_translate::refuse(scratch, number, 0, 0, 0);
    }
    translate_lines(text, image, scratch)
}
