// What stands before a sheet's lines: its outline, and the START line.
#![tactic(auto)]

ghost use Rattle.std.specs.Prelude.{◌≡◌, ◌+◌, length};
ghost use Rattle.base_spec.specs.Number.{number_in};
ghost use Rattle.sheet_spec.specs.Sheet.{is_sheet, start_line, start_as, start_of};
ghost use Rattle.sheet_spec.specs.Sheet as sheet;
ghost use Rattle.sheet_start.specs.StartLine.{start_at, not_at};

use base_spec::Literal;

/// The address that the START line names, where it is in the form.
#[derive(Clone, Copy)]
pub struct StartAt {
    pub ok: bool,
    pub address: u32,
}

const MOST_BYTES: usize = 65_536;

// One for the START line, and one for each of 4,096 lines.
const MOST_FEEDS: usize = 4_097;

// An address is a number of 32 bits.
const ADDRESSES: u64 = 4_294_967_296;

/// The number of line feeds.
// By a loop, which is compiled to one of many bytes at a time: `filter` and `count` took 1.38 M instructions of the whole sheet's.
pub fn feeds(text: &[u8]) -> usize
    ensures { result ≡ sheet.feeds text.now }
{
    let mut n = 0;
    for &b in text {
        if b == b'\n' {
            n += 1;
        }
    }
    n
}

fn last(text: &[u8]) -> u8
    ensures { result ≡ sheet.last text.now }
{
    if text.len() == 0 {
        return 0;
    }
    text[text.len() - 1]
}

/// Whether a text has the outline of a sheet: its bytes, its last byte, its line feeds.
pub fn is_sheet(text: &[u8]) -> bool
    ensures { result ≡ is_sheet text.now }
{
    let bytes = text.len();
    let lines = feeds(text);
    1 <= bytes && bytes <= MOST_BYTES && last(text) == b'\n' && 2 <= lines && lines <= MOST_FEEDS
}

fn no_start() -> StartAt
    ensures { result ≡ not_at }
{
    StartAt {
        ok: false,
        address: 0,
    }
}

// A 32-bit number with no sign.
fn start_number(n: Option<Literal>) -> StartAt
    ensures { result ≡ start_at (start_as (number_in n)) }
{
    match n {
        Some(literal) => {
            if !literal.negative && literal.magnitude < ADDRESSES {
                StartAt {
                    ok: true,
                    address: literal.magnitude as u32,
                }
            } else {
                no_start()
            }
        }
        None => no_start(),
    }
}

// START and a number, and no other field.
fn start_in(line: &[u8]) -> StartAt
    ensures { result ≡ start_at (start_of line.now) }
{
    let e = base_text::field_end(line, 0);
    if e == line.len() {
        return no_start();
    }
    let from = e + 1;
    let end = base_text::field_end(line, from);
    if end < line.len() {
        return no_start();
    }
    if sheet_field::equal(&line[..e], b"START") {
        return start_number(base_text::read_number(&line[from..]));
    }
    no_start()
}

/// What the first line says.
pub fn start(text: &[u8]) -> StartAt
    ensures { result ≡ start_at (start_of (start_line text.now)) }
{
    let e = base_text::line_end(text, 0);
    start_in(&text[..e])
}

/// Where line 1 begins.
pub fn lines_begin(text: &[u8]) -> usize
    ensures { result ≡ length (start_line text.now) + 1 }
{
    base_text::line_end(text, 0) + 1
}
