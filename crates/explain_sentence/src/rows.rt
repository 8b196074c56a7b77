// A table as a text, its rows parted by tabs and the first of them empty.
ghost use Rattle.std.specs.Prelude.{◌≡◌, not, ◌+◌, ◌*◌, ◌≤◌, length, drop, get_or, []};
ghost use Rattle.base_spec.specs.Parts.{fields};
ghost use Rattle.base_text.specs.PartLaws.{parts_from};
ghost use Rattle.base_text.specs.Wrote.{Wrote};
ghost use Rattle.sheet_spec.specs.Line.{is_none};
ghost use Rattle.explain_spec.specs.Sentence.{value_text, filled_byte, filled};

use explain_spec::Refusal;

// Where row n begins; past the end where there is none.
fn row_start(rows: &[u8], n: u64) -> usize
    ensures { parts_from 9 rows.now result ≡ drop n (fields rows.now) }
{
    let mut from: usize = 0;
    let mut left = n;
    while 0 < left {
        if rows.len() < from {
            return from;
        }
        from = base_text::field_end(rows, from) + 1;
        left -= 1;
    }
    from
}

// Whether row n has a text.
pub fn is_row(rows: &[u8], n: u64) -> bool
    ensures { result ≡ not (is_none (get_or (fields rows.now) n [])) }
{
    let from = row_start(rows, n);
    if rows.len() <= from {
        return false;
    }
    rows[from] != b'\t'
}

fn put_value(r: Refusal, out: &mut [u8], at: usize) -> usize
    requires { at + 21 ≤ length out.old }
    ensures { Wrote out.old at (value_text r) out.new result × (result ≤ at + 21) }
{
    if r.negative {
        let next = base_text::put_byte(out, at, b'-');
        return base_text::put_decimal(out, next, r.value);
    }
    base_text::put_decimal(out, at, r.value)
}

// A byte of a text: # is the value, & the detail.
fn put_filled_byte(b: u8, r: Refusal, out: &mut [u8], at: usize) -> usize
    requires { at + 21 ≤ length out.old }
    ensures { Wrote out.old at (filled_byte r b) out.new result × (result ≤ at + 21) }
{
    if b == b'#' {
        return put_value(r, out, at);
    }
    if b == b'&' {
        return base_text::put_decimal(out, at, r.detail);
    }
    base_text::put_byte(out, at, b)
}

fn put_filled(text: &[u8], r: Refusal, out: &mut [u8], at: usize) -> usize
    requires { at + 21 * length text.now ≤ length out.old }
    ensures { Wrote out.old at (filled r text.now) out.new result × (result ≤ at + 21 * length text.now) }
{
    let mut next = at;
    let mut i: usize = 0;
    while i < text.len() {
        next = put_filled_byte(text[i], r, out, next);
        i += 1;
    }
    next
}

// Row n, filled.
pub fn put_row(rows: &[u8], n: u64, r: Refusal, out: &mut [u8], at: usize) -> usize
    requires { at + 21 * length (get_or (fields rows.now) n []) ≤ length out.old }
    ensures { Wrote out.old at (filled r (get_or (fields rows.now) n [])) out.new result × (result ≤ at + 21 * length (get_or (fields rows.now) n [])) }
{
    let from = row_start(rows, n);
    if rows.len() < from {
        return at;
    }
    let e = base_text::field_end(rows, from);
    put_filled(&rows[from..e], r, out, at)
}
