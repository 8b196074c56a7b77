// The sentence of a refusal, written into a lent buffer.
#![tactic(auto)]

ghost use Rattle.std.specs.Prelude.{◌≡◌, true, not, ◌&&◌, ◌+◌, ◌*◌, ◌≤◌, length};
ghost use Rattle.base_text.specs.Wrote.{Wrote};
ghost use Rattle.sheet_spec.specs.Line.{is_none};
ghost use Rattle.explain_spec.specs.Sentence.{is_outside, wrong_of, detail_of, has_detail, is_known, where_of, filled, sentence_of};

use explain_spec::Refusal;

mod rows;
mod table;

// A refusal of a sheet that stands at no line.
fn is_outside(r: Refusal) -> bool
    ensures { result ≡ is_outside r }
{
    r.sheet & (r.line == 0)
}

// Whether the table has its number.
fn has_wrong(r: Refusal) -> bool
    ensures { result ≡ not (is_none (wrong_of r)) }
{
    if is_outside(r) {
        return rows::is_row(&table::sheet_texts(), r.number);
    }
    rows::is_row(&table::line_texts(), r.number)
}

// Whether the table has the field of 2 and the reason of 3; no other number wants one.
fn knows_detail(r: Refusal) -> bool
    ensures { result ≡ not (has_detail r && is_none (detail_of r)) }
{
    if r.number == 2 {
        return rows::is_row(&table::field_texts(), r.detail);
    }
    if r.number == 3 {
        return rows::is_row(&table::reason_texts(), r.detail);
    }
    true
}

fn is_known(r: Refusal) -> bool
    ensures { result ≡ is_known r }
{
    has_wrong(r) & knows_detail(r)
}

// `line`, its number and a colon.
fn put_where(r: Refusal, out: &mut [u8], at: usize) -> usize
    requires { at + 27 ≤ length out.old }
    ensures { Wrote out.old at (where_of r) out.new result × (result ≤ at + 27) }
{
    if r.sheet & (r.line != 0) {
        let mut next = base_text::put(out, at, b"line ");
        next = base_text::put_decimal(out, next, r.line);
        return base_text::put(out, next, b": ");
    }
    at
}

// What is wrong.
fn put_wrong(r: Refusal, out: &mut [u8], at: usize) -> usize
    requires { at + 3780 ≤ length out.old }
    ensures { Wrote out.old at (filled r (wrong_of r)) out.new result × (result ≤ at + 3780) }
{
    if is_outside(r) {
        return rows::put_row(&table::sheet_texts(), r.number, r, out, at);
    }
    rows::put_row(&table::line_texts(), r.number, r, out, at)
}

// The field of 2, the reason of 3.
fn put_detail(r: Refusal, out: &mut [u8], at: usize) -> usize
    requires { at + 3780 ≤ length out.old }
    ensures { Wrote out.old at (filled r (detail_of r)) out.new result × (result ≤ at + 3780) }
{
    if r.number == 2 {
        return rows::put_row(&table::field_texts(), r.detail, r, out, at);
    }
    if r.number == 3 {
        return rows::put_row(&table::reason_texts(), r.detail, r, out, at);
    }
    at
}

// The sentence of a refusal that the table has.
fn put_known(r: Refusal, out: &mut [u8], at: usize) -> usize
    requires { (at + 8192 ≤ length out.old) × (is_known r ≡ true) }
    ensures { Wrote out.old at (sentence_of r) out.new result × (result ≤ at + 8192) }
{
    let mut next = put_where(r, out, at);
    next = put_wrong(r, out, next);
    next = put_detail(r, out, next);
    base_text::put_byte(out, next, b'\n')
}

// The sentence of a refusal, a line of its own; the next place.
pub fn put_sentence(r: Refusal, out: &mut [u8], at: usize) -> usize
    requires { at + 8192 ≤ length out.old }
    ensures { Wrote out.old at (sentence_of r) out.new result × (result ≤ at + 8192) }
{
    if r.number == 0 {
        return at;
    }
    if is_known(r) {
        return put_known(r, out, at);
    }
    at
}
