// A text with the sentences of its refusals, written into a lent buffer, and how a text is cut that comes in pieces.
#![tactic(auto)]

ghost use Rattle.std.specs.Prelude.{◌≡◌, ◌+◌, ◌-◌, ◌≤◌, [], length};
ghost use Rattle.base_spec.specs.Written.{placed};
ghost use Rattle.base_spec.specs.Lines.{answered_of, step_of};
ghost use Rattle.base_text.specs.Wrote.{Wrote};
ghost use Rattle.explain_spec.specs.Explained.{explained_line, Explains};
ghost use Rattle.explain_lines.specs.Cut.{ended_of, first_end, cut_from, cut_of, between};

use base_spec::Step;

// Where a text is cut: the first bytes are passed on as they are, the lines up to `ended` explained, the bytes up to `kept`
// passed on as they are, and the rest is kept. `begun`: it goes on inside a line that is passed on as it is.
#[derive(Clone, Copy)]
pub struct Cut {
    pub passed: usize,
    pub ended: usize,
    pub kept: usize,
    pub begun: bool,
}

// A line. Without the test for an empty one lines of 1 to 10 bytes take a fifth longer.
fn put_line(line: &[u8], out: &mut [u8], at: usize) -> usize
    requires { at + length line.now ≤ length out.old }
    ensures { (result ≡ at + length line.now) × (out.new ≡ placed out.old at line.now) }
{
    if line.len() == 0 {
        return at;
    }
    base_text::put(out, at, line)
}

// A line, its LF and the sentence of its refusal.
fn put_explained(line: &[u8], out: &mut [u8], at: usize) -> usize
    requires { (at + 73728 ≤ length out.old) × (length line.now ≤ 65536) }
    ensures { Wrote out.old at (explained_line line.now) out.new result × (result ≤ at + 73728) }
{
    let mut next = put_line(line, out, at);
    next = base_text::put_byte(out, next, b'\n');
    if line.len() < 65536 {
        let r = explain_refusal::refusal_in(line);
        return explain_sentence::put_sentence(r, out, next);
    }
    next
}

// An empty line, which is no refusal.
fn put_empty(out: &mut [u8], at: usize) -> usize
    requires { at + 73728 ≤ length out.old }
    ensures { Wrote out.old at (explained_line []) out.new result × (result ≤ at + 73728) }
{
    base_text::put_byte(out, at, b'\n')
}

// The lines from a place on, while the buffer has room.
fn put_lines(text: &[u8], from: usize, out: &mut [u8]) -> Step
    requires { length text.now ≤ 65536 }
    ensures { (result ≡ step_of explained_line 73728 text.now from (length out.old)) × (out.new ≡ placed out.old 0 (answered_of explained_line 73728 text.now from (length out.old))) }
{
    let mut next = from;
    let mut at: usize = 0;
    while next < text.len() {
        if out.len() - at < 73728 {
            return Step { next, count: at };
        }
        if text[next] == b'\n' {
            at = put_empty(out, at);
            next += 1;
        } else {
            let e = base_text::line_end(text, next);
            at = put_explained(&text[next..e], out, at);
            next = e + 1;
        }
    }
    Step { next, count: at }
}

// The lines of a text of at most 65,536 bytes from a place on, each with its sentence, while the buffer has room.
pub fn explain(text: &[u8], from: usize, out: &mut [u8]) -> Step
    ensures { Explains text.now from out.old out.new result }
{
    if text.len() <= 65536 {
        return put_lines(text, from, out);
    }
    Step {
        next: from,
        count: 0,
    }
}

// The place after the last LF, 0 where there is none.
fn last_end(text: &[u8]) -> usize
    ensures { (result ≡ ended_of text.now) × (result ≤ length text.now) }
{
    let mut i = text.len();
    while 0 < i {
        if text[i - 1] == b'\n' {
            return i;
        }
        i -= 1;
    }
    0
}

// The place after the first LF, 0 where there is none.
fn first_end(text: &[u8]) -> usize
    ensures { (result ≡ first_end text.now) × (result ≤ length text.now) }
{
    let e = base_text::line_end(text, 0);
    if e < text.len() { e + 1 } else { 0 }
}

// From a place where a line begins.
fn cut_from(text: &[u8], passed: usize) -> Cut
    requires { passed ≤ length text.now }
    ensures { result ≡ cut_from text.now passed }
{
    let ended = passed + last_end(&text[passed..]);
    if 65536 <= text.len() - ended {
        return Cut {
            passed,
            ended,
            kept: text.len(),
            begun: true,
        };
    }
    Cut {
        passed,
        ended,
        kept: ended,
        begun: false,
    }
}

// Where a text is cut that begins a line, or is `begun` inside a line that is passed on as it is.
pub fn cut_text(text: &[u8], begun: bool) -> Cut
    ensures { result ≡ cut_of begun text.now }
{
    if begun {
        let first = first_end(text);
        if first == 0 {
            return Cut {
                passed: text.len(),
                ended: text.len(),
                kept: text.len(),
                begun: true,
            };
        }
        return cut_from(text, first);
    }
    cut_from(text, 0)
}

// Moves what stands between two places to the front; how much it is.
pub fn keep(text: &mut [u8], from: usize, to: usize) -> usize
    requires { (from ≤ to) × (to ≤ length text.old) }
    ensures { (result ≡ to - from) × (text.new ≡ placed text.old 0 (between from to text.old)) }
{
    if from == 0 {
        return to;
    }
    text.copy_within(from..to, 0);
    to - from
}
