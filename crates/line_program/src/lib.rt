// A program that answers each line of its input, from the bytes that it reads to the bytes that it writes.
#![tactic(auto)]

ghost use Rattle.std.proofs.Common.{rules};
ghost use Rattle.std.specs.Prelude.{◌≡◌, ◌+◌, ◌≤◌, ℕ, List, [], ◌∷◌, length, drop, OnOk, IfSome};
ghost use Rattle.std.specs.Io.KnownBytes.{Appends};
ghost use Rattle.base_spec.specs.Written.{placed};
ghost use Rattle.base_spec.specs.Lines.{answers_of, answered_of, step_of};
ghost use Rattle.print_spec.specs.Programs.{answers_output_of};

use base_spec::Step;
use std::io;
use std::io::{Read, Write};

// What a line gets: at most ROOM bytes.
pub trait Answer {
    ghost answer_of: { List ℕ → List ℕ };

    ghost ROOM: { ℕ };

    const ROOM: usize;

    // From place `at` on; the next place.
    fn answer(&self, line: &[u8], out: &mut [u8], at: usize) -> usize
        requires { at + ROOM ≤ length out.old }
        ensures { (result ≡ at + length (answer_of line.now)) × (out.new ≡ placed out.old at (answer_of line.now)) × (result ≤ at + ROOM) };

    ghost room: { ROOM ≤ 65536 };
}

// How a program answers its lines: by its own function, which says what they get.
pub trait AnswerLines: Answer {
    // The answers to the lines from a place on, while the buffer has room.
    fn answers(&self, text: &[u8], from: usize, out: &mut [u8]) -> Step
        ensures { (result ≡ step_of Self.answer_of Self.ROOM text.now from (length out.old)) × (out.new ≡ placed out.old 0 (answered_of Self.answer_of Self.ROOM text.now from (length out.old))) };
}

// The answers to the lines from a place on, while the buffer has room.
pub fn answers<A: Answer>(asked: &A, text: &[u8], from: usize, out: &mut [u8]) -> Step
    ensures { (result ≡ step_of A.answer_of A.ROOM text.now from (length out.old)) × (out.new ≡ placed out.old 0 (answered_of A.answer_of A.ROOM text.now from (length out.old))) }
{
    let mut next = from;
    let mut at: usize = 0;
    while next < text.len() {
        if out.len() - at < A::ROOM {
            return Step { next, count: at };
        }
        let e = base_text::line_end(text, next);
        at = asked.answer(&text[next..e], out, at);
        next = e + 1;
    }
    Step { next, count: at }
}

// In few writes. Not inlined: an input that is too long needs no room for answers.
#[inline(never)]
fn print_answers<A: AnswerLines, W: Write>(asked: &A, text: &[u8], output: &mut W) -> io::Result<()>
    ensures { OnOk result (Appends (W.contents output.old) (W.contents output.new) (answers_of A.answer_of text.now)) }
{
    let mut out: [u8; 65536] = base_streams::filled(0);
    let mut from: usize = 0;
    while from < text.len() {
        let step = asked.answers(text, from, &mut out);
        output.write_all(&out[..step.count])?;
        from = step.next;
    }
    Ok(())
}

// Prints the answer to each line that is read, or that the input is too long.
pub fn run_lines<A: AnswerLines, R: Read, W: Write>(
    asked: &A,
    input: &mut R,
    output: &mut W,
) -> io::Result<()>
    ensures { OnOk result (IfSome (R.remaining input.old) (λ text. Appends (W.contents output.old) (W.contents output.new) (answers_output_of A.answer_of text))) }
{
    let mut places: [u8; 1048577] = base_streams::filled(0);
    match base_streams::read_whole(input, &mut places)? {
        Some(text) => print_answers(asked, text, output),
        None => output.write_all(&base_text::too_long()),
    }
}

// In few writes, by the `answers` above. Beside `print_answers`, since no `AnswerLines` can be made of an `Answer`: the kit has no
// proof of a const in an impl for every A.
fn print_each<A: Answer, W: Write>(asked: &A, text: &[u8], output: &mut W) -> io::Result<()>
    ensures { OnOk result (Appends (W.contents output.old) (W.contents output.new) (answers_of A.answer_of text.now)) }
{
    let mut out: [u8; 65536] = base_streams::filled(0);
    let mut next: usize = 0;
    while next < text.len() {
        let part = answers(asked, text, next, &mut out);
        output.write_all(&out[..part.count])?;
        next = part.next;
    }
    Ok(())
}

// Prints the answer to each line that is read, or that the input is too long; for a type without `answers` of its own.
pub fn run<A: Answer, R: Read, W: Write>(asked: &A, input: &mut R, output: &mut W) -> io::Result<()>
    ensures { OnOk result (IfSome (R.remaining input.old) (λ text. Appends (W.contents output.old) (W.contents output.new) (answers_output_of A.answer_of text))) }
{
    let mut lent: [u8; 1048577] = base_streams::filled(0);
    match base_streams::read_whole(input, &mut lent)? {
        Some(text) => print_each(asked, text, output),
        None => output.write_all(&base_text::too_long()),
    }
}

#[cfg(test)]
mod tests {
    use super::*;

    // A point for each line.
    struct Points;

    impl Answer for Points {
        ghost answer_of = { λ line. 46 ∷ 10 ∷ [] };

        ghost ROOM = { 2 };

        const ROOM: usize = 2;

        fn answer(&self, _line: &[u8], out: &mut [u8], at: usize) -> usize {
            base_text::put(out, at, b".\n")
        }

        ghost room = { Prim.search rules };
    }

    #[test]
    fn answers_each_line(rt: HostRuntime) {
        let mut text: &[u8] = b"NOP\n\nRTS";
        let mut out = Vec::new(rt.alloc());
        assert!(rt; run(&Points, &mut text, &mut out).is_ok());
        assert!(rt; out.as_slice() == b".\n.\n.\n".as_slice());
    }
}
