// A program that answers the cases of a stored list, from the bytes that it reads to the bytes that it writes.
#![tactic(auto)]

ghost use Rattle.std.specs.Prelude.{◌≡◌, ◌≤◌, ℕ, Bool, true, List, [], ◌∷◌, ◌++◌, length, OnOk, IfSome};
ghost use Rattle.std.specs.Io.KnownBytes.{Appends};
ghost use Rattle.base_list.specs.Headers.{Limited};
ghost use Rattle.base_list.specs.declared.Header.{Header};
ghost use Rattle.base_list.specs.declared.Limits.{Limits};
ghost use Rattle.list_program.specs.Cases.{Answered, cases_of, cases_output_of};

use base_list::{Header, Limits};
use std::io;
use std::io::{Read, Write};

/// What a case of a list gets: at most 282,624 bytes, or that it is not in the form.
pub trait Case {
    ghost limits: { Limits };

    ghost is_answered: { Header → List ℕ → Bool };

    ghost text_of: { Header → List ℕ → List ℕ };

    /// How many numbers a header has, and how large they are.
    fn limits(&self) -> Limits
        ensures { result ≡ limits };

    /// Written into the front of `out`; how many bytes.
    fn answer(&self, header: Header, bytes: &[u8], out: &mut [u8]) -> Option<usize>
        requires { Limited limits header × (282624 ≤ length out.old) }
        ensures { Answered (is_answered header bytes.now) (text_of header bytes.now) out.old out.new result };
}

/// What a case of a list gets, by a type that keeps places of its own from case to case and is lent a scratch.
pub trait LentCase {
    ghost limits: { Limits };

    ghost is_answered: { Header → List ℕ → Bool };

    ghost text_of: { Header → List ℕ → List ℕ };

    /// Whether the empty line behind an answer is a write of its own.
    const APART: bool;

    /// How many numbers a header has, and how large they are.
    fn limits(&self) -> Limits
        ensures { result ≡ limits };

    /// Written into the front of `out`; how many bytes. The scratch is lent as the case before left it, all 0 for the first.
    fn answer(
        &mut self,
        header: Header,
        bytes: &[u8],
        scratch: &mut [u32],
        out: &mut [u8],
    ) -> Option<usize>
        requires { Limited limits header × (4096 ≤ length scratch.old) × (282624 ≤ length out.old) }
        ensures answered { Answered (is_answered header bytes.now) (text_of header bytes.now) out.old out.new result }
        ensures same_room { length scratch.new ≡ length scratch.old };
}

// The answer to a case with an empty line behind it, in one buffer.
fn answer_line<C: LentCase>(
    asked: &mut C,
    header: Header,
    bytes: &[u8],
    scratch: &mut [u32],
    out: &mut [u8],
) -> Option<usize>
    requires { Limited C.limits header × (4096 ≤ length scratch.old) × (282625 ≤ length out.old) }
    ensures answered { Answered (C.is_answered header bytes.now) (C.text_of header bytes.now ++ (10 ∷ [])) out.old out.new result }
    ensures same_room { length scratch.new ≡ length scratch.old }
{
    let room = out.len() - 1;
    let n = asked.answer(header, bytes, scratch, &mut out[..room])?;
    out[n] = b'\n';
    Some(n + 1)
}

// In one write, or the last byte in one of its own.
fn write_line<W: Write>(line: &[u8], apart: bool, output: &mut W) -> io::Result<()>
    ensures { OnOk result (Appends (W.contents output.old) (W.contents output.new) line.now) }
{
    if apart && !line.is_empty() {
        let last = line.len() - 1;
        output.write_all(&line[..last])?;
        return output.write_all(&line[last..]);
    }
    output.write_all(line)
}

// Each answer with an empty line behind it, as far as the list is in the form.
fn print_cases<C: LentCase, W: Write>(asked: &mut C, list: &[u8], output: &mut W) -> io::Result<()>
    ensures { OnOk result (Appends (W.contents output.old) (W.contents output.new) (cases_of C.limits C.is_answered C.text_of list.now)) }
{
    let limits = asked.limits();
    let mut scratch: [u32; 4096] = base_streams::filled(0);
    let mut out: [u8; 282625] = base_streams::filled(0);
    let mut from: usize = 0;
    while from < list.len() {
        let Some(h) = base_list::read_header(list, from, limits) else {
            return output.write_all(b"list\n");
        };
        let bytes = &list[h.begin..h.end];
        let Some(n) = answer_line(asked, h, bytes, &mut scratch, &mut out) else {
            return output.write_all(b"list\n");
        };
        write_line(&out[..n], C::APART, output)?;
        from = h.end;
    }
    Ok(())
}

/// Prints the answers to the cases of the list that is read; a list of more than 1 MiB is not in the form.
pub fn run_lent<C: LentCase, R: Read, W: Write>(
    asked: &mut C,
    input: &mut R,
    output: &mut W,
) -> io::Result<()>
    ensures { OnOk result (IfSome (R.remaining input.old) (λ text. Appends (W.contents output.old) (W.contents output.new) (cases_output_of C.limits C.is_answered C.text_of text))) }
{
    let mut places: [u8; 1048577] = base_streams::filled(0);
    match base_streams::read_whole(input, &mut places)? {
        Some(list) => print_cases(asked, list, output),
        None => output.write_all(b"list\n"),
    }
}

// A type that keeps no places, and leaves the scratch as it is.
#[derive(Drop)]
struct Shared<'a, C> {
    asked: &'a C,
}

impl<C: Case> LentCase for Shared<'_, C> {
    ghost limits = { C.limits };

    ghost is_answered = { C.is_answered };

    ghost text_of = { C.text_of };

    const APART: bool = true;

    fn limits(&self) -> Limits
        ensures { result ≡ C.limits }
    {
        self.asked.limits()
    }

    fn answer(
        &mut self,
        header: Header,
        bytes: &[u8],
        scratch: &mut [u32],
        out: &mut [u8],
    ) -> Option<usize>
        requires { Limited C.limits header × (4096 ≤ length scratch.old) × (282624 ≤ length out.old) }
        ensures answered { Answered (C.is_answered header bytes.now) (C.text_of header bytes.now) out.old out.new result }
        ensures same_room { length scratch.new ≡ length scratch.old }
    {
        self.asked.answer(header, bytes, out)
    }
}

/// Prints the answers to the cases of the list that is read; a list of more than 1 MiB is not in the form. For a type that keeps no places.
pub fn run<C: Case, R: Read, W: Write>(asked: &C, input: &mut R, output: &mut W) -> io::Result<()>
    ensures { OnOk result (IfSome (R.remaining input.old) (λ text. Appends (W.contents output.old) (W.contents output.new) (cases_output_of C.limits C.is_answered C.text_of text))) }
{
    run_lent(&mut Shared { asked }, input, output)
}

#[cfg(test)]
mod tests {
    use super::*;

    // A point for each case.
    struct Points;

    impl Case for Points {
        ghost limits = { record { least = 1; most = 1; second = 0; third = 0; fourth = 0 } };

        ghost is_answered = { λ h bytes. true };

        ghost text_of = { λ h bytes. 46 ∷ 10 ∷ [] };

        fn limits(&self) -> Limits {
            Limits {
                least: 1,
                most: 1,
                second: 0,
                third: 0,
                fourth: 0,
            }
        }

        fn answer(&self, _header: Header, _bytes: &[u8], out: &mut [u8]) -> Option<usize> {
            out[0] = b'.';
            out[1] = b'\n';
            Some(2)
        }
    }

    #[test]
    fn answers_each_case(rt: HostRuntime) {
        let mut list: &[u8] = b"2\nab0\n";
        let mut out = Vec::new(rt.alloc());
        assert!(rt; run(&Points, &mut list, &mut out).is_ok());
        assert!(rt; out.as_slice() == b".\n\n.\n\n".as_slice());
    }
}
