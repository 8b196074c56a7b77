// Passes standard input on, and after each line that is a refusal prints a sentence that explains it.
#![tactic(auto)]

ghost use Rattle.std.specs.Prelude.{◌≡◌, ◌≤◌, length, take, OnOk, IfOk, IfSome};
ghost use Rattle.std.specs.Io.KnownBytes.{Appends};
ghost use Rattle.base_spec.specs.Lines.{answers_of};
ghost use Rattle.explain_spec.specs.Explained.{explained_line, explained};
ghost use Rattle.explain_lines.specs.Cut.{cut_of, cut_text};
ghost use Rattle.explain_lines.specs.Pieces.{Kept};
ghost use Rattle.explain.specs.Rest.{Rest};

use base_streams::Unfailing;
use explain_lines::Cut;
use std::io;
use std::io::{ErrorKind, Read, Write};

// The lines with their sentences, in few writes.
fn print_lines<W: Write>(lines: &[u8], out: &mut [u8], output: &mut W) -> io::Result<()>
    requires { (length lines.now ≤ 65536) × (73728 ≤ length out.old) }
    ensures same_room { length out.new ≡ length out.old }
    ensures bytes { OnOk result (Appends (W.contents output.old) (W.contents output.new) (answers_of explained_line lines.now)) }
{
    let mut from: usize = 0;
    while from < lines.len() {
        let step = explain_lines::explain(lines, from, out);
        output.write_all(&out[..step.count])?;
        from = step.next;
    }
    Ok(())
}

// What is printed of a text that is cut.
fn print_cut<W: Write>(text: &[u8], c: Cut, out: &mut [u8], output: &mut W) -> io::Result<()>
    requires { (length text.now ≤ 65536) × (73728 ≤ length out.old) × Kept text.now c }
    ensures same_room { length out.new ≡ length out.old }
    ensures bytes { OnOk result (Appends (W.contents output.old) (W.contents output.new) (cut_text c text.now)) }
{
    output.write_all(&text[..c.passed])?;
    print_lines(&text[c.passed..c.ended], out, output)?;
    output.write_all(&text[c.ended..c.kept])
}

// How much of the buffer is kept, and whether it goes on inside a line that is passed on as it is.
#[derive(Clone, Copy)]
struct State {
    have: usize,
    begun: bool,
}

// What is printed of the first `end` bytes; what is kept of them is moved to the front.
fn print_piece<W: Write>(
    text: &mut [u8],
    end: usize,
    begun: bool,
    out: &mut [u8],
    output: &mut W,
) -> io::Result<State>
    requires { (65536 ≡ length text.old) × (end ≤ 65536) × (73728 ≤ length out.old) }
    ensures same_room { (length text.new ≡ length text.old) × (length out.new ≡ length out.old) }
    ensures bytes { OnOk result (Appends (W.contents output.old) (W.contents output.new) (cut_text (cut_of begun (take end text.old)) (take end text.old))) }
    ensures rest { IfOk result (Rest begun (take end text.old) text.new) }
{
    let c = explain_lines::cut_text(&text[..end], begun);
    print_cut(&text[..end], c, out, output)?;
    let have = explain_lines::keep(text, c.kept, end);
    Ok(State {
        have,
        begun: c.begun,
    })
}

// Each read is printed as it comes, but for a line that it does not end. A full buffer has room for 65,536 bytes and one line more with its sentence (73,728).
fn print_explained<R: Read, W: Write>(input: &mut R, output: &mut W) -> io::Result<()>
    ensures { OnOk result (IfSome (R.remaining input.old) (λ text. Appends (W.contents output.old) (W.contents output.new) (explained text))) }
{
    let mut text: [u8; 65536] = base_streams::filled(0);
    let mut out: [u8; 139264] = base_streams::filled(0);
    let mut state = State {
        have: 0,
        begun: false,
    };
    for _ in 0..u64::MAX {
        let n = input.read(&mut text[state.have..])?;
        if n == 0 {
            return output.write_all(&text[..state.have]);
        }
        state = print_piece(&mut text, state.have + n, state.begun, &mut out, output)?;
    }
    Err(io::Error::from(ErrorKind::Other))
}

fn main(rt: HostRuntime) -> io::Result<()> {
    let mut input = Unfailing { stream: rt.stdin() };
    let mut output = Unfailing {
        stream: rt.stdout(),
    };
    print_explained(&mut input, &mut output)
}
