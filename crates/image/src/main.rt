// Prints the image of the S-records on standard input as an image line, or their refusal.
#![tactic(auto)]

ghost use Rattle.std.specs.Prelude.{◌≡◌, ◌≤◌, length, OnOk, IfSome};
ghost use Rattle.std.specs.Io.KnownBytes.{Appends};
ghost use Rattle.srecord_spec.specs.Printed.{loaded_text, image_printed};
ghost use Rattle.srecord_spec.specs.Promises.{PrintedInto};

use base_streams::Unfailing;
use std::io;
use std::io::{Read, Write};

// What is printed for a text of S-records, with 45,056 words lent.
fn loaded(text: &[u8], out: &mut [u8]) -> usize
    requires { 225372 ≤ length out.old }
    ensures { PrintedInto (loaded_text text.now 45056) out.old out.new result × (result ≤ length out.old) }
{
    let mut image: [u16; 45056] = base_streams::filled(0);
    srecord_print::print_loaded(text, &mut image, out)
}

// With room for 45,056 words at five bytes each, the start and a refusal (92).
fn print_loaded<W: Write>(text: &[u8], output: &mut W) -> io::Result<()>
    ensures { OnOk result (Appends (W.contents output.old) (W.contents output.new) (loaded_text text.now 45056)) }
{
    let mut out: [u8; 225372] = base_streams::filled(0);
    let n = loaded(text, &mut out);
    output.write_all(&out[..n])
}

// Of what is read; more than 1 MiB is refused.
#[tactic(auto, unfolding(srecord_spec::specs::Printed::image_printed))]
fn print_image<R: Read, W: Write>(input: &mut R, output: &mut W) -> io::Result<()>
    ensures { OnOk result (IfSome (R.remaining input.old) (λ text. Appends (W.contents output.old) (W.contents output.new) (image_printed text))) }
{
    let mut places: [u8; 1048577] = base_streams::filled(0);
    match base_streams::read_whole(input, &mut places)? {
        Some(text) => print_loaded(text, output),
        None => output.write_all(&print_parts::too_long()),
    }
}

fn main(rt: HostRuntime) -> io::Result<()> {
    let mut input = Unfailing { stream: rt.stdin() };
    let mut output = Unfailing {
        stream: rt.stdout(),
    };
    print_image(&mut input, &mut output)
}
