// Prints the sheet of the image of the S-records on standard input, or a refusal.
#![tactic(auto)]

ghost use Rattle.std.specs.Prelude.{◌≡◌, ◌≤◌, length, OnOk, IfSome};
ghost use Rattle.std.specs.Io.KnownBytes.{Appends};
ghost use Rattle.srecord_spec.specs.Promises.{PrintedInto};
ghost use Rattle.unsheet_spec.specs.Printed.{records_sheet, unsheet_printed};

use base_streams::Unfailing;
use std::io;
use std::io::{Read, Write};

// What is printed for a text of S-records, with 45,056 words and 65,536 bytes lent.
fn unsheeted(text: &[u8], out: &mut [u8]) -> usize
    requires { 65536 ≤ length out.old }
    ensures { PrintedInto (records_sheet text.now 45056 65536) out.old out.new result × (result ≤ length out.old) }
{
    let mut image: [u16; 45056] = base_streams::filled(0);
    unsheet_print::print_records(text, &mut image, 65536, out)
}

// With room for the most bytes that a sheet has. Not inlined: a text that is too long needs no such room.
#[inline(never)]
fn print_records<W: Write>(text: &[u8], output: &mut W) -> io::Result<()>
    ensures { OnOk result (Appends (W.contents output.old) (W.contents output.new) (records_sheet text.now 45056 65536)) }
{
    let mut out: [u8; 65536] = base_streams::filled(0);
    let n = unsheeted(text, &mut out);
    output.write_all(&out[..n])
}

// Of what is read; more than 1 MiB is refused.
#[tactic(auto, unfolding(unsheet_spec::specs::Printed::unsheet_printed))]
fn print_sheet<R: Read, W: Write>(input: &mut R, output: &mut W) -> io::Result<()>
    ensures { OnOk result (IfSome (R.remaining input.old) (λ text. Appends (W.contents output.old) (W.contents output.new) (unsheet_printed text))) }
{
    let mut places: [u8; 1048577] = base_streams::filled(0);
    match base_streams::read_whole(input, &mut places)? {
        Some(text) => print_records(text, output),
        None => output.write_all(&print_parts::too_long()),
    }
}

fn main(rt: HostRuntime) -> io::Result<()> {
    let mut input = Unfailing { stream: rt.stdin() };
    let mut output = Unfailing {
        stream: rt.stdout(),
    };
    print_sheet(&mut input, &mut output)
}
