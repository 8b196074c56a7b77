// Prints the image of the sheet on standard input as S-records, or the sheet's refusal.
#![tactic(auto)]

ghost use Rattle.std.specs.Prelude.{◌≡◌, ◌≤◌, length, OnOk, IfSome};
ghost use Rattle.std.specs.Io.KnownBytes.{Appends};
ghost use Rattle.srecord_spec.specs.Printed.{sheet_records};
ghost use Rattle.srecord_spec.specs.Promises.{PrintedInto};

use base_streams::Unfailing;
use std::io;
use std::io::{Read, Write};

// What is printed for a sheet, with 4,096 places and 16,384 words lent; one of more than 65,536 bytes is refused.
fn records(text: &[u8], out: &mut [u8]) -> usize
    requires { 80911 ≤ length out.old }
    ensures { PrintedInto (sheet_records text.now 4096 16384) out.old out.new result × (result ≤ length out.old) }
{
    let mut image: [u16; 16384] = base_streams::filled(0);
    let mut scratch: [u32; 4096] = base_streams::filled(0);
    let r = sheet_translate::translate(text, &mut image, &mut scratch);
    if r.number == 0 {
        let words = r.words;
        let s = sheet_start::start(text);
        return srecord_write::write_records(s.address, &image[..words], out).count;
    }
    print_parts::put_refusal(out, r.number, r.line, r.detail, r.value)
}

// The S-records of at most 16,384 words.
fn print_image<W: Write>(text: &[u8], output: &mut W) -> io::Result<()>
    ensures { OnOk result (Appends (W.contents output.old) (W.contents output.new) (sheet_records text.now 4096 16384)) }
{
    let mut out: [u8; 80911] = base_streams::filled(0);
    let n = records(text, &mut out);
    output.write_all(&out[..n])
}

// Of the sheet that is read; one of more than 65,536 bytes is refused.
#[tactic(auto, using(crate::proofs::Long::long_records))]
fn print_records<R: Read, W: Write>(input: &mut R, output: &mut W) -> io::Result<()>
    ensures { OnOk result (IfSome (R.remaining input.old) (λ text. Appends (W.contents output.old) (W.contents output.new) (sheet_records text 4096 16384))) }
{
    let mut places: [u8; 65537] = base_streams::filled(0);
    match base_streams::read_whole(input, &mut places)? {
        Some(text) => print_image(text, output),
        None => output.write_all(&print_parts::too_long()),
    }
}

fn main(rt: HostRuntime) -> io::Result<()> {
    let mut input = Unfailing { stream: rt.stdin() };
    let mut output = Unfailing {
        stream: rt.stdout(),
    };
    print_records(&mut input, &mut output)
}
