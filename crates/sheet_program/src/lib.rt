// The program `sheet`, from the bytes that it reads to the bytes that it writes.
#![tactic(auto)]

ghost use Rattle.std.specs.Prelude.{◌≡◌, ◌≤◌, OnOk, IfSome};
ghost use Rattle.std.specs.Io.KnownBytes.{Appends};
ghost use Rattle.sheet_spec.specs.Translate.{full};
ghost use Rattle.print_spec.specs.Printed.{printed_of, Put};

use print_spec::Output;
use std::io;
use std::io::{Read, Write};

/// Prints the listing of the sheet that is read, or its refusal; a text of more than 65,536 bytes is refused.
#[tactic(auto, using(crate::proofs::Long::long_sheet))]
pub fn print_sheet<R: Read, W: Write>(input: &mut R, output: &mut W) -> io::Result<()>
    ensures { OnOk result (IfSome (R.remaining input.old) (λ text. Appends (W.contents output.old) (W.contents output.new) (printed_of full text 4096 16384))) }
{
    let mut places: [u8; 65537] = base_streams::filled(0);
    match base_streams::read_whole(input, &mut places)? {
        Some(text) => print_listing(text, output),
        None => output.write_all(&print_parts::too_long()),
    }
}

// What is printed for a sheet of at most 65,536 bytes, with 4,096 places and 16,384 words lent.
fn listing(text: &[u8], out: &mut [u8]) -> Output
    ensures { Put (printed_of full text.now 4096 16384) out.old out.new result × (result.count ≤ 282624) }
{
    let mut image: [u16; 16384] = base_streams::filled(0);
    let mut scratch: [u32; 4096] = base_streams::filled(0);
    sheet_print::print(text, &mut image, &mut scratch, out)
}

// With room for 4,096 lines of at most 69 bytes. Not inlined: a text that is too long needs no such room.
#[inline(never)]
fn print_listing<W: Write>(text: &[u8], output: &mut W) -> io::Result<()>
    ensures { OnOk result (Appends (W.contents output.old) (W.contents output.new) (printed_of full text.now 4096 16384)) }
{
    let mut out: [u8; 282624] = base_streams::filled(0);
    let n = listing(text, &mut out).count;
    output.write_all(&out[..n])
}

#[cfg(test)]
mod tests {
    use super::*;
    use base_streams::Unfailing;
    use std::io::ErrorKind;

    // Gives its text, and then an error.
    #[derive(Drop)]
    struct Torn<'a> {
        text: &'a [u8],
    }

    impl Read for Torn<'_> {
        fn read(&mut self, buf: &mut [u8]) -> io::Result<usize> {
            if self.text.is_empty() {
                return Err(io::Error::from(ErrorKind::BrokenPipe));
            }
            self.text.read(buf)
        }
    }

    // Takes so many bytes, and then gives an error.
    #[derive(Drop)]
    struct Full {
        left: usize,
    }

    impl Write for Full {
        fn write(&mut self, buf: &[u8]) -> io::Result<usize> {
            if self.left == 0 {
                return Err(io::Error::from(ErrorKind::StorageFull));
            }
            let n = self.left.min(buf.len());
            self.left -= n;
            Ok(n)
        }

        fn flush(&mut self) -> io::Result<()> {
            Ok(())
        }
    }

    #[test]
    fn prints_a_listing(rt: HostRuntime) {
        let mut sheet: &[u8] = b"START\t4096\nNOP\nRTS\n";
        let mut out = Vec::new(rt.alloc());
        assert!(rt; print_sheet(&mut sheet, &mut out).is_ok());
        assert!(rt; out.as_slice() == b"1\t00001000\t4E71\n2\t00001002\t4E75\n".as_slice());
    }

    #[test]
    fn reports_a_failed_read(rt: HostRuntime) {
        let mut torn = Torn {
            text: b"START\t4096\nNOP\n",
        };
        let mut out = Vec::new(rt.alloc());
        assert!(rt; print_sheet(&mut torn, &mut out).is_err());
        assert!(rt; out.is_empty());
    }

    #[test]
    fn prints_what_was_read(rt: HostRuntime) {
        let mut input = Unfailing {
            stream: Torn {
                text: b"START\t4096\nNOP\n",
            },
        };
        let mut out = Vec::new(rt.alloc());
        assert!(rt; print_sheet(&mut input, &mut out).is_ok());
        assert!(rt; out.as_slice() == b"1\t00001000\t4E71\n".as_slice());
    }

    #[test]
    fn passes_over_a_failed_write(rt: HostRuntime) {
        let mut sheet: &[u8] = b"START\t4096\nNOP\nRTS\n";
        let mut output = Unfailing {
            stream: Full { left: 3 },
        };
        assert!(rt; print_sheet(&mut sheet, &mut output).is_ok());
        assert!(rt; output.stream.left == 0);
    }

    #[test]
    fn reports_a_failed_write(rt: HostRuntime) {
        let mut sheet: &[u8] = b"START\t4096\nNOP\nRTS\n";
        assert!(rt; print_sheet(&mut sheet, &mut Full { left: 3 }).is_err());
    }
}
