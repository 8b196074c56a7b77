// Prints what `sheet` would for each sheet of a list: a line with the sheet's bytes, and the scratch places and image words to
// lend, then the sheet. A fourth number 1 lends the scratch as the small one, 0 or none as the full one.
// An empty line follows each answer; a list not in this form ends with the line `list`, which is all for one of more than 1 MiB.
#![tactic(auto)]

ghost use Rattle.std.specs.Prelude.{◌≡◌, ◌≤◌};
ghost use Rattle.print_spec.specs.Printed.{Printed};
ghost use Rattle.sheets.specs.Ways.{way_of, rule_by, limits, is_answered, case_text};

use base_list::{Header, Limits};
use base_streams::Unfailing;
use list_program::LentCase;
use print_spec::Output;
use std::io;

// Which scratch is lent.
#[derive(Clone, Copy)]
enum Way {
    Full,
    Sparse,
}

// A number that is no way.
#[derive(Clone, Copy)]
struct UnknownWay(usize);

impl TryFrom<usize> for Way {
    type Error = UnknownWay;

    ghost try_from_gives = { λ n r. r ≡ way_of n };

    fn try_from(number: usize) -> Result<Self, UnknownWay> {
        match number {
            0 => Ok(Way::Full),
            1 => Ok(Way::Sparse),
            _ => Err(UnknownWay(number)),
        }
    }
}

fn print_by(
    way: Way,
    sheet: &[u8],
    image: &mut [u16],
    scratch: &mut [u32],
    out: &mut [u8],
) -> Output
    ensures { Printed (rule_by way) sheet.now image.old scratch.old out.old image.new scratch.new out.new result × (result.count ≤ 282624) }
{
    match way {
        Way::Full => sheet_print::print(sheet, image, scratch, out),
        Way::Sparse => sheet_sparse_print::print_sparse(sheet, image, scratch, out),
    }
}

// The image that is lent for each sheet of the list.
#[derive(Drop)]
struct Sheets {
    image: [u16; 45056],
}

impl LentCase for Sheets {
    ghost limits = { limits };

    ghost is_answered = { is_answered };

    ghost text_of = { case_text };

    const APART: bool = false;

    fn limits(&self) -> Limits {
        Limits {
            least: 3,
            most: 4,
            second: 4096,
            third: 45056,
            fourth: 1,
        }
    }

    fn answer(
        &mut self,
        header: Header,
        bytes: &[u8],
        scratch: &mut [u32],
        out: &mut [u8],
    ) -> Option<usize> {
        let way = Way::try_from(header.fourth).ok()?;
        let room = header.third;
        let places = header.second;
        let image = &mut self.image[..room];
        Some(print_by(way, bytes, image, &mut scratch[..places], out).count)
    }
}

fn main(rt: HostRuntime) -> io::Result<()> {
    let mut sheets = Sheets {
        image: base_streams::filled(0),
    };
    let mut input = Unfailing { stream: rt.stdin() };
    let mut output = Unfailing {
        stream: rt.stdout(),
    };
    list_program::run_lent(&mut sheets, &mut input, &mut output)
}
