// Prints the sheets of a list of images: a line with how many bytes follow it and how many bytes to lend, then an image line.
// An empty line follows each answer; a list not in this form ends with the line `list`, which is all for one of more than 1 MiB.
#![tactic(auto)]

ghost use Rattle.std.specs.Prelude.{◌≡◌, ◌≤◌, length};
ghost use Rattle.list_program.specs.Cases.{Answered};
ghost use Rattle.srecord_line.specs.Line.{is_read, words_left};
ghost use Rattle.srecord_line.specs.LineForm.{image_line_start, image_line_words};
ghost use Rattle.unsheet_spec.specs.Printed.{unsheet_text};
ghost use Rattle.unsheets.specs.Answer.{limits, is_answered, case_text};

use base_list::{Header, Limits};
use base_streams::Unfailing;
use list_program::LentCase;
use std::io;

// The sheet of an image line, with the first `room` bytes lent.
fn unsheeted(line: &[u8], room: usize, image: &mut [u16], out: &mut [u8]) -> Option<usize>
    requires { (92 ≤ length out.old) × (room ≤ length out.old) }
    ensures answered { Answered (is_read line.now (length image.old)) (unsheet_text (image_line_start line.now) (image_line_words line.now) room) out.old out.new result }
    ensures image_after { image.new ≡ words_left line.now image.old }
{
    let l = srecord_line::read_image_line(line, image);
    if !l.ok {
        return None;
    }
    let count = l.count;
    Some(unsheet_print::print_unsheet(l.start, &image[..count], room, out))
}

// The words that are lent for each case; 209,715 are more than an image line of 1 MiB has.
#[derive(Drop)]
struct Images {
    image: [u16; 209715],
}

impl LentCase for Images {
    ghost limits = { limits };

    ghost is_answered = { is_answered };

    ghost text_of = { case_text };

    const APART: bool = true;

    fn limits(&self) -> Limits {
        Limits {
            least: 2,
            most: 2,
            second: 70000,
            third: 0,
            fourth: 0,
        }
    }

    fn answer(
        &mut self,
        header: Header,
        bytes: &[u8],
        _: &mut [u32],
        out: &mut [u8],
    ) -> Option<usize> {
        unsheeted(bytes, header.second, &mut self.image, out)
    }
}

fn main(rt: HostRuntime) -> io::Result<()> {
    let mut images = Images {
        image: base_streams::filled(0),
    };
    let mut input = Unfailing { stream: rt.stdin() };
    let mut output = Unfailing {
        stream: rt.stdout(),
    };
    list_program::run_lent(&mut images, &mut input, &mut output)
}
