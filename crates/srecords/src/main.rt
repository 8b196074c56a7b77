// Runs a list of images to be written and texts of S-records to be read: a line with how many bytes follow it, the way and how much to lend, then the bytes.
// Way 0 is an image line, written into so many bytes; way 1 a text, read into so many words. An empty line follows each answer; a list not in this form
// ends with the line `list`, which is all for one of more than 1 MiB.
#![tactic(auto)]

ghost use Rattle.std.specs.Prelude.{◌≡◌, ◌≤◌, length, leb};
ghost use Rattle.list_program.specs.Cases.{Answered};
ghost use Rattle.srecords.specs.Answer.{way_of, limits, is_answered, answer_text, is_answered_case, case_text, loaded_into, image_after};
ghost use Rattle.srecord_line.specs.Line.{is_read, words_left};
ghost use Rattle.srecord_line.specs.LineForm.{image_line_start, image_line_words};
ghost use Rattle.srecord_spec.specs.Printed.{written_text, loaded_text};

use base_list::{Header, Limits};
use base_streams::Unfailing;
use list_program::LentCase;
use std::io;

// What is done with the bytes of a case.
#[derive(Clone, Copy)]
enum Way {
    Write,
    Read,
}

// A number that is no way.
#[derive(Clone, Copy)]
struct UnknownWay(usize);

impl TryFrom<usize> for Way {
    type Error = UnknownWay;

    ghost try_from_gives = { λ n r. r ≡ way_of n };

    fn try_from(number: usize) -> Result<Self, UnknownWay> {
        match number {
            0 => Ok(Way::Write),
            1 => Ok(Way::Read),
            _ => Err(UnknownWay(number)),
        }
    }
}

// An image line, written into the first `room` bytes.
fn written(line: &[u8], room: usize, image: &mut [u16], out: &mut [u8]) -> Option<usize>
    requires { (92 ≤ length out.old) × (room ≤ length out.old) }
    ensures answered { Answered (is_read line.now (length image.old)) (written_text (image_line_start line.now) (image_line_words line.now) room) out.old out.new result }
    ensures image_after { image.new ≡ words_left line.now image.old }
{
    let l = srecord_line::read_image_line(line, image);
    if !l.ok {
        return None;
    }
    let count = l.count;
    Some(srecord_print::print_written(l.start, &image[..count], room, out))
}

// A text of S-records, read into the first `room` words, 45,056 at most.
fn loaded(text: &[u8], room: usize, image: &mut [u16], out: &mut [u8]) -> Option<usize>
    requires { (225372 ≤ length out.old) × (45056 ≤ length image.old) }
    ensures answered { Answered (leb room 45056) (loaded_text text.now room) out.old out.new result }
    ensures image_after { image.new ≡ loaded_into text.now room image.old }
{
    if 45056 < room {
        return None;
    }
    Some(srecord_print::print_loaded(text, &mut image[..room], out))
}

// The answer to the bytes of a case, by its way.
fn answer_by(
    number: usize,
    bytes: &[u8],
    room: usize,
    image: &mut [u16],
    out: &mut [u8],
) -> Option<usize>
    requires { (225372 ≤ length out.old) × (room ≤ length out.old) × (45056 ≤ length image.old) }
    ensures answered { Answered (is_answered number bytes.now room (length image.old)) (answer_text number bytes.now room) out.old out.new result }
    ensures image_after { image.new ≡ image_after number bytes.now room image.old }
{
    match Way::try_from(number) {
        Ok(Way::Write) => written(bytes, room, image, out),
        Ok(Way::Read) => loaded(bytes, room, image, out),
        Err(_) => None,
    }
}

// The words that are lent for each case; 209,715 are more than an image line of 1 MiB has.
#[derive(Drop)]
struct Records {
    image: [u16; 209715],
}

impl LentCase for Records {
    ghost limits = { limits };

    ghost is_answered = { is_answered_case };

    ghost text_of = { case_text };

    const APART: bool = true;

    fn limits(&self) -> Limits {
        Limits {
            least: 3,
            most: 3,
            second: 1,
            third: 262144,
            fourth: 0,
        }
    }

    fn answer(
        &mut self,
        header: Header,
        bytes: &[u8],
        _: &mut [u32],
        out: &mut [u8],
    ) -> Option<usize> {
        answer_by(header.second, bytes, header.third, &mut self.image, out)
    }
}

fn main(rt: HostRuntime) -> io::Result<()> {
    let mut records = Records {
        image: base_streams::filled(0),
    };
    let mut input = Unfailing { stream: rt.stdin() };
    let mut output = Unfailing {
        stream: rt.stdout(),
    };
    list_program::run_lent(&mut records, &mut input, &mut output)
}
