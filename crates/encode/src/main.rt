// Prints the words and the size of each instruction, one a line in numeric form.
#![tactic(auto)]

use base_streams::Unfailing;
use encode_answers::Encoding;
use std::io;

fn main(rt: HostRuntime) -> io::Result<()> {
    let mut input = Unfailing { stream: rt.stdin() };
    let mut output = Unfailing {
        stream: rt.stdout(),
    };
    line_program::run_lines(&Encoding, &mut input, &mut output)
}
