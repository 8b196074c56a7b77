// Prints the instruction that each run of words reads as, in numeric form, and its length.
#![tactic(auto)]

use base_streams::Unfailing;
use read_answers::ReadingRuns;
use std::io;

fn main(rt: HostRuntime) -> io::Result<()> {
    let mut input = Unfailing { stream: rt.stdin() };
    let mut output = Unfailing {
        stream: rt.stdout(),
    };
    line_program::run_lines(&ReadingRuns, &mut input, &mut output)
}
