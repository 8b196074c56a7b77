// Prints the instruction that each run of words reads as, in numeric form, and its length, for boards with an MC68000.
#![tactic(auto)]

use base_streams::Unfailing;
use m68000_answers::ReadingRuns68000;
use std::io;

fn main(rt: HostRuntime) -> io::Result<()> {
    let mut input = Unfailing { stream: rt.stdin() };
    let mut output = Unfailing {
        stream: rt.stdout(),
    };
    line_program::run_lines(&ReadingRuns68000, &mut input, &mut output)
}
