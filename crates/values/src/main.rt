// Prints what the functions on values give for each line.
#![tactic(auto)]

use base_streams::Unfailing;
use std::io;
use values_answers::AskingValues;

fn main(rt: HostRuntime) -> io::Result<()> {
    let mut input = Unfailing { stream: rt.stdin() };
    let mut output = Unfailing {
        stream: rt.stdout(),
    };
    line_program::run_lines(&AskingValues, &mut input, &mut output)
}
