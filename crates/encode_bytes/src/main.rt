// Prints what `encode_bytes` returns for each line, and the bytes that were lent to it.
#![tactic(auto)]

use base_streams::Unfailing;
use bytes_answers::EncodingBytes;
use std::io;

fn main(rt: HostRuntime) -> io::Result<()> {
    let mut input = Unfailing { stream: rt.stdin() };
    let mut output = Unfailing {
        stream: rt.stdout(),
    };
    line_program::run_lines(&EncodingBytes, &mut input, &mut output)
}
