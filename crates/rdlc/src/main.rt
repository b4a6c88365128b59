// Reads a text from standard input to its end and writes its listing, or one line with its refusal.
#![tactic(auto)]

use std::io;
use std::io::Write;

// One byte more than a text may have, so that a longer one is seen to be; and the output's room.
const INPUT: usize = basics::TEXT_LIMIT + 1;

const OUTPUT: usize = 65536;

fn main(rt: HostRuntime) -> io::Result<()> {
    let mut input = [0u8; INPUT];
    let mut output = [0u8; OUTPUT];
    let length = streams::fill(&mut rt.reader(), &mut input)?;
    let count = reply::reply(&input[..length], &mut output);
    io::writer(&rt).write_all(&output[..count])
}
