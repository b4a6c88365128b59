// Writes the listing of the example post: examples/post.rdl and examples/post.listing are links to this program's stdin and stdout.
#![tactic(auto)]

use std::io;
use std::io::Write;

// Room for the example and for its listing.
const INPUT: usize = 1024;

const OUTPUT: usize = 4096;

fn main(rt: HostRuntime) -> io::Result<()> {
    let mut input = [0u8; INPUT];
    let mut output = [0u8; OUTPUT];
    let length = streams::fill(&mut rt.reader(), &mut input)?;
    let count = reply::reply(&input[..length], &mut output);
    io::writer(&rt).write_all(&output[..count])
}
