// Reading to the start of a room, from a file or from standard input, and writing all of some bytes.
#![tactic(auto)]

ghost use Rattle.std.specs.Prelude.{◌<◌, ◌≤◌, IfOk, OnOk, OnErr, length, take};
ghost use Rattle.std.specs.Io.KnownBytes.{Appends, Consumes, IsAtEnd};
ghost use Rattle.streams.specs.Filled.{AppendsPart, KeepsRead};

use std::io;
use std::io::{ErrorKind, Read, Write};

// Reads until the room is full or the input ends, and answers how many bytes it put at the room's start. Where a read fails, what was read
// before it stands there.
pub fn fill<R: Read>(input: &mut R, room: &mut [u8]) -> io::Result<usize>
    ensures within { IfOk result (λ n. n ≤ length room.new) }
    ensures bytes { IfOk result (λ n. Consumes (R.remaining input.old) (R.remaining input.new) (take n room.new)) }
    ensures end { IfOk result (λ n. n < length room.new → IsAtEnd (R.remaining input.new)) }
    ensures err { OnErr result (KeepsRead (R.remaining input.old) (R.remaining input.new) room.new) }
{
    let mut done = 0;
    while done < room.len() {
        let got = input.read(&mut room[done..])?;
        if got == 0 {
            break;
        }
        done += got;
    }
    Ok(done)
}

// Writes all the bytes, in as many writes as that takes; one that was interrupted is tried again. Where a write fails, or takes none of
// the rest, what was written before it stands.
pub fn pour<W: Write>(out: &mut W, bytes: &[u8]) -> io::Result<()>
    ensures ok { OnOk result (Appends (W.contents out.old) (W.contents out.new) bytes.now) }
    ensures err { OnErr result (AppendsPart (W.contents out.old) (W.contents out.new) bytes.now) }
{
    let mut done = 0;
    for _ in 0..u64::MAX {
        if done == bytes.len() {
            return Ok(());
        }
        match out.write(&bytes[done..]) {
            Ok(0) => return Err(io::Error::from(ErrorKind::WriteZero)),
            Ok(put) => done += put,
            Err(e) if e.kind() == ErrorKind::Interrupted => {}
            Err(e) => return Err(e),
        }
    }
    Err(io::Error::from(ErrorKind::TimedOut))
}
