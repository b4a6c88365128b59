// What the test programs share: reading the parts of a pack, each behind its little-endian u32 length, and writing their lines.
#![tactic(auto)]

ghost use Rattle.std.specs.Prelude.{◌≡◌, ◌++◌, Some, IfSome, IfOk, OnOk, OnErr, decimal};
ghost use Rattle.std.specs.Io.KnownBytes.{Appends};
ghost use Rattle.basics.specs.Judged.{rule_number, verdict};
ghost use Rattle.case_io.specs.Cases.{LosesLength, LosesPart, LosesText, RunsCases};
ghost use Rattle.case_io.specs.Lines.{refusal_text, verdict_text};
ghost use Rattle.streams.specs.Filled.{AppendsPart, KeepsRead, LosesFront};

use basics::Refusal;
use itoa::Buffer;
use std::io;
use std::io::{Read, Write};

// A byte more than a text may have.
pub const LONGEST_TEXT: usize = basics::TEXT_LIMIT + 1;

// More cases than any pack has, so that the loops over them end by a count.
pub const MOST_CASES: u64 = 1000000;

pub fn put<W: Write>(out: &mut W, bytes: &[u8]) -> io::Result<()>
    ensures ok { OnOk result (Appends (W.contents out.old) (W.contents out.new) bytes.now) }
    ensures err { OnErr result (AppendsPart (W.contents out.old) (W.contents out.new) bytes.now) }
{
    streams::pour(out, bytes)
}

// A label, then a number.
pub fn put_number<W: Write>(out: &mut W, label: &[u8], n: u64) -> io::Result<()>
    ensures ok { OnOk result (Appends (W.contents out.old) (W.contents out.new) (label.now ++ decimal n)) }
    ensures err { OnErr result (AppendsPart (W.contents out.old) (W.contents out.new) (label.now ++ decimal n)) }
{
    put(out, label)?;
    let mut digits = Buffer::new();
    put(out, digits.format(n).as_bytes())
}

// A refusal: the rule's number and the place.
pub fn put_refusal<W: Write>(out: &mut W, refusal: Refusal) -> io::Result<()>
    ensures ok { OnOk result (Appends (W.contents out.old) (W.contents out.new) (refusal_text (rule_number refusal.rule) refusal.at)) }
    ensures err { OnErr result (AppendsPart (W.contents out.old) (W.contents out.new) (refusal_text (rule_number refusal.rule) refusal.at)) }
{
    put_number(out, b" refused=", refusal.rule.number() as u64)?;
    put_number(out, b" at=", refusal.at as u64)
}

// The end of a case's line: its verdict.
pub fn put_verdict<W: Write>(out: &mut W, answer: Result<(), Refusal>) -> io::Result<()>
    ensures ok { OnOk result (Appends (W.contents out.old) (W.contents out.new) (verdict_text (verdict answer))) }
    ensures err { OnErr result (AppendsPart (W.contents out.old) (W.contents out.new) (verdict_text (verdict answer))) }
{
    match answer {
        Ok(()) => put(out, b" accepted\n"),
        Err(refusal) => {
            put_refusal(out, refusal)?;
            put(out, b"\n")
        }
    }
}

// The length of the next part, if a length is there.
pub fn read_length<R: Read>(input: &mut R) -> io::Result<Option<usize>>
    ensures ok { IfOk result (λ length. LosesLength (R.remaining input.old) (R.remaining input.new) length) }
    ensures err { OnErr result (LosesFront (R.remaining input.old) (R.remaining input.new)) }
{
    let mut bytes = [0u8; 4];
    if streams::fill(input, &mut bytes)? < 4 {
        return Ok(None);
    }
    Ok(Some(u32::from_le_bytes(bytes) as usize))
}

// Reads the part whose length was read before to the start of the room, and answers that length; or nothing, where there is no length, no
// room for it or not all of the part.
pub fn read_part<R: Read>(
    input: &mut R,
    length: Option<usize>,
    room: &mut [u8],
) -> io::Result<Option<usize>>
    ensures ok { IfOk result (λ part. LosesPart (R.remaining input.old) (R.remaining input.new) room.new part) }
    ensures same { IfOk result (λ part. IfSome part (λ n. length ≡ Some n)) }
    ensures err { OnErr result (KeepsRead (R.remaining input.old) (R.remaining input.new) room.new) }
{
    let Some(length) = length else {
        return Ok(None);
    };
    if length > room.len() {
        return Ok(None);
    }
    let got = streams::fill(input, &mut room[..length])?;
    Ok((got == length).then_some(length))
}

// Reads the next text of an input.
pub fn read_text<R: Read>(input: &mut R, room: &mut [u8]) -> io::Result<Option<usize>>
    ensures ok { IfOk result (λ part. LosesText (R.remaining input.old) (R.remaining input.new) room.new part) }
    ensures err { OnErr result (LosesFront (R.remaining input.old) (R.remaining input.new)) }
{
    let length = read_length(input)?;
    read_part(input, length, room)
}

// Shows each text of an input, with its number, until no whole text is left.
pub fn run_cases<R: Read, W: Write, F: FnMut(&mut W, u64, &[u8]) -> io::Result<()>>(
    input: &mut R,
    out: &mut W,
    mut show: F,
) -> io::Result<()>
    requires { F.IsAlwaysCallable show }
    ensures ok { OnOk result (RunsCases F.FnMut (R.remaining input.old) (R.remaining input.new) show out.old out.new) }
    ensures err { OnErr result (LosesFront (R.remaining input.old) (R.remaining input.new)) }
{
    let mut room = [0u8; LONGEST_TEXT];
    for case in 0..MOST_CASES {
        let Some(length) = read_text(input, &mut room)? else {
            break;
        };
        show(out, case, &room[..length])?;
    }
    Ok(())
}
