// Answers each text of the conformance pack data/level-03.pack (for each case the u32 lengths of the text and of the answer, then both) as
// the program does. Writes a line for each text on which they differ, then how many there are and on how many they agree.
#![tactic(auto)]

use case_io::MOST_CASES;
use std::io::{Read, Write};
use std::{fs, io};

// Room for a text or an answer, and the program's output buffer.
const ROOM: usize = 65536;

// Whether the program answers this to a text; shows what it answers where it does not.
fn is_answer<W: Write>(out: &mut W, case: u64, text: &[u8], answer: &[u8]) -> io::Result<bool> {
    let mut output = [0u8; ROOM];
    let count = reply::reply(text, &mut output);
    let given = &output[..count];
    if given == answer {
        return Ok(true);
    }
    case_io::put_number(out, b"", case)?;
    case_io::put(out, b" got: ")?;
    case_io::put(out, given)?;
    Ok(false)
}

// Whether the program answers the next text as the pack does, if there is one.
fn run_case<R: Read, W: Write>(
    pack: &mut R,
    out: &mut W,
    case: u64,
    text_room: &mut [u8],
    answer_room: &mut [u8],
) -> io::Result<Option<bool>> {
    let text_length = case_io::read_length(pack)?;
    let answer_length = case_io::read_length(pack)?;
    let text = case_io::read_part(pack, text_length, text_room)?;
    let answer = case_io::read_part(pack, answer_length, answer_room)?;
    match (text, answer) {
        (Some(text), Some(answer)) => {
            let agrees = is_answer(out, case, &text_room[..text], &answer_room[..answer])?;
            Ok(Some(agrees))
        }
        _ => Ok(None),
    }
}

fn report<W: Write>(out: &mut W, cases: u64, agreed: u64) -> io::Result<()> {
    case_io::put_number(out, b"cases=", cases)?;
    case_io::put_number(out, b" agree=", agreed)?;
    case_io::put(out, b"\n")
}

fn main(rt: HostRuntime) -> io::Result<()> {
    let mut text_room = [0u8; ROOM];
    let mut answer_room = [0u8; ROOM];
    let mut pack = fs::open(&rt, "level-03.pack")?;
    let mut out = io::writer(&rt);
    let mut agreed = 0;
    for case in 0..MOST_CASES {
        match run_case(&mut pack, &mut out, case, &mut text_room, &mut answer_room)? {
            Some(agrees) => agreed += u64::from(agrees),
            None => return report(&mut out, case, agreed),
        }
    }
    report(&mut out, MOST_CASES, agreed)
}
