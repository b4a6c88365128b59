// Replays the cases of the conformance pack data/replay.pack (for each the u32 lengths of text, log and answer, then these), the log cut
// into parts, and the example posts of data/. Writes a line for each case whose answer differs and how many agree, then a line for each
// example: whether its listing and what its log plays are those of the files beside it.
#![tactic(auto)]

ghost use Rattle.std.specs.Prelude.{◌≤◌, IfOk, length};

use case_io::MOST_CASES;
use lines::Sink;
use player::Played;
use std::fs::Files;
use std::io::{Read, Write};
use std::{fs, io};

// Room for a text, a log, an answer and an output.
const ROOM: usize = 65536;

// The rows of a map.
#[derive(Clone, Copy)]
struct Rows<'a> {
    registers: &'a [u64],
    paths: &'a [u8],
    fields: &'a [u64],
    labels: &'a [u8],
}

// Plays a log, cut into parts of so many bytes.
fn play_parts(rows: Rows<'_>, store: &mut [u64], out: &mut [u8], log: &[u8], size: usize) -> Sink {
    let mut played = Played {
        progress: player::started(),
        sink: Sink { at: 0, full: false },
    };
    for part in log.chunks(size.max(1)) {
        played = play(rows, store, out, played, part);
    }
    play(rows, store, out, played, b"\n").sink
}

fn play(rows: Rows<'_>, store: &mut [u64], out: &mut [u8], start: Played, part: &[u8]) -> Played {
    player::play(
        rows.registers,
        rows.paths,
        rows.fields,
        rows.labels,
        store,
        out,
        start,
        part,
    )
}

// What the log writes on these rows, from the reset store, and then the numbers of all fields.
fn replay_rows(rows: Rows<'_>, out: &mut [u8], log: &[u8], size: usize) -> usize {
    let mut store = [0u64; basics::FIELD_LIMIT];
    let _ = access::reset(
        rows.registers,
        rows.paths,
        rows.fields,
        rows.labels,
        &mut store,
    );
    let mut sink = play_parts(rows, &mut store, out, log, size);
    for i in 0..rows.registers.len() / basics::REGISTER_ROW_WIDTH {
        sink = player::put_numbers(
            out,
            sink,
            rows.registers,
            rows.paths,
            rows.labels,
            &store,
            i,
        );
    }
    sink.at
}

// The first rows of a table.
fn first<T>(cells: &[T], count: usize, width: usize) -> &[T] {
    let end = player::rows_end(count, width, cells.len());
    &cells[..end]
}

// What the program writes for a text and a log.
fn replay(text: &[u8], log: &[u8], out: &mut [u8], size: usize) -> usize {
    let mut registers = [0u64; reply::REGISTERS];
    let mut paths = [0u8; reply::PATHS];
    let mut fields = [0u64; reply::FIELDS];
    let mut labels = [0u8; reply::LABELS];
    match compile::compile(text, &mut registers, &mut paths, &mut fields, &mut labels) {
        Ok(counts) => {
            let rows = Rows {
                registers: first(&registers, counts.registers, basics::REGISTER_ROW_WIDTH),
                paths: first(&paths, counts.registers, basics::PATH_ROW_WIDTH),
                fields: first(&fields, counts.fields, basics::FIELD_ROW_WIDTH),
                labels: first(&labels, counts.fields, basics::NAME_WIDTH),
            };
            replay_rows(rows, out, log, size)
        }
        Err(refusal) => reply::write_refusal(out, refusal.rule.number() as u64, refusal.at as u64),
    }
}

// Whether the first bytes of an output are these; shows them where they are not.
fn is_same<W: Write>(out: &mut W, given: &[u8], count: usize, due: &[u8]) -> io::Result<bool> {
    let end = count.min(given.len());
    let start = &given[..end];
    if start == due {
        return Ok(true);
    }
    case_io::put(out, b"got: ")?;
    case_io::put(out, start)?;
    Ok(false)
}

// Whether a text and a log give this answer.
fn is_answer<W: Write>(
    out: &mut W,
    text: &[u8],
    log: &[u8],
    answer: &[u8],
    size: usize,
) -> io::Result<bool> {
    let mut given = [0u8; ROOM];
    let count = replay(text, log, &mut given, size);
    is_same(out, &given, count, answer)
}

// Whether a text has this listing.
fn is_listing<W: Write>(out: &mut W, text: &[u8], listing: &[u8]) -> io::Result<bool> {
    let mut given = [0u8; ROOM];
    let count = reply::reply(text, &mut given);
    is_same(out, &given, count, listing)
}

// Whether the program answers the next text and log as the pack does, if there is one.
fn run_case<R: Read, W: Write>(
    pack: &mut R,
    out: &mut W,
    case: u64,
    text_room: &mut [u8],
    log_room: &mut [u8],
    answer_room: &mut [u8],
) -> io::Result<Option<bool>> {
    let text_length = case_io::read_length(pack)?;
    let log_length = case_io::read_length(pack)?;
    let answer_length = case_io::read_length(pack)?;
    let text = case_io::read_part(pack, text_length, text_room)?;
    let log = case_io::read_part(pack, log_length, log_room)?;
    let answer = case_io::read_part(pack, answer_length, answer_room)?;
    let (Some(text), Some(log), Some(answer)) = (text, log, answer) else {
        return Ok(None);
    };
    let agrees = is_answer(
        out,
        &text_room[..text],
        &log_room[..log],
        &answer_room[..answer],
        (case % 64) as usize + 1,
    )?;
    if !agrees {
        case_io::put_number(out, b"differs: ", case)?;
        case_io::put(out, b"\n")?;
    }
    Ok(Some(agrees))
}

fn report<W: Write>(out: &mut W, cases: u64, agreed: u64) -> io::Result<()> {
    case_io::put_number(out, b"cases=", cases)?;
    case_io::put_number(out, b" agree=", agreed)?;
    case_io::put(out, b"\n")
}

fn run_pack<R: Read, W: Write>(pack: &mut R, out: &mut W) -> io::Result<()> {
    let mut text_room = [0u8; ROOM];
    let mut log_room = [0u8; ROOM];
    let mut answer_room = [0u8; ROOM];
    let mut agreed: u64 = 0;
    for case in 0..MOST_CASES {
        match run_case(
            pack,
            out,
            case,
            &mut text_room,
            &mut log_room,
            &mut answer_room,
        )? {
            Some(agrees) => agreed += u64::from(agrees),
            None => return report(out, case, agreed),
        }
    }
    report(out, MOST_CASES, agreed)
}

// Reads a file as far as there is room.
fn read_file<F: Files>(files: &F, name: &str, room: &mut [u8]) -> io::Result<usize>
    ensures { IfOk result (λ n. n ≤ length room.new) }
{
    let mut file = fs::open(files, name)?;
    streams::fill(&mut file, room)
}

fn put_verdict<W: Write>(out: &mut W, label: &[u8], is_same: bool) -> io::Result<()> {
    case_io::put(out, label)?;
    if is_same {
        case_io::put(out, b" agrees")
    } else {
        case_io::put(out, b" differs")
    }
}

// The files of an example: its text, its listing, its log and what that plays.
#[derive(Clone, Copy)]
struct ExampleFiles<'a> {
    text: &'a str,
    listing: &'a str,
    log: &'a str,
    played: &'a str,
}

fn run_example<F: Files, W: Write>(
    files: &F,
    out: &mut W,
    name: &[u8],
    example: ExampleFiles<'_>,
) -> io::Result<()> {
    let mut text = [0u8; ROOM];
    let mut answer = [0u8; ROOM];
    let mut log = [0u8; ROOM];
    let text_end = read_file(files, example.text, &mut text)?;
    let listing_end = read_file(files, example.listing, &mut answer)?;
    case_io::put(out, name)?;
    let listed = is_listing(out, &text[..text_end], &answer[..listing_end])?;
    put_verdict(out, b" listing", listed)?;
    let log_end = read_file(files, example.log, &mut log)?;
    let played_end = read_file(files, example.played, &mut answer)?;
    let played = is_answer(
        out,
        &text[..text_end],
        &log[..log_end],
        &answer[..played_end],
        1,
    )?;
    put_verdict(out, b" played", played)?;
    case_io::put(out, b"\n")
}

const OVERLAY: ExampleFiles<'static> = ExampleFiles {
    text: "overlay.rdl",
    listing: "overlay.listing",
    log: "overlay.log",
    played: "overlay.played",
};

const CLEARING: ExampleFiles<'static> = ExampleFiles {
    text: "clearing.rdl",
    listing: "clearing.listing",
    log: "clearing.log",
    played: "clearing.played",
};

const TOGGLING: ExampleFiles<'static> = ExampleFiles {
    text: "toggling.rdl",
    listing: "toggling.listing",
    log: "toggling.log",
    played: "toggling.played",
};

fn main(rt: HostRuntime) -> io::Result<()> {
    let mut out = io::writer(&rt);
    let mut pack = fs::open(&rt, "replay.pack")?;
    run_pack(&mut pack, &mut out)?;
    run_example(&rt, &mut out, b"overlay:", OVERLAY)?;
    run_example(&rt, &mut out, b"clearing:", CLEARING)?;
    run_example(&rt, &mut out, b"toggling:", TOGGLING)
}
