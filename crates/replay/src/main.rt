// `replay MAP LOG`: plays a log of accesses on the map of a SystemRDL text, from the reset store. Writes a line for each access and then the
// number of each field, or one line with the map's refusal. What goes wrong with a file is said on standard error.
#![tactic(auto)]

ghost use Rattle.std.specs.Prelude.{◌≤◌, IfOk, length};

use basics::Refusal;
use lines::Sink;
use player::{Played, Progress};
use std::env::{Env, FillError};
use std::fs::Files;
use std::io::{Read, Write};
use std::{fs, io, str};

// One byte more than a text may have, so that a longer one is seen to be.
const INPUT: usize = basics::TEXT_LIMIT + 1;

// The bytes of a log that are played at once, and room for what they write: no byte writes more than 128.
const PART: usize = 512;

const OUTPUT: usize = 128 * PART;

// The room for the name of a file.
const NAME: usize = 4096;

// What ends a replay early.
#[derive(Drop)]
enum Failure {
    OpenMap(io::Error),
    ReadMap(io::Error),
    OpenLog(io::Error),
    ReadLog(io::Error),
    Write(io::Error),
    NoRoom,
}

// The rows of a map.
#[derive(Clone, Copy)]
struct Rows<'a> {
    registers: &'a [u64],
    paths: &'a [u8],
    fields: &'a [u64],
    labels: &'a [u8],
}

// Says what could not be done with which file, and why. Where that fails too, there is nobody left to tell.
fn complain<R: Eprint>(rt: &R, failure: &Failure, map: &str, log: &str) {
    let _ = match failure {
        Failure::OpenMap(error) => eprintln!(rt; "replay: cannot open the map {map}: {error}"),
        Failure::ReadMap(error) => eprintln!(rt; "replay: cannot read the map {map}: {error}"),
        Failure::OpenLog(error) => eprintln!(rt; "replay: cannot open the log {log}: {error}"),
        Failure::ReadLog(error) => eprintln!(rt; "replay: cannot read the log {log}: {error}"),
        Failure::Write(error) => eprintln!(rt; "replay: cannot write the output: {error}"),
        Failure::NoRoom => eprintln!(rt; "replay: no room for the output"),
    };
}

// Writes a text as far as it is filled.
fn show<W: Write>(out: &mut W, text: &[u8], sink: Sink) -> Result<(), Failure> {
    if sink.full {
        // never so: the room is larger than what a part of a log or a register's fields write
        return Err(Failure::NoRoom);
    }
    let count = sink.at.min(text.len());
    out.write_all(&text[..count]).map_err(Failure::Write)
}

// Reads a text as far as there is room.
fn read_text<F: Files>(files: &F, path: &str, text: &mut [u8]) -> Result<usize, Failure>
    ensures { IfOk result (λ n. n ≤ length text.new) }
{
    let mut file = fs::open(files, path).map_err(Failure::OpenMap)?;
    streams::fill(&mut file, text).map_err(Failure::ReadMap)
}

// Plays some bytes of a log, and writes what they write. Answers what to go on from; nothing behind a line that is none.
fn play_bytes<W: Write>(
    out: &mut W,
    rows: Rows<'_>,
    store: &mut [u64],
    progress: Progress,
    part: &[u8],
) -> Result<Option<Progress>, Failure> {
    let mut text = [0u8; OUTPUT];
    let sink = Sink { at: 0, full: false };
    let start = Played { progress, sink };
    let played = player::play(
        rows.registers,
        rows.paths,
        rows.fields,
        rows.labels,
        store,
        &mut text,
        start,
        part,
    );
    show(out, &text, played.sink)?;
    let next = played.progress;
    Ok((!next.stopped).then_some(next))
}

// Reads a part of a log and plays it. The end of the log ends its last line, and there is nothing to go on from.
fn play_part<L: Read, W: Write>(
    log: &mut L,
    out: &mut W,
    rows: Rows<'_>,
    store: &mut [u64],
    progress: Progress,
) -> Result<Option<Progress>, Failure> {
    let mut part = [0u8; PART];
    let count = log.read(&mut part).map_err(Failure::ReadLog)?;
    if count == 0 {
        play_bytes(out, rows, store, progress, b"\n")?;
        return Ok(None);
    }
    play_bytes(out, rows, store, progress, &part[..count])
}

// Plays a log to its end or to a line that is none. The loop counts its turns, since nothing says that a log ends.
fn play_log<L: Read, W: Write>(
    log: &mut L,
    out: &mut W,
    rows: Rows<'_>,
    store: &mut [u64],
) -> Result<(), Failure> {
    let mut progress = player::started();
    for _ in 0..u64::MAX {
        match play_part(log, out, rows, store, progress)? {
            Some(next) => progress = next,
            None => break,
        }
    }
    Ok(())
}

// The numbers of a register's fields.
fn show_register<W: Write>(
    out: &mut W,
    rows: Rows<'_>,
    store: &[u64],
    i: usize,
) -> Result<(), Failure> {
    let mut text = [0u8; OUTPUT];
    let start = Sink { at: 0, full: false };
    let sink = player::put_numbers(
        &mut text,
        start,
        rows.registers,
        rows.paths,
        rows.labels,
        store,
        i,
    );
    show(out, &text, sink)
}

// Plays the log of this name on a map, from the reset store, and then shows the numbers of all fields.
fn replay_rows<F: Files, W: Write>(
    files: &F,
    out: &mut W,
    rows: Rows<'_>,
    path: &str,
) -> Result<(), Failure> {
    let mut log = fs::open(files, path).map_err(Failure::OpenLog)?;
    let mut store = [0u64; basics::FIELD_LIMIT];
    let _ = access::reset(
        rows.registers,
        rows.paths,
        rows.fields,
        rows.labels,
        &mut store,
    );
    play_log(&mut log, out, rows, &mut store)?;
    for i in 0..rows.registers.len() / basics::REGISTER_ROW_WIDTH {
        show_register(out, rows, &store, i)?;
    }
    Ok(())
}

fn show_refusal<W: Write>(out: &mut W, refusal: Refusal) -> Result<(), Failure> {
    let mut text = [0u8; OUTPUT];
    let at = reply::write_refusal(&mut text, refusal.rule.number() as u64, refusal.at as u64);
    show(out, &text, Sink { at, full: false })
}

// The first rows of a table.
fn first<T>(cells: &[T], count: usize, width: usize) -> &[T] {
    let end = player::rows_end(count, width, cells.len());
    &cells[..end]
}

// Plays the log of this name on the map of a text.
fn replay_text<F: Files, W: Write>(
    files: &F,
    out: &mut W,
    text: &[u8],
    path: &str,
) -> Result<(), Failure> {
    let mut registers = [0u64; reply::REGISTERS];
    let mut paths = [0u8; reply::PATHS];
    let mut fields = [0u64; reply::FIELDS];
    let mut labels = [0u8; reply::LABELS];
    match compile::compile(text, &mut registers, &mut paths, &mut fields, &mut labels) {
        Ok(counts) => {
            let rows = Rows {
                registers: first(&registers, counts.registers, basics::REGISTER_ROW_WIDTH),
                paths: first(&paths, counts.registers, basics::PATH_ROW_WIDTH),
                fields: first(&fields, counts.fields, basics::FIELD_ROW_WIDTH),
                labels: first(&labels, counts.fields, basics::NAME_WIDTH),
            };
            replay_rows(files, out, rows, path)
        }
        Err(refusal) => show_refusal(out, refusal),
    }
}

// Reads the map of one name and plays the log of another on it.
fn replay_files<R: Files + Print + Eprint>(rt: &R, map: &str, log: &str) -> Result<(), Failure> {
    let mut text = [0u8; INPUT];
    let length = read_text(rt, map, &mut text)?;
    if length == INPUT {
        let _ = eprintln!(rt; "replay: cannot take the map {map}: longer than 65536 bytes");
    }
    replay_text(rt, &mut io::writer(rt), &text[..length], log)
}

fn is_given<E: Env>(env: &E, index: usize) -> bool {
    !matches!(env.arg(index, &mut []), Err(FillError::NotPresent))
}

// An argument, where it is text that the room holds.
fn argument<'a, E: Env>(env: &E, index: usize, room: &'a mut [u8]) -> Option<&'a str> {
    let length = env.arg(index, room).ok()?;
    str::from_utf8(&room[..length]).ok()
}

fn main(rt: HostRuntime) {
    let mut map_room = [0u8; NAME];
    let mut log_room = [0u8; NAME];
    if !is_given(&rt, 2) || is_given(&rt, 3) {
        let _ = eprintln!(rt; "usage: replay MAP LOG");
        return;
    }
    let Some(map) = argument(&rt, 1, &mut map_room) else {
        let _ = eprintln!(rt; "replay: the map's name: too long, or no text");
        return;
    };
    let Some(log) = argument(&rt, 2, &mut log_room) else {
        let _ = eprintln!(rt; "replay: the log's name: too long, or no text");
        return;
    };
    if let Err(failure) = replay_files(&rt, map, log) {
        complain(&rt, &failure, map, log);
    }
}
