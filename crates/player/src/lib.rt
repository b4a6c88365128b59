// Plays a log of accesses on the rows of a map and a store, part by part, and writes what each access answered and the fields' numbers.
#![tactic(auto)]

ghost use Rattle.std.specs.Prelude.{◌≡◌, [], ◌+◌, ◌*◌, ◌≤◌, length};
ghost use Rattle.basics.specs.Judged.{outcome};
ghost use Rattle.basics.specs.Limits.{register_limit, index_bound, nest_limit};
ghost use Rattle.lines.specs.Sinks.{Pours};
ghost use Rattle.rows.specs.Rows.{tables};
ghost use Rattle.rows.specs.Lawful.{register_row};
ghost use Rattle.access.specs.Perform.{store_after};
ghost use Rattle.player.specs.Play.{retry_text, done_text, outcome_text, played_text, place_text, malformed_text, line_text, line_store, started, is_malformed, after_line, after_byte, byte_text, byte_store, progress_over, text_over, store_over};
ghost use Rattle.player.specs.Numbers.{rows_end, label_text, number_line, number_lines, numbers_text, is_bounded};

use access::{Resend, Retried};
use lines::Sink;
use log_lines::{Expected, Line, LogLine};
use model::{Access, Answer};

// Where a log is read: the line that is being read, its number, and whether a malformed line has ended the play.
#[derive(Clone, Copy)]
pub struct Progress {
    pub line: Line,
    pub number: u64,
    pub stopped: bool,
}

// Where a log is read, and how far the output is filled.
#[derive(Clone, Copy)]
pub struct Played {
    pub progress: Progress,
    pub sink: Sink,
}

// Before a log's first byte.
pub fn started() -> Progress
    ensures { result ≡ started }
{
    Progress {
        line: log_lines::fresh(),
        number: 1,
        stopped: false,
    }
}

// Whether an answered access may be sent again.
#[tactic(auto, using(lines::proofs::Pouring::pouring))]
fn put_retry(out: &mut [u8], room: usize, sink: Sink, retried: Retried) -> Sink
    ensures { Pours room out.old out.new sink (retry_text (outcome retried)) result }
{
    match retried {
        // never so: an access that is answered is one that retry answers
        Err(_) => sink,
        Ok(Resend::Safe) => lines::put_bytes(out, room, sink, b" retry=safe"),
        Ok(Resend::Unsafe) => lines::put_bytes(out, room, sink, b" retry=unsafe"),
    }
}

// What an access gave that was not refused.
#[tactic(auto, unfolding(lines::specs::Sinks::poured, lines::specs::Sinks::filled))]
fn put_done(out: &mut [u8], room: usize, start: Sink, access: Access, word: u64) -> Sink
    ensures { Pours room out.old out.new start (done_text access word) result }
{
    match access {
        Access::Read { .. } => {
            let sink = lines::put_bytes(out, room, start, b" word=");
            lines::put_hex(out, room, sink, word)
        }
        Access::Write { .. } => lines::put_bytes(out, room, start, b" done"),
    }
}

// What an access answered.
#[tactic(auto, using(lines::proofs::Pouring::appends), unfolding(lines::specs::Sinks::poured, lines::specs::Sinks::filled))]
fn put_outcome(
    out: &mut [u8],
    room: usize,
    start: Sink,
    access: Access,
    answer: Answer,
    retried: Retried,
) -> Sink
    ensures { Pours room out.old out.new start (outcome_text access (outcome answer) (outcome retried)) result }
{
    match answer {
        Err(rule) => {
            let sink = lines::put_bytes(out, room, start, b" refused=");
            lines::put_decimal(out, room, sink, rule.number() as u64)
        }
        Ok(word) => {
            let sink = put_done(out, room, start, access, word);
            put_retry(out, room, sink, retried)
        }
    }
}

// Makes an access and writes its line.
#[tactic(auto, using(lines::proofs::Pouring::appends), unfolding(crate::specs::Play::played_text))]
fn play_access(
    registers: &[u64],
    paths: &[u8],
    fields: &[u64],
    labels: &[u8],
    store: &mut [u64],
    out: &mut [u8],
    room: usize,
    start: Sink,
    access: Access,
) -> Sink
    ensures stored { store.new ≡ store_after (tables registers.now paths.now fields.now labels.now) store.old access }
    ensures written { Pours room out.old out.new start (played_text (tables registers.now paths.now fields.now labels.now) store.old access) result }
{
    let retried = access::retry(registers, paths, fields, labels, access);
    let answer = access::perform(registers, paths, fields, labels, store, access);
    let mut sink = log_lines::put_access(out, room, start, access);
    sink = put_outcome(out, room, sink, access, answer, retried);
    lines::put_line_end(out, room, sink)
}

// Where a log goes wrong.
fn put_place(out: &mut [u8], room: usize, start: Sink, number: u64, column: u64) -> Sink
    ensures { Pours room out.old out.new start (place_text number column) result }
{
    let mut sink = lines::put_bytes(out, room, start, b"log line=");
    sink = lines::put_decimal(out, room, sink, number);
    sink = lines::put_bytes(out, room, sink, b" column=");
    lines::put_decimal(out, room, sink, column)
}

// A line of the log that is none: where it goes wrong, and what was expected there.
fn put_malformed(
    out: &mut [u8],
    room: usize,
    start: Sink,
    number: u64,
    column: u64,
    due: Expected,
) -> Sink
    ensures { Pours room out.old out.new start (malformed_text number column due) result }
{
    let mut sink = put_place(out, room, start, number, column);
    sink = lines::put_bytes(out, room, sink, b": expected ");
    sink = log_lines::put_expected(out, room, sink, due);
    lines::put_line_end(out, room, sink)
}

// Plays a line of the log.
#[tactic(auto, unfolding(lines::specs::Sinks::poured, lines::specs::Sinks::filled))]
fn play_line(
    registers: &[u64],
    paths: &[u8],
    fields: &[u64],
    labels: &[u8],
    store: &mut [u64],
    out: &mut [u8],
    room: usize,
    start: Sink,
    number: u64,
    line: LogLine,
) -> Sink
    ensures stored { store.new ≡ line_store (tables registers.now paths.now fields.now labels.now) store.old line }
    ensures written { Pours room out.old out.new start (line_text (tables registers.now paths.now fields.now labels.now) store.old number line) result }
{
    match line {
        LogLine::Skipped => start,
        LogLine::Made(access) => {
            play_access(
                registers, paths, fields, labels, store, out, room, start, access,
            )
        }
        LogLine::Malformed(column, due) => put_malformed(out, room, start, number, column, due),
    }
}

fn is_malformed(line: LogLine) -> bool
    ensures { result ≡ is_malformed line }
{
    matches!(line, LogLine::Malformed(_, _))
}

// Behind the end of a line.
fn after_line(progress: Progress) -> Progress
    ensures { result ≡ after_line progress }
{
    Progress {
        line: log_lines::fresh(),
        number: log_lines::counted(progress.number),
        stopped: is_malformed(log_lines::ended(progress.line)),
    }
}

// Behind a byte.
#[tactic(auto, unfolding(crate::specs::Play::after_byte))]
fn after_byte(progress: Progress, byte: u8) -> Progress
    ensures { result ≡ after_byte progress byte }
{
    if progress.stopped {
        progress
    } else if byte == b'\n' {
        after_line(progress)
    } else {
        Progress {
            line: log_lines::with_byte(progress.line, byte),
            ..progress
        }
    }
}

// Plays a byte of the log: an LF ends a line.
#[tactic(auto, using(lines::proofs::Pouring::pouring), unfolding(crate::specs::Play::byte_text, crate::specs::Play::byte_store))]
fn play_byte(
    registers: &[u64],
    paths: &[u8],
    fields: &[u64],
    labels: &[u8],
    store: &mut [u64],
    out: &mut [u8],
    room: usize,
    sink: Sink,
    progress: Progress,
    byte: u8,
) -> Sink
    ensures stored { store.new ≡ byte_store (tables registers.now paths.now fields.now labels.now) store.old progress byte }
    ensures written { Pours room out.old out.new sink (byte_text (tables registers.now paths.now fields.now labels.now) store.old progress byte) result }
{
    if progress.stopped || byte != b'\n' {
        return sink;
    }
    let line = log_lines::ended(progress.line);
    let number = progress.number;
    play_line(
        registers, paths, fields, labels, store, out, room, sink, number, line,
    )
}

// Plays a part of a log, from where the part before it ended. What is written stands in the output behind what was.
pub fn play(
    registers: &[u64],
    paths: &[u8],
    fields: &[u64],
    labels: &[u8],
    store: &mut [u64],
    out: &mut [u8],
    start: Played,
    part: &[u8],
) -> Played
    ensures progress { result.progress ≡ progress_over start.progress part.now }
    ensures stored { store.new ≡ store_over (tables registers.now paths.now fields.now labels.now) store.old start.progress part.now }
    ensures written { Pours (length out.old) out.old out.new start.sink (text_over (tables registers.now paths.now fields.now labels.now) store.old start.progress part.now) result.sink }
{
    let room = out.len();
    let mut progress = start.progress;
    let mut sink = start.sink;
    for byte in part {
        sink = play_byte(
            registers, paths, fields, labels, store, out, room, sink, progress, *byte,
        );
        progress = after_byte(progress, *byte);
    }
    Played { progress, sink }
}

// The path of field j of register i, and its name.
#[tactic(auto, using(lines::proofs::Pouring::pouring), unfolding(crate::specs::Numbers::label_text))]
fn put_label(
    out: &mut [u8],
    room: usize,
    start: Sink,
    registers: &[u64],
    paths: &[u8],
    labels: &[u8],
    i: usize,
    j: usize,
) -> Sink
    requires { (i ≤ register_limit) × ((register_row registers.now i).depth ≤ nest_limit) × (j ≤ index_bound) }
    ensures { Pours room out.old out.new start (label_text registers.now paths.now labels.now i j) result }
{
    let row = rows::register_row(registers, i);
    let mut sink = listing::put_path(out, room, start, registers, paths, i, row.depth);
    sink = lines::put_bytes(out, room, sink, b".");
    listing::put_name(out, room, sink, labels, j * basics::NAME_WIDTH)
}

// The line of field j of register i: its path, its name and its number.
#[tactic(auto, using(lines::proofs::Pouring::pouring), unfolding(crate::specs::Numbers::number_line))]
fn put_number(
    out: &mut [u8],
    room: usize,
    start: Sink,
    registers: &[u64],
    paths: &[u8],
    labels: &[u8],
    store: &[u64],
    i: usize,
    j: usize,
) -> Sink
    requires { (i ≤ register_limit) × ((register_row registers.now i).depth ≤ nest_limit) × (j ≤ index_bound) }
    ensures { Pours room out.old out.new start (number_line registers.now paths.now labels.now store.now i j) result }
{
    let mut sink = put_label(out, room, start, registers, paths, labels, i, j);
    sink = lines::put_bytes(out, room, sink, b"=");
    sink = lines::put_hex(out, room, sink, basics::cell(store, j));
    lines::put_line_end(out, room, sink)
}

// The lines of so many fields of a register from one on.
fn put_run(
    out: &mut [u8],
    room: usize,
    start: Sink,
    registers: &[u64],
    paths: &[u8],
    labels: &[u8],
    store: &[u64],
    i: usize,
    first: usize,
    count: usize,
) -> Sink
    requires { (i ≤ register_limit) × ((register_row registers.now i).depth ≤ nest_limit) × (first + count ≤ index_bound) }
    ensures { Pours room out.old out.new start (number_lines registers.now paths.now labels.now store.now i first count) result }
{
    let mut sink = start;
    for k in 0..count {
        sink = put_number(
            out,
            room,
            sink,
            registers,
            paths,
            labels,
            store,
            i,
            first + k,
        );
    }
    sink
}

// Whether the numbers of a register's row are such as a lawful row may have.
#[tactic(auto, unfolding(crate::specs::Numbers::is_bounded))]
fn is_bounded(registers: &[u64], i: usize) -> bool
    requires { i ≤ register_limit }
    ensures { result ≡ is_bounded registers.now i }
{
    let row = rows::register_row(registers, i);
    row.depth <= basics::NEST_LIMIT as u64
        && row.first <= basics::FIELD_LIMIT as u64
        && row.count <= basics::FIELD_LIMIT as u64
}

// The numbers of the fields of register i, a line each, behind what the output holds; none where there is no such register.
#[tactic(auto, using(lines::proofs::Pouring::pouring), unfolding(crate::specs::Numbers::numbers_text, crate::specs::Numbers::is_bounded))]
pub fn put_numbers(
    out: &mut [u8],
    start: Sink,
    registers: &[u64],
    paths: &[u8],
    labels: &[u8],
    store: &[u64],
    i: usize,
) -> Sink
    ensures { Pours (length out.old) out.old out.new start (numbers_text registers.now paths.now labels.now store.now i) result }
{
    if basics::REGISTER_LIMIT < i || !is_bounded(registers, i) {
        return start;
    }
    let row = rows::register_row(registers, i);
    let first = row.first as usize;
    let count = row.count as usize;
    let room = out.len();
    put_run(
        out, room, start, registers, paths, labels, store, i, first, count,
    )
}

// Where so many rows of a width end, in a table of a length.
#[tactic(auto, unfolding(crate::specs::Numbers::rows_end))]
pub fn rows_end(count: usize, width: usize, length: usize) -> usize
    ensures end { result ≡ rows_end count width length }
    ensures within { result ≤ length }
{
    count.saturating_mul(width).min(length)
}
