// Runs the access cases of standard input and writes a line for each command. A case: a little-endian u32 length and the text of a map;
// a u32 count, and so many commands of four little-endian u64 numbers each. tests/access_cases.py makes the cases.
#![tactic(auto)]

use access::{Resend, Restored, Retried};
use case_io::{LONGEST_TEXT, MOST_CASES};
use fields::Offset;
use model::{Access, Answer};
use std::io;
use std::io::{Read, Write};

// A store with some numbers more than a map may have fields.
const STORE: usize = basics::FIELD_LIMIT + 8;

// What stands in the store before the first reset.
const UNTOUCHED: u64 = 77;

// The numbers that the store has past the last row.
const PAST: usize = 2;

// How much of each table, and of the store, is lent to a call.
#[derive(Clone, Copy, Default)]
struct Lengths {
    registers: usize,
    paths: usize,
    fields: usize,
    labels: usize,
    store: usize,
}

// The tables of a map and a store.
#[derive(Drop)]
struct Tables {
    registers: [u64; reply::REGISTERS],
    paths: [u8; reply::PATHS],
    fields: [u64; reply::FIELDS],
    labels: [u8; reply::LABELS],
    store: [u64; STORE],
    lent: Lengths,
}

// The parts of the tables that are lent to a call.
#[derive(Clone, Copy)]
struct Rows<'a> {
    registers: &'a [u64],
    paths: &'a [u8],
    fields: &'a [u64],
    labels: &'a [u8],
}

// What is called with the lent parts, or their store is shown.
#[derive(Clone, Copy)]
enum Call {
    Reset,
    Make(Access),
    Show,
}

// A command: a number is put into a table, so much of a table is lent from now on, or a call. Table 4 is the store.
#[derive(Clone, Copy)]
enum Command {
    Put {
        table: u64,
        index: usize,
        number: u64,
    },
    Lend {
        table: u64,
        length: usize,
    },
    Call(Call),
}

fn put_line<W: Write>(out: &mut W, label: &[u8], n: u64) -> io::Result<()> {
    case_io::put_number(out, label, n)?;
    case_io::put(out, b"\n")
}

fn read_number<R: Read>(input: &mut R) -> io::Result<u64> {
    let mut bytes = [0u8; 8];
    streams::fill(input, &mut bytes)?;
    Ok(u64::from_le_bytes(bytes))
}

// The command of a code and three numbers: 0 is a reset, 1 a read, 2 a write, 3 a put, 4 lends, and 5 shows the store.
fn command_of(code: u64, a: u64, b: u64, c: u64) -> Command {
    let address = Offset(a);
    match code {
        0 => Command::Call(Call::Reset),
        1 => Command::Call(Call::Make(Access::Read { address, width: b })),
        2 => Command::Call(Call::Make(Access::Write {
            address,
            width: b,
            word: c,
        })),
        3 => Command::Put {
            table: a,
            index: b as usize,
            number: c,
        },
        4 => Command::Lend {
            table: a,
            length: b as usize,
        },
        _ => Command::Call(Call::Show),
    }
}

fn read_command<R: Read>(input: &mut R) -> io::Result<Command> {
    let code = read_number(input)?;
    let a = read_number(input)?;
    let b = read_number(input)?;
    let c = read_number(input)?;
    Ok(command_of(code, a, b, c))
}

fn put_answer<W: Write>(out: &mut W, answer: Answer) -> io::Result<()> {
    match answer {
        Ok(word) => case_io::put_number(out, b"word=", word),
        Err(rule) => case_io::put_number(out, b"refused=", rule.number() as u64),
    }
}

fn put_retry<W: Write>(out: &mut W, retried: Retried) -> io::Result<()> {
    match retried {
        Ok(Resend::Safe) => case_io::put(out, b" retry=safe\n"),
        Ok(Resend::Unsafe) => case_io::put(out, b" retry=unsafe\n"),
        Err(rule) => put_line(out, b" retry refused=", rule.number() as u64),
    }
}

fn put_restored<W: Write>(out: &mut W, restored: Restored) -> io::Result<()> {
    match restored {
        Ok(count) => put_line(out, b"reset=", count as u64),
        Err(rule) => put_line(out, b"reset refused=", rule.number() as u64),
    }
}

// Resets the lent part of the store.
fn reset(rows: Rows<'_>, store: &mut [u64]) -> Restored {
    access::reset(rows.registers, rows.paths, rows.fields, rows.labels, store)
}

// Makes a read or a write on the lent parts.
fn make_access(rows: Rows<'_>, store: &mut [u64], wanted: Access) -> Answer {
    match wanted {
        Access::Read { address, width } => access::read(
            rows.registers,
            rows.paths,
            rows.fields,
            rows.labels,
            store,
            address,
            width,
        ),
        Access::Write {
            address,
            width,
            word,
        } => access::write(
            rows.registers,
            rows.paths,
            rows.fields,
            rows.labels,
            store,
            address,
            width,
            word,
        ),
    }
}

// Makes an access, and asks whether it may be sent again.
fn run_access<W: Write>(
    out: &mut W,
    rows: Rows<'_>,
    store: &mut [u64],
    wanted: Access,
) -> io::Result<()> {
    let retried = access::retry(rows.registers, rows.paths, rows.fields, rows.labels, wanted);
    put_answer(out, make_access(rows, store, wanted))?;
    put_retry(out, retried)
}

fn show_store<W: Write>(out: &mut W, store: &[u64]) -> io::Result<()> {
    for number in store {
        case_io::put_number(out, b" ", *number)?;
    }
    case_io::put(out, b"\n")
}

fn run_call<W: Write>(
    out: &mut W,
    rows: Rows<'_>,
    store: &mut [u64],
    call: Call,
) -> io::Result<()> {
    match call {
        Call::Reset => put_restored(out, reset(rows, store)),
        Call::Make(wanted) => run_access(out, rows, store, wanted),
        Call::Show => show_store(out, store),
    }
}

fn put_in<T: Copy>(cells: &mut [T], index: usize, value: T) {
    if index < cells.len() {
        cells[index] = value;
    }
}

// The first cells of a table, as far as it goes.
fn first<T>(cells: &[T], length: usize) -> &[T] {
    cells.get(..length).unwrap_or(cells)
}

impl Tables {
    // Puts a number into a table, or into the store.
    fn put(&mut self, table: u64, index: usize, number: u64) {
        match table {
            0 => put_in(&mut self.registers, index, number),
            1 => put_in(&mut self.paths, index, (number % 256) as u8),
            2 => put_in(&mut self.fields, index, number),
            3 => put_in(&mut self.labels, index, (number % 256) as u8),
            _ => put_in(&mut self.store, index, number),
        }
    }

    // Lends so much of a table, or of the store.
    fn lend(&mut self, table: u64, length: usize) {
        match table {
            0 => self.lent.registers = length,
            1 => self.lent.paths = length,
            2 => self.lent.fields = length,
            3 => self.lent.labels = length,
            _ => self.lent.store = length,
        }
    }

    // Compiles a text: the rows are lent whole, the store with some numbers more.
    fn open<W: Write>(&mut self, out: &mut W, text: &[u8]) -> io::Result<()> {
        match compile::compile(
            text,
            &mut self.registers,
            &mut self.paths,
            &mut self.fields,
            &mut self.labels,
        ) {
            Ok(counts) => {
                let n = counts.registers.min(basics::REGISTER_LIMIT);
                let m = counts.fields.min(basics::FIELD_LIMIT);
                self.lent = Lengths {
                    registers: n * basics::REGISTER_ROW_WIDTH,
                    paths: n * basics::PATH_ROW_WIDTH,
                    fields: m * basics::FIELD_ROW_WIDTH,
                    labels: m * basics::NAME_WIDTH,
                    store: m + PAST,
                };
                Ok(())
            }
            Err(refusal) => put_line(out, b"text refused=", refusal.rule.number() as u64),
        }
    }

    // Runs a call on the parts of the tables and of the store that are lent.
    fn call<W: Write>(&mut self, out: &mut W, call: Call) -> io::Result<()> {
        let rows = Rows {
            registers: first(&self.registers, self.lent.registers),
            paths: first(&self.paths, self.lent.paths),
            fields: first(&self.fields, self.lent.fields),
            labels: first(&self.labels, self.lent.labels),
        };
        let store = &mut self.store[..];
        let end = self.lent.store.min(store.len());
        run_call(out, rows, &mut store[..end], call)
    }

    fn run<W: Write>(&mut self, out: &mut W, command: Command) -> io::Result<()> {
        match command {
            Command::Put {
                table,
                index,
                number,
            } => self.put(table, index, number),
            Command::Lend { table, length } => self.lend(table, length),
            Command::Call(call) => self.call(out, call)?,
        }
        Ok(())
    }
}

// Reads and runs so many commands on a map and fresh tables.
fn run_on_map<R: Read, W: Write>(
    input: &mut R,
    out: &mut W,
    text: &[u8],
    commands: usize,
) -> io::Result<()> {
    let mut tables = Tables {
        registers: [0; reply::REGISTERS],
        paths: [0; reply::PATHS],
        fields: [0; reply::FIELDS],
        labels: [0; reply::LABELS],
        store: [UNTOUCHED; STORE],
        lent: Lengths::default(),
    };
    tables.open(out, text)?;
    for _ in 0..commands {
        let command = read_command(input)?;
        tables.run(out, command)?;
    }
    Ok(())
}

// Runs the next case; answers whether there was one.
fn run_case<R: Read, W: Write>(
    input: &mut R,
    out: &mut W,
    case: u64,
    room: &mut [u8],
) -> io::Result<bool> {
    let Some(length) = case_io::read_text(input, room)? else {
        return Ok(false);
    };
    put_line(out, b"case ", case)?;
    if let Some(commands) = case_io::read_length(input)? {
        run_on_map(input, out, &room[..length], commands)?;
    }
    Ok(true)
}

fn main(rt: HostRuntime) -> io::Result<()> {
    let mut room = [0u8; LONGEST_TEXT];
    let mut input = rt.reader();
    let mut out = io::writer(&rt);
    for case in 0..MOST_CASES {
        if !run_case(&mut input, &mut out, case, &mut room)? {
            break;
        }
    }
    Ok(())
}
