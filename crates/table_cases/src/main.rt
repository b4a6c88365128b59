// Refusals 22 and 24 of compiling and listing: tables and outputs that are too short by one or just fit, rows that are not lawful, and
// lawful rows that no text gives.
#![tactic(auto)]

ghost use Rattle.std.specs.Prelude.{◌<◌, ◌≤◌, length};

use compile::Compiled;
use fields::ReadEffect;
use listing::Listed;
use std::io;
use std::io::Write;

// What stands in what is lent before a call.
const NUMBER: u64 = 77;

const BYTE: u8 = b'.';

// The rows of a map, in its tables.
#[derive(Clone, Copy)]
struct Rows<'a> {
    registers: &'a [u64],
    paths: &'a [u8],
    fields: &'a [u64],
    labels: &'a [u8],
}

fn put_compiled<W: Write>(out: &mut W, answer: Compiled) -> io::Result<()> {
    match answer {
        Ok(counts) => {
            case_io::put_number(out, b" registers=", counts.registers as u64)?;
            case_io::put_number(out, b" fields=", counts.fields as u64)
        }
        Err(refusal) => case_io::put_refusal(out, refusal),
    }
}

fn put_listed<W: Write>(out: &mut W, answer: Listed) -> io::Result<()> {
    match answer {
        Ok(count) => case_io::put_number(out, b" written=", count as u64),
        Err(rule) => case_io::put_number(out, b" refused=", rule.number() as u64),
    }
}

// A label, and whether all cells are those from before the call.
fn put_kept<W: Write, T: PartialEq + Copy>(
    out: &mut W,
    label: &[u8],
    cells: &[T],
    before: T,
) -> io::Result<()> {
    case_io::put(out, label)?;
    if cells.iter().all(|cell| *cell == before) {
        case_io::put(out, b"=kept")
    } else {
        case_io::put(out, b"=written")
    }
}

// Compiles a text: a label, what is answered, and which tables were written.
fn show_compiled<W: Write>(
    out: &mut W,
    label: &[u8],
    text: &[u8],
    registers: &mut [u64],
    paths: &mut [u8],
    fields: &mut [u64],
    labels: &mut [u8],
) -> io::Result<()> {
    case_io::put(out, label)?;
    put_compiled(
        out,
        compile::compile(text, registers, paths, fields, labels),
    )?;
    put_kept(out, b" registers", registers, NUMBER)?;
    put_kept(out, b" paths", paths, BYTE)?;
    put_kept(out, b" fields", fields, NUMBER)?;
    put_kept(out, b" labels", labels, BYTE)?;
    case_io::put(out, b"\n")
}

// The same of a text of one register with one field, a row of each table.
fn show_one<W: Write>(
    out: &mut W,
    label: &[u8],
    registers: &mut [u64],
    paths: &mut [u8],
    fields: &mut [u64],
    labels: &mut [u8],
) -> io::Result<()> {
    let text = b"addrmap m { reg { field {} f; } a; };";
    show_compiled(out, label, text, registers, paths, fields, labels)
}

// The same in tables of these lengths.
fn show_short<const R: usize, const P: usize, const F: usize, const L: usize, W: Write>(
    out: &mut W,
    label: &[u8],
) -> io::Result<()>
    requires { (R ≤ 14) × (P ≤ 288) × (F ≤ 8) × (L ≤ 32) }
{
    let mut registers = [NUMBER; R];
    let mut paths = [BYTE; P];
    let mut fields = [NUMBER; F];
    let mut labels = [BYTE; L];
    show_one(
        out,
        label,
        &mut registers,
        &mut paths,
        &mut fields,
        &mut labels,
    )
}

// Lists rows to an output: a label, what is answered, and whether the output was written.
fn show_listed<W: Write>(
    out: &mut W,
    label: &[u8],
    rows: Rows<'_>,
    output: &mut [u8],
) -> io::Result<()> {
    case_io::put(out, label)?;
    put_listed(
        out,
        listing::list(rows.registers, rows.paths, rows.fields, rows.labels, output),
    )?;
    put_kept(out, b" output", output, BYTE)?;
    case_io::put(out, b"\n")
}

// The rows in tables that just fit, and their listing, which has 105 bytes.
fn just_fit<W: Write>(out: &mut W) -> io::Result<()> {
    let mut registers = [NUMBER; 14];
    let mut paths = [BYTE; 288];
    let mut fields = [NUMBER; 8];
    let mut labels = [BYTE; 32];
    let mut short = [BYTE; 104];
    let mut output = [BYTE; 105];
    show_one(
        out,
        b"all just fit:",
        &mut registers,
        &mut paths,
        &mut fields,
        &mut labels,
    )?;
    let rows = Rows {
        registers: &registers,
        paths: &paths,
        fields: &fields,
        labels: &labels,
    };
    show_listed(out, b"output short by one:", rows, &mut short)?;
    show_listed(out, b"output just fits:", rows, &mut output)?;
    case_io::put(out, &output)
}

// Without a register there are no lawful rows.
fn no_rows<W: Write>(out: &mut W) -> io::Result<()> {
    let mut output = [BYTE; 105];
    let rows = Rows {
        registers: &[],
        paths: &[],
        fields: &[],
        labels: &[],
    };
    show_listed(out, b"no rows:", rows, &mut output)
}

// Lists the rows with a width that no register has, to an output that fits and to one that is too short, and with their own width again.
fn show_widths<W: Write>(
    out: &mut W,
    registers: &mut [u64],
    paths: &[u8],
    fields: &[u64],
    labels: &[u8],
) -> io::Result<()>
    requires { 1 < length registers.old }
{
    let mut short = [BYTE; 104];
    let mut output = [BYTE; 105];
    registers[1] = 33;
    let wide = Rows {
        registers,
        paths,
        fields,
        labels,
    };
    show_listed(out, b"width 33:", wide, &mut output)?;
    show_listed(out, b"width 33, output short:", wide, &mut short)?;
    registers[1] = 32;
    let lawful = Rows {
        registers,
        paths,
        fields,
        labels,
    };
    show_listed(out, b"width 32 again:", lawful, &mut output)
}

// Rows that are not lawful are 24, also where the output is too short.
fn not_lawful<W: Write>(out: &mut W) -> io::Result<()> {
    let mut registers = [NUMBER; 14];
    let mut paths = [BYTE; 288];
    let mut fields = [NUMBER; 8];
    let mut labels = [BYTE; 32];
    show_one(
        out,
        b"rows of the text:",
        &mut registers,
        &mut paths,
        &mut fields,
        &mut labels,
    )?;
    show_widths(out, &mut registers, &paths, &fields, &labels)
}

// A count across two parts that clears when it is read: no text gives it (17), but its rows are lawful and have a listing.
fn count_across_parts<W: Write>(out: &mut W) -> io::Result<()> {
    let mut registers = [NUMBER; 14];
    let mut paths = [BYTE; 288];
    let mut fields = [NUMBER; 8];
    let mut labels = [BYTE; 32];
    let mut output = [BYTE; 105];
    show_compiled(
        out,
        b"a count across parts that clears:",
        b"addrmap m { reg { regwidth = 64; accesswidth = 32; field { sw = r; rclr; } f[33]; } a; };",
        &mut registers,
        &mut paths,
        &mut fields,
        &mut labels,
    )?;
    show_compiled(
        out,
        b"that does not clear:",
        b"addrmap m { reg { regwidth = 64; accesswidth = 32; field { sw = r; } f[33]; } a; };",
        &mut registers,
        &mut paths,
        &mut fields,
        &mut labels,
    )?;
    fields[4] = fields::read_code(ReadEffect::Rclr);
    let rows = Rows {
        registers: &registers,
        paths: &paths,
        fields: &fields,
        labels: &labels,
    };
    show_listed(out, b"that clears, by its row:", rows, &mut output)?;
    case_io::put(out, &output)
}

fn main(rt: HostRuntime) -> io::Result<()> {
    let mut out = io::writer(&rt);
    show_short::<13, 288, 8, 32, _>(&mut out, b"registers short by one:")?;
    show_short::<14, 287, 8, 32, _>(&mut out, b"paths short by one:")?;
    show_short::<14, 288, 7, 32, _>(&mut out, b"fields short by one:")?;
    show_short::<14, 288, 8, 31, _>(&mut out, b"labels short by one:")?;
    just_fit(&mut out)?;
    no_rows(&mut out)?;
    not_lawful(&mut out)?;
    count_across_parts(&mut out)
}
