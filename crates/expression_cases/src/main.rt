// Runs the expressions of standard input (for each a little-endian u32 length, then the text) and writes a line for each: its value or
// the operator that refuses it, its place and the cursor past it; or where it stops. tests/expression_cases.py makes the cases.
#![tactic(auto)]

use case_io::{put, put_number};
use expressions::Number;
use std::io;
use std::io::Write;

fn show_number<W: Write>(out: &mut W, number: Number, next: usize) -> io::Result<()> {
    match number.refusal {
        None => put_number(out, b" value=", number.value)?,
        Some(place) => put_number(out, b" refused=", place as u64)?,
    }
    put_number(out, b" place=", number.place as u64)?;
    put_number(out, b" next=", next as u64)
}

fn show_case<W: Write>(out: &mut W, case: u64, text: &[u8]) -> io::Result<()> {
    put_number(out, b"", case)?;
    match expressions::read_number(text, 0) {
        Ok((number, next)) => show_number(out, number, next)?,
        Err(refusal) => {
            put_number(out, b" stop=", refusal.rule.number() as u64)?;
            put_number(out, b" at=", refusal.at as u64)?;
        }
    }
    put(out, b"\n")
}

fn main(rt: HostRuntime) -> io::Result<()> {
    case_io::run_cases(&mut rt.reader(), &mut io::writer(&rt), show_case)
}
