// Classroom sums 10 and 11 of document 01: compiles small texts and writes what is answered to each.
#![tactic(auto)]

use compile::Compiled;
use std::io;
use std::io::Write;

fn report<W: Write>(out: &mut W, answer: Compiled) -> io::Result<()> {
    match answer {
        Ok(counts) => {
            case_io::put_number(out, b" registers=", counts.registers as u64)?;
            case_io::put_number(out, b" fields=", counts.fields as u64)?;
        }
        Err(refusal) => case_io::put_refusal(out, refusal)?,
    }
    case_io::put(out, b"\n")
}

// A label, and what is answered to a text.
fn show<W: Write>(out: &mut W, label: &[u8], text: &[u8]) -> io::Result<()> {
    let mut registers = [0u64; reply::REGISTERS];
    let mut paths = [0u8; reply::PATHS];
    let mut fields = [0u64; reply::FIELDS];
    let mut labels = [0u8; reply::LABELS];
    case_io::put(out, label)?;
    let answer = compile::compile(text, &mut registers, &mut paths, &mut fields, &mut labels);
    report(out, answer)
}

fn numbers<W: Write>(out: &mut W) -> io::Result<()> {
    show(
        out,
        b"4'd15",
        b"addrmap m { reg { field {} f[4] = 4'd15; } a; };",
    )?;
    show(
        out,
        b"4'd16",
        b"addrmap m { reg { field {} f[4] = 4'd16; } a; };",
    )?;
    show(
        out,
        b"4'3",
        b"addrmap m { reg { field {} f[4] = 4'3; } a; };",
    )
}

fn arrays<W: Write>(out: &mut W) -> io::Result<()> {
    show(out, b"array 0", b"addrmap m { reg { field {} f; } a[0]; };")?;
    show(
        out,
        b"array 1024",
        b"addrmap m { reg { field {} f; } a[1024]; };",
    )?;
    show(
        out,
        b"array 1025",
        b"addrmap m { reg { field {} f; } a[1025]; };",
    )
}

fn parts<W: Write>(out: &mut W) -> io::Result<()> {
    show(
        out,
        b"32:31",
        b"addrmap m { reg { regwidth = 64; accesswidth = 32; field {} f[32:31]; } a; };",
    )?;
    show(
        out,
        b"31:0",
        b"addrmap m { reg { regwidth = 64; accesswidth = 32; field {} f[31:0]; } a; };",
    )
}

fn main(rt: HostRuntime) -> io::Result<()> {
    let mut out = io::writer(&rt);
    show(&mut out, b"empty", b"")?;
    numbers(&mut out)?;
    arrays(&mut out)?;
    parts(&mut out)
}
