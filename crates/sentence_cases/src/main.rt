// Runs the sentence cases of standard input (for each a little-endian u32 length, then the text) and writes a line for each: the
// first refusal by the words or, if they pass, by the sentences. tests/sentence_cases.py makes the cases.
#![tactic(auto)]

use basics::Refusal;
use std::io;
use std::io::Write;

fn first_refusal(text: &[u8]) -> Result<(), Refusal> {
    lex::first_refusal(text)?;
    syntax::first_refusal(text)
}

fn show_case<W: Write>(out: &mut W, case: u64, text: &[u8]) -> io::Result<()> {
    case_io::put_number(out, b"", case)?;
    case_io::put_verdict(out, first_refusal(text))
}

fn main(rt: HostRuntime) -> io::Result<()> {
    case_io::run_cases(&mut rt.reader(), &mut io::writer(&rt), show_case)
}
