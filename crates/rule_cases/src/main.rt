// Runs the rule cases of standard input (for each a little-endian u32 length, then the text) and writes a line for each: the first
// refusal by the words, by the sentences if those pass, or by the rules if both pass. tests/rule_cases.py makes the cases.
#![tactic(auto)]

use std::io;
use std::io::Write;

fn show_case<W: Write>(out: &mut W, case: u64, text: &[u8]) -> io::Result<()> {
    case_io::put_number(out, b"", case)?;
    case_io::put_verdict(out, rules::first_refusal(text))
}

fn main(rt: HostRuntime) -> io::Result<()> {
    case_io::run_cases(&mut rt.reader(), &mut io::writer(&rt), show_case)
}
