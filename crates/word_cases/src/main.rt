// Runs the word cases of standard input (for each a little-endian u32 length, then the text) and writes a line for each: the
// first tokens, how many there are up to the end or a bad word, and the first refusal. tests/word_cases.py makes the cases.
#![tactic(auto)]

use case_io::{LONGEST_TEXT, put, put_number};
use lex::{Cause, Token, Word};
use std::io;
use std::io::Write;

const SHOWN_TOKENS: usize = 12;

// A label, then the bytes of a word.
fn put_spelling<W: Write>(out: &mut W, label: &[u8], spelling: &[u8]) -> io::Result<()> {
    put(out, label)?;
    put(out, spelling)
}

fn show_cause<W: Write>(out: &mut W, cause: Cause) -> io::Result<()> {
    match cause {
        Cause::Unclosed => put(out, b" bad=unclosed"),
        Cause::Malformed => put(out, b" bad=malformed"),
        Cause::TooWide => put(out, b" bad=toowide"),
        Cause::LeftOut => put(out, b" bad=leftout"),
    }
}

fn show_word<W: Write>(out: &mut W, word: Word, spelling: &[u8]) -> io::Result<()> {
    match word {
        Word::End => put(out, b" end"),
        Word::Name => put(out, b" name"),
        Word::Keyword(_) => put_spelling(out, b" keyword=", spelling),
        Word::Number(n) => put_number(out, b" number=", n),
        Word::String => put(out, b" string"),
        Word::Mark(_) => put_spelling(out, b" mark=", spelling),
        Word::Bad(cause) => show_cause(out, cause),
    }
}

// A token of the text, or a note that it lies outside the text.
fn show_token<W: Write>(out: &mut W, text: &[u8], token: Token) -> io::Result<()> {
    let Some(spelling) = text.get(token.start..token.end) else {
        return put(out, b" misplaced");
    };
    show_word(out, token.word, spelling)?;
    put_number(out, b"@", token.start as u64)?;
    put_number(out, b"-", token.end as u64)
}

// Shows the first tokens of a text, and answers how many it has up to its end or first bad word. Each but the last has a byte, so
// the bound on their count is never what ends the loop.
fn show_tokens<W: Write>(out: &mut W, text: &[u8]) -> io::Result<usize> {
    let mut at = 0;
    for count in 0..=LONGEST_TEXT {
        let token = lex::next_token(text, at);
        if count < SHOWN_TOKENS {
            show_token(out, text, token)?;
        }
        if matches!(token.word, Word::End | Word::Bad(_)) {
            return Ok(count + 1);
        }
        at = token.end;
    }
    Ok(LONGEST_TEXT + 1)
}

fn show_case<W: Write>(out: &mut W, case: u64, text: &[u8]) -> io::Result<()> {
    put_number(out, b"", case)?;
    let count = show_tokens(out, text)?;
    put_number(out, b" tokens=", count as u64)?;
    case_io::put_verdict(out, lex::first_refusal(text))
}

fn main(rt: HostRuntime) -> io::Result<()> {
    case_io::run_cases(&mut rt.reader(), &mut io::writer(&rt), show_case)
}
