// The word stage: the token at a place of a text, and the first refusal of a text by 1, 2 and 4.
#![tactic(auto)]

ghost use Rattle.std.specs.Prelude.{◌≡◌, [], ◌∷◌, ◌≤◌, ◌<◌, ◌+◌, length, take, drop};
ghost use Rattle.vocabulary.specs.Vocabulary.{mark_of};
ghost use Rattle.lex.specs.Blank.{next_from};
ghost use Rattle.lex.specs.Quote.{closes, closing_from};
ghost use Rattle.lex.specs.Token.{keyword_word, name_word, number_word, name_token, number_token, string_token, longer, mark_token, token_from, token_at};
ghost use Rattle.basics.specs.Judged.{rule_number, verdict};
ghost use Rattle.lex.specs.Words.{cause_number, scanned, judged, first_bad, words_verdict, verdict_numbers, words_numbers};

use basics::{Refusal, Rule};
use chars::{Class, Radix};
use numbers::BadNumber;
use vocabulary::{Keyword, Lookup, Mark};

// Why a word is bad.
#[derive(Clone, Copy, PartialEq, Eq)]
pub enum Cause {
    Unclosed,
    Malformed,
    TooWide,
    LeftOut,
}

// A word in document 01's sense, and the end of text.
#[derive(Clone, Copy, PartialEq, Eq)]
pub enum Word {
    End,
    Name,
    Keyword(Keyword),
    Number(u64),
    String,
    Mark(Mark),
    Bad(Cause),
}

// A word with its first byte's place and the place past its last byte.
#[derive(Clone, Copy, PartialEq, Eq)]
pub struct Token {
    pub word: Word,
    pub start: usize,
    pub end: usize,
}

// The place of the next word, past blanks and comments; or of a comment that is not closed.
fn next_start(text: &[u8], from: usize) -> Result<usize, usize>
    ensures { result ≡ next_from text.now from }
{
    let n = text.len();
    let mut i = from;
    'blanks: loop {
        if i >= n {
            break 'blanks Ok(i);
        }
        let b = text[i];
        if chars::is_blank(b) {
            i += 1;
            continue 'blanks;
        }
        if b != b'/' {
            break 'blanks Ok(i);
        }
        if i + 1 >= n {
            break 'blanks Ok(i);
        }
        let b2 = text[i + 1];
        if b2 == b'/' {
            i += 2;
            'line: loop {
                if i >= n {
                    break 'blanks Ok(i);
                }
                let c = text[i];
                i += 1;
                if chars::is_line_end(c) {
                    break 'line;
                }
            }
        } else if b2 == b'*' {
            let begin = i;
            i += 2;
            'block: loop {
                if i + 1 >= n {
                    break 'blanks Err(begin);
                }
                if text[i] != b'*' {
                    i += 1;
                    continue 'block;
                }
                if text[i + 1] == b'/' {
                    i += 2;
                    break 'block;
                }
                i += 1;
            }
        } else {
            break 'blanks Ok(i);
        }
    }
}

fn keyword_word(lookup: Lookup) -> Word
    ensures { result ≡ keyword_word lookup }
{
    match lookup {
        Lookup::Kept(k) => Word::Keyword(k),
        Lookup::LeftOut => Word::Bad(Cause::LeftOut),
        Lookup::NotKeyword => Word::Name,
    }
}

// What the bytes of a name are.
fn name_word(name: &[u8]) -> Word
    ensures { result ≡ name_word name.now }
{
    if name.len() > basics::NAME_LIMIT {
        return Word::Bad(Cause::Malformed);
    }
    keyword_word(vocabulary::keyword_of(name))
}

fn name_token(text: &[u8], i: usize) -> Token
    requires { i ≤ length text.now }
    ensures { result ≡ name_token i (drop i text.now) }
{
    let e = chars::run_end(text, i, Class::Name);
    Token {
        word: name_word(&text[i..e]),
        start: i,
        end: e,
    }
}

fn number_word(number: Result<u64, BadNumber>) -> Word
    ensures { result ≡ number_word number }
{
    match number {
        Ok(n) => Word::Number(n),
        Err(BadNumber::Malformed) => Word::Bad(Cause::Malformed),
        Err(BadNumber::TooWide) => Word::Bad(Cause::TooWide),
    }
}

fn number_token(text: &[u8], i: usize) -> Token
    requires { i ≤ length text.now }
    ensures { result ≡ number_token i (drop i text.now) }
{
    let e = chars::run_end(text, i, Class::Number);
    Token {
        word: number_word(numbers::number_of(&text[i..e])),
        start: i,
        end: e,
    }
}

// Whether a byte closes a string, with the byte before it.
#[tactic(auto, unfolding(crate::specs::Quote::closes))]
fn closes_string(before: u8, b: u8) -> bool
    ensures { result ≡ closes before b }
{
    b == b'"' && before != b'\\'
}

// The place of the quote that closes the string opened at `quote`; or that place, where none does.
fn string_close(text: &[u8], quote: usize) -> Result<usize, usize>
    requires { quote < length text.now }
    ensures { result ≡ closing_from quote 34 text.now (quote + 1) }
{
    let mut before = b'"';
    for i in quote + 1..text.len() {
        if closes_string(before, text[i]) {
            return Ok(i);
        }
        before = text[i];
    }
    Err(quote)
}

fn string_token(text: &[u8], i: usize) -> Token
    requires { i < length text.now }
    ensures { result ≡ string_token i (drop i text.now) }
{
    match string_close(text, i) {
        Ok(q) => {
            if q - (i + 1) > basics::STRING_LIMIT {
                return Token {
                    word: Word::Bad(Cause::Malformed),
                    start: i,
                    end: q + 1,
                };
            }
            Token {
                word: Word::String,
                start: i,
                end: q + 1,
            }
        }
        Err(_) => Token {
            word: Word::Bad(Cause::Unclosed),
            start: i,
            end: text.len(),
        },
    }
}

// The longest mark that stands at `i`.
fn mark_at(text: &[u8], i: usize) -> Option<Mark>
    requires { i < length text.now }
    ensures { result ≡ longer (mark_of (take 2 (drop i text.now))) (mark_of (take 1 (drop i text.now))) }
{
    let first = text[i];
    if i + 1 < text.len() {
        let double = vocabulary::double_mark(first, text[i + 1]);
        return double.or(vocabulary::single_mark(first));
    }
    vocabulary::single_mark(first)
}

fn mark_token(text: &[u8], i: usize) -> Token
    requires { i < length text.now }
    ensures { result ≡ mark_token i (drop i text.now) }
{
    match mark_at(text, i) {
        Some(m) => Token {
            word: Word::Mark(m),
            start: i,
            end: i + vocabulary::mark_length(m),
        },
        None => Token {
            word: Word::Bad(Cause::Malformed),
            start: i,
            end: i + 1,
        },
    }
}

// The token that starts at `i`.
fn token_from(text: &[u8], i: usize) -> Token
    ensures { result ≡ token_from i (drop i text.now) }
{
    if i >= text.len() {
        return Token {
            word: Word::End,
            start: i,
            end: i,
        };
    }
    let b = text[i];
    if chars::is_letter(b) {
        return name_token(text, i);
    }
    if chars::is_digit(Radix::Decimal, b) {
        return number_token(text, i);
    }
    if b == b'"' {
        return string_token(text, i);
    }
    mark_token(text, i)
}

// The token at a place: blanks are passed over first.
pub fn next_token(text: &[u8], at: usize) -> Token
    ensures { result ≡ token_at text.now at }
{
    match next_start(text, at) {
        Ok(i) => token_from(text, i),
        Err(o) => Token {
            word: Word::Bad(Cause::Unclosed),
            start: o,
            end: text.len(),
        },
    }
}

impl Cause {
    // The rule that a bad word breaks.
    fn rule(self) -> Rule
        ensures { rule_number result ≡ cause_number self }
    {
        match self {
            Cause::Unclosed | Cause::Malformed | Cause::TooWide => Rule::BadWord,
            Cause::LeftOut => Rule::LeftOutKeyword,
        }
    }
}

// Whether a token ends the text; or the refusal of a bad word.
fn judge(token: Token) -> Result<bool, Refusal>
    ensures { scanned result ≡ judged token }
{
    match token.word {
        Word::End => Ok(true),
        Word::Bad(cause) => Err(cause.rule().at(token.start)),
        Word::Name | Word::Keyword(_) | Word::Number(_) | Word::String | Word::Mark(_) => Ok(false),
    }
}

// The first bad word of a text.
fn first_bad(text: &[u8]) -> Result<(), Refusal>
    ensures { verdict result ≡ first_bad (length text.now + 1) text.now 0 }
{
    let mut at = 0;
    loop {
        let token = next_token(text, at);
        let ends = judge(token)?;
        if ends {
            return Ok(());
        }
        at = token.end;
    }
}

// The first refusal of a text by 1, 2 and 4, or none.
pub fn first_refusal(text: &[u8]) -> Result<(), Refusal>
    ensures answer { verdict result ≡ words_verdict text.now }
    ensures numbers { verdict_numbers (verdict result) ≡ words_numbers text.now }
{
    if text.len() > basics::TEXT_LIMIT {
        return Err(Rule::TextLength.at(0));
    }
    first_bad(text)
}
