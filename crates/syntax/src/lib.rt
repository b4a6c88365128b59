// The sentence stage: whether a text keeps the grammar, and if not, where it first breaks. The readers keep no tree; the grammar's
// definitions give it.
#![tactic(auto)]

ghost use Rattle.std.specs.Prelude.{◌≡◌};
ghost use Rattle.basics.specs.Judged.{judged, verdict};
ghost use Rattle.lex.specs.Words.{verdict_numbers};
ghost use Rattle.parts.specs.Parts.{property_at};
ghost use Rattle.syntax.specs.Grammar.{instances_at, instance_statement_at, statement_at, tail_at, body_at, definition_at, file_at};
ghost use Rattle.syntax.specs.Answers.{answer_of, sentence_verdict, answer_numbers, reading_numbers, sentence_numbers};

use basics::{Refusal, Rule};
use vocabulary::Mark;

// Each reader answers the cursor past what it read.

// Instances parted by commas, up to the semicolon.
fn read_instances(text: &[u8], start: usize) -> Result<usize, Refusal>
    ensures { judged result ≡ answer_of (instances_at text.now start) }
{
    let mut at = start;
    loop {
        let (listed, next) = parts::read_listed(text, at)?;
        if listed.last {
            return Ok(next);
        }
        at = next;
    }
}

// An instance statement: a type's name, then instances.
fn read_instance_statement(text: &[u8], at: usize) -> Result<usize, Refusal>
    ensures { judged result ≡ answer_of (instance_statement_at text.now at) }
{
    let (_, next) = parts::read_name(text, at)?;
    read_instances(text, next)
}

// A property statement.
fn read_property_statement(text: &[u8], at: usize) -> Result<usize, Refusal>
    ensures { judged result ≡ answer_of (property_at text.now at) }
{
    let (_, next) = parts::read_property(text, at)?;
    Ok(next)
}

// A statement that opens no body.
fn read_statement(text: &[u8], at: usize) -> Result<usize, Refusal>
    ensures { judged result ≡ answer_of (statement_at text.now at) }
{
    if parts::starts_instances(text, at) {
        return read_instance_statement(text, at);
    }
    read_property_statement(text, at)
}

// What follows a definition's body: instances, or nothing where it has a name; then a semicolon.
fn read_tail(text: &[u8], at: usize, named: bool) -> Result<usize, Refusal>
    ensures { judged result ≡ answer_of (tail_at named text.now at) }
{
    if !named {
        return read_instances(text, at);
    }
    let token = lex::next_token(text, at);
    if parts::is_mark(token.word, Mark::Semicolon) {
        return Ok(token.end);
    }
    read_instances(text, at)
}

// The elements of a body up to its closing brace, where so many more bodies may be opened inside.
#[cycle(read_body_read_definition)]
fn read_body(text: &[u8], start: usize, bodies: usize) -> Result<usize, Refusal>
    ensures { judged result ≡ answer_of (body_at bodies text.now start) }
{
    let mut at = start;
    loop {
        let token = lex::next_token(text, at);
        if parts::is_mark(token.word, Mark::CloseBrace) {
            return Ok(token.end);
        }
        if parts::is_kind(token.word) {
            at = read_definition(text, at, bodies)?;
        } else {
            at = read_statement(text, at)?;
        }
    }
}

// A definition, where so many bodies may still be opened.
#[cycle(read_body_read_definition)]
fn read_definition(text: &[u8], at: usize, bodies: usize) -> Result<usize, Refusal>
    ensures answer { judged result ≡ answer_of (definition_at bodies text.now at) }
    ensures numbers { answer_numbers (judged result) ≡ reading_numbers (definition_at bodies text.now at) }
{
    let (header, inside) = parts::read_header(text, at)?;
    if bodies == 0 {
        return Err(Rule::TooMany.at(header.brace));
    }
    let next = read_body(text, inside, bodies - 1)?;
    read_tail(text, next, parts::is_named(header.name))
}

// The definitions of a file.
fn read_file(text: &[u8]) -> Result<usize, Refusal>
    ensures answer { judged result ≡ answer_of (file_at text.now) }
    ensures numbers { answer_numbers (judged result) ≡ reading_numbers (file_at text.now) }
{
    let mut at = 0;
    loop {
        let token = lex::next_token(text, at);
        if parts::is_end(token.word) {
            return Ok(token.end);
        }
        at = read_definition(text, at, basics::BODY_LIMIT)?;
    }
}

// The first refusal of a text by 3, and by 18 for bodies, or none.
pub fn first_refusal(text: &[u8]) -> Result<(), Refusal>
    ensures answer { verdict result ≡ sentence_verdict text.now }
    ensures numbers { verdict_numbers (verdict result) ≡ sentence_numbers text.now }
{
    read_file(text)?;
    Ok(())
}
