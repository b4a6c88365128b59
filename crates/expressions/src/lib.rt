// Constant expressions: wherever a number may stand, a sum of numbers may. The readers keep no tree; the grammar's definitions give it.
#![tactic(auto)]

ghost use Rattle.std.specs.Prelude.{◌≡◌};
ghost use Rattle.expressions.specs.Reading.{mapped, parsed};
ghost use Rattle.expressions.specs.Words.{mark_part, part_of, in_row, operator_in, is_operator, is_close};
ghost use Rattle.expressions.specs.Value.{given, settled, joined, placed, evaluated};
ghost use Rattle.expressions.specs.Grammar.{closed_at, operand_at, row_at, number_at};

use basics::{Refusal, Rule};
use lex::Word;
use operators::Operator;
use vocabulary::Mark;

const ROW_COUNT: usize = 8;

// What a word may be in an expression.
#[derive(Clone, Copy)]
pub enum ExpressionWord {
    Literal(u64),
    Open,
    Close,
    Binary(Operator),
    Other,
}

// A number, its place, and the place of the operator that refuses it, if one does; the value of a refused one is 0.
#[derive(Clone, Copy, PartialEq, Eq)]
pub struct Number {
    pub value: u64,
    pub place: usize,
    pub refusal: Option<usize>,
}

// What stands at a cursor of a text with the cursor past it, or the refusal.
pub type Reading<T> = Result<(T, usize), Refusal>;

fn mark_part(mark: Mark) -> ExpressionWord
    ensures { result ≡ mark_part mark }
{
    match mark {
        Mark::OpenBrace
        | Mark::CloseBrace
        | Mark::OpenBracket
        | Mark::CloseBracket
        | Mark::Semicolon
        | Mark::Colon
        | Mark::Comma
        | Mark::Equals
        | Mark::At
        | Mark::PlusEquals
        | Mark::PercentEquals => ExpressionWord::Other,
        Mark::OpenParen => ExpressionWord::Open,
        Mark::CloseParen => ExpressionWord::Close,
        Mark::Times => ExpressionWord::Binary(Operator::Times),
        Mark::Slash => ExpressionWord::Binary(Operator::Over),
        Mark::Percent => ExpressionWord::Binary(Operator::Modulo),
        Mark::Plus => ExpressionWord::Binary(Operator::Plus),
        Mark::Minus => ExpressionWord::Binary(Operator::Minus),
        Mark::ShiftLeft => ExpressionWord::Binary(Operator::ShiftLeft),
        Mark::ShiftRight => ExpressionWord::Binary(Operator::ShiftRight),
        Mark::Less => ExpressionWord::Binary(Operator::Less),
        Mark::AtMost => ExpressionWord::Binary(Operator::AtMost),
        Mark::More => ExpressionWord::Binary(Operator::More),
        Mark::AtLeast => ExpressionWord::Binary(Operator::AtLeast),
        Mark::Same => ExpressionWord::Binary(Operator::Same),
        Mark::Unlike => ExpressionWord::Binary(Operator::Unlike),
        Mark::Ampersand => ExpressionWord::Binary(Operator::And),
        Mark::Caret => ExpressionWord::Binary(Operator::Xor),
        Mark::Bar => ExpressionWord::Binary(Operator::Or),
    }
}

// What a word is in an expression.
#[tactic(auto, unfolding(crate::specs::Words::part_of))]
fn part_of(word: Word) -> ExpressionWord
    ensures { result ≡ part_of word }
{
    match word {
        Word::Number(value) => ExpressionWord::Literal(value),
        Word::Mark(mark) => mark_part(mark),
        Word::End | Word::Name | Word::Keyword(_) | Word::String | Word::Bad(_) =>
            ExpressionWord::Other,
    }
}

// An operator, where it has that row.
fn in_row(operator: Operator, row: usize) -> Option<Operator>
    ensures { result ≡ in_row row operator }
{
    if operators::row_of(operator) == row {
        return Some(operator);
    }
    None
}

// The operator that a part is, where it has that row.
#[tactic(auto, unfolding(crate::specs::Words::operator_in))]
fn operator_in(part: ExpressionWord, row: usize) -> Option<Operator>
    ensures { result ≡ operator_in row part }
{
    match part {
        ExpressionWord::Binary(operator) => in_row(operator, row),
        ExpressionWord::Literal(_)
        | ExpressionWord::Open
        | ExpressionWord::Close
        | ExpressionWord::Other => None,
    }
}

fn is_operator(part: ExpressionWord) -> bool
    ensures { result ≡ is_operator part }
{
    matches!(part, ExpressionWord::Binary(_))
}

fn is_close(part: ExpressionWord) -> bool
    ensures { result ≡ is_close part }
{
    matches!(part, ExpressionWord::Close)
}

// What the operator at `operator_place` gives, in an expression that begins at `place`.
#[tactic(auto, unfolding(crate::specs::Value::given))]
fn give(operator_place: usize, place: usize, outcome: Option<u64>) -> Number
    ensures { result ≡ given operator_place place outcome }
{
    match outcome {
        Some(value) => Number {
            value,
            place,
            refusal: None,
        },
        None => Number {
            value: 0,
            place,
            refusal: Some(operator_place),
        },
    }
}

// No operator over a refused part is judged.
#[tactic(auto, unfolding(crate::specs::Value::settled))]
fn settle(refusal: Option<usize>, place: usize, judged: Number) -> Number
    ensures { result ≡ settled refusal place judged }
{
    match refusal {
        None => judged,
        Some(_) => Number {
            value: 0,
            place,
            refusal,
        },
    }
}

// An operator at a place between two numbers. Of two refusals the left part's stands first.
fn combine(operator: Operator, operator_place: usize, left: Number, right: Number) -> Number
    ensures { result ≡ joined operator operator_place left right }
{
    let outcome = operators::apply(operator, left.value, right.value);
    settle(
        left.refusal.or(right.refusal),
        left.place,
        give(operator_place, left.place, outcome),
    )
}

// The closing parenthesis behind a number, whose opening one stands at `place`.
#[tactic(auto, unfolding(crate::specs::Grammar::closed_at))]
fn close(text: &[u8], at: usize, place: usize, number: Number) -> Reading<Number>
    ensures { parsed result ≡ closed_at (placed place number) text.now at }
{
    let token = lex::next_token(text, at);
    if !is_close(part_of(token.word)) {
        return Err(Rule::BadSentence.at(token.start));
    }
    let placed = Number {
        value: number.value,
        place,
        refusal: number.refusal,
    };
    Ok((placed, token.end))
}

// An operand, where so many parentheses may still be opened.
#[cycle(read_operand_read_row)]
fn read_operand(text: &[u8], at: usize, depth: usize) -> Reading<Number>
    ensures { parsed result ≡ mapped evaluated (operand_at depth text.now at) }
{
    let token = lex::next_token(text, at);
    match part_of(token.word) {
        ExpressionWord::Literal(value) => {
            let number = Number {
                value,
                place: token.start,
                refusal: None,
            };
            Ok((number, token.end))
        }
        ExpressionWord::Open => {
            if depth == 0 {
                return Err(Rule::TooMany.at(token.start));
            }
            let (number, next) = read_row(text, token.end, depth - 1, ROW_COUNT)?;
            close(text, next, token.start, number)
        }
        ExpressionWord::Close => Err(Rule::BadSentence.at(token.start)),
        ExpressionWord::Binary(_) => Err(Rule::BadSentence.at(token.start)),
        ExpressionWord::Other => Err(Rule::BadSentence.at(token.start)),
    }
}

// Operands of the rows tighter than `row`, joined by its operators.
#[cycle(read_operand_read_row)]
fn read_row(text: &[u8], at: usize, depth: usize, row: usize) -> Reading<Number>
    ensures { parsed result ≡ mapped evaluated (row_at (operand_at depth text.now) row text.now at) }
{
    if row == 0 {
        return read_operand(text, at, depth);
    }
    let (first, behind) = read_row(text, at, depth, row - 1)?;
    let mut left = first;
    let mut here = behind;
    loop {
        let token = lex::next_token(text, here);
        match operator_in(part_of(token.word), row) {
            None => return Ok((left, here)),
            Some(operator) => {
                let (right, next) = read_row(text, token.end, depth, row - 1)?;
                left = combine(operator, token.start, left, right);
                here = next;
            }
        }
    }
}

// A constant expression; a number with no operator behind it is read at once.
pub fn read_number(text: &[u8], at: usize) -> Reading<Number>
    ensures { parsed result ≡ number_at text.now at }
{
    let token = lex::next_token(text, at);
    if let Word::Number(value) = token.word {
        let behind = lex::next_token(text, token.end);
        if !is_operator(part_of(behind.word)) {
            let number = Number {
                value,
                place: token.start,
                refusal: None,
            };
            return Ok((number, token.end));
        }
    }
    read_row(text, at, basics::PARENTHESIS_LIMIT, ROW_COUNT)
}
