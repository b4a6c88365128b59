// What every stage needs: the rules and their refusals, a number that may be given, the numbers of a slice, and the limits by name.
#![tactic(auto)]

ghost use Rattle.std.specs.Prelude.{◌||◌, ◌≡◌, set};
ghost use Rattle.basics.specs.Given.{given_from, flag_of, number_of};
ghost use Rattle.basics.specs.Judged.{rule_number};
ghost use Rattle.basics.specs.Slices.{cell_of};

// The limits of documents 01 and 02 and the widths of rows: crates/basics/specs/Limits.antt says of each what it is.
pub const TEXT_LIMIT: usize = 65536;

pub const NAME_LIMIT: usize = 31;

pub const STRING_LIMIT: usize = 4096;

pub const PARENTHESIS_LIMIT: usize = 16;

pub const BODY_LIMIT: usize = 8;

pub const DEFINITION_LIMIT: usize = 256;

pub const ARRAY_LIMIT: u64 = 1024;

pub const ALIGNMENT_LIMIT: u64 = 65536;

pub const WIDTH_LIMIT: u64 = 64;

pub const HIGHEST_ADDRESS: u64 = 4294967295;

pub const ADDRESS_END: u64 = 4294967296;

pub const NEST_LIMIT: usize = 8;

pub const REGISTER_LIMIT: usize = 1024;

pub const FIELD_LIMIT: usize = 4096;

pub const REGISTER_ROW_WIDTH: usize = 14;

pub const FIELD_ROW_WIDTH: usize = 8;

pub const NAME_WIDTH: usize = 32;

pub const PATH_ROW_WIDTH: usize = 288;

// The rules that a text, a table or an access may break: document 01's refusals in the order of their numbers, 1 to 25.
#[derive(Clone, Copy, PartialEq, Eq)]
pub enum Rule {
    TextLength,
    BadWord,
    BadSentence,
    LeftOutKeyword,
    UnknownType,
    NameTaken,
    PropertyMisplaced,
    SetTwice,
    BadValue,
    Misplaced,
    SuffixMisplaced,
    UnusableEffect,
    WideReset,
    WideAccess,
    FieldOutside,
    FieldsOverlap,
    FieldSpansParts,
    TooMany,
    ShortStride,
    RegisterMisplaced,
    RegistersOverlap,
    NoRoom,
    BadAccess,
    BadRows,
    NothingReached,
}

// A refusal: the broken rule, and the place in the text where it is broken.
#[derive(Clone, Copy, PartialEq, Eq)]
pub struct Refusal {
    pub rule: Rule,
    pub at: usize,
}

impl Rule {
    // The rule's number in document 01.
    pub fn number(self) -> u8
        ensures { result ≡ rule_number self }
    {
        match self {
            Rule::TextLength => 1,
            Rule::BadWord => 2,
            Rule::BadSentence => 3,
            Rule::LeftOutKeyword => 4,
            Rule::UnknownType => 5,
            Rule::NameTaken => 6,
            Rule::PropertyMisplaced => 7,
            Rule::SetTwice => 8,
            Rule::BadValue => 9,
            Rule::Misplaced => 10,
            Rule::SuffixMisplaced => 11,
            Rule::UnusableEffect => 12,
            Rule::WideReset => 13,
            Rule::WideAccess => 14,
            Rule::FieldOutside => 15,
            Rule::FieldsOverlap => 16,
            Rule::FieldSpansParts => 17,
            Rule::TooMany => 18,
            Rule::ShortStride => 19,
            Rule::RegisterMisplaced => 20,
            Rule::RegistersOverlap => 21,
            Rule::NoRoom => 22,
            Rule::BadAccess => 23,
            Rule::BadRows => 24,
            Rule::NothingReached => 25,
        }
    }

    // The rule, broken at a place.
    pub fn at(self, at: usize) -> Refusal
        ensures { result ≡ record { rule = self; at = at } }
    {
        Refusal { rule: self, at }
    }
}

// A number that may be given, from two cells.
pub fn given_from(flag: u64, number: u64) -> Option<u64>
    ensures { result ≡ given_from flag number }
{
    if flag == 0 { None } else { Some(number) }
}

pub fn flag_of(given: Option<u64>) -> u64
    ensures { result ≡ flag_of given }
{
    match given {
        None => 0,
        Some(_) => 1,
    }
}

pub fn number_of(given: Option<u64>) -> u64
    ensures { result ≡ number_of given }
{
    match given {
        None => 0,
        Some(number) => number,
    }
}

// Whether one of two holds; the code asks so where `||` would leave the prover two ways to join.
pub fn either(one: bool, other: bool) -> bool
    ensures { result ≡ (one || other) }
{
    if one {
        return true;
    }
    other
}

// A cell; 0 past the end.
pub fn cell(cells: &[u64], i: usize) -> u64
    ensures { result ≡ cell_of cells.now i }
{
    if i < cells.len() {
        return cells[i];
    }
    0
}

// Sets a cell; past the end nothing changes.
pub fn put(cells: &mut [u64], i: usize, value: u64)
    ensures { cells.new ≡ set cells.old i value }
{
    if i < cells.len() {
        cells[i] = value;
    }
}
