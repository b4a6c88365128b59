// The parts of sentences: names, suffixes, instances, values, property statements and the headers of definitions.
// Each reader answers what stands at a cursor with the cursor past it, or the refusal and its place: 3 where it has no number.
#![tactic(auto)]

ghost use Rattle.std.specs.Prelude.{◌≡◌};
ghost use Rattle.expressions.specs.Reading.{ok, mapped, parsed};
ghost use Rattle.parts.specs.Words.{role_of, role_kind, role_default, role_property, role_value, is_name, kind_of, is_kind, is_default, is_property, is_mark, is_end};
ghost use Rattle.parts.specs.Parts.{closed_by, name_at, array_rest_at, array_at, suffix_mark, suffix_at, instance_of, bare, spacing_at, suffixed_at, instance_at, listed_at, value_in, value_at, property, setting_at, property_word_at, property_at, header_rest_at, header_at, is_named, starts_instances};
ghost use Rattle.parts.specs.Ahead.{ahead_at, Stands, looked, looked_as, placed, starts_spacing, starts_suffix, PartedBy};

use basics::{Refusal, Rule};
use expressions::{Number, Reading};
use lex::{Token, Word};
use vocabulary::{Keyword, Mark};

// The kinds of component.
#[derive(Clone, Copy, PartialEq, Eq)]
pub enum Kind {
    Addrmap,
    Regfile,
    Reg,
    Field,
}

// What a kept keyword may be in a sentence.
#[derive(Clone, Copy, PartialEq, Eq)]
pub enum Role {
    Kind(Kind),
    Default,
    Property,
    PropertyOrValue,
    Value,
}

// A name, from its first byte to past its last.
#[derive(Clone, Copy, PartialEq, Eq)]
pub struct Name {
    pub start: usize,
    pub end: usize,
}

// A cursor, and the token that stands there: whoever asks what follows need not read it again.
#[derive(Clone, Copy, PartialEq, Eq)]
pub struct Ahead {
    pub at: usize,
    pub token: Token,
}

// `[n]` or `[left:right]`, with the place of its first mark.
#[derive(Clone, Copy, PartialEq, Eq)]
pub enum Array {
    Missing,
    Size(usize, Number),
    Range(usize, Number, Number),
}

// What is read at a cursor, with the token behind it; or the refusal.
type ReadingAhead<T> = Result<(T, Ahead), Refusal>;

// A mark's place and the number behind it, where an instance has them.
pub type Suffix = Option<(usize, Number)>;

// The suffixes behind an array, in their order: `= n`, `@ n`, `+= n`, `%= n`.
#[derive(Clone, Copy, PartialEq, Eq)]
pub enum SuffixKind {
    Reset,
    Address,
    Stride,
    Alignment,
}

// An instance with its suffixes.
#[derive(Clone, Copy, PartialEq, Eq)]
pub struct Instance {
    pub name: Name,
    pub array: Array,
    pub reset: Suffix,
    pub address: Suffix,
    pub stride: Suffix,
    pub alignment: Suffix,
}

// An instance of a list, and whether it is the list's last.
#[derive(Clone, Copy, PartialEq, Eq)]
pub struct ListItem {
    pub instance: Instance,
    pub last: bool,
}

// A property's value, with its place; Missing where the property stands alone.
#[derive(Clone, Copy, PartialEq, Eq)]
pub enum Value {
    Missing,
    Number(Number),
    String(usize),
    Word(Keyword, usize),
}

// A property statement: whether it is a default, the property word's place and end, and the value.
#[derive(Clone, Copy, PartialEq, Eq)]
pub struct Assignment {
    pub defaulted: bool,
    pub start: usize,
    pub end: usize,
    pub value: Value,
}

// The head of a definition: its kind, the kind word's place, its name, and its opening brace's place.
#[derive(Clone, Copy, PartialEq, Eq)]
pub struct Header {
    pub kind: Kind,
    pub place: usize,
    pub name: Option<Name>,
    pub brace: usize,
}

fn role_of(keyword: Keyword) -> Role
    ensures { result ≡ role_of keyword }
{
    match keyword {
        Keyword::Addrmap => Role::Kind(Kind::Addrmap),
        Keyword::Regfile => Role::Kind(Kind::Regfile),
        Keyword::Reg => Role::Kind(Kind::Reg),
        Keyword::Field => Role::Kind(Kind::Field),
        Keyword::Default => Role::Default,
        Keyword::Sw | Keyword::Hw => Role::Property,
        Keyword::Rclr | Keyword::Rset | Keyword::Woclr | Keyword::Woset => Role::PropertyOrValue,
        Keyword::True | Keyword::False => Role::Value,
        Keyword::Na | Keyword::Rw | Keyword::Wr | Keyword::R | Keyword::W => Role::Value,
        Keyword::Wot | Keyword::Wzs | Keyword::Wzc | Keyword::Wzt => Role::Value,
        Keyword::Wclr | Keyword::Wset => Role::Value,
        Keyword::Compact | Keyword::Regalign | Keyword::Fullalign => Role::Value,
    }
}

fn role_kind(role: Role) -> Option<Kind>
    ensures { result ≡ role_kind role }
{
    match role {
        Role::Kind(kind) => Some(kind),
        Role::Default | Role::Property | Role::PropertyOrValue | Role::Value => None,
    }
}

fn role_default(role: Role) -> bool
    ensures { result ≡ role_default role }
{
    matches!(role, Role::Default)
}

fn role_property(role: Role) -> bool
    ensures { result ≡ role_property role }
{
    matches!(role, Role::Property | Role::PropertyOrValue)
}

fn role_value(role: Role) -> bool
    ensures { result ≡ role_value role }
{
    matches!(role, Role::PropertyOrValue | Role::Value)
}

#[tactic(auto, unfolding(crate::specs::Words::is_name))]
fn is_name(word: Word) -> bool
    ensures { result ≡ is_name word }
{
    matches!(word, Word::Name)
}

#[tactic(auto, unfolding(crate::specs::Words::kind_of))]
fn kind_of(word: Word) -> Option<Kind>
    ensures { result ≡ kind_of word }
{
    match word {
        Word::Keyword(keyword) => role_kind(role_of(keyword)),
        Word::End | Word::Name | Word::Number(_) | Word::String | Word::Mark(_) | Word::Bad(_) =>
            None,
    }
}

#[tactic(auto, unfolding(crate::specs::Words::is_kind))]
pub fn is_kind(word: Word) -> bool
    ensures { result ≡ is_kind word }
{
    kind_of(word).is_some()
}

#[tactic(auto, unfolding(crate::specs::Words::is_default))]
fn is_default(word: Word) -> bool
    ensures { result ≡ is_default word }
{
    match word {
        Word::Keyword(keyword) => role_default(role_of(keyword)),
        Word::End | Word::Name | Word::Number(_) | Word::String | Word::Mark(_) | Word::Bad(_) =>
            false,
    }
}

#[tactic(auto, unfolding(crate::specs::Words::is_property))]
fn is_property(word: Word) -> bool
    ensures { result ≡ is_property word }
{
    match word {
        Word::Name => true,
        Word::Keyword(keyword) => role_property(role_of(keyword)),
        Word::End | Word::Number(_) | Word::String | Word::Mark(_) | Word::Bad(_) => false,
    }
}

#[tactic(auto, unfolding(crate::specs::Words::is_mark))]
pub fn is_mark(word: Word, mark: Mark) -> bool
    ensures { result ≡ is_mark mark word }
{
    word == Word::Mark(mark)
}

#[tactic(auto, unfolding(crate::specs::Words::is_end))]
pub fn is_end(word: Word) -> bool
    ensures { result ≡ is_end word }
{
    matches!(word, Word::End)
}

// A name.
pub fn read_name(text: &[u8], at: usize) -> Reading<Name>
    ensures { parsed result ≡ name_at text.now at }
{
    let token = lex::next_token(text, at);
    if is_name(token.word) {
        let name = Name {
            start: token.start,
            end: token.end,
        };
        return Ok((name, token.end));
    }
    Err(Rule::BadSentence.at(token.start))
}

// A cursor with the token that stands there.
fn look(text: &[u8], at: usize) -> Ahead
    ensures { result ≡ ahead_at text.now at }
{
    let token = lex::next_token(text, at);
    Ahead { at, token }
}

// The closing bracket behind an array's numbers.
fn close_array(text: &[u8], at: usize, array: Array) -> ReadingAhead<Array>
    ensures { looked_as result ≡ looked text.now (closed_by Mark.CloseBracket array text.now at) }
{
    let token = lex::next_token(text, at);
    if is_mark(token.word, Mark::CloseBracket) {
        return Ok((array, look(text, token.end)));
    }
    Err(Rule::BadSentence.at(token.start))
}

// What follows the first number of an array whose bracket stands at `bracket`.
fn read_array_rest(text: &[u8], at: usize, bracket: usize, left: Number) -> ReadingAhead<Array>
    ensures { looked_as result ≡ looked text.now (array_rest_at bracket left text.now at) }
{
    let token = lex::next_token(text, at);
    if is_mark(token.word, Mark::CloseBracket) {
        return Ok((Array::Size(bracket, left), look(text, token.end)));
    }
    if !is_mark(token.word, Mark::Colon) {
        return Err(Rule::BadSentence.at(token.start));
    }
    let (right, next) = expressions::read_number(text, token.end)?;
    close_array(text, next, Array::Range(bracket, left, right))
}

// `[n]`, `[left:right]` or neither.
fn read_array(text: &[u8], ahead: Ahead) -> ReadingAhead<Array>
    requires { Stands text.now ahead }
    ensures { looked_as result ≡ looked text.now (array_at text.now ahead.at) }
{
    let token = ahead.token;
    if !is_mark(token.word, Mark::OpenBracket) {
        return Ok((Array::Missing, ahead));
    }
    let (left, next) = expressions::read_number(text, token.end)?;
    read_array_rest(text, next, token.start, left)
}

fn suffix_mark(kind: SuffixKind) -> Mark
    ensures { result ≡ suffix_mark kind }
{
    match kind {
        SuffixKind::Reset => Mark::Equals,
        SuffixKind::Address => Mark::At,
        SuffixKind::Stride => Mark::PlusEquals,
        SuffixKind::Alignment => Mark::PercentEquals,
    }
}

// A suffix of one kind, or none.
fn read_suffix(text: &[u8], ahead: Ahead, kind: SuffixKind) -> ReadingAhead<Suffix>
    requires { Stands text.now ahead }
    ensures { looked_as result ≡ looked text.now (suffix_at kind text.now ahead.at) }
{
    let token = ahead.token;
    if !is_mark(token.word, suffix_mark(kind)) {
        return Ok((None, ahead));
    }
    let (number, next) = expressions::read_number(text, token.end)?;
    Ok((Some((token.start, number)), look(text, next)))
}

// An instance of its parts.
fn instance_of(
    name: Name,
    array: Array,
    reset: Suffix,
    address: Suffix,
    stride: Suffix,
    alignment: Suffix,
) -> Instance
    ensures { result ≡ instance_of name array reset address stride alignment }
{
    Instance {
        name,
        array,
        reset,
        address,
        stride,
        alignment,
    }
}

// Whether a word begins a stride or an alignment.
#[tactic(auto, unfolding(crate::specs::Ahead::starts_spacing))]
fn starts_spacing(word: Word) -> bool
    ensures { result ≡ starts_spacing word }
{
    is_mark(word, Mark::PlusEquals) || is_mark(word, Mark::PercentEquals)
}

// Whether a word begins a suffix.
#[tactic(auto, unfolding(crate::specs::Ahead::starts_suffix))]
fn starts_suffix(word: Word) -> bool
    ensures { result ≡ starts_suffix word }
{
    is_mark(word, Mark::Equals) || is_mark(word, Mark::At) || starts_spacing(word)
}

// The suffixes of an instance in order, behind its name and array. Where it has none, the token ahead says so at once.
fn read_suffixes(text: &[u8], ahead: Ahead, name: Name, array: Array) -> ReadingAhead<Instance>
    requires { Stands text.now ahead }
    ensures { looked_as result ≡ looked text.now (suffixed_at text.now (ok (bare name array) ahead.at)) }
{
    if !starts_suffix(ahead.token.word) {
        return Ok((instance_of(name, array, None, None, None, None), ahead));
    }
    let (reset, first) = read_suffix(text, ahead, SuffixKind::Reset)?;
    let (address, second) = read_suffix(text, first, SuffixKind::Address)?;
    read_spacing(text, second, name, array, reset, address)
}

// The stride and alignment of an instance, behind its address. Few instances have either.
fn read_spacing(
    text: &[u8],
    ahead: Ahead,
    name: Name,
    array: Array,
    reset: Suffix,
    address: Suffix,
) -> ReadingAhead<Instance>
    requires { Stands text.now ahead }
    ensures { looked_as result ≡ looked text.now (spacing_at text.now (ok (placed name array reset address) ahead.at)) }
{
    if !starts_spacing(ahead.token.word) {
        return Ok((instance_of(name, array, reset, address, None, None), ahead));
    }
    let (stride, first) = read_suffix(text, ahead, SuffixKind::Stride)?;
    let (alignment, last) = read_suffix(text, first, SuffixKind::Alignment)?;
    Ok((
        instance_of(name, array, reset, address, stride, alignment),
        last,
    ))
}

// What follows the name of an instance.
fn read_named(text: &[u8], at: usize, name: Name) -> ReadingAhead<Instance>
    ensures { looked_as result ≡ looked text.now (suffixed_at text.now (mapped (bare name) (array_at text.now at))) }
{
    let (array, ahead) = read_array(text, look(text, at))?;
    read_suffixes(text, ahead, name, array)
}

// An instance, and the token behind it.
fn read_instance_ahead(text: &[u8], at: usize) -> ReadingAhead<Instance>
    ensures { looked_as result ≡ looked text.now (instance_at text.now at) }
{
    let (name, next) = read_name(text, at)?;
    read_named(text, next, name)
}

// An instance: a name, then its suffixes in order.
pub fn read_instance(text: &[u8], at: usize) -> Reading<Instance>
    ensures { parsed result ≡ instance_at text.now at }
{
    let (instance, ahead) = read_instance_ahead(text, at)?;
    Ok((instance, ahead.at))
}

// An instance of a list, by the token behind it.
fn parted_by(instance: Instance, token: Token) -> Reading<ListItem>
    ensures { PartedBy instance token (parsed result) }
{
    if is_mark(token.word, Mark::Semicolon) {
        let listed = ListItem {
            instance,
            last: true,
        };
        return Ok((listed, token.end));
    }
    if is_mark(token.word, Mark::Comma) {
        let listed = ListItem {
            instance,
            last: false,
        };
        Ok((listed, token.end))
    } else {
        Err(Rule::BadSentence.at(token.start))
    }
}

// An instance of a list, with the comma or semicolon behind it.
pub fn read_listed(text: &[u8], at: usize) -> Reading<ListItem>
    ensures { parsed result ≡ listed_at text.now at }
{
    let (instance, ahead) = read_instance_ahead(text, at)?;
    parted_by(instance, ahead.token)
}

// A string or a word of the value lists.
fn value_in(word: Word, place: usize) -> Option<Value>
    ensures { result ≡ value_in word place }
{
    match word {
        Word::Keyword(keyword) => keyword_value(keyword, place),
        Word::String => Some(Value::String(place)),
        Word::End | Word::Name | Word::Number(_) | Word::Mark(_) | Word::Bad(_) => None,
    }
}

fn keyword_value(keyword: Keyword, place: usize) -> Option<Value>
    ensures { result ≡ value_in (Word.Keyword keyword) place }
{
    if role_value(role_of(keyword)) {
        return Some(Value::Word(keyword, place));
    }
    None
}

// A value.
fn read_value(text: &[u8], at: usize) -> Reading<Value>
    ensures { parsed result ≡ value_at text.now at }
{
    let token = lex::next_token(text, at);
    match value_in(token.word, token.start) {
        Some(value) => Ok((value, token.end)),
        None => {
            let (number, next) = expressions::read_number(text, at)?;
            Ok((Value::Number(number), next))
        }
    }
}

fn make_property(defaulted: bool, key: Token, value: Value) -> Assignment
    ensures { result ≡ property defaulted key value }
{
    Assignment {
        defaulted,
        start: key.start,
        end: key.end,
        value,
    }
}

// The semicolon behind a property's value.
fn close_setting(text: &[u8], at: usize, property: Assignment) -> Reading<Assignment>
    ensures { parsed result ≡ closed_by Mark.Semicolon property text.now at }
{
    let token = lex::next_token(text, at);
    if is_mark(token.word, Mark::Semicolon) {
        return Ok((property, token.end));
    }
    Err(Rule::BadSentence.at(token.start))
}

// What follows a property word.
fn read_setting(text: &[u8], at: usize, defaulted: bool, key: Token) -> Reading<Assignment>
    ensures { parsed result ≡ setting_at defaulted key text.now at }
{
    let token = lex::next_token(text, at);
    if is_mark(token.word, Mark::Semicolon) {
        return Ok((make_property(defaulted, key, Value::Missing), token.end));
    }
    if !is_mark(token.word, Mark::Equals) {
        return Err(Rule::BadSentence.at(token.start));
    }
    let (value, next) = read_value(text, token.end)?;
    close_setting(text, next, make_property(defaulted, key, value))
}

// A property word and what follows it.
fn read_property_word(text: &[u8], at: usize, defaulted: bool) -> Reading<Assignment>
    ensures { parsed result ≡ property_word_at defaulted text.now at }
{
    let token = lex::next_token(text, at);
    if is_property(token.word) {
        return read_setting(text, token.end, defaulted, token);
    }
    Err(Rule::BadSentence.at(token.start))
}

// A property statement.
pub fn read_property(text: &[u8], at: usize) -> Reading<Assignment>
    ensures { parsed result ≡ property_at text.now at }
{
    let token = lex::next_token(text, at);
    if is_default(token.word) {
        return read_property_word(text, token.end, true);
    }
    read_property_word(text, at, false)
}

// What follows a kind word that stands at `place`, up to the opening brace.
fn read_header_rest(text: &[u8], at: usize, kind: Kind, place: usize) -> Reading<Header>
    ensures { parsed result ≡ header_rest_at kind place text.now at }
{
    let token = lex::next_token(text, at);
    if is_mark(token.word, Mark::OpenBrace) {
        let header = Header {
            kind,
            place,
            name: None,
            brace: token.start,
        };
        return Ok((header, token.end));
    }
    if !is_name(token.word) {
        return Err(Rule::BadSentence.at(token.start));
    }
    let brace = lex::next_token(text, token.end);
    if !is_mark(brace.word, Mark::OpenBrace) {
        return Err(Rule::BadSentence.at(brace.start));
    }
    let name = Name {
        start: token.start,
        end: token.end,
    };
    let header = Header {
        kind,
        place,
        name: Some(name),
        brace: brace.start,
    };
    Ok((header, brace.end))
}

// A definition up to its opening brace.
pub fn read_header(text: &[u8], at: usize) -> Reading<Header>
    ensures { parsed result ≡ header_at text.now at }
{
    let token = lex::next_token(text, at);
    match kind_of(token.word) {
        Some(kind) => read_header_rest(text, token.end, kind, token.start),
        None => Err(Rule::BadSentence.at(token.start)),
    }
}

pub fn is_named(name: Option<Name>) -> bool
    ensures { result ≡ is_named name }
{
    name.is_some()
}

// Whether an instance statement stands there: two names, a type's and an instance's.
#[tactic(auto, unfolding(crate::specs::Parts::starts_instances))]
pub fn starts_instances(text: &[u8], at: usize) -> bool
    ensures { result ≡ starts_instances text.now at }
{
    let token = lex::next_token(text, at);
    is_name(token.word) && is_name(lex::next_token(text, token.end).word)
}
