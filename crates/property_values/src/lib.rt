// What a property statement sets: where a property may stand (7), which property it sets, and to what (9).
#![tactic(auto)]

ghost use Rattle.std.specs.Prelude.{◌≡◌};
ghost use Rattle.property_values.specs.Terms.{word_term};
ghost use Rattle.property_values.specs.Settings.{group_of, is_for, is_defaultable, is_allowed, slot_of, term_of, wanted_of, is_alignment, listed_setting, short_setting, number_setting, text_setting, in_range, setting_as, setting_of, setting_numbers, value_place, value_refusal, wanted_refusal, refusal_in};

use parts::{Kind, Value};
use vocabulary::{Keyword, Property};

// The lists of words that values are taken from.
#[derive(Clone, Copy, PartialEq, Eq)]
pub enum WordList {
    Access,
    Onread,
    Onwrite,
    Addressing,
    Truth,
}

// What a value is: a word of a list with its number, a number, a string, or none of these.
#[derive(Clone, Copy)]
pub enum Term {
    Word(WordList, u64),
    Number(u64),
    Text,
    Other,
}

// The components that a property is for: fields, registers, address maps and regfiles, address maps, all.
#[derive(Clone, Copy)]
pub enum Group {
    OfField,
    OfReg,
    OfSpace,
    OfMap,
    OfAll,
}

// What a property statement sets.
#[derive(Clone, Copy, PartialEq, Eq)]
pub enum Slot {
    Sw,
    Hw,
    Reset,
    Onread,
    Onwrite,
    Regwidth,
    Accesswidth,
    Alignment,
    Addressing,
    Name,
    Desc,
}

// What a property wants for its value.
#[derive(Clone, Copy)]
pub enum Wanted {
    Listed(WordList),
    Short(u64),
    AnyNumber,
    Width,
    Alignment,
    String,
}

// What a kept keyword is as a value.
fn word_term(keyword: Keyword) -> Term
    ensures { result ≡ word_term keyword }
{
    match keyword {
        Keyword::Rclr => Term::Word(WordList::Onread, 1),
        Keyword::Rset => Term::Word(WordList::Onread, 2),
        Keyword::Woclr => Term::Word(WordList::Onwrite, 2),
        Keyword::Woset => Term::Word(WordList::Onwrite, 1),
        Keyword::True => Term::Word(WordList::Truth, 1),
        Keyword::False => Term::Word(WordList::Truth, 0),
        Keyword::Na => Term::Word(WordList::Access, 0),
        Keyword::Rw => Term::Word(WordList::Access, 3),
        Keyword::Wr => Term::Word(WordList::Access, 3),
        Keyword::R => Term::Word(WordList::Access, 1),
        Keyword::W => Term::Word(WordList::Access, 2),
        Keyword::Wot => Term::Word(WordList::Onwrite, 3),
        Keyword::Wzs => Term::Word(WordList::Onwrite, 4),
        Keyword::Wzc => Term::Word(WordList::Onwrite, 5),
        Keyword::Wzt => Term::Word(WordList::Onwrite, 6),
        Keyword::Wclr => Term::Word(WordList::Onwrite, 7),
        Keyword::Wset => Term::Word(WordList::Onwrite, 8),
        Keyword::Compact => Term::Word(WordList::Addressing, 0),
        Keyword::Regalign => Term::Word(WordList::Addressing, 1),
        Keyword::Fullalign => Term::Word(WordList::Addressing, 2),
        Keyword::Addrmap
        | Keyword::Regfile
        | Keyword::Reg
        | Keyword::Field
        | Keyword::Default
        | Keyword::Sw
        | Keyword::Hw => Term::Other,
    }
}

fn term_of(value: Value) -> Term
    ensures { result ≡ term_of value }
{
    match value {
        Value::Missing => Term::Word(WordList::Truth, 1),
        Value::Number(number) => Term::Number(number.value),
        Value::String(_) => Term::Text,
        Value::Word(keyword, _) => word_term(keyword),
    }
}

fn group_of(property: Property) -> Group
    ensures { result ≡ group_of property }
{
    match property {
        Property::Sw
        | Property::Hw
        | Property::Reset
        | Property::Onread
        | Property::Onwrite
        | Property::Rclr
        | Property::Rset
        | Property::Woclr
        | Property::Woset => Group::OfField,
        Property::Regwidth | Property::Accesswidth => Group::OfReg,
        Property::Alignment => Group::OfSpace,
        Property::Addressing => Group::OfMap,
        Property::Name | Property::Desc => Group::OfAll,
    }
}

fn is_for(group: Group, kind: Kind) -> bool
    ensures { result ≡ is_for group kind }
{
    match group {
        Group::OfField => kind == Kind::Field,
        Group::OfReg => kind == Kind::Reg,
        Group::OfSpace => matches!(kind, Kind::Addrmap | Kind::Regfile),
        Group::OfMap => kind == Kind::Addrmap,
        Group::OfAll => true,
    }
}

fn is_defaultable(group: Group, kind: Kind) -> bool
    ensures { result ≡ is_defaultable group kind }
{
    match group {
        Group::OfField | Group::OfReg => kind != Kind::Field,
        Group::OfSpace | Group::OfMap | Group::OfAll => false,
    }
}

// Whether a property, or its default, may stand in a body of a component.
#[tactic(auto, unfolding(crate::specs::Settings::is_allowed))]
pub fn is_allowed(defaulted: bool, property: Property, kind: Kind) -> bool
    ensures { result ≡ is_allowed defaulted property kind }
{
    let group = group_of(property);
    if defaulted {
        is_defaultable(group, kind)
    } else {
        is_for(group, kind)
    }
}

// Which property is set: short forms and long forms are one.
pub fn slot_of(property: Property) -> Slot
    ensures { result ≡ slot_of property }
{
    match property {
        Property::Sw => Slot::Sw,
        Property::Hw => Slot::Hw,
        Property::Reset => Slot::Reset,
        Property::Onread | Property::Rclr | Property::Rset => Slot::Onread,
        Property::Onwrite | Property::Woclr | Property::Woset => Slot::Onwrite,
        Property::Regwidth => Slot::Regwidth,
        Property::Accesswidth => Slot::Accesswidth,
        Property::Alignment => Slot::Alignment,
        Property::Addressing => Slot::Addressing,
        Property::Name => Slot::Name,
        Property::Desc => Slot::Desc,
    }
}

fn wanted_of(property: Property) -> Wanted
    ensures { result ≡ wanted_of property }
{
    match property {
        Property::Sw | Property::Hw => Wanted::Listed(WordList::Access),
        Property::Reset => Wanted::AnyNumber,
        Property::Onread => Wanted::Listed(WordList::Onread),
        Property::Onwrite => Wanted::Listed(WordList::Onwrite),
        Property::Rclr | Property::Woset => Wanted::Short(1),
        Property::Rset | Property::Woclr => Wanted::Short(2),
        Property::Regwidth | Property::Accesswidth => Wanted::Width,
        Property::Alignment => Wanted::Alignment,
        Property::Addressing => Wanted::Listed(WordList::Addressing),
        Property::Name | Property::Desc => Wanted::String,
    }
}

// Whether a number is a power of two up to 65,536.
#[tactic(auto, using(crate::proofs::Laws::alignment_small, crate::proofs::Laws::alignment_large))]
pub fn is_alignment(n: u64) -> bool
    ensures { result ≡ is_alignment n }
{
    n <= basics::ALIGNMENT_LIMIT && n.is_power_of_two()
}

// A word of the list that is wanted.
fn listed_setting(list: WordList, term: Term) -> Option<u64>
    ensures { result ≡ listed_setting list term }
{
    match term {
        Term::Word(found, code) if found == list => Some(code),
        _ => None,
    }
}

// The effect of a short form, or none for `false`.
fn short_setting(effect: u64, term: Term) -> Option<u64>
    ensures { result ≡ short_setting effect term }
{
    match term {
        Term::Word(WordList::Truth, 1) => Some(effect),
        Term::Word(WordList::Truth, _) => Some(0),
        _ => None,
    }
}

fn in_range(wanted: Wanted, n: u64) -> bool
    ensures { result ≡ in_range wanted n }
{
    match wanted {
        Wanted::AnyNumber => true,
        Wanted::Width => fields::is_width(n),
        Wanted::Alignment => is_alignment(n),
        Wanted::Listed(_) | Wanted::Short(_) | Wanted::String => false,
    }
}

// A number of the range that is wanted.
fn number_setting(wanted: Wanted, term: Term) -> Option<u64>
    ensures { result ≡ number_setting (in_range wanted) term }
{
    match term {
        Term::Number(n) if in_range(wanted, n) => Some(n),
        _ => None,
    }
}

fn text_setting(term: Term) -> Option<u64>
    ensures { result ≡ text_setting term }
{
    match term {
        Term::Text => Some(0),
        _ => None,
    }
}

#[tactic(auto, unfolding(crate::specs::Settings::setting_as))]
fn setting_as(wanted: Wanted, term: Term) -> Option<u64>
    ensures { result ≡ setting_as wanted term }
{
    match wanted {
        Wanted::Listed(list) => listed_setting(list, term),
        Wanted::Short(effect) => short_setting(effect, term),
        Wanted::AnyNumber | Wanted::Width | Wanted::Alignment => number_setting(wanted, term),
        Wanted::String => text_setting(term),
    }
}

// What a property statement sets its property to; None for a value of wrong kind or range.
#[tactic(auto, unfolding(crate::specs::Settings::setting_of))]
pub fn setting_of(property: Property, value: Value) -> Option<u64>
    ensures answer { result ≡ setting_of property value }
    ensures numbers { setting_numbers result ≡ setting_numbers (setting_of property value) }
{
    setting_as(wanted_of(property), term_of(value))
}

// The place of a value, or of its property if it has none.
pub fn value_place(property: usize, value: Value) -> usize
    ensures { result ≡ value_place property value }
{
    match value {
        Value::Missing => property,
        Value::Number(number) => number.place,
        Value::String(place) | Value::Word(_, place) => place,
    }
}

fn value_refusal(value: Value) -> Option<usize>
    ensures { result ≡ value_refusal value }
{
    match value {
        Value::Number(number) => number.refusal,
        Value::Missing | Value::String(_) | Value::Word(_, _) => None,
    }
}

fn wanted_refusal(wanted: Wanted, refusal: Option<usize>) -> Option<usize>
    ensures { result ≡ wanted_refusal wanted refusal }
{
    match wanted {
        Wanted::AnyNumber | Wanted::Width | Wanted::Alignment => refusal,
        Wanted::Listed(_) | Wanted::Short(_) | Wanted::String => None,
    }
}

// Which operator refuses a value, where the property wants a number.
#[tactic(auto, unfolding(crate::specs::Settings::refusal_in))]
pub fn refusal_in(property: Property, value: Value) -> Option<usize>
    ensures { result ≡ refusal_in property value }
{
    wanted_refusal(wanted_of(property), value_refusal(value))
}
