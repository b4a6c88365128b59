// The keywords of document 004, the properties that the course takes and the marks. Each keyword and property is a fixed byte string
// compared with the word, a keyword only with words of its length and first byte; a mark is known by its one or two bytes.
#![tactic(auto)]

ghost use Rattle.std.specs.Prelude.{◌≡◌, length, [], ◌∷◌};
ghost use Rattle.vocabulary.specs.Vocabulary.{chosen, entry, keyword_of, property_name, property_of, access_properties, effect_properties, other_properties, mark_bytes, mark_of};
ghost use Rattle.vocabulary.specs.Candidates.{keyword_among, candidates};

use chars::same;

// The kept keywords.
#[derive(Clone, Copy, PartialEq, Eq)]
pub enum Keyword {
    Addrmap,
    Regfile,
    Reg,
    Field,
    Default,
    Sw,
    Hw,
    Rclr,
    Rset,
    Woclr,
    Woset,
    True,
    False,
    Na,
    Rw,
    Wr,
    R,
    W,
    Wot,
    Wzs,
    Wzc,
    Wzt,
    Wclr,
    Wset,
    Compact,
    Regalign,
    Fullalign,
}

// What a word is among the keywords.
#[derive(Clone, Copy)]
pub enum Lookup {
    Kept(Keyword),
    LeftOut,
    NotKeyword,
}

// The properties.
#[derive(Clone, Copy, PartialEq, Eq)]
pub enum Property {
    Sw,
    Hw,
    Reset,
    Onread,
    Onwrite,
    Rclr,
    Rset,
    Woclr,
    Woset,
    Regwidth,
    Accesswidth,
    Alignment,
    Addressing,
    Name,
    Desc,
}

// The marks.
#[derive(Clone, Copy, PartialEq, Eq)]
pub enum Mark {
    OpenBrace,
    CloseBrace,
    OpenBracket,
    CloseBracket,
    Semicolon,
    Colon,
    Comma,
    Equals,
    At,
    PlusEquals,
    PercentEquals,
    OpenParen,
    CloseParen,
    Times,
    Slash,
    Percent,
    Plus,
    Minus,
    ShiftLeft,
    ShiftRight,
    Less,
    AtMost,
    More,
    AtLeast,
    Same,
    Unlike,
    Ampersand,
    Caret,
    Bar,
}

// The answer for a word that has the bytes of `text`, and for any other.
fn choose<T: Copy>(word: &[u8], text: &[u8], this: T, other: T) -> T
    ensures { result ≡ chosen word.now text.now this other }
{
    if same(word, text) { this } else { other }
}

// Whether a word is the kept keyword with the bytes of `text`.
fn kept(word: &[u8], text: &[u8], keyword: Keyword) -> Lookup
    ensures { result ≡ chosen word.now text.now (Lookup.Kept keyword) Lookup.NotKeyword }
{
    choose(word, text, Lookup::Kept(keyword), Lookup::NotKeyword)
}

// Whether a word is the keyword with the bytes of `text`, which is left out.
fn left_out(word: &[u8], text: &[u8]) -> Lookup
    ensures { result ≡ chosen word.now text.now Lookup.LeftOut Lookup.NotKeyword }
{
    choose(word, text, Lookup::LeftOut, Lookup::NotKeyword)
}

// Each function below has the keywords of one length, and compares a word with those of them that begin with `first`.
#[tactic(auto, unfolding(crate::specs::Candidates::having, crate::specs::Candidates::candidates))]
fn one_byte_keyword(word: &[u8], first: u8) -> Lookup
    ensures { result ≡ keyword_among (candidates 1 first) word.now }
{
    match first {
        b'r' => kept(word, b"r", Keyword::R),
        b'w' => kept(word, b"w", Keyword::W),
        _ => Lookup::NotKeyword,
    }
}

#[tactic(auto, unfolding(crate::specs::Candidates::having, crate::specs::Candidates::candidates))]
fn two_byte_keyword(word: &[u8], first: u8) -> Lookup
    ensures { result ≡ keyword_among (candidates 2 first) word.now }
{
    match first {
        b'h' => kept(word, b"hw", Keyword::Hw),
        b'n' => kept(word, b"na", Keyword::Na),
        b'r' => kept(word, b"rw", Keyword::Rw),
        b's' => kept(word, b"sw", Keyword::Sw),
        b'w' => {
            let from_w1 = left_out(word, b"w1");
            choose(word, b"wr", Lookup::Kept(Keyword::Wr), from_w1)
        }
        _ => Lookup::NotKeyword,
    }
}

#[tactic(auto, unfolding(crate::specs::Candidates::having, crate::specs::Candidates::candidates))]
fn three_byte_keyword(word: &[u8], first: u8) -> Lookup
    ensures { result ≡ keyword_among (candidates 3 first) word.now }
{
    match first {
        b'a' => left_out(word, b"all"),
        b'b' => left_out(word, b"bit"),
        b'm' => left_out(word, b"mem"),
        b'r' => {
            let from_ref = left_out(word, b"ref");
            let from_rw1 = choose(word, b"rw1", Lookup::LeftOut, from_ref);
            choose(word, b"reg", Lookup::Kept(Keyword::Reg), from_rw1)
        }
        b'w' => {
            let from_wzt = kept(word, b"wzt", Keyword::Wzt);
            let from_wzc = choose(word, b"wzc", Lookup::Kept(Keyword::Wzc), from_wzt);
            let from_wzs = choose(word, b"wzs", Lookup::Kept(Keyword::Wzs), from_wzc);
            choose(word, b"wot", Lookup::Kept(Keyword::Wot), from_wzs)
        }
        _ => Lookup::NotKeyword,
    }
}

#[tactic(auto, unfolding(crate::specs::Candidates::having, crate::specs::Candidates::candidates))]
fn four_byte_keyword(word: &[u8], first: u8) -> Lookup
    ensures { result ≡ keyword_among (candidates 4 first) word.now }
{
    match first {
        b'e' => left_out(word, b"enum"),
        b'r' => {
            let from_rset = kept(word, b"rset", Keyword::Rset);
            choose(word, b"rclr", Lookup::Kept(Keyword::Rclr), from_rset)
        }
        b't' => {
            let from_type = left_out(word, b"type");
            let from_this = choose(word, b"this", Lookup::LeftOut, from_type);
            choose(word, b"true", Lookup::Kept(Keyword::True), from_this)
        }
        b'w' => {
            let from_wset = kept(word, b"wset", Keyword::Wset);
            choose(word, b"wclr", Lookup::Kept(Keyword::Wclr), from_wset)
        }
        _ => Lookup::NotKeyword,
    }
}

#[tactic(auto, unfolding(crate::specs::Candidates::having, crate::specs::Candidates::candidates))]
fn five_byte_keyword(word: &[u8], first: u8) -> Lookup
    ensures { result ≡ keyword_among (candidates 5 first) word.now }
{
    match first {
        b'a' => left_out(word, b"alias"),
        b'f' => {
            let from_false = kept(word, b"false", Keyword::False);
            choose(word, b"field", Lookup::Kept(Keyword::Field), from_false)
        }
        b'l' => left_out(word, b"level"),
        b'r' => left_out(word, b"ruser"),
        b'w' => {
            let from_wuser = left_out(word, b"wuser");
            let from_woset = choose(word, b"woset", Lookup::Kept(Keyword::Woset), from_wuser);
            choose(word, b"woclr", Lookup::Kept(Keyword::Woclr), from_woset)
        }
        _ => Lookup::NotKeyword,
    }
}

#[tactic(auto, unfolding(crate::specs::Candidates::having, crate::specs::Candidates::candidates))]
fn six_byte_keyword(word: &[u8], first: u8) -> Lookup
    ensures { result ≡ keyword_among (candidates 6 first) word.now }
{
    match first {
        b'e' => left_out(word, b"encode"),
        b'i' => left_out(word, b"inside"),
        b'n' => left_out(word, b"number"),
        b's' => {
            let from_struct = left_out(word, b"struct");
            let from_string = choose(word, b"string", Lookup::LeftOut, from_struct);
            choose(word, b"signal", Lookup::LeftOut, from_string)
        }
        _ => Lookup::NotKeyword,
    }
}

#[tactic(auto, unfolding(crate::specs::Candidates::having, crate::specs::Candidates::candidates))]
fn seven_byte_keyword(word: &[u8], first: u8) -> Lookup
    ensures { result ≡ keyword_among (candidates 7 first) word.now }
{
    match first {
        b'a' => kept(word, b"addrmap", Keyword::Addrmap),
        b'b' => left_out(word, b"boolean"),
        b'c' => kept(word, b"compact", Keyword::Compact),
        b'd' => kept(word, b"default", Keyword::Default),
        b'l' => left_out(word, b"longint"),
        b'n' => left_out(word, b"negedge"),
        b'p' => left_out(word, b"posedge"),
        b'r' => kept(word, b"regfile", Keyword::Regfile),
        _ => Lookup::NotKeyword,
    }
}

#[tactic(auto, unfolding(crate::specs::Candidates::having, crate::specs::Candidates::candidates))]
fn eight_byte_keyword(word: &[u8], first: u8) -> Lookup
    ensures { result ≡ keyword_among (candidates 8 first) word.now }
{
    match first {
        b'a' => left_out(word, b"abstract"),
        b'b' => left_out(word, b"bothedge"),
        b'e' => left_out(word, b"external"),
        b'i' => left_out(word, b"internal"),
        b'p' => left_out(word, b"property"),
        b'r' => kept(word, b"regalign", Keyword::Regalign),
        b'u' => left_out(word, b"unsigned"),
        _ => Lookup::NotKeyword,
    }
}

#[tactic(auto, unfolding(crate::specs::Candidates::having, crate::specs::Candidates::candidates))]
fn nine_byte_keyword(word: &[u8], first: u8) -> Lookup
    ensures { result ≡ keyword_among (candidates 9 first) word.now }
{
    match first {
        b'c' => left_out(word, b"component"),
        b'f' => kept(word, b"fullalign", Keyword::Fullalign),
        b'n' => left_out(word, b"nonsticky"),
        _ => Lookup::NotKeyword,
    }
}

#[tactic(auto, unfolding(crate::specs::Candidates::having, crate::specs::Candidates::candidates))]
fn ten_byte_keyword(word: &[u8], first: u8) -> Lookup
    ensures { result ≡ keyword_among (candidates 10 first) word.now }
{
    match first {
        b'a' => left_out(word, b"accesstype"),
        b'c' => left_out(word, b"constraint"),
        b'o' => left_out(word, b"onreadtype"),
        _ => Lookup::NotKeyword,
    }
}

#[tactic(auto, unfolding(crate::specs::Candidates::having, crate::specs::Candidates::candidates))]
fn eleven_byte_keyword(word: &[u8], first: u8) -> Lookup
    ensures { result ≡ keyword_among (candidates 11 first) word.now }
{
    match first {
        b'o' => left_out(word, b"onwritetype"),
        _ => Lookup::NotKeyword,
    }
}

#[tactic(auto, unfolding(crate::specs::Candidates::having, crate::specs::Candidates::candidates))]
fn fourteen_byte_keyword(word: &[u8], first: u8) -> Lookup
    ensures { result ≡ keyword_among (candidates 14 first) word.now }
{
    match first {
        b'a' => left_out(word, b"addressingtype"),
        b'c' => left_out(word, b"componentwidth"),
        _ => Lookup::NotKeyword,
    }
}

// Whether a word is the property with the bytes of `text`, or else what it is otherwise.
fn known(word: &[u8], text: &[u8], property: Property, other: Option<Property>) -> Option<Property>
    ensures { result ≡ chosen word.now text.now (Some property) other }
{
    choose(word, text, Some(property), other)
}

// Each function below tests the properties of one list, and answers `other` for a word that is none of them.
fn access_property(word: &[u8], other: Option<Property>) -> Option<Property>
    ensures { result ≡ entry property_name Some other access_properties word.now }
{
    let from_reset = known(word, b"reset", Property::Reset, other);
    let from_hw = known(word, b"hw", Property::Hw, from_reset);
    known(word, b"sw", Property::Sw, from_hw)
}

fn effect_property(word: &[u8], other: Option<Property>) -> Option<Property>
    ensures { result ≡ entry property_name Some other effect_properties word.now }
{
    let from_woset = known(word, b"woset", Property::Woset, other);
    let from_woclr = known(word, b"woclr", Property::Woclr, from_woset);
    let from_rset = known(word, b"rset", Property::Rset, from_woclr);
    let from_rclr = known(word, b"rclr", Property::Rclr, from_rset);
    let from_onwrite = known(word, b"onwrite", Property::Onwrite, from_rclr);
    known(word, b"onread", Property::Onread, from_onwrite)
}

fn other_property(word: &[u8], other: Option<Property>) -> Option<Property>
    ensures { result ≡ entry property_name Some other other_properties word.now }
{
    let from_desc = known(word, b"desc", Property::Desc, other);
    let from_name = known(word, b"name", Property::Name, from_desc);
    let from_addressing = known(word, b"addressing", Property::Addressing, from_name);
    let from_alignment = known(word, b"alignment", Property::Alignment, from_addressing);
    let from_accesswidth = known(word, b"accesswidth", Property::Accesswidth, from_alignment);
    known(word, b"regwidth", Property::Regwidth, from_accesswidth)
}

// Whether a word is a keyword, and which. Its length and its first byte choose the keywords that it is compared with: four at most.
pub fn keyword_of(word: &[u8]) -> Lookup
    ensures { result ≡ keyword_of word.now }
{
    let length = word.len();
    match length {
        1 => one_byte_keyword(word, word[0]),
        2 => two_byte_keyword(word, word[0]),
        3 => three_byte_keyword(word, word[0]),
        4 => four_byte_keyword(word, word[0]),
        5 => five_byte_keyword(word, word[0]),
        6 => six_byte_keyword(word, word[0]),
        7 => seven_byte_keyword(word, word[0]),
        8 => eight_byte_keyword(word, word[0]),
        9 => nine_byte_keyword(word, word[0]),
        10 => ten_byte_keyword(word, word[0]),
        11 => eleven_byte_keyword(word, word[0]),
        14 => fourteen_byte_keyword(word, word[0]),
        _ => Lookup::NotKeyword,
    }
}

// Which property a word names.
#[tactic(auto, unfolding(crate::specs::Vocabulary::property_of))]
pub fn property_of(word: &[u8]) -> Option<Property>
    ensures { result ≡ property_of word.now }
{
    let other = other_property(word, None);
    let effect = effect_property(word, other);
    access_property(word, effect)
}

// Which mark a byte is.
#[tactic(auto, unfolding(chars::specs::Same::same_bytes, crate::specs::Vocabulary::chosen, crate::specs::Vocabulary::entry, crate::specs::Vocabulary::mark_of))]
pub fn single_mark(byte: u8) -> Option<Mark>
    ensures { result ≡ mark_of (byte ∷ []) }
{
    match byte {
        b'{' => Some(Mark::OpenBrace),
        b'}' => Some(Mark::CloseBrace),
        b'[' => Some(Mark::OpenBracket),
        b']' => Some(Mark::CloseBracket),
        b';' => Some(Mark::Semicolon),
        b':' => Some(Mark::Colon),
        b',' => Some(Mark::Comma),
        b'=' => Some(Mark::Equals),
        b'@' => Some(Mark::At),
        b'(' => Some(Mark::OpenParen),
        b')' => Some(Mark::CloseParen),
        b'*' => Some(Mark::Times),
        b'/' => Some(Mark::Slash),
        b'%' => Some(Mark::Percent),
        b'+' => Some(Mark::Plus),
        b'-' => Some(Mark::Minus),
        b'<' => Some(Mark::Less),
        b'>' => Some(Mark::More),
        b'&' => Some(Mark::Ampersand),
        b'^' => Some(Mark::Caret),
        b'|' => Some(Mark::Bar),
        _ => None,
    }
}

// Which mark a byte and an equals sign are.
#[tactic(auto, unfolding(chars::specs::Same::same_bytes, crate::specs::Vocabulary::chosen, crate::specs::Vocabulary::entry, crate::specs::Vocabulary::mark_of))]
fn equals_mark(first: u8) -> Option<Mark>
    ensures { result ≡ mark_of (first ∷ 61 ∷ []) }
{
    match first {
        b'+' => Some(Mark::PlusEquals),
        b'%' => Some(Mark::PercentEquals),
        b'<' => Some(Mark::AtMost),
        b'>' => Some(Mark::AtLeast),
        b'=' => Some(Mark::Same),
        b'!' => Some(Mark::Unlike),
        _ => None,
    }
}

// Which mark a byte and another than an equals sign are.
#[tactic(auto, unfolding(chars::specs::Same::same_bytes, crate::specs::Vocabulary::chosen, crate::specs::Vocabulary::entry, crate::specs::Vocabulary::mark_of))]
fn twice_mark(first: u8, second: u8) -> Option<Mark>
    requires { second ≡ 61 → ⊥ }
    ensures { result ≡ mark_of (first ∷ second ∷ []) }
{
    if first != second {
        return None;
    }
    match first {
        b'<' => Some(Mark::ShiftLeft),
        b'>' => Some(Mark::ShiftRight),
        _ => None,
    }
}

// Which mark two bytes are.
pub fn double_mark(first: u8, second: u8) -> Option<Mark>
    ensures { result ≡ mark_of (first ∷ second ∷ []) }
{
    if second == b'=' {
        return equals_mark(first);
    }
    twice_mark(first, second)
}

// How many bytes a mark has.
pub fn mark_length(mark: Mark) -> usize
    ensures { result ≡ length (mark_bytes mark) }
{
    match mark {
        Mark::PlusEquals
        | Mark::PercentEquals
        | Mark::ShiftLeft
        | Mark::ShiftRight
        | Mark::AtMost
        | Mark::AtLeast
        | Mark::Same
        | Mark::Unlike => 2,
        _ => 1,
    }
}
