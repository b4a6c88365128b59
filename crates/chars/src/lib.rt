// Bytes: their classes, runs of one class, and the equality of byte strings.
#![tactic(auto)]

ghost use Rattle.std.specs.Prelude.{◌≡◌, get_or, drop};
ghost use Rattle.chars.specs.Ascii.{is_within, is_blank, is_line_end, is_letter, is_name_byte, is_number_byte, is_hex_digit, is_digit, is_spaced_digit, in_class};
ghost use Rattle.chars.specs.Run.{run_end, every};
ghost use Rattle.chars.specs.Same.{same_bytes};

// The radix of a number's digits.
#[derive(Clone, Copy, PartialEq, Eq)]
pub enum Radix {
    Binary,
    Decimal,
    Hex,
}

// The bytes that a run holds.
#[derive(Clone, Copy, PartialEq, Eq)]
pub enum Class {
    // letters, digits and underscores
    Name,
    // those and '
    Number,
    // the digits of a radix
    Digits(Radix),
    // those and underscores
    Spaced(Radix),
}

#[tactic(auto, unfolding(crate::specs::Ascii::is_within))]
pub fn within(b: u8, low: u8, high: u8) -> bool
    ensures { result ≡ is_within low high b }
{
    low <= b && b <= high
}

#[tactic(auto, unfolding(crate::specs::Ascii::is_blank))]
pub fn is_blank(b: u8) -> bool
    ensures { result ≡ is_blank b }
{
    b == b' ' || b == b'\t' || b == b'\r' || b == b'\n'
}

#[tactic(auto, unfolding(crate::specs::Ascii::is_line_end))]
pub fn is_line_end(b: u8) -> bool
    ensures { result ≡ is_line_end b }
{
    b == b'\n' || b == b'\r'
}

#[tactic(auto, unfolding(crate::specs::Ascii::is_letter))]
pub fn is_letter(b: u8) -> bool
    ensures { result ≡ is_letter b }
{
    within(b, b'a', b'z') || within(b, b'A', b'Z') || b == b'_'
}

#[tactic(auto, unfolding(crate::specs::Ascii::is_name_byte))]
pub fn is_name_byte(b: u8) -> bool
    ensures { result ≡ is_name_byte b }
{
    is_letter(b) || within(b, b'0', b'9')
}

#[tactic(auto, unfolding(crate::specs::Ascii::is_number_byte))]
fn is_number_byte(b: u8) -> bool
    ensures { result ≡ is_number_byte b }
{
    is_name_byte(b) || b == b'\''
}

#[tactic(auto, unfolding(crate::specs::Ascii::is_hex_digit))]
fn is_hex_digit(b: u8) -> bool
    ensures { result ≡ is_hex_digit b }
{
    within(b, b'0', b'9') || within(b, b'a', b'f') || within(b, b'A', b'F')
}

pub fn is_digit(radix: Radix, b: u8) -> bool
    ensures { result ≡ is_digit radix b }
{
    match radix {
        Radix::Binary => within(b, b'0', b'1'),
        Radix::Decimal => within(b, b'0', b'9'),
        Radix::Hex => is_hex_digit(b),
    }
}

#[tactic(auto, unfolding(crate::specs::Ascii::is_spaced_digit))]
fn is_spaced_digit(radix: Radix, b: u8) -> bool
    ensures { result ≡ is_spaced_digit radix b }
{
    is_digit(radix, b) || b == b'_'
}

fn in_class(class: Class, b: u8) -> bool
    ensures { result ≡ in_class class b }
{
    match class {
        Class::Name => is_name_byte(b),
        Class::Number => is_number_byte(b),
        Class::Digits(radix) => is_digit(radix, b),
        Class::Spaced(radix) => is_spaced_digit(radix, b),
    }
}

// The place past the run of bytes of a class that starts at `at`.
pub fn run_end(text: &[u8], at: usize, class: Class) -> usize
    ensures { result ≡ run_end (in_class class) text.now at }
{
    for i in at..text.len() {
        if !in_class(class, text[i]) {
            return i;
        }
    }
    at.max(text.len())
}

// Whether all bytes from `at` on are in a class.
pub fn all_in(text: &[u8], at: usize, class: Class) -> bool
    ensures { result ≡ every (in_class class) (drop at text.now) }
{
    run_end(text, at, class) >= text.len()
}

// Whether two slices hold the same bytes.
pub fn same(a: &[u8], b: &[u8]) -> bool
    ensures { result ≡ same_bytes a.now b.now }
{
    a == b
}

// The byte at `i`, and 0 past the end.
pub fn byte_at(text: &[u8], i: usize) -> u8
    ensures { result ≡ get_or text.now i 0 }
{
    if i < text.len() { text[i] } else { 0 }
}
