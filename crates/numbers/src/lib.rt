// Numbers: what the bytes of a number are worth, or why they are no number.
#![tactic(auto)]

ghost use Rattle.std.specs.Prelude.{◌≡◌, ◌≤◌, drop};
ghost use Rattle.numbers.specs.Number.{digit_value, next_value, value, fitting, base_of, radix_of, plain_digits, spaced_digits, width_of, sized_number, sized_at, hex_prefixed, hex_number, number_of};

use chars::{Class, Radix};

// Why bytes are no number: they are malformed, or too wide for 64 bits or for their width.
#[derive(Clone, Copy, PartialEq, Eq)]
pub enum BadNumber {
    Malformed,
    TooWide,
}

fn digit_value(b: u8) -> u64
    ensures { result ≡ digit_value b }
{
    if chars::within(b, b'0', b'9') {
        return u64::from(b - b'0');
    }
    if chars::within(b, b'a', b'f') {
        return u64::from(b - b'a') + 10;
    }
    if chars::within(b, b'A', b'F') {
        return u64::from(b - b'A') + 10;
    }
    0
}

// The value of digits of the value `value` with one more byte, an underscore or a digit.
pub fn next_value(value: u64, base: u64, b: u8) -> Result<u64, BadNumber>
    requires { (1 ≤ base) × (base ≤ 16) }
    ensures { result ≡ fitting 64 (next_value base value b) }
{
    if b == b'_' {
        return Ok(value);
    }
    let d = digit_value(b);
    if value > (0xffff_ffff_ffff_ffff - d) / base {
        return Err(BadNumber::TooWide);
    }
    Ok(value * base + d)
}

// The value of the digits from `at` on.
fn value_of(part: &[u8], at: usize, base: u64) -> Result<u64, BadNumber>
    requires { (1 ≤ base) × (base ≤ 16) }
    ensures { result ≡ fitting 64 (value base (drop at part.now)) }
{
    let mut value: u64 = 0;
    for i in at..part.len() {
        value = next_value(value, base, part[i])?;
    }
    Ok(value)
}

pub fn base_of(radix: Radix) -> u64
    ensures { (result ≡ base_of radix) × (1 ≤ result) × (result ≤ 16) }
{
    match radix {
        Radix::Binary => 2,
        Radix::Decimal => 10,
        Radix::Hex => 16,
    }
}

#[tactic(auto, unfolding(crate::specs::Number::radix_of))]
fn radix_of(letter: u8) -> Option<Radix>
    ensures { result ≡ radix_of letter }
{
    match letter {
        b'b' => Some(Radix::Binary),
        b'd' => Some(Radix::Decimal),
        b'h' => Some(Radix::Hex),
        _ => None,
    }
}

// Whether one digit or more and nothing else stands from `at` on.
fn plain_digits(part: &[u8], at: usize, radix: Radix) -> bool
    ensures { result ≡ plain_digits radix (drop at part.now) }
{
    if at >= part.len() {
        return false;
    }
    chars::all_in(part, at, Class::Digits(radix))
}

// The same with underscores after the first digit.
fn spaced_digits(part: &[u8], at: usize, radix: Radix) -> bool
    ensures { result ≡ spaced_digits radix (drop at part.now) }
{
    if at >= part.len() {
        return false;
    }
    if !chars::is_digit(radix, part[at]) {
        return false;
    }
    chars::all_in(part, at + 1, Class::Spaced(radix))
}

// A value of 64 bits that has to fit some bits.
fn fit(value: u64, bits: u64) -> Result<u64, BadNumber>
    ensures { result ≡ fitting bits value }
{
    if bits >= 64 {
        return Ok(value);
    }
    if value < 1u64 << bits {
        return Ok(value);
    }
    Err(BadNumber::TooWide)
}

// The value of the digits from `at` on, which has to fit some bits.
fn fitting_value(part: &[u8], at: usize, base: u64, bits: u64) -> Result<u64, BadNumber>
    requires { (1 ≤ base) × (base ≤ 16) × (bits ≤ 64) }
    ensures { result ≡ fitting bits (value base (drop at part.now)) }
{
    fit(value_of(part, at, base)?, bits)
}

// The width that the digits of `digits` give: 1 to 64, or 0 for none.
fn width_of(digits: &[u8]) -> u64
    ensures { (result ≡ width_of digits.now) × (result ≤ 64) }
{
    match value_of(digits, 0, 10) {
        Err(_) => 0,
        Ok(width) => {
            if width > 64 {
                return 0;
            }
            width
        }
    }
}

// The number of a width and of the digits from `at` on.
fn sized_number(width: u64, radix: Option<Radix>, part: &[u8], at: usize) -> Result<u64, BadNumber>
    requires { width ≤ 64 }
    ensures { result ≡ sized_number width radix (drop at part.now) }
{
    let Some(known) = radix else {
        return Err(BadNumber::Malformed);
    };
    if width == 0 {
        return Err(BadNumber::Malformed);
    }
    if !spaced_digits(part, at, known) {
        return Err(BadNumber::Malformed);
    }
    fitting_value(part, at, base_of(known), width)
}

// A number whose width ends at `quote`.
fn sized_at(part: &[u8], quote: usize) -> Result<u64, BadNumber>
    ensures { result ≡ sized_at part.now quote }
{
    if quote >= part.len() {
        return Err(BadNumber::Malformed);
    }
    if part[quote] != b'\'' {
        return Err(BadNumber::Malformed);
    }
    let letter = quote + 1;
    if letter >= part.len() {
        return Err(BadNumber::Malformed);
    }
    sized_number(
        width_of(&part[0..quote]),
        radix_of(part[letter]),
        part,
        letter + 1,
    )
}

#[tactic(auto, unfolding(crate::specs::Number::hex_prefixed))]
fn hex_prefixed(part: &[u8]) -> bool
    ensures { result ≡ hex_prefixed part.now }
{
    let letter = chars::byte_at(part, 1);
    chars::byte_at(part, 0) == b'0' && (letter == b'x' || letter == b'X')
}

fn hex_number(part: &[u8]) -> Result<u64, BadNumber>
    ensures { result ≡ hex_number (drop 2 part.now) }
{
    if plain_digits(part, 2, Radix::Hex) {
        return fitting_value(part, 2, 16, 64);
    }
    Err(BadNumber::Malformed)
}

// The number that the bytes are.
pub fn number_of(part: &[u8]) -> Result<u64, BadNumber>
    ensures { result ≡ number_of part.now }
{
    if plain_digits(part, 0, Radix::Decimal) {
        return fitting_value(part, 0, 10, 64);
    }
    if hex_prefixed(part) {
        return hex_number(part);
    }
    sized_at(part, chars::run_end(part, 0, Class::Digits(Radix::Decimal)))
}
