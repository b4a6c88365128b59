// Bytes poured into an output as far as there is room: numbers, words and lines of a listing.
#![tactic(auto)]

ghost use Rattle.std.specs.Prelude.{◌≡◌, [], ◌∷◌, ◌≤◌, ◌<◌};
ghost use Rattle.chars.specs.Ascii.{bytes};
ghost use Rattle.lines.specs.Text.{digit_byte, digits, decimal, hex, access_word, read_word, write_word, reset_text, line, bits_text, value_lines};
ghost use Rattle.lines.specs.Sinks.{Pours};

use fields::{FieldAt, FieldType, Offset};

// How many bytes were poured into an output, and whether more were than it has room for.
#[derive(Clone, Copy)]
pub struct Sink {
    pub at: usize,
    pub full: bool,
}

// Pours a byte: into the output as far as it goes, and nowhere past the room.
#[tactic(auto, unfolding(crate::specs::Sinks::behind, crate::specs::Sinks::poured, crate::specs::Sinks::with_byte, crate::specs::Sinks::filled))]
pub fn put_byte(out: &mut [u8], room: usize, sink: Sink, byte: u8) -> Sink
    ensures { Pours room out.old out.new sink (byte ∷ []) result }
{
    let at = sink.at;
    if sink.full || room <= at {
        return Sink { at, full: true };
    }
    if at < out.len() {
        out[at] = byte;
    }
    Sink {
        at: at + 1,
        full: false,
    }
}

pub fn put_bytes(out: &mut [u8], room: usize, start: Sink, text: &[u8]) -> Sink
    ensures { Pours room out.old out.new start text.now result }
{
    let mut sink = start;
    for byte in text {
        sink = put_byte(out, room, sink, *byte);
    }
    sink
}

#[tactic(auto, unfolding(crate::specs::Text::digit_byte))]
fn digit_byte(digit: u64) -> u8
    requires { digit < 16 }
    ensures { result ≡ digit_byte digit }
{
    if digit < 10 {
        b'0' + digit as u8
    } else {
        b'a' + (digit - 10) as u8
    }
}

// Pours the digits of a number, the highest first.
#[tactic(auto, using(crate::proofs::Pouring::appends), unfolding(crate::specs::Text::digits))]
fn put_digits(out: &mut [u8], room: usize, start: Sink, base: u64, left: u64, n: u64) -> Sink
    requires { (2 ≤ base) × (base ≤ 16) }
    ensures { Pours room out.old out.new start (digits base left n) result }
{
    let digit = digit_byte(n % base);
    if left == 0 || n < base {
        return put_byte(out, room, start, digit);
    }
    let sink = put_digits(out, room, start, base, left - 1, n / base);
    put_byte(out, room, sink, digit)
}

pub fn put_decimal(out: &mut [u8], room: usize, sink: Sink, n: u64) -> Sink
    ensures { Pours room out.old out.new sink (decimal n) result }
{
    put_digits(out, room, sink, 10, 19, n)
}

#[tactic(auto, unfolding(crate::specs::Sinks::poured, crate::specs::Sinks::filled))]
pub fn put_hex(out: &mut [u8], room: usize, start: Sink, n: u64) -> Sink
    ensures { Pours room out.old out.new start (hex n) result }
{
    let sink = put_bytes(out, room, start, b"0x");
    put_digits(out, room, sink, 16, 15, n)
}

#[tactic(auto, unfolding(crate::specs::Text::access_word))]
fn put_access(out: &mut [u8], room: usize, sink: Sink, code: u64) -> Sink
    ensures { Pours room out.old out.new sink (access_word code) result }
{
    match code {
        0 => put_bytes(out, room, sink, b"na"),
        1 => put_bytes(out, room, sink, b"r"),
        2 => put_bytes(out, room, sink, b"w"),
        _ => put_bytes(out, room, sink, b"rw"),
    }
}

#[tactic(auto, unfolding(crate::specs::Text::read_word))]
fn put_read_effect(out: &mut [u8], room: usize, sink: Sink, code: u64) -> Sink
    ensures { Pours room out.old out.new sink (read_word code) result }
{
    match code {
        0 => put_bytes(out, room, sink, b"none"),
        1 => put_bytes(out, room, sink, b"rclr"),
        _ => put_bytes(out, room, sink, b"rset"),
    }
}

#[tactic(auto, unfolding(crate::specs::Text::write_word, crate::specs::Text::on_one_word, crate::specs::Text::on_zero_word))]
fn put_write_effect(out: &mut [u8], room: usize, sink: Sink, code: u64) -> Sink
    ensures { Pours room out.old out.new sink (write_word code) result }
{
    match code {
        0 => put_bytes(out, room, sink, b"none"),
        1 => put_bytes(out, room, sink, b"woset"),
        2 => put_bytes(out, room, sink, b"woclr"),
        3 => put_bytes(out, room, sink, b"wot"),
        4 => put_bytes(out, room, sink, b"wzs"),
        5 => put_bytes(out, room, sink, b"wzc"),
        6 => put_bytes(out, room, sink, b"wzt"),
        7 => put_bytes(out, room, sink, b"wclr"),
        _ => put_bytes(out, room, sink, b"wset"),
    }
}

fn put_reset(out: &mut [u8], room: usize, sink: Sink, reset: Option<u64>) -> Sink
    ensures { Pours room out.old out.new sink (reset_text reset) result }
{
    match reset {
        None => put_bytes(out, room, sink, b"none"),
        Some(n) => put_hex(out, room, sink, n),
    }
}

pub fn put_line_end(out: &mut [u8], room: usize, sink: Sink) -> Sink
    ensures { Pours room out.old out.new sink (10 ∷ []) result }
{
    put_byte(out, room, sink, b'\n')
}

#[tactic(auto, using(crate::proofs::Lines::parts))]
pub fn put_decimal_line(out: &mut [u8], room: usize, start: Sink, key: &[u8], n: u64) -> Sink
    ensures { Pours room out.old out.new start (line key.now (decimal n)) result }
{
    let mut sink = put_bytes(out, room, start, key);
    sink = put_decimal(out, room, sink, n);
    put_line_end(out, room, sink)
}

#[tactic(auto, using(crate::proofs::Lines::parts))]
pub fn put_address_line(out: &mut [u8], room: usize, start: Sink, address: Offset) -> Sink
    ensures { Pours room out.old out.new start (line (bytes "at=") (hex address.0)) result }
{
    let mut sink = put_bytes(out, room, start, b"at=");
    sink = put_hex(out, room, sink, address.0);
    put_line_end(out, room, sink)
}

#[tactic(auto, using(crate::proofs::Lines::parts))]
pub fn put_bits_line(out: &mut [u8], room: usize, start: Sink, field: FieldAt) -> Sink
    ensures { Pours room out.old out.new start (line (bytes "bits=") (bits_text field)) result }
{
    let mut sink = put_bytes(out, room, start, b"bits=");
    sink = put_decimal(out, room, sink, field.high.0);
    sink = put_bytes(out, room, sink, b":");
    sink = put_decimal(out, room, sink, field.low.0);
    put_line_end(out, room, sink)
}

#[tactic(auto, using(crate::proofs::Lines::parts))]
fn put_access_line(out: &mut [u8], room: usize, start: Sink, key: &[u8], code: u64) -> Sink
    ensures { Pours room out.old out.new start (line key.now (access_word code)) result }
{
    let mut sink = put_bytes(out, room, start, key);
    sink = put_access(out, room, sink, code);
    put_line_end(out, room, sink)
}

#[tactic(auto, using(crate::proofs::Lines::parts))]
fn put_read_line(out: &mut [u8], room: usize, start: Sink, code: u64) -> Sink
    ensures { Pours room out.old out.new start (line (bytes "onread=") (read_word code)) result }
{
    let mut sink = put_bytes(out, room, start, b"onread=");
    sink = put_read_effect(out, room, sink, code);
    put_line_end(out, room, sink)
}

#[tactic(auto, using(crate::proofs::Lines::parts))]
fn put_write_line(out: &mut [u8], room: usize, start: Sink, code: u64) -> Sink
    ensures { Pours room out.old out.new start (line (bytes "onwrite=") (write_word code)) result }
{
    let mut sink = put_bytes(out, room, start, b"onwrite=");
    sink = put_write_effect(out, room, sink, code);
    put_line_end(out, room, sink)
}

#[tactic(auto, using(crate::proofs::Lines::parts))]
fn put_reset_line(out: &mut [u8], room: usize, start: Sink, reset: Option<u64>) -> Sink
    ensures { Pours room out.old out.new start (line (bytes "reset=") (reset_text reset)) result }
{
    let mut sink = put_bytes(out, room, start, b"reset=");
    sink = put_reset(out, room, sink, reset);
    put_line_end(out, room, sink)
}

// The lines of a field's access, effects and reset.
#[tactic(auto, using(crate::proofs::Pouring::appends), unfolding(crate::specs::Text::value_lines))]
pub fn put_value_lines(out: &mut [u8], room: usize, start: Sink, values: FieldType) -> Sink
    ensures { Pours room out.old out.new start (value_lines values) result }
{
    let reset = values.reset;
    let mut sink = put_access_line(out, room, start, b"sw=", values.sw);
    sink = put_access_line(out, room, sink, b"hw=", values.hw);
    sink = put_read_line(out, room, sink, values.onread);
    sink = put_write_line(out, room, sink, values.onwrite);
    put_reset_line(out, room, sink, reset)
}
