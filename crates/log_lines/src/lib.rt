// The lines of a log of accesses. A line is read byte by byte, with nothing kept but where it stands and its numbers so far, so that it
// may be cut anywhere and be of any length.
#![tactic(auto)]

ghost use Rattle.std.specs.Prelude.{◌≡◌};
ghost use Rattle.lines.specs.Sinks.{Pours};
ghost use Rattle.log_lines.specs.Log.{fresh, counted, calling, letter_at, is_last, expected_in_word, expected_behind, expected_next, onward, broken, begun, with_letter, with_value, with_whole, with_digit, behind_number, with_next, with_first, behind_zero, with_first_hex, with_byte, access_of, cut_short, ended_number, ended};
ghost use Rattle.log_lines.specs.Text.{blank_hex, call_text, access_text, expected_text};

use chars::Radix;
use fields::Offset;
use lines::Sink;
use model::Access;

// What stands where a line cannot go on.
#[derive(Clone, Copy)]
pub enum Expected {
    Line,
    ReadWord,
    WriteWord,
    Blank,
    Number,
    HexDigit,
    DigitOrBlank,
    DigitOrEnd,
    FewerBits,
    End,
}

// How far a line is read.
#[derive(Clone, Copy)]
pub enum Stage {
    // nothing of it
    Start,
    // a `#` and what follows it
    Comment,
    // so many bytes of `read ` or `write `
    Word(u64),
    // all before a number
    Number,
    // a number's first digit, a 0
    Zero,
    // a number's `0x`
    Prefix,
    // digits of a number
    Digits(Radix),
    // a CR, and nothing before it
    EmptyEnd,
    // an access, and a CR
    AccessEnd,
    // a byte that no line has there
    Broken(Expected),
}

// An access as far as it is read: whether it is a write, how many of its numbers are whole, the last two of these, and the number that is
// being read.
#[derive(Clone, Copy)]
pub struct Call {
    pub writes: bool,
    pub whole: u64,
    pub earlier: u64,
    pub last: u64,
    pub value: u64,
}

// A line as far as it is read: how far, how many bytes, and its access.
#[derive(Clone, Copy)]
pub struct Line {
    pub stage: Stage,
    pub column: u64,
    pub call: Call,
}

// What a line is: none that counts, an access, or none at all, with the column where it goes wrong and what was expected there.
#[derive(Clone, Copy)]
pub enum LogLine {
    Skipped,
    Made(Access),
    Malformed(u64, Expected),
}

// One more, as far as 64 bits go.
#[tactic(auto, unfolding(crate::specs::Log::counted))]
pub fn counted(n: u64) -> u64
    ensures { result ≡ counted n }
{
    n.saturating_add(1)
}

// An access of which nothing but the word is read.
fn calling(writes: bool) -> Call
    ensures { result ≡ calling writes }
{
    Call {
        writes,
        whole: 0,
        earlier: 0,
        last: 0,
        value: 0,
    }
}

// A line of which nothing is read.
pub fn fresh() -> Line
    ensures { result ≡ fresh }
{
    Line {
        stage: Stage::Start,
        column: 0,
        call: calling(false),
    }
}

// The byte that is due in the word of an access, or 0 behind it.
#[tactic(auto, unfolding(crate::specs::Log::letter_at))]
fn letter_at(writes: bool, letters: u64) -> u8
    ensures { result ≡ letter_at writes letters }
{
    if writes {
        chars::byte_at(b"write ", letters as usize)
    } else {
        chars::byte_at(b"read ", letters as usize)
    }
}

// Whether the number that is being read is the access's last.
#[tactic(auto, unfolding(crate::specs::Log::is_last))]
fn is_last(call: Call) -> bool
    ensures { result ≡ is_last call }
{
    call.whole == if call.writes { 2 } else { 1 }
}

// What is due in the word of an access.
#[tactic(auto, unfolding(crate::specs::Log::expected_in_word))]
fn expected_in_word(call: Call, letters: u64) -> Expected
    ensures { result ≡ expected_in_word call letters }
{
    if letter_at(call.writes, letters) == b' ' {
        Expected::Blank
    } else if call.writes {
        Expected::WriteWord
    } else {
        Expected::ReadWord
    }
}

// What is due behind a digit.
#[tactic(auto, unfolding(crate::specs::Log::expected_behind))]
fn expected_behind(call: Call) -> Expected
    ensures { result ≡ expected_behind call }
{
    if is_last(call) {
        Expected::DigitOrEnd
    } else {
        Expected::DigitOrBlank
    }
}

// What a line may go on with.
fn expected_next(line: Line) -> Expected
    ensures { result ≡ expected_next line }
{
    match line.stage {
        Stage::Start | Stage::Comment => Expected::Line,
        Stage::Word(letters) => expected_in_word(line.call, letters),
        Stage::Number => Expected::Number,
        Stage::Zero | Stage::Digits(_) => expected_behind(line.call),
        Stage::Prefix => Expected::HexDigit,
        Stage::EmptyEnd | Stage::AccessEnd => Expected::End,
        Stage::Broken(due) => due,
    }
}

// The line, a byte further.
#[tactic(auto, unfolding(crate::specs::Log::onward))]
fn onward(line: Line, stage: Stage, call: Call) -> Line
    ensures { result ≡ onward line stage call }
{
    Line {
        stage,
        column: counted(line.column),
        call,
    }
}

// The line with a byte that no line has there.
#[tactic(auto, unfolding(crate::specs::Log::broken))]
fn broken(line: Line) -> Line
    ensures { result ≡ broken line }
{
    onward(line, Stage::Broken(expected_next(line)), line.call)
}

// A line's first byte.
#[tactic(auto, unfolding(crate::specs::Log::begun))]
fn begun(line: Line, byte: u8) -> Line
    ensures { result ≡ begun line byte }
{
    match byte {
        b'#' => onward(line, Stage::Comment, line.call),
        b'r' => onward(line, Stage::Word(1), calling(false)),
        b'w' => onward(line, Stage::Word(1), calling(true)),
        b'\r' => onward(line, Stage::EmptyEnd, line.call),
        _ => broken(line),
    }
}

// A byte of the word of an access, behind so many others; the word's last is a blank.
#[tactic(auto, unfolding(crate::specs::Log::with_letter))]
fn with_letter(line: Line, letters: u64, byte: u8) -> Line
    ensures { result ≡ with_letter line letters byte }
{
    if byte != letter_at(line.call.writes, letters) {
        broken(line)
    } else if byte == b' ' {
        onward(line, Stage::Number, line.call)
    } else {
        onward(line, Stage::Word(counted(letters)), line.call)
    }
}

// The access with a number so far.
fn with_value(call: Call, value: u64) -> Call
    ensures { result ≡ with_value call value }
{
    Call { value, ..call }
}

// The access with its number whole, and the next to come.
fn with_whole(call: Call) -> Call
    ensures { result ≡ with_whole call }
{
    Call {
        whole: counted(call.whole),
        earlier: call.last,
        last: call.value,
        value: 0,
        ..call
    }
}

// A digit of a number.
#[tactic(auto, unfolding(crate::specs::Log::with_digit))]
fn with_digit(line: Line, radix: Radix, byte: u8) -> Line
    ensures { result ≡ with_digit line radix byte }
{
    let call = line.call;
    match numbers::next_value(call.value, numbers::base_of(radix), byte) {
        Ok(value) => onward(line, Stage::Digits(radix), with_value(call, value)),
        Err(_) => onward(line, Stage::Broken(Expected::FewerBits), call),
    }
}

// A byte behind a number: a blank where another follows, or a CR.
#[tactic(auto, unfolding(crate::specs::Log::behind_number))]
fn behind_number(line: Line, byte: u8) -> Line
    ensures { result ≡ behind_number line byte }
{
    let last = is_last(line.call);
    if last && byte == b'\r' {
        onward(line, Stage::AccessEnd, line.call)
    } else if !last && byte == b' ' {
        onward(line, Stage::Number, with_whole(line.call))
    } else {
        broken(line)
    }
}

// A byte behind a number's digits.
#[tactic(auto, unfolding(crate::specs::Log::with_next))]
fn with_next(line: Line, radix: Radix, byte: u8) -> Line
    ensures { result ≡ with_next line radix byte }
{
    if chars::is_digit(radix, byte) {
        with_digit(line, radix, byte)
    } else {
        behind_number(line, byte)
    }
}

// A number's first byte.
#[tactic(auto, unfolding(crate::specs::Log::with_first))]
fn with_first(line: Line, byte: u8) -> Line
    ensures { result ≡ with_first line byte }
{
    if byte == b'0' {
        onward(line, Stage::Zero, line.call)
    } else if chars::is_digit(Radix::Decimal, byte) {
        with_digit(line, Radix::Decimal, byte)
    } else {
        broken(line)
    }
}

// A byte behind a number's first 0.
#[tactic(auto, unfolding(crate::specs::Log::behind_zero))]
fn behind_zero(line: Line, byte: u8) -> Line
    ensures { result ≡ behind_zero line byte }
{
    match byte {
        b'x' | b'X' => onward(line, Stage::Prefix, line.call),
        _ => with_next(line, Radix::Decimal, byte),
    }
}

// A byte behind a number's `0x`.
#[tactic(auto, unfolding(crate::specs::Log::with_first_hex))]
fn with_first_hex(line: Line, byte: u8) -> Line
    ensures { result ≡ with_first_hex line byte }
{
    if chars::is_digit(Radix::Hex, byte) {
        with_digit(line, Radix::Hex, byte)
    } else {
        broken(line)
    }
}

// The line with one byte more, which is no LF.
pub fn with_byte(line: Line, byte: u8) -> Line
    ensures { result ≡ with_byte line byte }
{
    match line.stage {
        Stage::Start => begun(line, byte),
        Stage::Comment | Stage::Broken(_) => line,
        Stage::Word(letters) => with_letter(line, letters, byte),
        Stage::Number => with_first(line, byte),
        Stage::Zero => behind_zero(line, byte),
        Stage::Prefix => with_first_hex(line, byte),
        Stage::Digits(radix) => with_next(line, radix, byte),
        Stage::EmptyEnd | Stage::AccessEnd => broken(line),
    }
}

// The access whose last number is whole.
fn access_of(call: Call) -> Access
    ensures { result ≡ access_of call }
{
    if call.writes {
        Access::Write {
            address: Offset(call.last),
            width: call.earlier,
            word: call.value,
        }
    } else {
        Access::Read {
            address: Offset(call.value),
            width: call.last,
        }
    }
}

// A line that ends where something else was expected.
#[tactic(auto, unfolding(crate::specs::Log::cut_short))]
fn cut_short(line: Line) -> LogLine
    ensures { result ≡ cut_short line }
{
    LogLine::Malformed(counted(line.column), expected_next(line))
}

// A line that ends behind a digit.
#[tactic(auto, unfolding(crate::specs::Log::ended_number))]
fn ended_number(line: Line) -> LogLine
    ensures { result ≡ ended_number line }
{
    if is_last(line.call) {
        LogLine::Made(access_of(line.call))
    } else {
        cut_short(line)
    }
}

// What a line is that ends here.
pub fn ended(line: Line) -> LogLine
    ensures { result ≡ ended line }
{
    match line.stage {
        Stage::Start | Stage::Comment | Stage::EmptyEnd => LogLine::Skipped,
        Stage::Word(_) | Stage::Number | Stage::Prefix => cut_short(line),
        Stage::Zero | Stage::Digits(_) => ended_number(line),
        Stage::AccessEnd => LogLine::Made(access_of(line.call)),
        Stage::Broken(due) => LogLine::Malformed(line.column, due),
    }
}

// A blank, and a number in hex.
#[tactic(auto, unfolding(crate::specs::Text::blank_hex, lines::specs::Sinks::poured, lines::specs::Sinks::filled))]
fn put_blank_hex(out: &mut [u8], room: usize, start: Sink, n: u64) -> Sink
    ensures { Pours room out.old out.new start (blank_hex n) result }
{
    let sink = lines::put_bytes(out, room, start, b" ");
    lines::put_hex(out, room, sink, n)
}

// A word, a width and an address.
#[tactic(auto, using(lines::proofs::Pouring::appends), unfolding(crate::specs::Text::call_text))]
fn put_call(
    out: &mut [u8],
    room: usize,
    start: Sink,
    word: &[u8],
    width: u64,
    address: Offset,
) -> Sink
    ensures { Pours room out.old out.new start (call_text word.now width address) result }
{
    let mut sink = lines::put_bytes(out, room, start, word);
    sink = lines::put_decimal(out, room, sink, width);
    put_blank_hex(out, room, sink, address.0)
}

// An access as a log has it.
#[tactic(auto, using(lines::proofs::Pouring::appends))]
pub fn put_access(out: &mut [u8], room: usize, start: Sink, access: Access) -> Sink
    ensures { Pours room out.old out.new start (access_text access) result }
{
    match access {
        Access::Read { address, width } => put_call(out, room, start, b"read ", width, address),
        Access::Write {
            address,
            width,
            word,
        } => {
            let sink = put_call(out, room, start, b"write ", width, address);
            put_blank_hex(out, room, sink, word)
        }
    }
}

// What was expected, in words.
pub fn put_expected(out: &mut [u8], room: usize, sink: Sink, expected: Expected) -> Sink
    ensures { Pours room out.old out.new sink (expected_text expected) result }
{
    match expected {
        Expected::Line => {
            lines::put_bytes(out, room, sink, b"read, write, # or the end of the line")
        }
        Expected::ReadWord => lines::put_bytes(out, room, sink, b"the word read"),
        Expected::WriteWord => lines::put_bytes(out, room, sink, b"the word write"),
        Expected::Blank => lines::put_bytes(out, room, sink, b"a blank"),
        Expected::Number => lines::put_bytes(out, room, sink, b"a number"),
        Expected::HexDigit => lines::put_bytes(out, room, sink, b"a hex digit"),
        Expected::DigitOrBlank => lines::put_bytes(out, room, sink, b"a digit or a blank"),
        Expected::DigitOrEnd => lines::put_bytes(
            out,
            room,
            sink,
            b"a digit or the end of the line",
        ),
        Expected::FewerBits => lines::put_bytes(out, room, sink, b"a number of at most 64 bits"),
        Expected::End => lines::put_bytes(out, room, sink, b"the end of the line"),
    }
}
