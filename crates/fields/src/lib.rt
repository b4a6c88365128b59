// A field and a register by their values: access, effects, bits and widths; the codes of the words; the tests of the rules 12 to 17.
#![tactic(auto)]

ghost use Rattle.std.specs.Prelude.{◌≡◌, ◌&&◌, not, ◌<◌, ◌^◌, leb, ltb, eqb};
ghost use Rattle.fields.specs.Codes.{access_code, read_code, write_code, mode_code, is_width};
ghost use Rattle.fields.specs.Fields.{standard_register, is_readable, is_writable, has_unusable_effect, is_wide, is_reset_wide, is_read_write_pair, is_overlap, is_changed_by_access, spans_parts, breaks};

// `sw` and `hw`; `wr` is `rw`.
#[derive(Clone, Copy, PartialEq, Eq)]
pub enum AccessRight {
    Na,
    R,
    W,
    Rw,
}

// `onread`.
#[derive(Clone, Copy, PartialEq, Eq)]
pub enum ReadEffect {
    Kept,
    Rclr,
    Rset,
}

// `onwrite`.
#[derive(Clone, Copy, PartialEq, Eq)]
pub enum WriteEffect {
    Plain,
    Woset,
    Woclr,
    Wot,
    Wzs,
    Wzc,
    Wzt,
    Wclr,
    Wset,
}

// `addressing`.
#[derive(Clone, Copy, PartialEq, Eq)]
pub enum Mode {
    Compact,
    Regalign,
    Fullalign,
}

// A bit's place in a register.
#[derive(Clone, Copy, PartialEq, Eq)]
pub struct BitPlace(pub u64);

// A byte's offset in an address map or regfile. It is never mixed with a bit's place.
#[derive(Clone, Copy, PartialEq, Eq)]
pub struct Offset(pub u64);

// A field's access and effects, as the numbers of the words, and its reset.
#[derive(Clone, Copy, PartialEq, Eq)]
pub struct FieldType {
    pub sw: u64,
    pub hw: u64,
    pub onread: u64,
    pub onwrite: u64,
    pub reset: Option<u64>,
}

// The widths of a register, in bits.
#[derive(Clone, Copy, PartialEq, Eq)]
pub struct Register {
    pub width: u64,
    pub access: u64,
}

// A field of a register.
#[derive(Clone, Copy, PartialEq, Eq)]
pub struct FieldAt {
    pub low: BitPlace,
    pub high: BitPlace,
    pub values: FieldType,
}

// What a field of a register may be asked: whether its reset is too wide, whether it lies outside a width, whether it overlaps another
// unlawfully, whether it spans access parts.
#[derive(Clone, Copy, PartialEq, Eq)]
pub enum Probe {
    Wide,
    Outside(u64),
    Overlap(FieldAt),
    Span(u64),
}

impl Register {
    // The standard's width.
    pub const STANDARD_WIDTH: u64 = 32;

    // A register of which no width is set.
    pub fn fresh() -> Register
        ensures { result ≡ standard_register }
    {
        Register {
            width: Register::STANDARD_WIDTH,
            access: Register::STANDARD_WIDTH,
        }
    }
}

// The numbers that stand for the words.
pub fn access_code(access: AccessRight) -> u64
    ensures { result ≡ access_code access }
{
    match access {
        AccessRight::Na => 0,
        AccessRight::R => 1,
        AccessRight::W => 2,
        AccessRight::Rw => 3,
    }
}

pub fn read_code(effect: ReadEffect) -> u64
    ensures { result ≡ read_code effect }
{
    match effect {
        ReadEffect::Kept => 0,
        ReadEffect::Rclr => 1,
        ReadEffect::Rset => 2,
    }
}

pub fn write_code(effect: WriteEffect) -> u64
    ensures { result ≡ write_code effect }
{
    match effect {
        WriteEffect::Plain => 0,
        WriteEffect::Woset => 1,
        WriteEffect::Woclr => 2,
        WriteEffect::Wot => 3,
        WriteEffect::Wzs => 4,
        WriteEffect::Wzc => 5,
        WriteEffect::Wzt => 6,
        WriteEffect::Wclr => 7,
        WriteEffect::Wset => 8,
    }
}

pub fn mode_code(mode: Mode) -> u64
    ensures { result ≡ mode_code mode }
{
    match mode {
        Mode::Compact => 0,
        Mode::Regalign => 1,
        Mode::Fullalign => 2,
    }
}

// "8, 16, 32, 64"
#[tactic(auto, unfolding(crate::specs::Codes::is_width))]
pub fn is_width(n: u64) -> bool
    ensures { result ≡ is_width n }
{
    n == 8 || n == 16 || n == 32 || n == 64
}

#[tactic(auto, unfolding(crate::specs::Fields::is_readable))]
pub fn is_readable(field: FieldType) -> bool
    ensures { result ≡ is_readable field }
{
    field.sw == access_code(AccessRight::R) || field.sw == access_code(AccessRight::Rw)
}

#[tactic(auto, unfolding(crate::specs::Fields::is_writable))]
pub fn is_writable(field: FieldType) -> bool
    ensures { result ≡ is_writable field }
{
    field.sw == access_code(AccessRight::W) || field.sw == access_code(AccessRight::Rw)
}

// Whether there is an effect, and no way to have it.
fn is_unusable(effect: u64, usable: bool) -> bool
    ensures { result ≡ (ltb 0 effect && not usable) }
{
    0 < effect && !usable
}

// 12: an effect on reading that cannot be read, or on writing that cannot be written.
#[tactic(auto, unfolding(crate::specs::Fields::has_unusable_effect))]
pub fn has_unusable_effect(field: FieldType) -> bool
    ensures { result ≡ has_unusable_effect field }
{
    is_unusable(field.onread, is_readable(field)) || is_unusable(field.onwrite, is_writable(field))
}

// Whether a number needs more bits.
pub fn needs_more(value: u64, bits: u64) -> bool
    ensures { result ≡ leb (2 ^ bits) value }
{
    if bits >= 64 {
        return false;
    }
    1u64 << bits <= value
}

fn is_wide(reset: Option<u64>, width: u64) -> bool
    ensures { result ≡ is_wide reset width }
{
    match reset {
        None => false,
        Some(value) => needs_more(value, width),
    }
}

#[tactic(auto, unfolding(crate::specs::Fields::is_reset_wide))]
fn is_reset_wide(field: FieldAt) -> bool
    requires { field.high.0 < 18446744073709551615 }
    ensures { result ≡ is_reset_wide field }
{
    let past = field.high.0 + 1;
    is_wide(field.values.reset, past.saturating_sub(field.low.0))
}

// Whether the first is read-only and the second write-only.
fn is_read_write(a: u64, b: u64) -> bool
    ensures { result ≡ (eqb a (access_code AccessRight.R) && eqb b (access_code AccessRight.W)) }
{
    a == access_code(AccessRight::R) && b == access_code(AccessRight::W)
}

// Whether one access is read-only and the other write-only.
#[tactic(auto, unfolding(crate::specs::Fields::is_read_write_pair))]
pub fn is_pair(a: u64, b: u64) -> bool
    ensures { result ≡ is_read_write_pair a b }
{
    is_read_write(a, b) || is_read_write(b, a)
}

// Whether two fields share a bit.
fn share_bit(f: FieldAt, g: FieldAt) -> bool
    ensures { result ≡ (leb f.low.0 g.high.0 && leb g.low.0 f.high.0) }
{
    f.low.0 <= g.high.0 && g.low.0 <= f.high.0
}

#[tactic(auto, unfolding(crate::specs::Fields::is_overlap))]
fn is_overlap(f: FieldAt, g: FieldAt) -> bool
    ensures { result ≡ is_overlap f g }
{
    share_bit(f, g) && !is_pair(f.values.sw, g.values.sw)
}

// Whether software changes a field, by a write or by a read.
#[tactic(auto, unfolding(crate::specs::Fields::is_changed_by_access))]
fn is_changed_by_access(field: FieldType) -> bool
    ensures { result ≡ is_changed_by_access field }
{
    is_writable(field) || 0 < field.onread
}

#[tactic(auto, unfolding(crate::specs::Fields::spans_parts))]
fn spans_parts(part: u64, field: FieldAt) -> bool
    ensures { result ≡ spans_parts part field }
{
    part != 0 && is_changed_by_access(field.values) && field.low.0 / part != field.high.0 / part
}

// Whether a field of a register breaks a rule.
#[tactic(auto, unfolding(crate::specs::Fields::breaks, crate::specs::Fields::is_outside))]
pub fn breaks_rule(probe: Probe, field: FieldAt) -> bool
    requires { field.high.0 < 18446744073709551615 }
    ensures { result ≡ breaks probe field }
{
    match probe {
        Probe::Wide => is_reset_wide(field),
        Probe::Outside(width) => width <= field.high.0,
        Probe::Overlap(other) => is_overlap(other, field),
        Probe::Span(part) => spans_parts(part, field),
    }
}
