// One stored field: what an access reaches of it, what it does to its number, and what a read answers from it.
#![tactic(auto)]

ghost use Rattle.std.specs.Prelude.{◌≡◌, true, ◌&&◌, ◌<◌, ◌≤◌, ◌^◌, ltb};
ghost use Rattle.fields.specs.Codes.{is_width};
ghost use Rattle.bits.specs.Bits.{bit, number};
ghost use Rattle.model.specs.Model.{address_of, width_of, well_formed, size, reaches_register, reaches, part_low, place_of, reaches_bit, writes_bit, bit_action, word_bit, acted, number_after, word_place, field_gives};
ghost use Rattle.model.specs.Repeats.{reads_bit, inverted_by, changed_by_reading, repeats_bit, all_below};
ghost use Rattle.field_access.specs.Ranges.{ViewInRange};

use actions::Action;
use fields::{BitPlace, FieldType, Offset, ReadEffect, Register, WriteEffect};
use model::{Access, View};

pub fn address_of(access: Access) -> Offset
    ensures { result ≡ address_of access }
{
    match access {
        Access::Read { address, .. } | Access::Write { address, .. } => address,
    }
}

pub fn width_of(access: Access) -> u64
    ensures { result ≡ width_of access }
{
    match access {
        Access::Read { width, .. } | Access::Write { width, .. } => width,
    }
}

// The width is one of the four, and the word fits it.
pub fn is_well_formed(access: Access) -> bool
    ensures { result ≡ well_formed access }
{
    match access {
        Access::Read { width, .. } => fields::is_width(width),
        Access::Write { width, word, .. } => fields::is_width(width)
            && !fields::needs_more(word, width),
    }
}

// Whether an access at an address, of a width, reaches a register.
pub fn reaches_register(address: Offset, width: u64, base: Offset, register: Register) -> bool
    requires { 8 ≤ width }
    ensures { result ≡ reaches_register address width base register }
{
    register.access == width
        && base.0 <= address.0
        && address.0 - base.0 < register.width / 8
        && (address.0 - base.0) % (width / 8) == 0
}

fn reaches_field(address: Offset, width: u64, field: View) -> bool
    requires { 8 ≤ width }
    ensures { result ≡ reaches address width field }
{
    reaches_register(address, width, field.base, field.register)
}

// The lowest bit of the part at an address that reaches the field's register: from bytes to bits.
fn part_low(address: Offset, width: u64, field: View) -> BitPlace
    requires { (reaches address width field ≡ true) × (field.register.width ≤ 64) }
    ensures { (result ≡ part_low address field) × (result.0 < 64) }
{
    BitPlace((address.0 - field.base.0) * 8)
}

fn place_of(field: View, i: u64) -> BitPlace
    requires { (field.field.low.0 < 64) × (i < 64) }
    ensures { (result ≡ place_of field i) × (result.0 < 128) }
{
    BitPlace(field.field.low.0 + i)
}

fn reaches_bit(address: Offset, width: u64, field: View, i: u64) -> bool
    requires { ViewInRange width field × (i < size field) }
    ensures { result ≡ reaches_bit address width field i }
{
    if !reaches_field(address, width, field) {
        return false;
    }
    let low = part_low(address, width, field);
    let place = place_of(field, i);
    low.0 <= place.0 && place.0 < low.0 + width
}

fn read_bit_action(address: Offset, width: u64, field: View, i: u64) -> Action
    requires { ViewInRange width field × (i < size field) }
    ensures { result ≡ bit_action (Access.Read address width) field i }
{
    if reaches_bit(address, width, field, i) {
        actions::read_action(field.field.values.onread)
    } else {
        Action::Kept
    }
}

fn writes_bit(address: Offset, width: u64, field: View, i: u64) -> bool
    requires { ViewInRange width field × (i < size field) }
    ensures { result ≡ writes_bit address width field i }
{
    fields::is_writable(field.field.values) && reaches_bit(address, width, field, i)
}

// The word's bit for a bit of the field that a write reaches.
fn word_bit(address: Offset, width: u64, word: u64, field: View, i: u64) -> bool
    requires { ViewInRange width field × (i < size field) × (reaches_bit address width field i ≡ true) }
    ensures { result ≡ word_bit address word field i }
{
    let low = part_low(address, width, field);
    let place = place_of(field, i);
    bits::bit_at(word, place.0 - low.0)
}

fn write_bit_action(address: Offset, width: u64, word: u64, field: View, i: u64) -> Action
    requires { ViewInRange width field × (i < size field) }
    ensures { result ≡ bit_action (Access.Write address width word) field i }
{
    if writes_bit(address, width, field, i) {
        let one = word_bit(address, width, word, field, i);
        actions::write_action(field.field.values.onwrite, one)
    } else {
        Action::Kept
    }
}

// What an access does to a bit of the field.
fn bit_action(access: Access, field: View, i: u64) -> Action
    requires { ViewInRange (width_of access) field × (i < size field) }
    ensures { result ≡ bit_action access field i }
{
    match access {
        Access::Read { address, width } => read_bit_action(address, width, field, i),
        Access::Write {
            address,
            width,
            word,
        } => write_bit_action(address, width, word, field, i),
    }
}

// How many bits the field has.
fn size_of(field: View) -> u64
    requires { (field.field.low.0 ≤ field.field.high.0) × (field.field.high.0 < 64) }
    ensures { (result ≡ size field) × (result ≤ 64) }
{
    field.field.high.0 + 1 - field.field.low.0
}

// The field's number, each bit under its action.
fn acted_number(access: Access, field: View, stored: u64) -> u64
    requires { ViewInRange (width_of access) field }
    ensures { result ≡ acted (size field) (bit_action access field) stored }
{
    let mut lower: u64 = 0;
    for i in 0..size_of(field) {
        let action = bit_action(access, field, i);
        let one = bits::bit_at(stored, i);
        lower = bits::with_bit(lower, i, actions::applied(action, one));
    }
    lower
}

// The field's number after an access that is answered.
pub fn number_after(access: Access, field: View, stored: u64) -> u64
    requires { ViewInRange (width_of access) field }
    ensures { result ≡ number_after access field stored }
{
    if reaches_field(address_of(access), width_of(access), field) {
        acted_number(access, field, stored)
    } else {
        stored
    }
}

// The place in the field's register of bit j of the word.
fn word_place(address: Offset, width: u64, field: View, j: u64) -> BitPlace
    requires { (reaches address width field ≡ true) × (field.register.width ≤ 64) × (j < 64) }
    ensures { result ≡ word_place address field j }
{
    let low = part_low(address, width, field);
    BitPlace(low.0 + j)
}

// Bit j of the word that a read answers, as far as this field gives it.
fn gives_bit(address: Offset, width: u64, field: View, stored: u64, j: u64) -> bool
    requires { ViewInRange width field × (j < width) }
    ensures { result ≡ field_gives address width field (bit stored) j }
{
    if !fields::is_readable(field.field.values) || !reaches_field(address, width, field) {
        return false;
    }
    let place = word_place(address, width, field, j);
    let low = field.field.low;
    low.0 <= place.0 && place.0 <= field.field.high.0 && bits::bit_at(stored, place.0 - low.0)
}

// The word that a read answers, as far as this field gives it.
pub fn word_of(address: Offset, width: u64, field: View, stored: u64) -> u64
    requires { ViewInRange width field }
    ensures { result ≡ number width (field_gives address width field (bit stored)) }
{
    let mut lower: u64 = 0;
    for j in 0..width {
        let one = gives_bit(address, width, field, stored, j);
        lower = bits::with_bit(lower, j, one);
    }
    lower
}

fn reads_bit(address: Offset, width: u64, field: View, i: u64) -> bool
    requires { ViewInRange width field × (i < size field) }
    ensures { result ≡ reads_bit address width field i }
{
    fields::is_readable(field.field.values) && reaches_bit(address, width, field, i)
}

// Whether reading clears or sets the bits of a field.
fn is_changed_by_reading(values: FieldType) -> bool
    ensures { result ≡ changed_by_reading values }
{
    values.onread == fields::read_code(ReadEffect::Rclr)
        || values.onread == fields::read_code(ReadEffect::Rset)
}

// Whether this bit of a word inverts the bits of a field.
fn is_inverted_by(values: FieldType, one: bool) -> bool
    ensures { result ≡ inverted_by values one }
{
    let inverting = if one {
        WriteEffect::Wot
    } else {
        WriteEffect::Wzt
    };
    values.onwrite == fields::write_code(inverting)
}

fn read_repeats_bit(address: Offset, width: u64, field: View, i: u64) -> bool
    requires { ViewInRange width field × (i < size field) }
    ensures { result ≡ repeats_bit (Access.Read address width) field i }
{
    !reads_bit(address, width, field, i) || !is_changed_by_reading(field.field.values)
}

fn write_repeats_bit(address: Offset, width: u64, word: u64, field: View, i: u64) -> bool
    requires { ViewInRange width field × (i < size field) }
    ensures { result ≡ repeats_bit (Access.Write address width word) field i }
{
    if !writes_bit(address, width, field, i) {
        return true;
    }
    let one = word_bit(address, width, word, field, i);
    !is_inverted_by(field.field.values, one)
}

// Whether a bit of the field lets an access be made again.
fn repeats_bit(access: Access, field: View, i: u64) -> bool
    requires { ViewInRange (width_of access) field × (i < size field) }
    ensures { result ≡ repeats_bit access field i }
{
    match access {
        Access::Read { address, width } => read_repeats_bit(address, width, field, i),
        Access::Write {
            address,
            width,
            word,
        } => write_repeats_bit(address, width, word, field, i),
    }
}

// Whether each bit of the field lets an access be made again.
#[tactic(auto, using(crate::proofs::Below::below_loop))]
pub fn repeats_all(access: Access, field: View) -> bool
    requires { ViewInRange (width_of access) field }
    ensures { result ≡ all_below (size field) (repeats_bit access field) }
{
    for i in 0..size_of(field) {
        if !repeats_bit(access, field, i) {
            return false;
        }
    }
    true
}
