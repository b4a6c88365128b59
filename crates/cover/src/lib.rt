// Which bits of a register are closed to a field because earlier fields have them, for rule 16.
#![tactic(auto)]

ghost use Rattle.std.specs.Prelude.{◌≡◌, true};
ghost use Rattle.bits.specs.Bits.{number};
ghost use Rattle.cover.specs.Covers.{is_narrow, has_bit, closed_to, closed_by, meets_in, nothing_covered, cover_with};

use fields::{AccessRight, FieldAt};

// The bits that are closed to a field that is only read, to one that is only written, and to any other.
#[derive(Clone, Copy)]
pub struct Cover {
    pub readers: u64,
    pub writers: u64,
    pub others: u64,
}

// No bit is closed.
pub fn nothing() -> Cover
    ensures { result ≡ nothing_covered }
{
    Cover {
        readers: 0,
        writers: 0,
        others: 0,
    }
}

// Whether a field has its bits below bit 64, so that a word holds them.
#[tactic(auto, unfolding(crate::specs::Covers::is_narrow))]
pub fn is_narrow(field: FieldAt) -> bool
    ensures { result ≡ is_narrow field }
{
    field.low.0 <= field.high.0 && field.high.0 < 64
}

// A field's bits.
#[tactic(auto, unfolding(crate::specs::Covers::has_bit))]
fn bits_of(field: FieldAt) -> u64
    requires { is_narrow field ≡ true }
    ensures { result ≡ number 64 (has_bit field) }
{
    let to_high = u64::MAX >> (63 - field.high.0);
    let below_low = (1 << field.low.0) - 1;
    to_high - below_low
}

// A word with the bits that a field closes to later ones of this access.
#[tactic(auto, using(crate::proofs::Laws::closed_not, crate::proofs::Laws::closed_more))]
fn closed_by(access: u64, field: FieldAt, word: u64) -> u64
    requires { is_narrow field ≡ true }
    ensures { result ≡ closed_by access field word }
{
    if fields::is_pair(access, field.values.sw) {
        word
    } else {
        word | bits_of(field)
    }
}

// The bits that are closed to a field of this access.
#[tactic(auto, unfolding(crate::specs::Covers::closed_to))]
fn closed_to(access: u64, cover: Cover) -> u64
    ensures { result ≡ closed_to access cover }
{
    if access == fields::access_code(AccessRight::R) {
        cover.readers
    } else if access == fields::access_code(AccessRight::W) {
        cover.writers
    } else {
        cover.others
    }
}

// Whether some bit of a field is closed to it.
#[tactic(auto, using(crate::proofs::Laws::meets_is))]
pub fn meets(cover: Cover, field: FieldAt) -> bool
    requires { is_narrow field ≡ true }
    ensures { result ≡ meets_in cover field }
{
    bits_of(field) & closed_to(field.values.sw, cover) != 0
}

// With the bits that one field more closes.
#[tactic(auto, unfolding(crate::specs::Covers::cover_with))]
pub fn with_field(cover: Cover, field: FieldAt) -> Cover
    requires { is_narrow field ≡ true }
    ensures { result ≡ cover_with cover field }
{
    Cover {
        readers: closed_by(fields::access_code(AccessRight::R), field, cover.readers),
        writers: closed_by(fields::access_code(AccessRight::W), field, cover.writers),
        others: closed_by(fields::access_code(AccessRight::Na), field, cover.others),
    }
}
