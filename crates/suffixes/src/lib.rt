// The suffixes of an instance: which may stand (11) and which numbers they take (9); and the bits that a field's suffix gives it.
#![tactic(auto)]

ghost use Rattle.std.specs.Prelude.{◌≡◌};
ghost use Rattle.basics.specs.Judged.{Accepted, verdict};
ghost use Rattle.suffixes.specs.Suffixes.{ranged, settled_fault, is_size, is_range, size_fault, range_fault, array_fault, suffix_range, number_fault, suffix_fault, is_array, is_barred, instance_fault};

use basics::{Refusal, Rule};
use expressions::Number;
use parts::{Array, Instance, Kind, Suffix, SuffixKind};

// 9 where a number is out of its range.
#[tactic(auto, unfolding(crate::specs::Suffixes::ranged))]
fn ranged_at(fits: bool, place: usize) -> Result<(), Refusal>
    ensures { verdict result ≡ ranged fits place }
{
    if fits {
        Ok(())
    } else {
        Err(Rule::BadValue.at(place))
    }
}

// The number of `[n]`: a field's width, or the length of an array.
#[tactic(auto, unfolding(crate::specs::Suffixes::is_size))]
fn is_size(field: bool, n: u64) -> bool
    ensures { result ≡ is_size field n }
{
    let limit = if field {
        basics::WIDTH_LIMIT
    } else {
        basics::ARRAY_LIMIT
    };
    1 <= n && n <= limit
}

#[tactic(auto, unfolding(crate::specs::Suffixes::is_range))]
fn is_range(left: u64, right: u64) -> bool
    ensures { result ≡ is_range left right }
{
    right <= left && left < basics::WIDTH_LIMIT
}

// 9 at the operator that refuses a number: no range over a refused part is judged.
#[tactic(auto, unfolding(crate::specs::Suffixes::settled_fault))]
fn settle(refusal: Option<usize>) -> Result<(), Refusal>
    ensures { verdict result ≡ settled_fault refusal Accepted }
{
    match refusal {
        Some(place) => Err(Rule::BadValue.at(place)),
        None => Ok(()),
    }
}

#[tactic(auto, unfolding(crate::specs::Suffixes::settled_fault))]
fn size_fault(field: bool, size: Number) -> Result<(), Refusal>
    ensures { verdict result ≡ size_fault field size }
{
    settle(size.refusal)?;
    ranged_at(is_size(field, size.value), size.place)
}

#[tactic(auto, unfolding(crate::specs::Suffixes::settled_fault))]
fn range_fault(left: Number, right: Number) -> Result<(), Refusal>
    ensures { verdict result ≡ range_fault left right }
{
    settle(left.refusal)?;
    settle(right.refusal)?;
    ranged_at(is_range(left.value, right.value), left.place)
}

fn array_fault(field: bool, array: Array) -> Result<(), Refusal>
    ensures { verdict result ≡ array_fault field array }
{
    match array {
        Array::Missing => Ok(()),
        Array::Size(_, size) => size_fault(field, size),
        Array::Range(mark, left, right) => {
            if field {
                range_fault(left, right)
            } else {
                Err(Rule::SuffixMisplaced.at(mark))
            }
        }
    }
}

#[tactic(auto, unfolding(crate::specs::Suffixes::suffix_range))]
fn suffix_range(kind: SuffixKind, n: u64) -> bool
    ensures { result ≡ suffix_range kind n }
{
    match kind {
        SuffixKind::Reset => true,
        SuffixKind::Address => n <= basics::HIGHEST_ADDRESS,
        SuffixKind::Stride => 1 <= n && n <= basics::HIGHEST_ADDRESS,
        SuffixKind::Alignment => property_values::is_alignment(n),
    }
}

#[tactic(auto, unfolding(crate::specs::Suffixes::settled_fault))]
fn number_fault(kind: SuffixKind, number: Number) -> Result<(), Refusal>
    ensures { verdict result ≡ number_fault kind number }
{
    settle(number.refusal)?;
    ranged_at(suffix_range(kind, number.value), number.place)
}

#[inline(always)]
fn suffix_fault(barred: bool, kind: SuffixKind, suffix: Suffix) -> Result<(), Refusal>
    ensures { verdict result ≡ suffix_fault barred kind suffix }
{
    match suffix {
        None => Ok(()),
        Some((mark, _)) if barred => Err(Rule::SuffixMisplaced.at(mark)),
        Some((_, number)) => number_fault(kind, number),
    }
}

pub fn is_array(array: Array) -> bool
    ensures { result ≡ is_array array }
{
    !matches!(array, Array::Missing)
}

// Whether a suffix may not stand behind an instance of a field, or of another component.
#[tactic(auto, unfolding(crate::specs::Suffixes::is_barred))]
fn is_barred(kind: SuffixKind, field: bool, instance: Instance) -> bool
    ensures { result ≡ is_barred kind field instance }
{
    match kind {
        SuffixKind::Reset => !field,
        SuffixKind::Address => field,
        SuffixKind::Stride => field || !is_array(instance.array),
        SuffixKind::Alignment => field || instance.address.is_some(),
    }
}

// The fault of one suffix of an instance.
#[inline(always)]
fn fault_of(
    kind: SuffixKind,
    field: bool,
    instance: Instance,
    suffix: Suffix,
) -> Result<(), Refusal>
    ensures { verdict result ≡ suffix_fault (is_barred kind field instance) kind suffix }
{
    suffix_fault(is_barred(kind, field, instance), kind, suffix)
}

// The first fault of an instance's suffixes, for an instance of a component of this kind.
// Part of its callers, since the call would copy the instance.
#[tactic(auto, unfolding(crate::specs::Suffixes::instance_fault))]
#[inline(always)]
pub fn instance_fault(kind: Kind, instance: Instance) -> Result<(), Refusal>
    ensures { verdict result ≡ instance_fault kind instance }
{
    let field = kind == Kind::Field;
    array_fault(field, instance.array)?;
    fault_of(SuffixKind::Reset, field, instance, instance.reset)?;
    fault_of(SuffixKind::Address, field, instance, instance.address)?;
    fault_of(SuffixKind::Stride, field, instance, instance.stride)?;
    fault_of(SuffixKind::Alignment, field, instance, instance.alignment)
}
