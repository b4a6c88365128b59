// What is judged at a closing brace: 10 for a missing instance, 12 for a field, 13 to 17 for a register.
#![tactic(auto)]

ghost use Rattle.std.specs.Prelude.{◌≡◌, true, ◌+◌, ◌-◌, ◌*◌, ◌≤◌, ◌<◌};
ghost use Rattle.basics.specs.Judged.{broken_number};
ghost use Rattle.basics.specs.Limits.{sum_bound};
ghost use Rattle.basics.specs.Slices.{cell_of};
ghost use Rattle.cells.specs.Cells.{entry_places};
ghost use Rattle.closing_rules.specs.Registers.{bit_above, some, overlaps, register_fault, effect_fault};
ghost use Rattle.closing_rules.specs.Decoded.{placed_as, placed_in, fields_in_cells, fields_between, top_of, breaks_in, overlaps_earlier, is_narrow_in, meets_placed, cover_with_placed, broken_with, broken_by, missing_fault, closing_in};

use basics::Rule;
use components::Component;
use cover::Cover;
use fields::{BitPlace, FieldAt, FieldType, Probe, Register};
use parts::{Instance, Kind};

// Which rules some field of a register breaks: 13, 15, 17.
#[derive(Clone, Copy)]
pub struct Broken {
    pub wide: bool,
    pub outside: bool,
    pub split: bool,
}

// A field's instance at its place; an instance with unsound suffixes has none.
#[tactic(auto, unfolding(crate::specs::Decoded::placed_as), using(components::proofs::Laws::sound_width))]
fn place_field(next: BitPlace, instance: Instance, field: FieldType) -> Option<FieldAt>
    requires { next.0 < sum_bound }
    ensures { result ≡ placed_as (Component.Field field) next instance }
{
    match suffixes::instance_fault(Kind::Field, instance) {
        Ok(()) => Some(components::field_at(next, instance, field)),
        Err(_) => None,
    }
}

// The instance of a component as a field, where `next` is the bit above the field before it.
#[tactic(auto, unfolding(crate::specs::Decoded::placed_as))]
pub fn placed_as(component: Component, next: BitPlace, instance: Instance) -> Option<FieldAt>
    requires { next.0 < sum_bound }
    ensures { result ≡ placed_as component next instance }
{
    match component {
        Component::Field(field) => place_field(next, instance, field),
        Component::Register(_) | Component::Regfile(_) | Component::Addrmap(_, _) => None,
    }
}

// The field of a cell.
#[tactic(auto, unfolding(crate::specs::Decoded::placed_in), using(cells::proofs::Laws::child_low))]
fn field_in(text: &[u8], cells: &[u64], i: usize, next: BitPlace) -> Option<FieldAt>
    requires { next.0 < sum_bound }
    ensures { result ≡ placed_in text.now cells.now next (cell_of cells.now i) }
{
    match cells::child_at(text, cells, i) {
        Ok((row, instance)) => placed_as(cells::component_at(cells, row), next, instance),
        Err(_) => None,
    }
}

// Where the field behind this one starts.
pub fn bit_above(placed: Option<FieldAt>, next: BitPlace) -> BitPlace
    requires { top_of placed < sum_bound }
    ensures { result ≡ bit_above placed next }
{
    match placed {
        Some(field) => BitPlace(field.high.0 + 1),
        None => next,
    }
}

fn breaks_in(probe: Probe, placed: Option<FieldAt>) -> bool
    requires { top_of placed < sum_bound }
    ensures { result ≡ breaks_in probe placed }
{
    match placed {
        Some(field) => fields::breaks_rule(probe, field),
        None => false,
    }
}

// Whether some field of a register breaks a rule: the cells from one up to another hold its fields, the first from the bit `first` on.
fn any_field(
    text: &[u8],
    cells: &[u64],
    from: usize,
    to: usize,
    first: BitPlace,
    probe: Probe,
) -> bool
    requires { (to ≤ entry_places) × (first.0 + 64 * (to - from) < sum_bound) }
    ensures { result ≡ some probe (fields_in_cells text.now cells.now first from (to - from)) }
{
    let mut next = first;
    for i in from..to {
        let placed = field_in(text, cells, i, next);
        if breaks_in(probe, placed) {
            return true;
        }
        next = bit_above(placed, next);
    }
    false
}

// Whether a field overlaps an earlier one of its register unlawfully; the cells from one up to another hold the earlier ones.
fn overlaps_earlier(
    text: &[u8],
    cells: &[u64],
    from: usize,
    to: usize,
    placed: Option<FieldAt>,
) -> bool
    requires { to ≤ entry_places }
    ensures { result ≡ overlaps_earlier placed (fields_between text.now cells.now from to) }
{
    match placed {
        Some(field) => any_field(text, cells, from, to, BitPlace(0), Probe::Overlap(field)),
        None => false,
    }
}

// Whether some field of a register overlaps an earlier one unlawfully, each field against all earlier ones.
fn any_overlap_by_pairs(text: &[u8], cells: &[u64], from: usize, to: usize) -> bool
    requires { to ≤ entry_places }
    ensures { result ≡ overlaps (fields_between text.now cells.now from to) }
{
    let mut next = BitPlace(0);
    for i in from..to {
        let placed = field_in(text, cells, i, next);
        if overlaps_earlier(text, cells, from, i, placed) {
            return true;
        }
        next = bit_above(placed, next);
    }
    false
}

// With one field more.
fn broken_with(broken: Broken, register: Register, placed: Option<FieldAt>) -> Broken
    requires { top_of placed < sum_bound }
    ensures { result ≡ broken_with broken register placed }
{
    Broken {
        wide: broken.wide || breaks_in(Probe::Wide, placed),
        outside: broken.outside || breaks_in(Probe::Outside(register.width), placed),
        split: broken.split || breaks_in(Probe::Span(register.access), placed),
    }
}

// Which of 13, 15 and 17 some field of a register breaks; each field is read once for the three.
fn broken_by(text: &[u8], cells: &[u64], from: usize, to: usize, register: Register) -> Broken
    requires { to ≤ entry_places }
    ensures { result ≡ broken_by register (fields_between text.now cells.now from to) }
{
    let mut next = BitPlace(0);
    let mut broken = Broken {
        wide: false,
        outside: false,
        split: false,
    };
    for i in from..to {
        let placed = field_in(text, cells, i, next);
        broken = broken_with(broken, register, placed);
        next = bit_above(placed, next);
    }
    broken
}

// Whether a cover can hold a field's bits.
fn is_narrow_in(placed: Option<FieldAt>) -> bool
    ensures { result ≡ is_narrow_in placed }
{
    match placed {
        Some(field) => cover::is_narrow(field),
        None => true,
    }
}

// Whether some bit of a field is closed to it.
fn meets_placed(closed: Cover, placed: Option<FieldAt>) -> bool
    requires { is_narrow_in placed ≡ true }
    ensures { result ≡ meets_placed closed placed }
{
    match placed {
        Some(field) => cover::meets(closed, field),
        None => false,
    }
}

// With the bits that a field closes to later ones.
fn with_placed(closed: Cover, placed: Option<FieldAt>) -> Cover
    requires { is_narrow_in placed ≡ true }
    ensures { result ≡ cover_with_placed closed placed }
{
    match placed {
        Some(field) => cover::with_field(closed, field),
        None => closed,
    }
}

// Whether some field of a register overlaps an earlier one unlawfully. Each field is read once and held against the bits that the earlier
// ones close to it. At most two fields share a bit lawfully, so within 64 bits the first 129 fields settle it, however many there are.
fn any_overlap(text: &[u8], cells: &[u64], from: usize, to: usize) -> bool
    requires { to ≤ entry_places }
    ensures { result ≡ overlaps (fields_between text.now cells.now from to) }
{
    let mut next = BitPlace(0);
    let mut closed = cover::nothing();
    for i in from..to {
        let placed = field_in(text, cells, i, next);
        if !is_narrow_in(placed) {
            // never reached from a text: 15 is judged before, and no register is wider than 64 bits
            return any_overlap_by_pairs(text, cells, from, to);
        }
        if meets_placed(closed, placed) {
            return true;
        }
        closed = with_placed(closed, placed);
        next = bit_above(placed, next);
    }
    false
}

// The rule of the smallest number, 13 to 17, that a register breaks.
#[tactic(auto, unfolding(crate::specs::Registers::register_fault))]
fn register_fault(
    text: &[u8],
    cells: &[u64],
    from: usize,
    to: usize,
    register: Register,
) -> Result<(), Rule>
    requires { to ≤ entry_places }
    ensures { broken_number result ≡ register_fault register (fields_between text.now cells.now from to) }
{
    let broken = broken_by(text, cells, from, to, register);
    if broken.wide {
        return Err(Rule::WideReset);
    }
    if register.width < register.access {
        return Err(Rule::WideAccess);
    }
    if broken.outside {
        return Err(Rule::FieldOutside);
    }
    if any_overlap(text, cells, from, to) {
        return Err(Rule::FieldsOverlap);
    }
    if broken.split {
        return Err(Rule::FieldSpansParts);
    }
    Ok(())
}

// 10 where there is no instance.
fn missing_fault(from: usize, to: usize) -> Result<(), Rule>
    ensures { broken_number result ≡ missing_fault from to }
{
    if from == to {
        Err(Rule::Misplaced)
    } else {
        Ok(())
    }
}

#[tactic(auto, unfolding(crate::specs::Decoded::closing_in))]
fn register_closing(
    text: &[u8],
    cells: &[u64],
    from: usize,
    to: usize,
    register: Register,
) -> Result<(), Rule>
    requires { to ≤ entry_places }
    ensures { broken_number result ≡ closing_in text.now cells.now from to (Component.Register register) }
{
    missing_fault(from, to)?;
    register_fault(text, cells, from, to, register)
}

fn field_closing(field: FieldType) -> Result<(), Rule>
    ensures { broken_number result ≡ effect_fault field }
{
    if fields::has_unusable_effect(field) {
        Err(Rule::UnusableEffect)
    } else {
        Ok(())
    }
}

// The rule of the smallest number that a body breaks at its closing brace; the cells from one up to another hold its instances.
#[tactic(auto, unfolding(crate::specs::Decoded::closing_in))]
pub fn closing_fault(
    text: &[u8],
    cells: &[u64],
    from: usize,
    to: usize,
    component: Component,
) -> Result<(), Rule>
    requires { to ≤ entry_places }
    ensures { broken_number result ≡ closing_in text.now cells.now from to component }
{
    match component {
        Component::Field(field) => field_closing(field),
        Component::Register(register) => register_closing(text, cells, from, to, register),
        Component::Regfile(_) | Component::Addrmap(_, _) => missing_fault(from, to),
    }
}
