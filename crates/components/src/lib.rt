// Components with their effective values, and the bits and the reset of a field's instance.
#![tactic(auto)]

ghost use Rattle.std.specs.Prelude.{◌≡◌, ◌≤◌, ◌<◌};
ghost use Rattle.basics.specs.Limits.{width_limit, sum_bound};
ghost use Rattle.components.specs.Components.{field_type, register_of, component_of, kind_of, start_of};
ghost use Rattle.components.specs.Fields.{width_in, low_bit, high_bit, own_reset, field_at};

use fields::{
    AccessRight, BitPlace, FieldAt, FieldType, Offset, ReadEffect, Register, WriteEffect,
};
use parts::{Array, Instance, Kind, Suffix};
use properties::Settings;

// A field, a register, a regfile with its alignment, or an address map with its alignment and addressing.
#[derive(Clone, Copy)]
pub enum Component {
    Field(FieldType),
    Register(Register),
    Regfile(Option<u64>),
    Addrmap(Option<u64>, Option<u64>),
}

// A register of the effective settings of its body.
fn register_of(settings: Settings) -> Register
    ensures { result ≡ register_of settings }
{
    let width = settings.regwidth.unwrap_or(Register::fresh().width);
    let access = settings.accesswidth.unwrap_or(width);
    Register { width, access }
}

fn field_type(settings: Settings) -> FieldType
    ensures { result ≡ field_type settings }
{
    let open_access = fields::access_code(AccessRight::Rw);
    let kept = fields::read_code(ReadEffect::Kept);
    let plain = fields::write_code(WriteEffect::Plain);
    FieldType {
        sw: settings.sw.unwrap_or(open_access),
        hw: settings.hw.unwrap_or(open_access),
        onread: settings.onread.unwrap_or(kept),
        onwrite: settings.onwrite.unwrap_or(plain),
        reset: settings.reset,
    }
}

// A component of this kind, of the effective settings of its body.
#[tactic(auto, unfolding(crate::specs::Components::component_of))]
pub fn component_of(kind: Kind, settings: Settings) -> Component
    ensures { result ≡ component_of kind settings }
{
    match kind {
        Kind::Addrmap => Component::Addrmap(settings.alignment, settings.addressing),
        Kind::Regfile => Component::Regfile(settings.alignment),
        Kind::Reg => Component::Register(register_of(settings)),
        Kind::Field => Component::Field(field_type(settings)),
    }
}

pub fn kind_of(component: Component) -> Kind
    ensures { result ≡ kind_of component }
{
    match component {
        Component::Field(_) => Kind::Field,
        Component::Register(_) => Kind::Reg,
        Component::Regfile(_) => Kind::Regfile,
        Component::Addrmap(_, _) => Kind::Addrmap,
    }
}

fn low_bit(next: BitPlace, array: Array) -> BitPlace
    ensures { result ≡ low_bit next array }
{
    match array {
        Array::Missing | Array::Size(_, _) => next,
        Array::Range(_, _, right) => BitPlace(right.value),
    }
}

fn high_bit(next: BitPlace, array: Array) -> BitPlace
    requires { (1 ≤ width_in array) × (width_in array ≤ width_limit) × (next.0 < sum_bound) }
    ensures { result ≡ high_bit next array }
{
    match array {
        Array::Missing => next,
        Array::Size(_, size) => BitPlace(next.0 + (size.value - 1)),
        Array::Range(_, left, _) => BitPlace(left.value),
    }
}

fn own_reset(suffix: Suffix, inherited: Option<u64>) -> Option<u64>
    ensures { result ≡ own_reset suffix inherited }
{
    suffix.map(|(_, number)| number.value).or(inherited)
}

// A field of a register, where `next` is the bit above the field before it.
#[tactic(auto, unfolding(crate::specs::Fields::field_at))]
pub fn field_at(next: BitPlace, instance: Instance, field: FieldType) -> FieldAt
    requires { (1 ≤ width_in instance.array) × (width_in instance.array ≤ width_limit) × (next.0 < sum_bound) }
    ensures { result ≡ field_at next instance field }
{
    let reset = own_reset(instance.reset, field.reset);
    FieldAt {
        low: low_bit(next, instance.array),
        high: high_bit(next, instance.array),
        values: FieldType { reset, ..field },
    }
}

// Where an instance starts in its body, if its `@` says so.
pub fn start_of(instance: Instance) -> Option<Offset>
    ensures { result ≡ start_of instance.address }
{
    instance.address.map(|(_, number)| Offset(number.value))
}
