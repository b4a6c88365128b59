// Where an instance lies in its body: its step, its stride, its span, its start and its end, in numbers cut at a cap above every address.
#![tactic(auto)]

ghost use Rattle.std.specs.Prelude.{◌≡◌, ◌≤◌};
ghost use Rattle.capped.specs.Offsets.{cap, cut};
ghost use Rattle.layout.specs.Layout.{elements, stride_or, stride_of, span_of, mode_step, step_of, laid, cut_laid};
ghost use Rattle.layout.specs.Fitting.{Layable, StartsAt};

use fields::{Mode, Offset};
use parts::{Array, Instance, Suffix};

// The size of an element and its access width, in bytes.
#[derive(Clone, Copy)]
pub struct Shape {
    pub size: u64,
    pub access: u64,
}

// Where an instance lies in its body: its first element's offset, its stride, and its end.
#[derive(Clone, Copy)]
pub struct Laid {
    pub start: Offset,
    pub stride: u64,
    pub end: Offset,
}

// How many elements an instance has.
pub fn elements_of(array: Array) -> u64
    ensures { result ≡ elements array }
{
    match array {
        Array::Size(_, size) => size.value,
        Array::Missing | Array::Range(_, _, _) => 1,
    }
}

// A suffix's number, or the standard.
fn number_or(suffix: Suffix, standard: u64) -> u64
    ensures { result ≡ stride_or suffix standard }
{
    match suffix {
        Some((_, number)) => number.value,
        None => standard,
    }
}

// The distance of two elements of an array.
fn stride_of(alignment: Option<u64>, shape: Shape, instance: Instance) -> u64
    requires { Layable alignment shape instance }
    ensures { (result ≡ cut (stride_of alignment shape instance)) × (result ≤ cap) }
{
    let standard = capped::raise(shape.size, alignment.unwrap_or(1));
    number_or(instance.stride, standard)
}

// What all elements of an instance take.
fn span_of(alignment: Option<u64>, shape: Shape, instance: Instance) -> u64
    requires { Layable alignment shape instance }
    ensures { (result ≡ cut (span_of alignment shape instance)) × (result ≤ cap) }
{
    let stride = stride_of(alignment, shape, instance);
    let count = elements_of(instance.array);
    let before = capped::product(stride, count - 1);
    capped::sum(before, shape.size)
}

// The step that the map's mode gives.
fn mode_step(mode: u64, alignment: Option<u64>, shape: Shape, instance: Instance) -> u64
    requires { Layable alignment shape instance }
    ensures { (result ≡ cut (mode_step mode alignment shape instance)) × (1 ≤ result) × (result ≤ cap) }
{
    if mode == fields::mode_code(Mode::Compact) {
        return shape.access;
    }
    if mode != fields::mode_code(Mode::Fullalign) {
        return shape.size;
    }
    if !suffixes::is_array(instance.array) {
        return shape.size;
    }
    capped::power_above(span_of(alignment, shape, instance))
}

// The number that an instance's offset is a multiple of.
fn step_of(mode: u64, alignment: Option<u64>, shape: Shape, instance: Instance) -> u64
    requires { Layable alignment shape instance }
    ensures { (result ≡ cut (step_of mode alignment shape instance)) × (1 ≤ result) × (result ≤ cap) }
{
    let step = mode_step(mode, alignment, shape, instance);
    let standard = capped::common_multiple(alignment.unwrap_or(1), step);
    number_or(instance.alignment, standard)
}

// The offset of an instance behind the one that ends at `end`.
fn start_after(start: Option<Offset>, end: Offset, step: u64) -> Offset
    requires { (end.0 ≤ cap) × (1 ≤ step) × (step ≤ cap) }
    ensures { StartsAt start end step result }
{
    match start {
        Some(offset) => offset,
        None => Offset(capped::raise(end.0, step)),
    }
}

// Where an instance lies behind the one that ends at `end`, in a map of this mode.
pub fn lay(mode: u64, alignment: Option<u64>, shape: Shape, instance: Instance, end: Offset) -> Laid
    requires { Layable alignment shape instance × (end.0 ≤ cap) }
    ensures { (result ≡ cut_laid (laid mode alignment shape instance end)) × (result.end.0 ≤ cap) }
{
    let fixed = components::start_of(instance);
    let step = step_of(mode, alignment, shape, instance);
    let start = start_after(fixed, end, step);
    let stride = stride_of(alignment, shape, instance);
    let span = span_of(alignment, shape, instance);
    let past = Offset(capped::sum(start.0, span));
    Laid {
        start,
        stride,
        end: past,
    }
}
