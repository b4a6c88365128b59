// 21: the first register in map order that shares a byte with an earlier one unlawfully, found in the order of the addresses.
#![tactic(auto)]

ghost use Rattle.std.specs.Prelude.{◌≡◌, true, [], ◌<◌, ◌≤◌, length};
ghost use Rattle.basics.specs.Judged.{verdict};
ghost use Rattle.basics.specs.Limits.{register_limit};
ghost use Rattle.orders.specs.Keys.{Keyed};
ghost use Rattle.orders.specs.Unique.{meets, first_meeting, SomeMeeting};
ghost use Rattle.sizes.specs.Ready.{known, Ready};
ghost use Rattle.sizes.specs.Shapes.{all_shapes};
ghost use Rattle.map_rules.specs.Whole.{has_access, overlapping};
ghost use Rattle.map_walk.specs.Walks.{elements_of, registers_of};
ghost use Rattle.overlaps.specs.Charted.{Charted, has_in, plot_in, last_place};
ghost use Rattle.overlaps.specs.Sweeps.{register_count, start_in, stretch_in, clash_in, LowStarts, Sweepable, side_of, Reaches};

use basics::{Refusal, Rule};
use components::Component;
use fields::{AccessRight, Offset};
use orders::Bounds;
use sizes::Extent;

// A register of the log: its type's row, its address and its size in bytes.
#[derive(Clone, Copy)]
pub struct Plot {
    pub row: usize,
    pub address: Offset,
    pub size: u64,
}

// A register's bytes, up to the one behind its last; and its access: it counts as readable unless every field is write-only, and as
// writable unless every field is read-only. Two registers may share a byte unless both count as readable or both as writable.
#[derive(Clone, Copy)]
pub struct Stretch {
    pub start: u64,
    pub end: u64,
    pub readable: bool,
    pub writable: bool,
}

// How far the registers passed reach, of the readable or of the writable ones, and which of them reaches so far.
#[derive(Clone, Copy)]
pub struct Side {
    pub end: u64,
    pub who: usize,
}

// Whether a field has this access; what is no field has each.
fn is_access(component: Component, access: u64) -> bool
    ensures { result ≡ has_in access component }
{
    match component {
        Component::Field(field) => field.sw == access,
        _ => true,
    }
}

// Whether every field of a register has this access.
fn has_access(text: &[u8], cells: &[u64], extent: Extent, row: usize, access: u64) -> bool
    requires { Ready text.now cells.now extent × (row < extent.rows) }
    ensures { result ≡ has_access (known text.now cells.now extent) access row }
{
    let span = cells::instances_of(cells, row);
    for i in span.from..span.to {
        let entry = basics::cell(cells, i);
        let component = cells::component_at(cells, cells::row_in(entry));
        if !is_access(component, access) {
            return false;
        }
    }
    true
}

// A register of the log.
#[tactic(auto, unfolding(crate::specs::Charted::plot_in))]
fn plot_at(shapes: &[u64], log: &[u64], i: usize) -> Plot
    requires { i ≤ register_limit }
    ensures { result ≡ plot_in shapes.now log.now i }
{
    let head = basics::cell(log, i * register_log::LOG_WIDTH);
    let address = Offset(register_log::head_address(head));
    let row = register_log::head_row(head);
    Plot {
        row,
        address,
        size: sizes::shape_at(shapes, row).size,
    }
}

// Where the name of a register of the log stands: that of its path's last step.
#[tactic(auto, unfolding(crate::specs::Charted::last_place))]
fn place_at(log: &[u64], i: usize) -> usize
    requires { i ≤ register_limit }
    ensures { result ≡ last_place log.now i }
{
    let start = i * register_log::LOG_WIDTH;
    let depth = register_log::head_depth(basics::cell(log, start));
    register_log::step_start(basics::cell(log, start + depth))
}

// The bytes and the access of a register of the log.
#[tactic(auto, unfolding(crate::specs::Sweeps::stretch_in))]
fn stretch_at(
    text: &[u8],
    cells: &[u64],
    shapes: &[u64],
    log: &[u64],
    extent: Extent,
    i: usize,
) -> Stretch
    requires { Charted text.now cells.now shapes.now log.now extent extent.map × (i < register_count text.now cells.now extent) }
    ensures { result ≡ stretch_in (known text.now cells.now extent) shapes.now log.now i }
{
    let plot = plot_at(shapes, log, i);
    let writer = fields::access_code(AccessRight::W);
    let reader = fields::access_code(AccessRight::R);
    let write_only = has_access(text, cells, extent, plot.row, writer);
    let read_only = has_access(text, cells, extent, plot.row, reader);
    Stretch {
        start: plot.address.0,
        end: plot.address.0 + plot.size,
        readable: !write_only,
        writable: !read_only,
    }
}

// A side with one register more, if it belongs to that side.
#[tactic(auto, unfolding(crate::specs::Sweeps::side_of))]
fn side_after(side: Side, belongs: bool, end: u64, number: usize) -> Side
    ensures { result ≡ side_of side belongs end number }
{
    if belongs && side.end < end {
        Side { end, who: number }
    } else {
        side
    }
}

// Whether a side reaches into a register that belongs to it.
fn reaches(side: Side, belongs: bool, start: u64) -> bool
    ensures { Reaches side belongs start result }
{
    belongs && start < side.end
}

// A pass in the order of the addresses over the registers whose number is below a limit: one that overlaps an earlier one, or the limit
// where none does.
fn pass(
    text: &[u8],
    cells: &[u64],
    shapes: &[u64],
    log: &[u64],
    extent: Extent,
    order: &[u64],
    limit: usize,
) -> usize
    requires { Sweepable text.now cells.now shapes.now log.now extent order.now × (limit ≤ register_count text.now cells.now extent) }
    ensures { SomeMeeting (clash_in text.now cells.now shapes.now log.now extent) limit result }
{
    let mut readable = Side { end: 0, who: 0 };
    let mut writable = Side { end: 0, who: 0 };
    for &key in order {
        let number = key as usize % basics::REGISTER_LIMIT;
        if limit <= number {
            continue;
        }
        let stretch = stretch_at(text, cells, shapes, log, extent, number);
        if reaches(readable, stretch.readable, stretch.start) {
            return readable.who.max(number);
        }
        if reaches(writable, stretch.writable, stretch.start) {
            return writable.who.max(number);
        }
        readable = side_after(readable, stretch.readable, stretch.end, number);
        writable = side_after(writable, stretch.writable, stretch.end, number);
    }
    limit
}

// The first register that overlaps an earlier one, where `hit` is one that does: a pass halves those that are left.
fn bisect(
    text: &[u8],
    cells: &[u64],
    shapes: &[u64],
    log: &[u64],
    extent: Extent,
    order: &[u64],
    hit: usize,
) -> usize
    requires { Sweepable text.now cells.now shapes.now log.now extent order.now × (hit < register_count text.now cells.now extent) × (meets (clash_in text.now cells.now shapes.now log.now extent) hit hit ≡ true) }
    ensures { result ≡ first_meeting (clash_in text.now cells.now shapes.now log.now extent) (register_count text.now cells.now extent) }
{
    let mut bounds = Bounds { low: 0, high: hit };
    while bounds.low < bounds.high {
        let middle = bounds.low + (bounds.high - bounds.low + 1) / 2;
        let found = pass(text, cells, shapes, log, extent, order, middle);
        bounds = orders::narrowed(bounds, middle, found);
    }
    bounds.high
}

// The first register that overlaps an earlier one, by the keys in order; how many registers there are where none does.
fn first_in_order(
    text: &[u8],
    cells: &[u64],
    shapes: &[u64],
    log: &[u64],
    extent: Extent,
    order: &[u64],
) -> usize
    requires { Sweepable text.now cells.now shapes.now log.now extent order.now }
    ensures { result ≡ first_meeting (clash_in text.now cells.now shapes.now log.now extent) (register_count text.now cells.now extent) }
{
    let count = order.len();
    let found = pass(text, cells, shapes, log, extent, order, count);
    if found == count {
        return count;
    }
    bisect(text, cells, shapes, log, extent, order, found)
}

// Puts the keys of the registers of the log: the address, and below it the register's number.
fn put_keys(log: &[u64], keys: &mut [u64])
    requires { (length keys.old ≤ register_limit) × LowStarts log.now (length keys.old) }
    ensures { Keyed (start_in log.now) register_limit keys.new }
{
    for i in 0..keys.len() {
        let address = register_log::head_address(basics::cell(log, i * register_log::LOG_WIDTH));
        keys[i] = address * basics::REGISTER_LIMIT as u64 + i as u64;
    }
}

// The first register that overlaps an earlier one, with room for the keys; how many registers there are where none does.
#[tactic(auto, using(crate::proofs::Plots::few_keys, crate::proofs::Plots::low_starts, crate::proofs::Plots::sweepable))]
fn first_with_room(
    text: &[u8],
    cells: &[u64],
    shapes: &[u64],
    log: &[u64],
    extent: Extent,
    keys: &mut [u64],
) -> usize
    requires { Charted text.now cells.now shapes.now log.now extent extent.map × (length keys.old ≡ register_count text.now cells.now extent) }
    ensures { result ≡ first_meeting (clash_in text.now cells.now shapes.now log.now extent) (register_count text.now cells.now extent) }
{
    put_keys(log, keys);
    orders::sort(keys);
    first_in_order(text, cells, shapes, log, extent, keys)
}

// The first register in map order that overlaps an earlier one. Registers that stand in the order of their addresses, and don't overlap,
// are read a few times and no more.
pub fn first_overlap(
    text: &[u8],
    cells: &[u64],
    shapes: &[u64],
    log: &[u64],
    extent: Extent,
    count: usize,
) -> Result<(), Refusal>
    requires { Charted text.now cells.now shapes.now log.now extent extent.map × (count ≡ length (registers_of text.now cells.now extent extent.map)) }
    ensures { verdict result ≡ overlapping (known text.now cells.now extent) (all_shapes text.now cells.now extent) [] (elements_of text.now cells.now extent extent.map) }
{
    let mut keys = [0u64; basics::REGISTER_LIMIT];
    let first = first_with_room(text, cells, shapes, log, extent, &mut keys[0..count]);
    if first == count {
        return Ok(());
    }
    Err(Rule::RegistersOverlap.at(place_at(log, first)))
}
