// The cells in which the compiler keeps what it knows of a text: a row for each definition, then the instances, those of open bodies from
// the front and those of closed definitions from the end.
#![tactic(auto)]

ghost use Rattle.std.specs.Prelude.{◌≡◌, ◌+◌, ◌-◌, ◌*◌, ◌≤◌, ◌<◌};
ghost use Rattle.basics.specs.Judged.{judged};
ghost use Rattle.basics.specs.Limits.{definition_limit};
ghost use Rattle.basics.specs.Slices.{cell_of, written};
ghost use Rattle.cells.specs.Cells.{definition_width, instance_room, entries_at, entry_places, rank, component_from, values_in, values_of, component_in, first_in, count_in, name_in, below_in, value_cells, other_cells, link_bound, entry_of, place_in, row_in, left_in, right_in, moved};
ghost use Rattle.cells.specs.Decoded.{types_in, child_in};
ghost use Rattle.cells.specs.Definitions.{lookup};

use basics::Refusal;
use components::Component;
use fields::{FieldType, Register};
use parts::{Instance, Kind, Name};

// The cells of a definition's row, and how many instances there is room for.
const DEFINITION_WIDTH: usize = 16;

pub const INSTANCE_ROOM: usize = 32768;

// Where the instances begin, and where the cells end.
pub const ENTRIES: usize = basics::DEFINITION_LIMIT * DEFINITION_WIDTH;

pub const SIZE: usize = ENTRIES + INSTANCE_ROOM;

// How many places an instance's cell tells apart, how many rows, and how many instances of a body: no text is so long, none has more
// definitions, and no body has room for more. The two links stand above place and row.
const ENTRY_PLACES: u64 = 1048576;

const ENTRY_ROWS: u64 = basics::DEFINITION_LIMIT as u64;

const LINK_BOUND: u64 = 262144;

const ENTRY_LINKS: u64 = ENTRY_PLACES * ENTRY_ROWS;

// The numbers of a component: its kind's, and up to six of its own.
#[derive(Clone, Copy)]
pub struct Values {
    pub kind: u64,
    pub a: u64,
    pub b: u64,
    pub c: u64,
    pub d: u64,
    pub e: u64,
    pub f: u64,
}

// A row: a component, the first of its instances and how many, its name, and the type declared before it.
#[derive(Clone, Copy)]
pub struct Row {
    pub values: Values,
    pub first: u64,
    pub count: u64,
    pub name: Name,
    pub below: u64,
}

// The cells of a definition's instances: from one up to another.
#[derive(Clone, Copy)]
pub struct Span {
    pub from: usize,
    pub to: usize,
}

pub fn rank_of(kind: Kind) -> u64
    ensures { result ≡ rank kind }
{
    match kind {
        Kind::Addrmap => 0,
        Kind::Regfile => 1,
        Kind::Reg => 2,
        Kind::Field => 3,
    }
}

// The component of its numbers.
#[tactic(auto, unfolding(crate::specs::Cells::component_from))]
fn component_from(v: Values) -> Component
    ensures { result ≡ component_from v }
{
    match v.kind {
        3 => Component::Field(FieldType {
            sw: v.a,
            hw: v.b,
            onread: v.c,
            onwrite: v.d,
            reset: basics::given_from(v.e, v.f),
        }),
        2 => Component::Register(Register {
            width: v.a,
            access: v.b,
        }),
        1 => Component::Regfile(basics::given_from(v.a, v.b)),
        _ => Component::Addrmap(basics::given_from(v.a, v.b), basics::given_from(v.c, v.d)),
    }
}

fn field_values(field: FieldType) -> Values
    ensures { result ≡ values_of (Component.Field field) }
{
    Values {
        kind: 3,
        a: field.sw,
        b: field.hw,
        c: field.onread,
        d: field.onwrite,
        e: basics::flag_of(field.reset),
        f: basics::number_of(field.reset),
    }
}

fn register_values(register: Register) -> Values
    ensures { result ≡ values_of (Component.Register register) }
{
    Values {
        kind: 2,
        a: register.width,
        b: register.access,
        c: 0,
        d: 0,
        e: 0,
        f: 0,
    }
}

fn regfile_values(alignment: Option<u64>) -> Values
    ensures { result ≡ values_of (Component.Regfile alignment) }
{
    Values {
        kind: 1,
        a: basics::flag_of(alignment),
        b: basics::number_of(alignment),
        c: 0,
        d: 0,
        e: 0,
        f: 0,
    }
}

fn map_values(alignment: Option<u64>, addressing: Option<u64>) -> Values
    ensures { result ≡ values_of (Component.Addrmap alignment addressing) }
{
    Values {
        kind: 0,
        a: basics::flag_of(alignment),
        b: basics::number_of(alignment),
        c: basics::flag_of(addressing),
        d: basics::number_of(addressing),
        e: 0,
        f: 0,
    }
}

// The numbers of a component.
pub fn values_of(component: Component) -> Values
    ensures { result ≡ values_of component }
{
    match component {
        Component::Field(field) => field_values(field),
        Component::Register(register) => register_values(register),
        Component::Regfile(alignment) => regfile_values(alignment),
        Component::Addrmap(alignment, addressing) => map_values(alignment, addressing),
    }
}

#[tactic(auto, unfolding(crate::specs::Cells::values_in))]
fn values_at(cells: &[u64], row: usize) -> Values
    requires { row < definition_limit }
    ensures { result ≡ values_in cells.now row }
{
    let start = row * DEFINITION_WIDTH;
    Values {
        kind: basics::cell(cells, start),
        a: basics::cell(cells, start + 1),
        b: basics::cell(cells, start + 2),
        c: basics::cell(cells, start + 3),
        d: basics::cell(cells, start + 4),
        e: basics::cell(cells, start + 5),
        f: basics::cell(cells, start + 6),
    }
}

// The component of a row.
pub fn component_at(cells: &[u64], row: usize) -> Component
    requires { row < definition_limit }
    ensures { result ≡ component_in cells.now row }
{
    component_from(values_at(cells, row))
}

#[tactic(auto, unfolding(basics::specs::Slices::written))]
fn put_values(cells: &mut [u64], start: usize, v: Values)
    requires { start < entries_at }
    ensures { cells.new ≡ written cells.old start (value_cells v) }
{
    basics::put(cells, start, v.kind);
    basics::put(cells, start + 1, v.a);
    basics::put(cells, start + 2, v.b);
    basics::put(cells, start + 3, v.c);
    basics::put(cells, start + 4, v.d);
    basics::put(cells, start + 5, v.e);
    basics::put(cells, start + 6, v.f);
}

// Writes a row.
#[tactic(auto, unfolding(basics::specs::Slices::written))]
pub fn put_row(cells: &mut [u64], number: usize, row: Row)
    requires { number < definition_limit }
    ensures { cells.new ≡ written (written cells.old (number * definition_width) (value_cells row.values)) (number * definition_width + 7) (other_cells row) }
{
    let start = number * DEFINITION_WIDTH;
    put_values(cells, start, row.values);
    basics::put(cells, start + 7, row.first);
    basics::put(cells, start + 8, row.count);
    basics::put(cells, start + 9, row.name.start as u64);
    basics::put(cells, start + 10, row.name.end as u64);
    basics::put(cells, start + 11, row.below);
}

// A cell that holds an instance: the place of its name, its type's row, and the instances below it in the tree of its body's names.
#[tactic(auto, unfolding(crate::specs::Cells::entry_of))]
pub fn entry_of(place: usize, row: usize, left: usize, right: usize) -> u64
    requires { (place < entry_places) × (row < definition_limit) × (left < link_bound) × (right < link_bound) }
    ensures { result ≡ entry_of place row left right }
{
    place as u64
        + ENTRY_PLACES * (row as u64 + ENTRY_ROWS * (left as u64 + LINK_BOUND * right as u64))
}

#[tactic(auto, unfolding(crate::specs::Cells::place_in))]
pub fn place_in(entry: u64) -> usize
    ensures { (result ≡ place_in entry) × (result < entry_places) }
{
    (entry % ENTRY_PLACES) as usize
}

#[tactic(auto, unfolding(crate::specs::Cells::row_in))]
pub fn row_in(entry: u64) -> usize
    ensures { (result ≡ row_in entry) × (result < definition_limit) }
{
    (entry / ENTRY_PLACES % ENTRY_ROWS) as usize
}

#[tactic(auto, unfolding(crate::specs::Cells::left_in))]
pub fn left_in(entry: u64) -> usize
    ensures { (result ≡ left_in entry) × (result < link_bound) }
{
    (entry / ENTRY_LINKS % LINK_BOUND) as usize
}

#[tactic(auto, unfolding(crate::specs::Cells::right_in))]
pub fn right_in(entry: u64) -> usize
    ensures { (result ≡ right_in entry) × (result < link_bound) }
{
    (entry / ENTRY_LINKS / LINK_BOUND) as usize
}

// The cells of the instances of a row's definition.
pub fn instances_of(cells: &[u64], row: usize) -> Span
    requires { (row < definition_limit) × (first_in cells.now row + count_in cells.now row ≤ instance_room) }
    ensures { (result.from ≡ entries_at + first_in cells.now row) × (result.to ≡ result.from + count_in cells.now row) }
{
    let start = row * DEFINITION_WIDTH;
    let first = basics::cell(cells, start + 7);
    let count = basics::cell(cells, start + 8);
    let from = ENTRIES + first as usize;
    Span {
        from,
        to: from + count as usize,
    }
}

// The instance of a cell, read again at its place, behind its type's row; or the refusal that the text gives there.
#[tactic(auto, unfolding(crate::specs::Decoded::child_in))]
pub fn child_at(text: &[u8], cells: &[u64], i: usize) -> Result<(usize, Instance), Refusal>
    ensures { judged result ≡ child_in text.now (cell_of cells.now i) }
{
    let entry = basics::cell(cells, i);
    let (instance, _) = parts::read_instance(text, place_in(entry))?;
    Ok((row_in(entry), instance))
}

// The name of a row.
pub fn name_at(cells: &[u64], row: usize) -> Name
    requires { row < definition_limit }
    ensures { result ≡ name_in cells.now row }
{
    let start = row * DEFINITION_WIDTH;
    Name {
        start: basics::cell(cells, start + 9) as usize,
        end: basics::cell(cells, start + 10) as usize,
    }
}

// The type declared before that of a row: its row's number and one more, or 0.
#[tactic(auto, unfolding(crate::specs::Cells::below_in))]
fn below_at(cells: &[u64], row: usize) -> usize
    requires { row < definition_limit }
    ensures { (result ≡ below_in cells.now row) × (result ≤ row) }
{
    let below = basics::cell(cells, row * DEFINITION_WIDTH + 11) as usize;
    below.min(row)
}

// The row of the type that a name means, among those from a row's number (and one more) down to another's.
pub fn find_type(text: &[u8], cells: &[u64], head: usize, stop: usize, name: Name) -> Option<u64>
    requires { head ≤ definition_limit }
    ensures { result ≡ lookup text.now name (types_in cells.now stop head) }
{
    let mut at = head;
    while stop < at {
        let row = at - 1;
        let other = name_at(cells, row);
        if identifiers::same_name(text, name, other) {
            return Some(row as u64);
        }
        at = below_at(cells, row);
    }
    None
}

// Moves cells to higher ones, the last first.
#[tactic(auto, unfolding(crate::specs::Cells::moved))]
pub fn move_cells(cells: &mut [u64], from: usize, to: usize, count: usize)
    requires { (from + count < entry_places) × (to + count < entry_places) }
    ensures { cells.new ≡ moved cells.old from to count }
{
    for k in (0..count).rev() {
        let value = basics::cell(cells, from + k);
        basics::put(cells, to + k, value);
    }
}
