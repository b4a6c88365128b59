// Instances that are long to read, kept decoded on shelves behind the shapes: a pass that meets an instance again and again reads it once.
#![tactic(auto)]

ghost use Rattle.std.specs.Prelude.{◌≡◌, [], ◌+◌, ◌<◌, ◌≤◌, eqb};
ghost use Rattle.basics.specs.Judged.{judged};
ghost use Rattle.basics.specs.Limits.{definition_limit, index_bound};
ghost use Rattle.basics.specs.Slices.{cell_of, written};
ghost use Rattle.cells.specs.Cells.{instance_room, first_in, count_in};
ghost use Rattle.cells.specs.Decoded.{child_in};
ghost use Rattle.sizes.specs.Ready.{Ready};
ghost use Rattle.recall.specs.Encoded.{tag_of, operator_of, encoded_of, refusal_from, suffix_from, encoded_in, suffix_in, left_of, right_of, array_from, suffix_cells, instance_cells, instance_in};
ghost use Rattle.recall.specs.Shelves.{shelf_count, recall_size, shelf_at, Shelved};
ghost use Rattle.recall.specs.Kept.{reach_of, shelf_of, is_surely_short, kept_one, kept_at, kept_row, emptied, kept_long};

use basics::Refusal;
use expressions::Number;
use parts::{Array, Instance, Name, Suffix};
use sizes::Extent;

// How many shelves there are, and the cells of one: a place, and an instance.
const SHELF_COUNT: usize = 1024;

const SHELF_WIDTH: usize = 33;

// The cells of the shapes and of the shelves behind them.
pub const RECALL_SIZE: usize = sizes::SHAPES_SIZE + SHELF_COUNT * SHELF_WIDTH;

// A suffix in cells: 0 where it is missing, 1 where its number is sound, 2 where an operator refuses it; the places of mark and number,
// the number's value, and the operator's place.
#[derive(Clone, Copy)]
pub struct Encoded {
    pub tag: u64,
    pub place: u64,
    pub start: u64,
    pub value: u64,
    pub operator: u64,
}

// The operator that refuses a number, in two cells.
fn tag_of(operator: Option<usize>) -> u64
    ensures { result ≡ tag_of operator }
{
    match operator {
        None => 1,
        Some(_) => 2,
    }
}

fn operator_of(operator: Option<usize>) -> u64
    ensures { result ≡ operator_of operator }
{
    match operator {
        None => 0,
        Some(place) => place as u64,
    }
}

fn refusal_from(tag: u64, operator: u64) -> Option<usize>
    ensures { result ≡ refusal_from tag operator }
{
    if tag == 1 {
        None
    } else {
        Some(operator as usize)
    }
}

fn encoded_of(suffix: Suffix) -> Encoded
    ensures { result ≡ encoded_of suffix }
{
    match suffix {
        None => Encoded {
            tag: 0,
            place: 0,
            start: 0,
            value: 0,
            operator: 0,
        },
        Some((place, number)) => Encoded {
            tag: tag_of(number.refusal),
            place: place as u64,
            start: number.place as u64,
            value: number.value,
            operator: operator_of(number.refusal),
        },
    }
}

#[tactic(auto, unfolding(crate::specs::Encoded::suffix_from))]
fn suffix_from(encoded: Encoded) -> Suffix
    ensures { result ≡ suffix_from encoded }
{
    if encoded.tag == 0 {
        return None;
    }
    let number = Number {
        value: encoded.value,
        place: encoded.start as usize,
        refusal: refusal_from(encoded.tag, encoded.operator),
    };
    Some((encoded.place as usize, number))
}

#[tactic(auto, unfolding(crate::specs::Encoded::encoded_in))]
fn encoded_at(shapes: &[u64], at: usize) -> Encoded
    requires { at ≤ index_bound }
    ensures { result ≡ encoded_in shapes.now at }
{
    Encoded {
        tag: basics::cell(shapes, at),
        place: basics::cell(shapes, at + 1),
        start: basics::cell(shapes, at + 2),
        value: basics::cell(shapes, at + 3),
        operator: basics::cell(shapes, at + 4),
    }
}

fn suffix_at(shapes: &[u64], at: usize) -> Suffix
    requires { at ≤ index_bound }
    ensures { result ≡ suffix_in shapes.now at }
{
    suffix_from(encoded_at(shapes, at))
}

fn put_suffix(shapes: &mut [u64], at: usize, suffix: Suffix)
    requires { at ≤ index_bound }
    ensures { shapes.new ≡ written shapes.old at (suffix_cells suffix []) }
{
    let encoded = encoded_of(suffix);
    basics::put(shapes, at, encoded.tag);
    basics::put(shapes, at + 1, encoded.place);
    basics::put(shapes, at + 2, encoded.start);
    basics::put(shapes, at + 3, encoded.value);
    basics::put(shapes, at + 4, encoded.operator);
}

// An array is kept as two suffixes, both with its own place: the second is there for a range only.
fn left_of(array: Array) -> Suffix
    ensures { result ≡ left_of array }
{
    match array {
        Array::Missing => None,
        Array::Size(place, number) | Array::Range(place, number, _) => Some((place, number)),
    }
}

fn right_of(array: Array) -> Suffix
    ensures { result ≡ right_of array }
{
    match array {
        Array::Missing | Array::Size(_, _) => None,
        Array::Range(place, _, right) => Some((place, right)),
    }
}

fn array_from(first: Suffix, second: Suffix) -> Array
    ensures { result ≡ array_from first second }
{
    match (first, second) {
        (None, _) => Array::Missing,
        (Some((place, left)), None) => Array::Size(place, left),
        (Some((place, left)), Some((_, right))) => Array::Range(place, left, right),
    }
}

// The instance in the cells from an index on.
#[tactic(auto, unfolding(crate::specs::Encoded::instance_in))]
fn instance_at(shapes: &[u64], at: usize) -> Instance
    requires { at ≤ recall_size }
    ensures { result ≡ instance_in shapes.now at }
{
    Instance {
        name: Name {
            start: basics::cell(shapes, at) as usize,
            end: basics::cell(shapes, at + 1) as usize,
        },
        array: array_from(suffix_at(shapes, at + 2), suffix_at(shapes, at + 7)),
        reset: suffix_at(shapes, at + 12),
        address: suffix_at(shapes, at + 17),
        stride: suffix_at(shapes, at + 22),
        alignment: suffix_at(shapes, at + 27),
    }
}

// Writes an instance into the cells from an index on.
fn put_instance(shapes: &mut [u64], at: usize, instance: Instance)
    requires { at ≤ recall_size }
    ensures { shapes.new ≡ written shapes.old at (instance_cells instance) }
{
    basics::put(shapes, at, instance.name.start as u64);
    basics::put(shapes, at + 1, instance.name.end as u64);
    put_suffix(shapes, at + 2, left_of(instance.array));
    put_suffix(shapes, at + 7, right_of(instance.array));
    put_suffix(shapes, at + 12, instance.reset);
    put_suffix(shapes, at + 17, instance.address);
    put_suffix(shapes, at + 22, instance.stride);
    put_suffix(shapes, at + 27, instance.alignment);
}

// How many bytes make an instance long: a text's share for one shelf, so that no two long ones meet on a shelf. This and the choice of the
// shelf are a matter of speed.
#[tactic(auto, unfolding(crate::specs::Kept::reach_of))]
fn reach(length: usize) -> usize
    ensures { result ≡ reach_of length }
{
    length / SHELF_COUNT + 1
}

// The shelf of a place.
fn shelf_of(length: usize, place: usize) -> usize
    ensures { (result ≡ shelf_of length place) × (result < shelf_count) }
{
    place / reach(length) % SHELF_COUNT
}

// Whether the instance of a cell is surely short, since that of the next cell begins so near behind it. The next cell may belong to another
// body, which then stands elsewhere.
fn is_surely_short(length: usize, cells: &[u64], i: usize) -> bool
    ensures { result ≡ is_surely_short length cells.now i }
{
    if cells.len() <= i {
        return false;
    }
    let place = cells::place_in(cells[i]);
    let next = cells::place_in(basics::cell(cells, i + 1));
    if next <= place {
        return false;
    }
    next - place < reach(length)
}

// The first cell of a shelf.
fn shelf_at(shelf: usize) -> usize
    requires { shelf < shelf_count }
    ensures { result ≡ shelf_at shelf }
{
    sizes::SHAPES_SIZE + shelf * SHELF_WIDTH
}

// Whether the shelf from a cell on holds the instance of a place.
fn is_on_shelf(shapes: &[u64], at: usize, place: usize) -> bool
    ensures { result ≡ eqb (cell_of shapes.now at) (place + 1) }
{
    let key = basics::cell(shapes, at);
    if key == 0 {
        return false;
    }
    key - 1 == place as u64
}

// The instance of a cell: from its shelf if it is there, else read again at its place.
pub fn child_at(
    text: &[u8],
    cells: &[u64],
    shapes: &[u64],
    i: usize,
) -> Result<(usize, Instance), Refusal>
    requires { Shelved text.now shapes.now }
    ensures { judged result ≡ child_in text.now (cell_of cells.now i) }
{
    if is_surely_short(text.len(), cells, i) {
        return cells::child_at(text, cells, i);
    }
    let entry = basics::cell(cells, i);
    let place = cells::place_in(entry);
    let at = shelf_at(shelf_of(text.len(), place));
    if is_on_shelf(shapes, at, place) {
        return Ok((cells::row_in(entry), instance_at(shapes, at + 1)));
    }
    cells::child_at(text, cells, i)
}

// Empties all shelves.
fn clear_shelves(shapes: &mut [u64])
    ensures { shapes.new ≡ emptied shapes.old }
{
    for shelf in 0..SHELF_COUNT {
        basics::put(shapes, shelf_at(shelf), 0);
    }
}

// Keeps the instance of a place, if it is long: from its place to the word behind it, which is looked at whenever it is read.
fn keep(text: &[u8], shapes: &mut [u64], place: usize, instance: Instance, next: usize)
    ensures { shapes.new ≡ kept_one text.now shapes.old place instance next }
{
    let end = lex::next_token(text, next).start;
    if end <= place {
        return;
    }
    if end - place < reach(text.len()) {
        return;
    }
    let at = shelf_at(shelf_of(text.len(), place));
    basics::put(shapes, at, place as u64 + 1);
    put_instance(shapes, at + 1, instance);
}

// Reads the instance of a cell, and keeps it if it is long.
fn keep_at(text: &[u8], cells: &[u64], shapes: &mut [u64], i: usize)
    ensures { shapes.new ≡ kept_at text.now cells.now shapes.old i }
{
    if is_surely_short(text.len(), cells, i) {
        return;
    }
    let place = cells::place_in(basics::cell(cells, i));
    if let Ok((instance, next)) = parts::read_instance(text, place) {
        keep(text, shapes, place, instance, next);
    }
}

// Keeps the long ones of a definition's instances; those of the map itself are read once anyway.
fn keep_row(text: &[u8], cells: &[u64], shapes: &mut [u64], extent: Extent, row: usize)
    requires { (row < definition_limit) × (first_in cells.now row + count_in cells.now row ≤ instance_room) }
    ensures { shapes.new ≡ kept_row text.now cells.now extent.map shapes.old row }
{
    if row == extent.map {
        return;
    }
    let span = cells::instances_of(cells, row);
    for i in span.from..span.to {
        keep_at(text, cells, shapes, i);
    }
}

// Empties all shelves, and keeps the long instances of all definitions but the map. The shapes stay.
pub fn keep_long_instances(text: &[u8], cells: &[u64], shapes: &mut [u64], extent: Extent)
    requires { Ready text.now cells.now extent }
    ensures { shapes.new ≡ kept_long text.now cells.now shapes.old extent }
{
    clear_shelves(shapes);
    for row in 0..extent.rows {
        keep_row(text, cells, shapes, extent, row);
    }
}
