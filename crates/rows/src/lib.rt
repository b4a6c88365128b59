// The rows of a map in four tables, and whether rows are lawful.
// A register's row has 14 numbers, its path 9 names of 32 bytes; a field's row has 8 numbers, its label is a name of 32 bytes.
#![tactic(auto)]

ghost use Rattle.std.specs.Prelude.{◌≡◌, ◌+◌, ◌*◌, ◌≤◌};
ghost use Rattle.basics.specs.Limits.{nest_limit, register_limit, field_limit, field_row_width, index_bound, sum_bound};
ghost use Rattle.rows.specs.Rows.{tables};
ghost use Rattle.rows.specs.Lawful.{follows, all_follow, is_name, are_zero, are_names, are_indices, are_same, register_row, is_placed, is_run, is_path, is_path_cell, is_index, field_row, field_values, is_ranged, is_sound_field, is_reset_form, is_field_row, are_field_rows, is_register_row, are_rows, are_whole, lawful};

use fields::{BitPlace, FieldAt, FieldType, Offset, Probe};

// The steps that a path may have below the map, and its names: the map's and those of the steps.
const STEPS: u64 = basics::NEST_LIMIT as u64;

const NAMES: u64 = STEPS + 1;

// A register's address, widths, first field row and number of field rows, and the number of names below the map.
#[derive(Clone, Copy)]
pub struct RegisterRow {
    pub address: Offset,
    pub width: u64,
    pub access: u64,
    pub first: u64,
    pub count: u64,
    pub depth: u64,
}

// Whether a byte of a name's cell may follow another.
#[tactic(auto, unfolding(crate::specs::Lawful::follows))]
fn follows_byte(before: u8, byte: u8) -> bool
    ensures { result ≡ follows before byte }
{
    byte == 0 || before != 0 && chars::is_name_byte(byte)
}

#[tactic(auto, using(crate::proofs::Loops::follows_on), unfolding(crate::specs::Lawful::all_follow))]
fn all_follow(bytes: &[u8], start: usize, count: usize) -> bool
    requires { (start ≤ sum_bound) × (count ≤ sum_bound) }
    ensures { result ≡ all_follow bytes.now start count }
{
    for k in 0..count {
        let before = chars::byte_at(bytes, start + k);
        let byte = chars::byte_at(bytes, start + (k + 1));
        if !follows_byte(before, byte) {
            return false;
        }
    }
    true
}

// Whether the 32 bytes from an index on are a name.
#[tactic(auto, unfolding(crate::specs::Lawful::is_name))]
fn is_name(bytes: &[u8], at: usize) -> bool
    requires { at ≤ sum_bound }
    ensures { result ≡ is_name bytes.now at }
{
    chars::is_letter(chars::byte_at(bytes, at))
        && all_follow(bytes, at, basics::NAME_LIMIT)
        && chars::byte_at(bytes, at + basics::NAME_LIMIT) == 0
}

#[tactic(auto, using(crate::proofs::Loops::zero_on), unfolding(crate::specs::Lawful::are_zero))]
fn are_zero(bytes: &[u8], start: usize, count: usize) -> bool
    requires { (start ≤ sum_bound) × (count ≤ sum_bound) }
    ensures { result ≡ are_zero bytes.now start count }
{
    for k in 0..count {
        if chars::byte_at(bytes, start + k) != 0 {
            return false;
        }
    }
    true
}

// Whether a cell of a path is a name, or zeros behind the path's end.
#[tactic(auto, unfolding(crate::specs::Lawful::is_path_cell))]
fn is_path_cell(paths: &[u8], at: usize, k: u64, depth: u64) -> bool
    requires { at ≤ sum_bound }
    ensures { result ≡ is_path_cell paths.now depth at k }
{
    if k <= depth {
        is_name(paths, at)
    } else {
        are_zero(paths, at, basics::NAME_WIDTH)
    }
}

#[tactic(auto, using(crate::proofs::Loops::names_on), unfolding(crate::specs::Lawful::are_names))]
fn are_names(paths: &[u8], start: usize, depth: u64) -> bool
    requires { start ≤ index_bound }
    ensures { result ≡ are_names paths.now depth start 0 (nest_limit + 1) }
{
    for k in 0..NAMES {
        if !is_path_cell(paths, start + k as usize * basics::NAME_WIDTH, k, depth) {
            return false;
        }
    }
    true
}

#[tactic(auto, unfolding(crate::specs::Lawful::is_index))]
fn is_index(index: u64, k: u64, depth: u64) -> bool
    ensures { result ≡ is_index depth k index }
{
    if k < depth {
        index <= basics::ARRAY_LIMIT
    } else {
        index == 0
    }
}

#[tactic(auto, using(crate::proofs::Loops::indices_on), unfolding(crate::specs::Lawful::are_indices))]
fn are_indices(registers: &[u64], start: usize, depth: u64) -> bool
    requires { start ≤ index_bound }
    ensures { result ≡ are_indices registers.now depth start 0 nest_limit }
{
    for k in 0..STEPS {
        if !is_index(basics::cell(registers, start + k as usize), k, depth) {
            return false;
        }
    }
    true
}

#[tactic(auto, using(crate::proofs::Loops::same_on), unfolding(crate::specs::Lawful::are_same))]
fn are_same(bytes: &[u8], a: usize, b: usize, count: usize) -> bool
    requires { (a ≤ sum_bound) × (b ≤ sum_bound) × (count ≤ sum_bound) }
    ensures { result ≡ are_same bytes.now a b count }
{
    for k in 0..count {
        if chars::byte_at(bytes, a + k) != chars::byte_at(bytes, b + k) {
            return false;
        }
    }
    true
}

// A register's row.
#[tactic(auto, unfolding(crate::specs::Lawful::register_row))]
pub fn register_row(registers: &[u64], i: usize) -> RegisterRow
    requires { i ≤ index_bound }
    ensures { result ≡ register_row registers.now i }
{
    let start = i * basics::REGISTER_ROW_WIDTH;
    RegisterRow {
        address: Offset(basics::cell(registers, start)),
        width: basics::cell(registers, start + 1),
        access: basics::cell(registers, start + 2),
        first: basics::cell(registers, start + 3),
        count: basics::cell(registers, start + 4),
        depth: basics::cell(registers, start + 5),
    }
}

// The ranges of the widths, 14 and 20.
#[tactic(auto, using(crate::proofs::Registers::width_parts), unfolding(crate::specs::Lawful::is_placed))]
fn is_placed(row: RegisterRow) -> bool
    ensures { result ≡ is_placed row }
{
    fields::is_width(row.width)
        && fields::is_width(row.access)
        && row.access <= row.width
        && row.address.0 % (row.access / 8) == 0
        && row.address.0 <= basics::ADDRESS_END
        && row.address.0 + row.width / 8 <= basics::ADDRESS_END
}

// A run of field rows, not empty, from a field row on, among all.
#[tactic(auto, unfolding(crate::specs::Lawful::is_run))]
fn is_run(all: usize, first: usize, row: RegisterRow) -> bool
    requires { first ≤ all }
    ensures { result ≡ is_run all first row }
{
    row.first == first as u64 && 0 < row.count && row.count <= (all - first) as u64
}

// A path of 1 to 8 names below the map, whose name is the first row's.
#[tactic(auto, unfolding(crate::specs::Lawful::is_path))]
fn is_path(registers: &[u64], paths: &[u8], i: usize, depth: u64) -> bool
    requires { i ≤ register_limit }
    ensures { result ≡ is_path registers.now paths.now i depth }
{
    let start = i * basics::PATH_ROW_WIDTH;
    0 < depth
        && depth <= STEPS
        && are_indices(registers, i * basics::REGISTER_ROW_WIDTH + 6, depth)
        && are_names(paths, start, depth)
        && are_same(paths, 0, start, basics::NAME_WIDTH)
}

// A field of a field row.
#[tactic(auto, unfolding(crate::specs::Lawful::field_row))]
pub fn field_row(fields: &[u64], j: usize) -> FieldAt
    requires { j ≤ index_bound }
    ensures { result ≡ field_row fields.now j }
{
    let start = j * basics::FIELD_ROW_WIDTH;
    FieldAt {
        low: BitPlace(basics::cell(fields, start)),
        high: BitPlace(basics::cell(fields, start + 1)),
        values: field_values(fields, start),
    }
}

#[tactic(auto, unfolding(crate::specs::Lawful::field_values))]
fn field_values(fields: &[u64], start: usize) -> FieldType
    requires { start ≤ index_bound * field_row_width }
    ensures { result ≡ field_values fields.now start }
{
    let flag = basics::cell(fields, start + 6);
    let number = basics::cell(fields, start + 7);
    FieldType {
        sw: basics::cell(fields, start + 2),
        hw: basics::cell(fields, start + 3),
        onread: basics::cell(fields, start + 4),
        onwrite: basics::cell(fields, start + 5),
        reset: basics::given_from(flag, number),
    }
}

#[tactic(auto, unfolding(crate::specs::Lawful::is_ranged))]
fn is_ranged(field: FieldAt) -> bool
    ensures { result ≡ is_ranged field }
{
    let values = field.values;
    values.sw <= 3 && values.hw <= 3 && values.onread <= 2 && values.onwrite <= 8
}

// Left not below right; 12, 13 and 15.
#[tactic(auto, unfolding(crate::specs::Lawful::is_sound_field, fields::specs::Fields::is_outside, fields::specs::Fields::breaks))]
fn is_sound_field(width: u64, field: FieldAt) -> bool
    requires { width ≤ 64 }
    ensures { result ≡ is_sound_field width field }
{
    field.low.0 <= field.high.0
        && field.high.0 < width
        && !fields::has_unusable_effect(field.values)
        && !fields::breaks_rule(Probe::Wide, field)
}

#[tactic(auto, unfolding(crate::specs::Lawful::is_reset_form))]
fn is_reset_form(flag: u64, reset: u64) -> bool
    ensures { result ≡ is_reset_form flag reset }
{
    flag == 1 || flag == 0 && reset == 0
}

#[tactic(auto, unfolding(crate::specs::Lawful::is_field_row))]
fn is_field_row(fields: &[u64], labels: &[u8], width: u64, j: usize) -> bool
    requires { (width ≤ 64) × (j ≤ field_limit) }
    ensures { result ≡ is_field_row fields.now labels.now width j }
{
    let field = field_row(fields, j);
    let flag = basics::cell(fields, j * basics::FIELD_ROW_WIDTH + 6);
    let reset = basics::cell(fields, j * basics::FIELD_ROW_WIDTH + 7);
    is_ranged(field)
        && is_sound_field(width, field)
        && is_reset_form(flag, reset)
        && is_name(labels, j * basics::NAME_WIDTH)
}

#[tactic(auto, using(crate::proofs::Loops::fields_on), unfolding(crate::specs::Lawful::are_field_rows))]
fn are_field_rows(fields: &[u64], labels: &[u8], width: u64, first: usize, count: usize) -> bool
    requires { (width ≤ 64) × (first + count ≤ field_limit) }
    ensures { result ≡ are_field_rows fields.now labels.now width first count }
{
    for k in 0..count {
        if !is_field_row(fields, labels, width, first + k) {
            return false;
        }
    }
    true
}

#[tactic(auto, using(crate::proofs::Registers::row_asks), unfolding(crate::specs::Lawful::is_register_row))]
fn is_register_row(
    registers: &[u64],
    paths: &[u8],
    fields: &[u64],
    labels: &[u8],
    all: usize,
    i: usize,
    first: usize,
) -> bool
    requires { (i ≤ register_limit) × (first ≤ all) × (all ≤ field_limit) }
    ensures { result ≡ is_register_row (tables registers.now paths.now fields.now labels.now) all i first }
{
    let row = register_row(registers, i);
    is_placed(row)
        && is_run(all, first, row)
        && is_path(registers, paths, i, row.depth)
        && are_field_rows(fields, labels, row.width, first, row.count as usize)
}

#[tactic(auto, using(crate::proofs::Loops::rows_on, crate::proofs::Registers::row_fits), unfolding(crate::specs::Lawful::are_rows))]
fn are_rows(
    registers: &[u64],
    paths: &[u8],
    fields: &[u64],
    labels: &[u8],
    all: usize,
    count: usize,
) -> bool
    requires { (count ≤ register_limit) × (all ≤ field_limit) }
    ensures { result ≡ are_rows (tables registers.now paths.now fields.now labels.now) all 0 0 count }
{
    let mut first = 0;
    for i in 0..count {
        if !is_register_row(registers, paths, fields, labels, all, i, first) {
            return false;
        }
        let row = register_row(registers, i);
        first += row.count as usize;
    }
    first == all
}

// Whether the tables have whole rows only, and as many as the limits allow.
#[tactic(auto, unfolding(crate::specs::Lawful::are_whole))]
fn are_whole(registers: usize, paths: usize, fields: usize, labels: usize) -> bool
    ensures { result ≡ are_whole registers paths fields labels }
{
    let count = registers / basics::REGISTER_ROW_WIDTH;
    let all = fields / basics::FIELD_ROW_WIDTH;
    count <= basics::REGISTER_LIMIT
        && all <= basics::FIELD_LIMIT
        && 0 < count
        && registers == count * basics::REGISTER_ROW_WIDTH
        && paths == count * basics::PATH_ROW_WIDTH
        && fields == all * basics::FIELD_ROW_WIDTH
        && labels == all * basics::NAME_WIDTH
}

// Whether rows are lawful.
#[tactic(auto, unfolding(crate::specs::Lawful::lawful, crate::specs::Lawful::are_whole))]
pub fn are_lawful(registers: &[u64], paths: &[u8], fields: &[u64], labels: &[u8]) -> bool
    ensures { result ≡ lawful (tables registers.now paths.now fields.now labels.now) }
{
    let count = registers.len() / basics::REGISTER_ROW_WIDTH;
    let all = fields.len() / basics::FIELD_ROW_WIDTH;
    are_whole(registers.len(), paths.len(), fields.len(), labels.len())
        && are_rows(registers, paths, fields, labels, all, count)
}
