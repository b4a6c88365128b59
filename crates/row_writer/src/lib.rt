// Writes the rows of a map into four lent tables.
#![tactic(auto)]

ghost use Rattle.std.specs.Prelude.{◌≡◌, [], ◌++◌, ◌+◌, ◌*◌, ◌<◌, ◌≤◌, length, set};
ghost use Rattle.basics.specs.Limits.{nest_limit, register_limit, field_limit, register_row_width, field_row_width, path_row_width, index_bound, sum_bound};
ghost use Rattle.basics.specs.Slices.{written};
ghost use Rattle.cells.specs.Cells.{name_in};
ghost use Rattle.rows.specs.Rows.{name_cell, field_cells, register_table, path_table, field_table, label_table};
ghost use Rattle.register_log.specs.Log.{log_width};
ghost use Rattle.map_walk.specs.Walks.{Shaped, registers_of};
ghost use Rattle.overlaps.specs.Charted.{Charted};
ghost use Rattle.row_writer.specs.Entries.{bytes_in, with_field, widths_of};
ghost use Rattle.row_writer.specs.Writes.{names_in, indices_in, numbers_in, RunWrites, fields_in, entries_in};

use components::Component;
use fields::{BitPlace, FieldAt, Register};
use parts::Name;
use sizes::Extent;

// The tables that rows are written to end where they end: past it nothing changes.
fn put_byte(names: &mut [u8], i: usize, value: u8)
    ensures { names.new ≡ set names.old i value }
{
    if i < names.len() {
        names[i] = value;
    }
}

// Writes a name's cell of 32 bytes.
fn write_name(names: &mut [u8], at: usize, name: &[u8])
    requires { at ≤ sum_bound }
    ensures { names.new ≡ written names.old at (name_cell name.now) }
{
    for k in 0..basics::NAME_WIDTH {
        put_byte(names, at + k, chars::byte_at(name, k));
    }
}

// Writes the names of a path of the log, from a place on: 8 cells.
fn write_steps(text: &[u8], log: &[u64], steps: usize, paths: &mut [u8], at: usize)
    requires { (steps ≤ index_bound) × (at ≤ index_bound) }
    ensures { paths.new ≡ written paths.old at (names_in text.now log.now steps nest_limit) }
{
    for k in 0..basics::NEST_LIMIT {
        let step = basics::cell(log, steps + k);
        let start = register_log::step_start(step);
        let end = register_log::step_end(step);
        let name = identifiers::bytes_of(text, start, end);
        write_name(paths, at + k * basics::NAME_WIDTH, name);
    }
}

// Writes a path's row: the map's name, then the path of the log.
#[tactic(auto, using(crate::proofs::Cells::path_put))]
fn write_path(text: &[u8], log: &[u64], i: usize, title: Name, paths: &mut [u8])
    requires { i ≤ register_limit }
    ensures { paths.new ≡ written paths.old (i * path_row_width) (name_cell (bytes_in text.now title) ++ names_in text.now log.now (i * log_width + 1) nest_limit) }
{
    let at = i * basics::PATH_ROW_WIDTH;
    let name = identifiers::bytes_of(text, title.start, title.end);
    write_name(paths, at, name);
    let steps = i * register_log::LOG_WIDTH + 1;
    write_steps(text, log, steps, paths, at + basics::NAME_WIDTH);
}

// Writes the indices of a path of the log: 8 numbers.
fn write_indices(log: &[u64], steps: usize, registers: &mut [u64], at: usize)
    requires { (steps ≤ index_bound) × (at ≤ index_bound) }
    ensures { registers.new ≡ written registers.old at (indices_in log.now steps nest_limit) }
{
    for k in 0..basics::NEST_LIMIT {
        let step = basics::cell(log, steps + k);
        basics::put(registers, at + k, register_log::step_index(step));
    }
}

fn register_of(component: Component) -> Register
    ensures { result ≡ widths_of component }
{
    match component {
        Component::Register(register) => register,
        _ => Register::fresh(),
    }
}

// Writes a register's row, whose fields are so many from the field row `first` on.
fn write_register(
    cells: &[u64],
    log: &[u64],
    i: usize,
    first: usize,
    count: usize,
    registers: &mut [u64],
)
    requires { i ≤ register_limit }
    ensures { registers.new ≡ written registers.old (i * register_row_width) (numbers_in cells.now log.now i first count) }
{
    let start = i * register_log::LOG_WIDTH;
    let head = basics::cell(log, start);
    let row = register_log::head_row(head);
    let address = register_log::head_address(head);
    let depth = register_log::head_depth(head);
    let register = register_of(cells::component_at(cells, row));
    let at = i * basics::REGISTER_ROW_WIDTH;
    basics::put(registers, at, address);
    basics::put(registers, at + 1, register.width);
    basics::put(registers, at + 2, register.access);
    basics::put(registers, at + 3, first as u64);
    basics::put(registers, at + 4, count as u64);
    basics::put(registers, at + 5, depth as u64);
    write_indices(log, start + 1, registers, at + 6);
}

// Writes a field's row.
#[tactic(auto, unfolding(basics::specs::Slices::written, rows::specs::Rows::field_cells))]
fn write_field(fields: &mut [u64], j: usize, field: FieldAt)
    requires { j ≤ index_bound }
    ensures { fields.new ≡ written fields.old (j * field_row_width) (field_cells field) }
{
    let at = j * basics::FIELD_ROW_WIDTH;
    let values = field.values;
    let reset = values.reset;
    basics::put(fields, at, field.low.0);
    basics::put(fields, at + 1, field.high.0);
    basics::put(fields, at + 2, values.sw);
    basics::put(fields, at + 3, values.hw);
    basics::put(fields, at + 4, values.onread);
    basics::put(fields, at + 5, values.onwrite);
    basics::put(fields, at + 6, basics::flag_of(reset));
    basics::put(fields, at + 7, basics::number_of(reset));
}

// Writes a field's row and its label, where an instance is a field; answers the next field row.
fn write_placed(
    text: &[u8],
    placed: Option<FieldAt>,
    name: Name,
    fields: &mut [u64],
    labels: &mut [u8],
    j: usize,
) -> usize
    requires { j ≤ index_bound }
    ensures { RunWrites fields.old fields.new labels.old labels.new j (with_field (bytes_in text.now name) placed []) result }
{
    match placed {
        None => j,
        Some(field) => {
            write_field(fields, j, field);
            let label = identifiers::bytes_of(text, name.start, name.end);
            write_name(labels, j * basics::NAME_WIDTH, label);
            j + 1
        }
    }
}

// Writes the rows of a register's fields from a field row on; answers the next field row.
fn write_run(
    text: &[u8],
    cells: &[u64],
    shapes: &[u64],
    extent: Extent,
    row: usize,
    fields: &mut [u64],
    labels: &mut [u8],
    first: usize,
) -> usize
    requires { Shaped text.now cells.now shapes.now extent × (row < extent.rows) × (first ≤ field_limit) }
    ensures { RunWrites fields.old fields.new labels.old labels.new first (fields_in text.now cells.now extent row) result }
{
    let span = cells::instances_of(cells, row);
    let mut next = BitPlace(0);
    let mut j = first;
    for i in span.from..span.to {
        let Ok((inner, instance)) = recall::child_at(text, cells, shapes, i) else {
            // never so: the cells hold readable instances
            break;
        };
        let component = cells::component_at(cells, inner);
        let placed = closing_rules::placed_as(component, next, instance);
        j = write_placed(text, placed, instance.name, fields, labels, j);
        next = closing_rules::bit_above(placed, next);
    }
    j
}

// Writes the rows of all registers of the log; the lent tables stay four slices.
pub fn write_rows(
    text: &[u8],
    cells: &[u64],
    shapes: &[u64],
    log: &[u64],
    extent: Extent,
    count: usize,
    registers: &mut [u64],
    paths: &mut [u8],
    fields: &mut [u64],
    labels: &mut [u8],
)
    requires { Charted text.now cells.now shapes.now log.now extent extent.map × (count ≡ length (registers_of text.now cells.now extent extent.map)) }
    ensures of_registers { registers.new ≡ written registers.old 0 (register_table 0 (entries_in text.now cells.now extent extent.map)) }
    ensures of_paths { paths.new ≡ written paths.old 0 (path_table (bytes_in text.now (name_in cells.now extent.map)) (entries_in text.now cells.now extent extent.map)) }
    ensures of_fields { fields.new ≡ written fields.old 0 (field_table (entries_in text.now cells.now extent extent.map)) }
    ensures of_labels { labels.new ≡ written labels.old 0 (label_table (entries_in text.now cells.now extent extent.map)) }
{
    let title = cells::name_at(cells, extent.map);
    let mut first = 0;
    for i in 0..count {
        let row = register_log::head_row(basics::cell(log, i * register_log::LOG_WIDTH));
        write_path(text, log, i, title, paths);
        let next = write_run(text, cells, shapes, extent, row, fields, labels, first);
        write_register(cells, log, i, first, next - first, registers);
        first = next;
    }
}
