// The listing of a map: its rows as key=value lines.
#![tactic(auto)]

ghost use Rattle.std.specs.Prelude.{◌≡◌, ◌++◌, ◌+◌, ◌*◌, ◌≤◌, length};
ghost use Rattle.basics.specs.Limits.{nest_limit, register_limit, register_row_width, name_width, path_row_width, index_bound, sum_bound};
ghost use Rattle.basics.specs.Judged.{outcome};
ghost use Rattle.chars.specs.Ascii.{bytes};
ghost use Rattle.lines.specs.Text.{line};
ghost use Rattle.lines.specs.Sinks.{Pours};
ghost use Rattle.rows.specs.Rows.{tables};
ghost use Rattle.rows.specs.Lawful.{register_row, field_row};
ghost use Rattle.rows.specs.Reading.{name_at, index_from, steps_from, path_in, fields_from, entry_in, rows_in};
ghost use Rattle.listing.specs.Listing.{index_text, step_text, path_text, field_lines, fields_lines, head_lines, entry_lines, listing_of, listed, output_of, listed_numbers, listing_numbers};
ghost use Rattle.listing.specs.Bounds.{Bounded, AllBounded};

use basics::Rule;
use lines::Sink;

// How many bytes were written, or the rule that is broken.
pub type Listed = Result<usize, Rule>;

// Pours the name of a cell of 32 bytes.
pub fn put_name(out: &mut [u8], room: usize, start: Sink, names: &[u8], at: usize) -> Sink
    requires { at ≤ sum_bound }
    ensures { Pours room out.old out.new start (name_at names.now at) result }
{
    let mut sink = start;
    for k in 0..basics::NAME_WIDTH {
        let byte = chars::byte_at(names, at + k);
        if byte == 0 {
            return sink;
        }
        sink = lines::put_byte(out, room, sink, byte);
    }
    sink
}

// Pours an element's index from its cell: the index and one more, or 0.
#[tactic(auto, using(lines::proofs::Pouring::appends), unfolding(lines::specs::Sinks::poured, lines::specs::Sinks::filled))]
fn put_index(out: &mut [u8], room: usize, start: Sink, index: u64) -> Sink
    ensures { Pours room out.old out.new start (index_text (index_from index)) result }
{
    if index == 0 {
        return start;
    }
    let mut sink = lines::put_bytes(out, room, start, b"[");
    sink = lines::put_decimal(out, room, sink, index - 1);
    lines::put_bytes(out, room, sink, b"]")
}

// Pours a step of a path.
#[tactic(auto, using(lines::proofs::Pouring::pouring), unfolding(crate::specs::Listing::step_text))]
fn put_step(out: &mut [u8], room: usize, start: Sink, paths: &[u8], name: usize, index: u64) -> Sink
    requires { name ≤ sum_bound }
    ensures { Pours room out.old out.new start (step_text (record { name = name_at paths.now name; index = index_from index })) result }
{
    let mut sink = lines::put_bytes(out, room, start, b".");
    sink = put_name(out, room, sink, paths, name);
    put_index(out, room, sink, index)
}

// Pours the steps of a path, whose indices and names stand from these places on.
fn put_steps(
    out: &mut [u8],
    room: usize,
    start: Sink,
    registers: &[u64],
    paths: &[u8],
    index: usize,
    name: usize,
    count: u64,
) -> Sink
    requires { (index ≤ index_bound) × (name ≤ index_bound) × (count ≤ nest_limit) }
    ensures { Pours room out.old out.new start (path_text (steps_from registers.now paths.now index name count)) result }
{
    let mut sink = start;
    for k in 0..count as usize {
        let code = basics::cell(registers, index + k);
        sink = put_step(out, room, sink, paths, name + k * basics::NAME_WIDTH, code);
    }
    sink
}

#[tactic(auto, using(lines::proofs::Lines::parts))]
fn put_name_line(
    out: &mut [u8],
    room: usize,
    start: Sink,
    key: &[u8],
    names: &[u8],
    at: usize,
) -> Sink
    requires { at ≤ sum_bound }
    ensures { Pours room out.old out.new start (line key.now (name_at names.now at)) result }
{
    let mut sink = lines::put_bytes(out, room, start, key);
    sink = put_name(out, room, sink, names, at);
    lines::put_line_end(out, room, sink)
}

#[tactic(auto, using(lines::proofs::Pouring::appends), unfolding(crate::specs::Listing::field_lines))]
fn put_field_lines(
    out: &mut [u8],
    room: usize,
    start: Sink,
    fields: &[u64],
    labels: &[u8],
    j: usize,
) -> Sink
    requires { j ≤ index_bound }
    ensures { Pours room out.old out.new start (field_lines (record { name = name_at labels.now (j * name_width); at = field_row fields.now j })) result }
{
    let field = rows::field_row(fields, j);
    let values = field.values;
    let mut sink = put_name_line(out, room, start, b"field=", labels, j * basics::NAME_WIDTH);
    sink = lines::put_bits_line(out, room, sink, field);
    lines::put_value_lines(out, room, sink, values)
}

// The lines of the fields of a run.
fn put_fields(
    out: &mut [u8],
    room: usize,
    start: Sink,
    fields: &[u64],
    labels: &[u8],
    first: usize,
    count: usize,
) -> Sink
    requires { first + count ≤ index_bound }
    ensures { Pours room out.old out.new start (fields_lines (fields_from fields.now labels.now first count)) result }
{
    let mut sink = start;
    for k in 0..count {
        sink = put_field_lines(out, room, sink, fields, labels, first + k);
    }
    sink
}

// Pours the map's name and a register's path.
#[tactic(auto, using(lines::proofs::Pouring::appends))]
pub fn put_path(
    out: &mut [u8],
    room: usize,
    start: Sink,
    registers: &[u64],
    paths: &[u8],
    i: usize,
    depth: u64,
) -> Sink
    requires { (i ≤ register_limit) × (depth ≤ nest_limit) }
    ensures { Pours room out.old out.new start (name_at paths.now 0 ++ path_text (steps_from registers.now paths.now (i * register_row_width + 6) (i * path_row_width + name_width) depth)) result }
{
    let sink = put_name(out, room, start, paths, 0);
    let index = i * basics::REGISTER_ROW_WIDTH + 6;
    let name = i * basics::PATH_ROW_WIDTH + basics::NAME_WIDTH;
    put_steps(out, room, sink, registers, paths, index, name, depth)
}

#[tactic(auto, using(lines::proofs::Lines::parts))]
fn put_path_line(
    out: &mut [u8],
    room: usize,
    start: Sink,
    registers: &[u64],
    paths: &[u8],
    i: usize,
    depth: u64,
) -> Sink
    requires { (i ≤ register_limit) × (depth ≤ nest_limit) }
    ensures { Pours room out.old out.new start (line (bytes "reg=") (name_at paths.now 0 ++ path_text (steps_from registers.now paths.now (i * register_row_width + 6) (i * path_row_width + name_width) depth))) result }
{
    let mut sink = lines::put_bytes(out, room, start, b"reg=");
    sink = put_path(out, room, sink, registers, paths, i, depth);
    lines::put_line_end(out, room, sink)
}

// The lines of a register, without its fields.
#[tactic(auto, using(lines::proofs::Pouring::appends), unfolding(crate::specs::Listing::head_lines))]
fn put_head_lines(
    out: &mut [u8],
    room: usize,
    start: Sink,
    registers: &[u64],
    paths: &[u8],
    i: usize,
) -> Sink
    requires { (i ≤ register_limit) × ((register_row registers.now i).depth ≤ nest_limit) }
    ensures { Pours room out.old out.new start (head_lines (name_at paths.now 0) (path_in registers.now paths.now i) (register_row registers.now i).address (record { width = (register_row registers.now i).width; access = (register_row registers.now i).access })) result }
{
    let row = rows::register_row(registers, i);
    let address = row.address;
    let mut sink = put_path_line(out, room, start, registers, paths, i, row.depth);
    sink = lines::put_address_line(out, room, sink, address);
    sink = lines::put_decimal_line(out, room, sink, b"width=", row.width);
    lines::put_decimal_line(out, room, sink, b"access=", row.access)
}

#[tactic(auto, using(lines::proofs::Pouring::appends), unfolding(crate::specs::Listing::entry_lines))]
fn put_entry(
    out: &mut [u8],
    room: usize,
    start: Sink,
    registers: &[u64],
    paths: &[u8],
    fields: &[u64],
    labels: &[u8],
    i: usize,
) -> Sink
    requires { (i ≤ register_limit) × Bounded registers.now i }
    ensures { Pours room out.old out.new start (entry_lines (name_at paths.now 0) (entry_in (tables registers.now paths.now fields.now labels.now) i)) result }
{
    let row = rows::register_row(registers, i);
    let sink = put_head_lines(out, room, start, registers, paths, i);
    put_fields(
        out,
        room,
        sink,
        fields,
        labels,
        row.first as usize,
        row.count as usize,
    )
}

// The lines of a map.
fn put_map(
    out: &mut [u8],
    room: usize,
    start: Sink,
    registers: &[u64],
    paths: &[u8],
    fields: &[u64],
    labels: &[u8],
) -> Sink
    requires { AllBounded registers.now }
    ensures { Pours room out.old out.new start (listing_of (rows_in (tables registers.now paths.now fields.now labels.now))) result }
{
    let mut sink = put_name_line(out, room, start, b"map=", paths, 0);
    for i in 0..registers.len() / basics::REGISTER_ROW_WIDTH {
        sink = put_entry(out, room, sink, registers, paths, fields, labels, i);
    }
    sink
}

// Writes the listing of lawful rows: 24 where they are not lawful, 22 where the output is too short.
pub fn list(
    registers: &[u64],
    paths: &[u8],
    fields: &[u64],
    labels: &[u8],
    out: &mut [u8],
) -> Listed
    ensures answer { outcome result ≡ listed (length out.old) (tables registers.now paths.now fields.now labels.now) }
    ensures numbers { listed_numbers (outcome result) ≡ listing_numbers (length out.old) (tables registers.now paths.now fields.now labels.now) }
    ensures written { out.new ≡ output_of out.old (listing_of (rows_in (tables registers.now paths.now fields.now labels.now))) (outcome result) }
{
    if !rows::are_lawful(registers, paths, fields, labels) {
        return Err(Rule::BadRows);
    }
    let room = out.len();
    let start = Sink { at: 0, full: false };
    let mut nowhere = [0u8; 1];
    let measured = put_map(&mut nowhere, room, start, registers, paths, fields, labels);
    if measured.full {
        return Err(Rule::NoRoom);
    }
    let written = put_map(out, room, start, registers, paths, fields, labels);
    Ok(written.at)
}
