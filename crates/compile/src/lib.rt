// The compiler: a text's rows in four lent tables, or its first refusal.
#![tactic(auto)]

ghost use Rattle.std.specs.Prelude.{◌≡◌, ◌≤◌, length};
ghost use Rattle.basics.specs.Judged.{fine, judged};
ghost use Rattle.basics.specs.Limits.{register_limit, field_limit};
ghost use Rattle.layout.specs.Layout.{mode_of};
ghost use Rattle.recall.specs.Shelves.{recall_size};
ghost use Rattle.register_log.specs.Log.{log_size};
ghost use Rattle.map_walk.specs.Walks.{Shaped};
ghost use Rattle.rows.specs.Rows.{tables};
ghost use Rattle.compile.specs.Compiled.{mapped, compiled, answered, lent_after, compiled_numbers, answered_numbers};
ghost use Rattle.compile.specs.Stages.{Filed, FiledIn, Charts, meaning_in, has_room};

use basics::{Refusal, Rule};
use components::Component;
use fields::Mode;
use map_walk::Counts;
use sizes::Extent;

// How many register rows and field rows were written, or the refusal.
pub type Compiled = Result<Counts, Refusal>;

// The addressing of an address map.
fn mode_of(component: Component) -> u64
    ensures { result ≡ mode_of component }
{
    let standard = fields::mode_code(Mode::Regalign);
    match component {
        Component::Addrmap(_, addressing) => addressing.unwrap_or(standard),
        _ => standard,
    }
}

// Whether the lent tables hold so many register rows and field rows.
#[tactic(auto, unfolding(crate::specs::Stages::has_room))]
fn is_room(registers: usize, paths: usize, fields: usize, labels: usize, counts: Counts) -> bool
    requires { (counts.registers ≤ register_limit) × (counts.fields ≤ field_limit) }
    ensures { result ≡ has_room registers paths fields labels counts }
{
    counts.registers * basics::REGISTER_ROW_WIDTH <= registers
        && counts.registers * basics::PATH_ROW_WIDTH <= paths
        && counts.fields * basics::FIELD_ROW_WIDTH <= fields
        && counts.fields * basics::NAME_WIDTH <= labels
}

// What the passes over the map use: the shapes of all definitions, and behind them the instances that are long to read.
fn prepare(text: &[u8], cells: &[u64], shapes: &mut [u64], extent: Extent)
    requires { FiledIn text.now cells.now extent × (recall_size ≤ length shapes.old) }
    ensures { Shaped text.now cells.now shapes.new extent }
{
    sizes::fill_shapes(text, cells, shapes, extent);
    recall::keep_long_instances(text, cells, shapes, extent);
}

// The first fault of the map by 18 to 21, or how many registers and fields it has. The shapes' cells then hold what `prepare` leaves, and
// the log what the survey left there: all of the map's registers, but after an 18.
fn judge_map(
    text: &[u8],
    cells: &[u64],
    shapes: &mut [u64],
    log: &mut [u64],
    extent: Extent,
) -> Compiled
    requires { FiledIn text.now cells.now extent × (recall_size ≤ length shapes.old) × (log_size ≤ length log.old) }
    ensures { Charts text.now cells.now shapes.new log.new extent (judged result) }
{
    prepare(text, cells, shapes, extent);
    let found = map_walk::survey(text, cells, shapes, log, extent)?;
    overlaps::first_overlap(text, cells, shapes, log, extent, found.registers)?;
    Ok(found)
}

// Writes the rows of a map that keeps all rules: 22 where a lent table is too short. What is known and what is lent are eight slices.
fn write_map(
    text: &[u8],
    cells: &[u64],
    shapes: &[u64],
    log: &[u64],
    extent: Extent,
    counts: Counts,
    registers: &mut [u64],
    paths: &mut [u8],
    fields: &mut [u64],
    labels: &mut [u8],
) -> Compiled
    requires { FiledIn text.now cells.now extent × Charts text.now cells.now shapes.now log.now extent (fine counts) }
    ensures answer { judged result ≡ answered (tables registers.old paths.old fields.old labels.old) (mapped text.now (meaning_in text.now cells.now extent.map extent.rows)) }
    ensures lent { tables registers.new paths.new fields.new labels.new ≡ lent_after (tables registers.old paths.old fields.old labels.old) (mapped text.now (meaning_in text.now cells.now extent.map extent.rows)) }
{
    if !is_room(
        registers.len(),
        paths.len(),
        fields.len(),
        labels.len(),
        counts,
    ) {
        return Err(Rule::NoRoom.at(0));
    }
    row_writer::write_rows(
        text,
        cells,
        shapes,
        log,
        extent,
        counts.registers,
        registers,
        paths,
        fields,
        labels,
    );
    Ok(counts)
}

// Compiles a text whose definitions keep the rules.
fn compile_map(
    text: &[u8],
    cells: &[u64],
    row: usize,
    closed: usize,
    registers: &mut [u64],
    paths: &mut [u8],
    fields: &mut [u64],
    labels: &mut [u8],
) -> Compiled
    requires { Filed text.now cells.now row closed }
    ensures answer { judged result ≡ answered (tables registers.old paths.old fields.old labels.old) (mapped text.now (meaning_in text.now cells.now row closed)) }
    ensures lent { tables registers.new paths.new fields.new labels.new ≡ lent_after (tables registers.old paths.old fields.old labels.old) (mapped text.now (meaning_in text.now cells.now row closed)) }
{
    let mut shapes = [0u64; recall::RECALL_SIZE];
    let mut log = [0u64; register_log::LOG_SIZE];
    let mode = mode_of(cells::component_at(cells, row));
    let extent = Extent {
        rows: closed,
        map: row,
        mode,
    };
    let counts = judge_map(text, cells, &mut shapes, &mut log, extent)?;
    write_map(
        text, cells, &shapes, &log, extent, counts, registers, paths, fields, labels,
    )
}

// The rows of a text's map in the lent tables, and how many there are; or the first refusal, and the tables are as they were.
pub fn compile(
    text: &[u8],
    registers: &mut [u64],
    paths: &mut [u8],
    fields: &mut [u64],
    labels: &mut [u8],
) -> Compiled
    ensures answer { judged result ≡ answered (tables registers.old paths.old fields.old labels.old) (compiled text.now) }
    ensures lent { tables registers.new paths.new fields.new labels.new ≡ lent_after (tables registers.old paths.old fields.old labels.old) (compiled text.now) }
    ensures numbers { compiled_numbers (judged result) ≡ answered_numbers (tables registers.old paths.old fields.old labels.old) (compiled text.now) }
{
    let mut cells = [0u64; cells::SIZE];
    let (row, closed) = rules::define(text, &mut cells)?;
    compile_map(text, &cells, row, closed, registers, paths, fields, labels)
}
