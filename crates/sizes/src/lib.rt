// The sizes and access widths of a text's definitions, in the order of closing braces: a definition is made of earlier ones only.
#![tactic(auto)]

ghost use Rattle.std.specs.Prelude.{◌≡◌, ◌++◌, ◌+◌, ◌*◌, ◌/◌, ◌<◌, ◌≤◌, length, drop, set};
ghost use Rattle.basics.specs.Limits.{definition_limit};
ghost use Rattle.sizes.specs.Ready.{Ready};
ghost use Rattle.sizes.specs.Shapes.{shapes_size, shape_width, shape_in, shape_cells, all_shapes, GroupRow, ShapesBefore, RowShape};

use components::Component;
use fields::{Offset, Register};
use layout::Shape;

// The cells of a definition's shape, and of as many as a text may have.
const SHAPE_WIDTH: usize = 2;

pub const SHAPES_SIZE: usize = basics::DEFINITION_LIMIT * SHAPE_WIDTH;

// How many definitions the cells hold, the map's row and its mode.
#[derive(Clone, Copy)]
pub struct Extent {
    pub rows: usize,
    pub map: usize,
    pub mode: u64,
}

// The shape of a row.
#[tactic(auto, unfolding(crate::specs::Shapes::shape_in))]
pub fn shape_at(shapes: &[u64], row: usize) -> Shape
    requires { row < definition_limit }
    ensures { result ≡ shape_in shapes.now row }
{
    let size = basics::cell(shapes, row * SHAPE_WIDTH);
    let access = basics::cell(shapes, row * SHAPE_WIDTH + 1);
    Shape { size, access }
}

fn put_shape(shapes: &mut [u64], row: usize, shape: Shape)
    requires { row < definition_limit }
    ensures { shapes.new ≡ set (set shapes.old (row * shape_width) shape.size) (row * shape_width + 1) shape.access }
{
    basics::put(shapes, row * SHAPE_WIDTH, shape.size);
    basics::put(shapes, row * SHAPE_WIDTH + 1, shape.access);
}

// A body's shape: its highest end, and the largest access width inside.
fn group_shape(
    text: &[u8],
    cells: &[u64],
    shapes: &[u64],
    extent: Extent,
    row: usize,
    alignment: Option<u64>,
) -> Shape
    requires { Ready text.now cells.now extent × (row < extent.rows) × ShapesBefore text.now cells.now shapes.now extent row × GroupRow cells.now row alignment }
    ensures { RowShape text.now cells.now extent row result }
{
    let span = cells::instances_of(cells, row);
    let mut end = Offset(0);
    let mut size = 0u64;
    let mut access = 0u64;
    for i in span.from..span.to {
        let Ok((inner, instance)) = cells::child_at(text, cells, i) else {
            // never so: the cells hold readable instances
            break;
        };
        let shape = shape_at(shapes, inner);
        let laid = layout::lay(extent.mode, alignment, shape, instance, end);
        end = laid.end;
        size = size.max(end.0);
        access = access.max(shape.access);
    }
    Shape { size, access }
}

fn register_shape(register: Register) -> Shape
    ensures { (result.size ≡ register.width / 8) × (result.access ≡ register.access / 8) }
{
    Shape {
        size: register.width / 8,
        access: register.access / 8,
    }
}

// A definition's shape, from those of the definitions before it.
fn shape_of(text: &[u8], cells: &[u64], shapes: &[u64], extent: Extent, row: usize) -> Shape
    requires { Ready text.now cells.now extent × (row < extent.rows) × ShapesBefore text.now cells.now shapes.now extent row }
    ensures { RowShape text.now cells.now extent row result }
{
    match cells::component_at(cells, row) {
        Component::Field(_) => Shape { size: 0, access: 0 },
        Component::Register(register) => register_shape(register),
        Component::Regfile(alignment) | Component::Addrmap(alignment, _) => {
            group_shape(text, cells, shapes, extent, row, alignment)
        }
    }
}

// Writes the shapes of all definitions, one a row from the first cell on; the cells behind the last row stay.
pub fn fill_shapes(text: &[u8], cells: &[u64], shapes: &mut [u64], extent: Extent)
    requires { Ready text.now cells.now extent × (shapes_size ≤ length shapes.old) }
    ensures { shapes.new ≡ shape_cells (all_shapes text.now cells.now extent) ++ drop (extent.rows * shape_width) shapes.old }
{
    for row in 0..extent.rows {
        let shape = shape_of(text, cells, shapes, extent, row);
        put_shape(shapes, row, shape);
    }
}
