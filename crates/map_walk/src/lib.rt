// A walk over all elements of a map, in map order: the first fault by 18, 19 and 20, and a log of the registers.
#![tactic(auto)]

ghost use Rattle.std.specs.Prelude.{◌≡◌, ◌∷◌, ◌+◌, ◌-◌, ◌*◌, ◌<◌, ◌≤◌, set};
ghost use Rattle.basics.specs.Judged.{fine, judged, verdict};
ghost use Rattle.basics.specs.Slices.{written};
ghost use Rattle.register_log.specs.Log.{log_width, head_of, step_of};
ghost use Rattle.capped.specs.Offsets.{cap};
ghost use Rattle.sizes.specs.Shapes.{GroupRow};
ghost use Rattle.map_rules.specs.Visits.{index_in};
ghost use Rattle.basics.specs.Limits.{nest_limit, register_limit, definition_limit, index_bound, sum_bound};
ghost use Rattle.rows.specs.Rows.{index_code};
ghost use Rattle.map_walk.specs.Runs.{total_of, walked};
ghost use Rattle.map_walk.specs.Walks.{Shaped, SiteFits, Small, IsRegisterRow, close_fault, place_fault, GroupVisited, KidMade, MapWalks, survey_of, logged_in, VisitWalks, ContentWalks, ElementWalks, KidFits, ArrayWalks, ChildrenWalk};

use basics::{Refusal, Rule};
use components::Component;
use fields::Offset;
use layout::{Laid, Shape};
use parts::{Array, Instance, Name};
use sizes::Extent;

// A path: a number of the log for each step.
#[derive(Clone, Copy)]
pub struct Trail {
    pub depth: usize,
    pub steps: [u64; basics::NEST_LIMIT],
}

// How many registers and fields there are, and the first faults by 19 and 20.
#[derive(Clone, Copy)]
pub struct Tally {
    pub registers: usize,
    pub fields: usize,
    pub close: Result<(), Refusal>,
    pub misplaced: Result<(), Refusal>,
}

// An instance that is laid: its type's row, its first element's address, its stride, and whether that is below its size.
#[derive(Clone, Copy)]
pub struct Kid {
    pub row: usize,
    pub instance: Instance,
    pub address: Offset,
    pub stride: u64,
    pub short: bool,
}

// An element: its type's row, its name, its index and one more, or 0, its address, and whether its array's stride is below its size.
#[derive(Clone, Copy)]
pub struct Element {
    pub row: usize,
    pub name: Name,
    pub index: u64,
    pub address: Offset,
    pub short: bool,
}

// A body in the map: its definition's row, its address, the path that leads to it, and how many levels of elements may lie below it.
#[derive(Clone, Copy)]
pub struct Site {
    pub row: usize,
    pub address: Offset,
    pub trail: Trail,
    pub levels: usize,
}

// How many registers and fields a map has.
#[derive(Clone, Copy)]
pub struct Counts {
    pub registers: usize,
    pub fields: usize,
}

// The index of an array's element, and one more; 0 where there is no array.
fn index_of(array: Array, k: u64) -> u64
    requires { k < sum_bound }
    ensures { result ≡ index_code (index_in array k) }
{
    match array {
        Array::Size(_, _) => k + 1,
        Array::Missing | Array::Range(_, _, _) => 0,
    }
}

// A path with one more step.
fn deeper(trail: Trail, name: Name, index: u64) -> Trail
    requires { trail.depth < nest_limit }
    ensures { (result.depth ≡ trail.depth + 1) × (result.steps ≡ set trail.steps trail.depth (step_of name.start name.end index)) }
{
    let mut steps = trail.steps;
    let depth = trail.depth;
    steps[depth] = register_log::step_of(name.start, name.end, index);
    Trail {
        depth: depth + 1,
        steps,
    }
}

// 19 for an element that is not as far from the next as it is large.
#[tactic(auto, unfolding(crate::specs::Walks::close_fault))]
fn close_fault(element: Element) -> Result<(), Refusal>
    ensures { verdict result ≡ close_fault element }
{
    if element.short {
        return Err(Rule::ShortStride.at(element.name.start));
    }
    Ok(())
}

// 20 for a register that is not on a multiple of its access bytes, or ends above 2^32.
#[tactic(auto, unfolding(crate::specs::Walks::place_fault))]
fn place_fault(element: Element, shape: Shape) -> Result<(), Refusal>
    requires { (element.address.0 ≤ cap) × (1 ≤ shape.access) × (shape.size ≤ cap) }
    ensures { verdict result ≡ place_fault element shape }
{
    let place = element.name.start;
    if element.address.0 % shape.access != 0 {
        return Err(Rule::RegisterMisplaced.at(place));
    }
    if basics::ADDRESS_END < element.address.0 + shape.size {
        return Err(Rule::RegisterMisplaced.at(place));
    }
    Ok(())
}

// Writes a path behind an index of the log.
fn log_trail(log: &mut [u64], at: usize, trail: Trail)
    requires { at ≤ index_bound }
    ensures { log.new ≡ written log.old at trail.steps }
{
    for k in 0..basics::NEST_LIMIT {
        basics::put(log, at + k, trail.steps[k]);
    }
}

// Writes a register into a row of the log.
fn log_register(log: &mut [u64], number: usize, element: Element, trail: Trail)
    requires { (number ≤ register_limit) × (element.address.0 ≤ cap) × (element.row < definition_limit) × (trail.depth ≤ nest_limit) }
    ensures { log.new ≡ written log.old (number * log_width) (head_of element.address.0 element.row trail.depth ∷ trail.steps) }
{
    let at = number * register_log::LOG_WIDTH;
    let head = register_log::head_of(element.address.0, element.row, trail.depth);
    basics::put(log, at, head);
    log_trail(log, at + 1, trail);
}

// A register: 18 where there are too many registers or fields.
fn visit_register(
    text: &[u8],
    cells: &[u64],
    shapes: &[u64],
    log: &mut [u64],
    extent: Extent,
    element: Element,
    trail: Trail,
    tally: Tally,
) -> Result<Tally, Refusal>
    requires { Shaped text.now cells.now shapes.now extent × (element.row < extent.rows) × (element.address.0 ≤ cap) × Small (total_of tally) × (trail.depth ≤ nest_limit) × IsRegisterRow cells.now element.row }
    ensures { VisitWalks text.now cells.now log.old log.new extent element trail (total_of tally) (walked result) }
{
    let span = cells::instances_of(cells, element.row);
    let fields = tally.fields + (span.to - span.from);
    if basics::REGISTER_LIMIT <= tally.registers {
        return Err(Rule::TooMany.at(element.name.start));
    }
    if basics::FIELD_LIMIT < fields {
        return Err(Rule::TooMany.at(element.name.start));
    }
    log_register(log, tally.registers, element, trail);
    let shape = sizes::shape_at(shapes, element.row);
    Ok(Tally {
        registers: tally.registers + 1,
        fields,
        close: tally.close.and(close_fault(element)),
        misplaced: tally.misplaced.and(place_fault(element, shape)),
    })
}

// An element that is no register.
fn visit_group(tally: Tally, element: Element) -> Tally
    ensures { GroupVisited (total_of tally) element (fine (total_of result)) }
{
    Tally {
        close: tally.close.and(close_fault(element)),
        ..tally
    }
}

// An element without its content, at the end of a path.
fn visit(
    text: &[u8],
    cells: &[u64],
    shapes: &[u64],
    log: &mut [u64],
    extent: Extent,
    element: Element,
    trail: Trail,
    tally: Tally,
) -> Result<Tally, Refusal>
    requires { Shaped text.now cells.now shapes.now extent × (element.row < extent.rows) × (element.address.0 ≤ cap) × Small (total_of tally) × (trail.depth ≤ nest_limit) }
    ensures { VisitWalks text.now cells.now log.old log.new extent element trail (total_of tally) (walked result) }
{
    match cells::component_at(cells, element.row) {
        Component::Register(_) => {
            visit_register(text, cells, shapes, log, extent, element, trail, tally)
        }
        _ => Ok(visit_group(tally, element)),
    }
}

// The content of a body.
#[cycle(walk_array_walk_children_walk_content_walk_element)]
fn walk_content(
    text: &[u8],
    cells: &[u64],
    shapes: &[u64],
    log: &mut [u64],
    extent: Extent,
    site: Site,
    start: Tally,
) -> Result<Tally, Refusal>
    requires { Shaped text.now cells.now shapes.now extent × SiteFits extent site × Small (total_of start) }
    ensures { ContentWalks text.now cells.now log.old log.new extent site.levels site.row site.address site.trail (total_of start) (walked result) }
{
    if site.levels == 0 {
        return Ok(start);
    }
    let inside = one_level_down(site);
    match cells::component_at(cells, site.row) {
        Component::Field(_) | Component::Register(_) => Ok(start),
        Component::Regfile(alignment) | Component::Addrmap(alignment, _) => {
            walk_children(text, cells, shapes, log, extent, inside, alignment, start)
        }
    }
}

// A body with a level less below it.
fn one_level_down(site: Site) -> Site
    requires { 0 < site.levels }
    ensures { result ≡ record { row = site.row; address = site.address; trail = site.trail; levels = site.levels - 1 } }
{
    Site {
        levels: site.levels - 1,
        ..site
    }
}

// An instance that is laid in a body at an address.
fn kid_of(row: usize, instance: Instance, shape: Shape, laid: Laid, base: Offset) -> Kid
    requires { (base.0 ≤ cap) × (laid.start.0 ≤ cap) }
    ensures { KidMade row instance shape laid base result }
{
    Kid {
        row,
        instance,
        address: Offset(capped::sum(base.0, laid.start.0)),
        stride: laid.stride,
        short: suffixes::is_array(instance.array) && laid.stride < shape.size,
    }
}

// The instances of a body, each with its elements.
#[cycle(walk_array_walk_children_walk_content_walk_element)]
fn walk_children(
    text: &[u8],
    cells: &[u64],
    shapes: &[u64],
    log: &mut [u64],
    extent: Extent,
    site: Site,
    alignment: Option<u64>,
    start: Tally,
) -> Result<Tally, Refusal>
    requires { Shaped text.now cells.now shapes.now extent × SiteFits extent site × GroupRow cells.now site.row alignment × Small (total_of start) }
    ensures { ChildrenWalk text.now cells.now log.old log.new extent site.levels site.row alignment site.address site.trail (total_of start) (walked result) }
{
    let span = cells::instances_of(cells, site.row);
    let mut end = Offset(0);
    let mut tally = start;
    for i in span.from..span.to {
        // the cells hold readable instances: none is refused
        let (inner, instance) = recall::child_at(text, cells, shapes, i)?;
        let shape = sizes::shape_at(shapes, inner);
        let laid = layout::lay(extent.mode, alignment, shape, instance, end);
        let kid = kid_of(inner, instance, shape, laid, site.address);
        tally = walk_array(text, cells, shapes, log, extent, site, kid, tally)?;
        end = laid.end;
    }
    Ok(tally)
}

// An element of an instance, at an address.
fn element_of(kid: Kid, k: u64, address: Offset) -> Element
    requires { k < sum_bound }
    ensures { result ≡ record { row = kid.row; name = kid.instance.name; index = index_code (index_in kid.instance.array k); address = address; short = kid.short } }
{
    Element {
        row: kid.row,
        name: kid.instance.name,
        index: index_of(kid.instance.array, k),
        address,
        short: kid.short,
    }
}

// The elements of an instance of a body.
#[cycle(walk_array_walk_children_walk_content_walk_element)]
fn walk_array(
    text: &[u8],
    cells: &[u64],
    shapes: &[u64],
    log: &mut [u64],
    extent: Extent,
    site: Site,
    kid: Kid,
    start: Tally,
) -> Result<Tally, Refusal>
    requires { Shaped text.now cells.now shapes.now extent × SiteFits extent site × KidFits extent kid × Small (total_of start) }
    ensures { ArrayWalks text.now cells.now log.old log.new extent site.levels kid site.trail (total_of start) (walked result) }
{
    let count = layout::elements_of(kid.instance.array);
    let mut address = kid.address;
    let mut tally = start;
    for k in 0..count {
        let item = element_of(kid, k, address);
        tally = walk_element(text, cells, shapes, log, extent, site, item, tally)?;
        address = Offset(capped::sum(address.0, kid.stride));
    }
    Ok(tally)
}

// An element of a body, and its content.
#[cycle(walk_array_walk_children_walk_content_walk_element)]
fn walk_element(
    text: &[u8],
    cells: &[u64],
    shapes: &[u64],
    log: &mut [u64],
    extent: Extent,
    site: Site,
    element: Element,
    start: Tally,
) -> Result<Tally, Refusal>
    requires { Shaped text.now cells.now shapes.now extent × SiteFits extent site × (element.row < extent.rows) × (element.address.0 ≤ cap) × Small (total_of start) }
    ensures { ElementWalks text.now cells.now log.old log.new extent site.levels element site.trail (total_of start) (walked result) }
{
    if site.trail.depth == basics::NEST_LIMIT {
        return Err(Rule::TooMany.at(element.name.start));
    }
    let trail = deeper(site.trail, element.name, element.index);
    let next = visit(text, cells, shapes, log, extent, element, trail, start)?;
    let content = Site {
        row: element.row,
        address: element.address,
        trail,
        levels: site.levels,
    };
    walk_content(text, cells, shapes, log, extent, content, next)
}

// The elements of the map.
fn walk_map(
    text: &[u8],
    cells: &[u64],
    shapes: &[u64],
    log: &mut [u64],
    extent: Extent,
) -> Result<Tally, Refusal>
    requires { Shaped text.now cells.now shapes.now extent × (extent.map < extent.rows) }
    ensures { MapWalks text.now cells.now log.old log.new extent extent.map (walked result) }
{
    let trail = Trail {
        depth: 0,
        steps: [0; basics::NEST_LIMIT],
    };
    let start = Tally {
        registers: 0,
        fields: 0,
        close: Ok(()),
        misplaced: Ok(()),
    };
    let site = Site {
        row: extent.map,
        address: Offset(0),
        trail,
        levels: basics::NEST_LIMIT + 1,
    };
    walk_content(text, cells, shapes, log, extent, site, start)
}

// The first fault of the map by 18, then 19, then 20; or how many registers and fields it has. The log's first rows, as far as it goes,
// then hold the map's registers in map order: after an 18, which ends the walk, those before the element that is too many; after a 19, a
// 20 or no fault all of them. Its other cells stay.
pub fn survey(
    text: &[u8],
    cells: &[u64],
    shapes: &[u64],
    log: &mut [u64],
    extent: Extent,
) -> Result<Counts, Refusal>
    requires { Shaped text.now cells.now shapes.now extent × (extent.map < extent.rows) }
    ensures answer { judged result ≡ survey_of text.now cells.now extent extent.map }
    ensures logs { log.new ≡ logged_in text.now cells.now log.old extent extent.map }
{
    let tally = walk_map(text, cells, shapes, log, extent)?;
    tally.close.and(tally.misplaced)?;
    Ok(Counts {
        registers: tally.registers,
        fields: tally.fields,
    })
}
