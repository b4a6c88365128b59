// The instances of an open body as a tree over their names, so that rule 6 need not look at all of them: a name goes down from the body's
// first instance, at each depth to the side that its own bits say. Equal names go one way, and no way is longer than a name has bits.
#![tactic(auto)]

ghost use Rattle.std.specs.Prelude.{◌≡◌, ◌+◌, ◌<◌, ◌≤◌, length};
ghost use Rattle.basics.specs.Limits.{text_limit, definition_limit};
ghost use Rattle.parts.specs.Parts.{name_at};
ghost use Rattle.identifiers.specs.Names.{print_from};
ghost use Rattle.cells.specs.Cells.{entry_places, link_bound};
ghost use Rattle.name_tree.specs.Tree.{goes_right, is_spelt, is_entry_named, link_in, below, seek, with_link, linked, grown};

// How many bits a fingerprint has.
const PRINT_BITS: usize = 32;

// Whether an instance of the body has the name; and if not, below which one and on which side one more of that name is linked.
#[derive(Clone, Copy)]
pub struct Spot {
    pub taken: bool,
    pub node: usize,
    pub right: bool,
}

// Whether a name goes right at a depth: by its fingerprint, then by its bytes.
#[tactic(auto, unfolding(crate::specs::Tree::goes_right))]
fn goes_right(name: &[u8], print: u64, depth: usize) -> bool
    requires { print ≡ print_from 0 name.now }
    ensures { result ≡ goes_right name.now depth }
{
    if depth < PRINT_BITS {
        return bits::bit_at(print, depth as u64);
    }
    let rest = depth - PRINT_BITS;
    let byte = chars::byte_at(name, rest / 8);
    bits::bit_at(byte as u64, (rest % 8) as u64)
}

// Whether the name that stands at a place is this one.
fn is_spelt_at(text: &[u8], place: usize, name: &[u8]) -> bool
    ensures { result ≡ is_spelt text.now name.now (name_at text.now place) }
{
    match parts::read_name(text, place) {
        Ok((other, _)) => {
            let bytes = identifiers::bytes_of(text, other.start, other.end);
            chars::same(name, bytes)
        }
        Err(_) => false,
    }
}

// Whether the instance of a cell has this name. A word is read at its place only where the bytes agree.
#[tactic(auto, unfolding(crate::specs::Tree::is_entry_named))]
fn is_entry_named(text: &[u8], entry: u64, name: &[u8]) -> bool
    requires { length name.now ≤ text_limit }
    ensures { result ≡ is_entry_named text.now entry name.now }
{
    let place = cells::place_in(entry);
    let bytes = identifiers::bytes_of(text, place, place + name.len());
    chars::same(name, bytes) && is_spelt_at(text, place, name)
}

fn link_in(entry: u64, right: bool) -> usize
    ensures { result ≡ link_in right entry }
{
    if right {
        cells::right_in(entry)
    } else {
        cells::left_in(entry)
    }
}

// The number of the instance below another on one side, or 0: an instance stands behind the one above it.
#[tactic(auto, unfolding(crate::specs::Tree::below))]
fn below_of(entry: u64, right: bool, node: usize, count: usize) -> usize
    ensures { result ≡ below entry right node count }
{
    let number = link_in(entry, right);
    if node < number && number < count {
        number
    } else {
        0
    }
}

// Where a name stands among the instances of a body, which are so many from a cell on.
pub fn find(text: &[u8], cells: &[u64], from: usize, count: usize, name: &[u8]) -> Spot
    requires { (from + count ≤ entry_places) × (length name.now ≤ text_limit) }
    ensures { result ≡ seek text.now cells.now from count name.now }
{
    let print = identifiers::print_of(name);
    let mut node = 0;
    let mut depth = 0;
    while node < count {
        let entry = basics::cell(cells, from + node);
        if is_entry_named(text, entry, name) {
            return Spot {
                taken: true,
                node,
                right: false,
            };
        }
        let right = goes_right(name, print, depth);
        let number = below_of(entry, right, node, count);
        if number == 0 {
            return Spot {
                taken: false,
                node,
                right,
            };
        }
        node = number;
        depth += 1;
    }
    Spot {
        taken: false,
        node,
        right: false,
    }
}

// An instance's cell with one link made.
#[tactic(auto, unfolding(crate::specs::Tree::with_link))]
fn with_link(entry: u64, right: bool, number: usize) -> u64
    requires { number < link_bound }
    ensures { result ≡ with_link right number entry }
{
    let place = cells::place_in(entry);
    let row = cells::row_in(entry);
    if right {
        cells::entry_of(place, row, cells::left_in(entry), number)
    } else {
        cells::entry_of(place, row, number, cells::right_in(entry))
    }
}

// Links the instance that comes next in a body; the first is linked to none.
#[tactic(auto, unfolding(crate::specs::Tree::linked))]
fn link(cells: &mut [u64], from: usize, count: usize, spot: Spot)
    requires { (count < link_bound) × (from + count ≤ entry_places) }
    ensures { cells.new ≡ linked cells.old from count spot }
{
    if spot.node < count {
        let entry = basics::cell(cells, from + spot.node);
        basics::put(cells, from + spot.node, with_link(entry, spot.right, count));
    }
}

// Writes an instance behind the others of its body, where its name is not taken.
#[tactic(auto, unfolding(crate::specs::Tree::grown))]
pub fn add(cells: &mut [u64], from: usize, count: usize, spot: Spot, place: usize, row: usize)
    requires { (count < link_bound) × (from + count ≤ entry_places) × (place < entry_places) × (row < definition_limit) }
    ensures { cells.new ≡ grown cells.old from count spot place row }
{
    link(cells, from, count, spot);
    basics::put(cells, from + count, cells::entry_of(place, row, 0, 0));
}
