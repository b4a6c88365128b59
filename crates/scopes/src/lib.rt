// Places of a text: what may stand there, and what the walk over the text knows there.
#![tactic(auto)]

ghost use Rattle.std.specs.Prelude.{◌≡◌, ◌&&◌, ◌+◌, ◌<◌, ◌≤◌};
ghost use Rattle.basics.specs.Limits.{definition_limit};
ghost use Rattle.basics.specs.Judged.{judged};
ghost use Rattle.parts.specs.Words.{is_mark};
ghost use Rattle.parts.specs.Parts.{is_named, property_at};
ghost use Rattle.properties.specs.Assigned.{nearest};
ghost use Rattle.components.specs.Components.{component_of, kind_of};
ghost use Rattle.cells.specs.Cells.{component_in, instance_room};
ghost use Rattle.scopes.specs.Places.{may_define, may_hold, is_bad_map};
ghost use Rattle.scopes.specs.Walks.{setting_step, opening_walk, inner_scope, filed_cells, closed_walk, after_body, root_walk, root_scope, ruling_of};

use basics::{Refusal, Rule};
use cells::Row;
use components::Component;
use lex::Word;
use parts::{Header, Kind, Name};
use properties::{Assigned, Settings};
use vocabulary::Mark;

// What is known at a place of a body: the cursor; the type declared last, as its row's number and one more; how many definitions are
// closed, and how many instances these have; how many instances the open bodies have; how many definitions were opened; the address
// map's row; and what is set.
#[derive(Clone, Copy)]
pub struct Progress {
    pub at: usize,
    pub head: usize,
    pub closed: usize,
    pub filed: usize,
    pub held: usize,
    pub opened: usize,
    pub map: Option<usize>,
    pub assigned: Assigned,
}

// Where an element stands: in a body of this kind, or at the root; how many instances the open bodies around have, and their type declared
// last; and their defaults.
#[derive(Clone, Copy)]
pub struct Scope {
    pub enclosing: Option<Kind>,
    pub first: usize,
    pub base: usize,
    pub defaults: Settings,
}

// Whether a kind may be defined there: anything at the root; in a body what is smaller, and a regfile in a regfile.
#[tactic(auto, unfolding(crate::specs::Places::may_define))]
pub fn may_define(enclosing: Option<Kind>, kind: Kind) -> bool
    ensures { result ≡ may_define enclosing kind }
{
    match enclosing {
        None => true,
        Some(Kind::Addrmap | Kind::Regfile) => kind != Kind::Addrmap,
        Some(Kind::Reg) => kind == Kind::Field,
        Some(Kind::Field) => false,
    }
}

// Whether instances of a kind may stand there: none at the root.
#[tactic(auto, unfolding(crate::specs::Places::may_hold))]
pub fn may_hold(enclosing: Option<Kind>, kind: Kind) -> bool
    ensures { result ≡ may_hold enclosing kind }
{
    match enclosing {
        None => false,
        Some(Kind::Addrmap | Kind::Regfile) => matches!(kind, Kind::Regfile | Kind::Reg),
        Some(Kind::Reg) => kind == Kind::Field,
        Some(Kind::Field) => false,
    }
}

pub fn kind_at(cells: &[u64], row: usize) -> Kind
    requires { row < definition_limit }
    ensures { result ≡ kind_of (component_in cells.now row) }
{
    components::kind_of(cells::component_at(cells, row))
}

// A property statement in a body of a component of this kind.
pub fn judge_setting(text: &[u8], kind: Kind, walk: Progress) -> Result<Progress, Refusal>
    ensures { judged result ≡ setting_step text.now kind walk (property_at text.now walk.at) }
{
    let (statement, at) = parts::read_property(text, walk.at)?;
    let assigned = properties::judge_property(text, kind, walk.assigned, statement)?;
    Ok(Progress {
        at,
        assigned,
        ..walk
    })
}

// Whether a definition is an address map too many, or one without a name.
#[tactic(auto, unfolding(crate::specs::Places::is_bad_map))]
pub fn is_bad_map(map: Option<usize>, header: Header) -> bool
    ensures { result ≡ is_bad_map map header }
{
    header.kind == Kind::Addrmap && (map.is_some() || header.name.is_none())
}

// What is known where a body opens.
pub fn opening_walk(walk: Progress, at: usize) -> Progress
    requires { walk.opened < definition_limit }
    ensures { result ≡ opening_walk walk at }
{
    Progress {
        at,
        opened: walk.opened + 1,
        assigned: properties::nothing_assigned(),
        ..walk
    }
}

// The component of a body that ends: it has the effective settings.
pub fn closing_component(kind: Kind, scope: Scope, walk: Progress) -> Component
    ensures { result ≡ component_of kind (nearest walk.assigned.own scope.defaults) }
{
    let settings = properties::nearest_of(walk.assigned.own, scope.defaults);
    components::component_of(kind, settings)
}

// Writes the row of a definition whose body ends, and moves its instances before those of the definitions that were closed earlier.
pub fn file_definition(
    cells: &mut [u64],
    header: Header,
    scope: Scope,
    walk: Progress,
    component: Component,
)
    requires { (walk.closed < definition_limit) × (scope.first ≤ walk.held) × (walk.filed + walk.held ≤ instance_room) }
    ensures { cells.new ≡ filed_cells cells.old header scope walk component }
{
    let count = walk.held - scope.first;
    let first = cells::INSTANCE_ROOM - (walk.filed + count);
    let row = Row {
        values: cells::values_of(component),
        first: first as u64,
        count: count as u64,
        name: header.name.unwrap_or(Name { start: 0, end: 0 }),
        below: scope.base as u64,
    };
    cells::put_row(cells, walk.closed, row);
    cells::move_cells(
        cells,
        cells::ENTRIES + scope.first,
        cells::ENTRIES + first,
        count,
    );
}

// What is known behind a body that ends.
pub fn closed_walk(scope: Scope, walk: Progress, next: usize) -> Progress
    requires { (walk.closed < definition_limit) × (scope.first ≤ walk.held) × (walk.filed + walk.held ≤ instance_room) }
    ensures { result ≡ closed_walk scope walk next }
{
    Progress {
        at: next,
        head: scope.base,
        closed: walk.closed + 1,
        filed: walk.filed + (walk.held - scope.first),
        held: scope.first,
        ..walk
    }
}

// What is known behind a definition's body: its type is visible, and the address map is known.
pub fn after_body(before: Progress, header: Header, made: Progress) -> Progress
    requires { 1 ≤ made.closed }
    ensures { result ≡ after_body before header made }
{
    let head = if header.name.is_some() {
        made.closed
    } else {
        before.head
    };
    let map = if header.kind == Kind::Addrmap {
        Some(made.closed - 1)
    } else {
        before.map
    };
    Progress {
        head,
        map,
        assigned: before.assigned,
        ..made
    }
}

// Whether nothing but a semicolon stands behind a body.
pub fn is_bare_tail(word: Word, name: Option<Name>) -> bool
    ensures { result ≡ (is_named name && is_mark Mark.Semicolon word) }
{
    name.is_some() && parts::is_mark(word, Mark::Semicolon)
}

// The scope of a body that opens.
pub fn inner_scope(scope: Scope, walk: Progress, kind: Kind) -> Scope
    ensures { result ≡ inner_scope scope walk kind }
{
    Scope {
        enclosing: Some(kind),
        first: walk.held,
        base: walk.head,
        defaults: properties::nearest_of(walk.assigned.defaults, scope.defaults),
    }
}

// The ruling at a file's end: the address map's row and how many definitions there are, or 10 where there is no map.
pub fn ruling_of(walk: Progress, end: usize) -> Result<(usize, usize), Refusal>
    ensures { judged result ≡ ruling_of walk end walk.map }
{
    match walk.map {
        None => Err(Rule::Misplaced.at(end)),
        Some(row) => Ok((row, walk.closed)),
    }
}

pub fn root_walk() -> Progress
    ensures { result ≡ root_walk }
{
    Progress {
        at: 0,
        head: 0,
        closed: 0,
        filed: 0,
        held: 0,
        opened: 0,
        map: None,
        assigned: properties::nothing_assigned(),
    }
}

pub fn root_scope() -> Scope
    ensures { result ≡ root_scope }
{
    Scope {
        enclosing: None,
        first: 0,
        base: 0,
        defaults: properties::no_settings(),
    }
}
