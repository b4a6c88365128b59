// The rules stage: the first fault of a text by 5 to 17, and by 18 for definitions, or what its definitions mean. One walk over the
// text, with a table of the definitions that are closed and of the instances; no tree is kept.
#![tactic(auto)]

ghost use Rattle.std.specs.Prelude.{◌≡◌, ◌+◌, ◌*◌, ◌<◌, ◌≤◌, length, Some};
ghost use Rattle.basics.specs.Limits.{text_limit, definition_limit};
ghost use Rattle.basics.specs.Judged.{judged, verdict};
ghost use Rattle.lex.specs.Words.{verdict_numbers};
ghost use Rattle.parts.specs.Reading.{ok};
ghost use Rattle.syntax.specs.Grammar.{instance_statement_at, statement_at, definition_at, body_at};
ghost use Rattle.cells.specs.Cells.{size, instance_room, entry_places};
ghost use Rattle.rules.specs.Rules.{ruled, rules_verdict, judged_numbers, ruled_as, Worked};
ghost use Rattle.rules.specs.Standing.{FitsText, Steps, InstanceRules, Adds, Lists, HeaderFault, NameFault, Closing, BodySteps, Tails, Rules};

use basics::{Refusal, Rule};
use lex::Token;
use parts::{Header, Instance, Kind, Name};
use scopes::{Progress, Scope};
use vocabulary::Mark;

// The type of some instances: its definition's row and kind.
#[derive(Clone, Copy)]
struct InstanceType {
    row: usize,
    kind: Kind,
}

// The first fault of an instance: 6 and 10 at its name, then 9 and 11.
#[tactic(auto, unfolding(basics::specs::Judged::unless))]
fn instance_rules(taken: bool, scope: Scope, kind: Kind, instance: Instance) -> Result<(), Refusal>
    ensures { InstanceRules taken scope.enclosing kind instance (verdict result) }
{
    let name = instance.name;
    if taken {
        return Err(Rule::NameTaken.at(name.start));
    }
    if !scopes::may_hold(scope.enclosing, kind) {
        return Err(Rule::Misplaced.at(name.start));
    }
    suffixes::instance_fault(kind, instance)
}

// Judges an instance, and adds it to those of the open bodies if it is sound.
#[tactic(auto, using(crate::proofs::Instances::name_short))]
fn add_instance(
    text: &[u8],
    cells: &mut [u64],
    scope: Scope,
    of: InstanceType,
    held: usize,
    instance: Instance,
) -> Result<(), Refusal>
    requires { (length text.now ≤ text_limit) × (scope.first ≤ held) × (held < instance_room) × (instance.name.start < entry_places) × (of.row < definition_limit) }
    ensures { Adds text.now cells.old cells.new scope of.row of.kind held instance (verdict result) }
{
    let name = instance.name;
    let from = cells::ENTRIES + scope.first;
    let count = held - scope.first;
    let bytes = identifiers::bytes_of(text, name.start, name.end);
    let spot = name_tree::find(text, cells, from, count, bytes);
    instance_rules(spot.taken, scope, of.kind, instance)?;
    name_tree::add(cells, from, count, spot, name.start, of.row);
    Ok(())
}

// Judges a list of instances behind those that the open bodies have: how many these have then, and the cursor past the list.
fn judge_instances(
    text: &[u8],
    cells: &mut [u64],
    scope: Scope,
    of: InstanceType,
    start: usize,
    before: usize,
) -> Result<(usize, usize), Refusal>
    requires { (length text.now ≤ text_limit) × (scope.first ≤ before) × (2 * before ≤ start) × (of.row < definition_limit) }
    ensures { Lists text.now cells.old cells.new scope of.row of.kind start before (judged result) }
{
    let mut at = start;
    let mut held = before;
    loop {
        let (listed, next) = parts::read_listed(text, at)?;
        add_instance(text, cells, scope, of, held, listed.instance)?;
        held += 1;
        if listed.last {
            return Ok((held, next));
        }
        at = next;
    }
}

// An instance statement: 5 where its name means no type.
fn judge_use(
    text: &[u8],
    cells: &mut [u64],
    scope: Scope,
    walk: Progress,
) -> Result<Progress, Refusal>
    requires { FitsText (length text.now) scope walk }
    ensures { Steps text.now cells.old cells.new scope walk (λ e n. instance_statement_at text.now walk.at ≡ ok e n) (judged result) }
{
    let (name, next) = parts::read_name(text, walk.at)?;
    let Some(number) = cells::find_type(text, cells, walk.head, 0, name) else {
        return Err(Rule::UnknownType.at(name.start));
    };
    let row = number as usize;
    let kind = scopes::kind_at(cells, row);
    let of = InstanceType { row, kind };
    let (held, at) = judge_instances(text, cells, scope, of, next, walk.held)?;
    Ok(Progress { at, held, ..walk })
}

// A statement that opens no body, in a body of a component of this kind.
fn judge_statement(
    text: &[u8],
    cells: &mut [u64],
    kind: Kind,
    scope: Scope,
    walk: Progress,
) -> Result<Progress, Refusal>
    requires { FitsText (length text.now) scope walk × (scope.enclosing ≡ Some kind) }
    ensures { Steps text.now cells.old cells.new scope walk (λ e n. statement_at text.now walk.at ≡ ok e n) (judged result) }
{
    if parts::starts_instances(text, walk.at) {
        judge_use(text, cells, scope, walk)
    } else {
        scopes::judge_setting(text, kind, walk)
    }
}

// 6 where a type of this name was declared in this body.
#[tactic(auto, using(crate::proofs::Headers::meant), unfolding(basics::specs::Judged::unless))]
fn name_fault(
    text: &[u8],
    cells: &[u64],
    base: usize,
    head: usize,
    name: Option<Name>,
) -> Result<(), Refusal>
    requires { head ≤ definition_limit }
    ensures { NameFault text.now cells.now base head name (verdict result) }
{
    let Some(named) = name else {
        return Ok(());
    };
    match cells::find_type(text, cells, head, base, named) {
        None => Ok(()),
        Some(_) => Err(Rule::NameTaken.at(named.start)),
    }
}

// The fault of a definition before its body: 10 and 18 at the kind word, 6 at the name.
#[tactic(auto, unfolding(basics::specs::Judged::unless))]
fn header_fault(
    text: &[u8],
    cells: &[u64],
    scope: Scope,
    walk: Progress,
    header: Header,
) -> Result<(), Refusal>
    requires { walk.head ≤ definition_limit }
    ensures { HeaderFault text.now cells.now scope walk header (verdict result) }
{
    if !scopes::may_define(scope.enclosing, header.kind) || scopes::is_bad_map(walk.map, header) {
        return Err(Rule::Misplaced.at(header.place));
    }
    if walk.opened >= basics::DEFINITION_LIMIT {
        return Err(Rule::TooMany.at(header.place));
    }
    name_fault(text, cells, scope.base, walk.head, header.name)
}

// Judges a body at its closing brace, and files its definition if it is sound.
fn close_body(
    text: &[u8],
    cells: &mut [u64],
    header: Header,
    scope: Scope,
    walk: Progress,
    brace: Token,
) -> Result<Progress, Refusal>
    requires { FitsText (length text.now) scope walk × (walk.closed < walk.opened) × (walk.at < brace.end) × (brace.end ≤ length text.now) }
    ensures { Closing text.now cells.old cells.new header scope walk brace.start brace.end (judged result) }
{
    let component = scopes::closing_component(header.kind, scope, walk);
    let from = cells::ENTRIES + scope.first;
    let to = cells::ENTRIES + walk.held;
    if let Err(rule) = closing_rules::closing_fault(text, cells, from, to, component) {
        return Err(rule.at(brace.start));
    }
    scopes::file_definition(cells, header, scope, walk, component);
    Ok(scopes::closed_walk(scope, walk, brace.end))
}

// The elements of a body up to its closing brace, where so many more bodies may be opened inside.
#[cycle(judge_body_judge_definition)]
fn judge_body(
    text: &[u8],
    cells: &mut [u64],
    bodies: usize,
    header: Header,
    scope: Scope,
    start: Progress,
) -> Result<Progress, Refusal>
    requires { FitsText (length text.now) scope start × (start.closed < start.opened) × (scope.enclosing ≡ Some header.kind) }
    ensures { BodySteps text.now cells.old cells.new header scope start (λ b n. body_at bodies text.now start.at ≡ ok b n) (judged result) }
{
    let mut walk = start;
    loop {
        let token = lex::next_token(text, walk.at);
        if parts::is_mark(token.word, Mark::CloseBrace) {
            return close_body(text, cells, header, scope, walk, token);
        }
        if parts::is_kind(token.word) {
            walk = judge_definition(text, cells, bodies, scope, walk)?;
        } else {
            walk = judge_statement(text, cells, header.kind, scope, walk)?;
        }
    }
}

// The instances behind a definition's body, or none where it has a name; then a semicolon.
fn judge_tail(
    text: &[u8],
    cells: &mut [u64],
    scope: Scope,
    header: Header,
    walk: Progress,
) -> Result<Progress, Refusal>
    requires { FitsText (length text.now) scope walk × (1 ≤ walk.closed) }
    ensures { Tails text.now cells.old cells.new scope header walk (judged result) }
{
    let token = lex::next_token(text, walk.at);
    if scopes::is_bare_tail(token.word, header.name) {
        return Ok(Progress {
            at: token.end,
            ..walk
        });
    }
    let of = InstanceType {
        row: walk.closed - 1,
        kind: header.kind,
    };
    let (held, at) = judge_instances(text, cells, scope, of, walk.at, walk.held)?;
    Ok(Progress { at, held, ..walk })
}

// A definition, where so many bodies may still be opened.
#[cycle(judge_body_judge_definition)]
fn judge_definition(
    text: &[u8],
    cells: &mut [u64],
    bodies: usize,
    scope: Scope,
    walk: Progress,
) -> Result<Progress, Refusal>
    requires { FitsText (length text.now) scope walk }
    ensures { Steps text.now cells.old cells.new scope walk (λ e n. definition_at bodies text.now walk.at ≡ ok e n) (judged result) }
{
    let (header, inside) = parts::read_header(text, walk.at)?;
    header_fault(text, cells, scope, walk, header)?;
    if bodies == 0 {
        return Err(Rule::TooMany.at(header.brace));
    }
    let inner = scopes::inner_scope(scope, walk, header.kind);
    let opening = scopes::opening_walk(walk, inside);
    let made = judge_body(text, cells, bodies - 1, header, inner, opening)?;
    let behind = scopes::after_body(walk, header, made);
    judge_tail(text, cells, scope, header, behind)
}

// The definitions of a file: the address map's row, and how many there are.
fn judge_file(text: &[u8], cells: &mut [u64]) -> Result<(usize, usize), Refusal>
    requires { length text.now ≤ text_limit }
    ensures { Rules text.now cells.old cells.new (judged result) }
{
    let scope = scopes::root_scope();
    let mut walk = scopes::root_walk();
    loop {
        let token = lex::next_token(text, walk.at);
        if parts::is_end(token.word) {
            return scopes::ruling_of(walk, token.start);
        }
        walk = judge_definition(text, cells, basics::BODY_LIMIT, scope, walk)?;
    }
}

// What the definitions of a text mean, in the cells, with the address map's row and how many there are; or its first refusal by words,
// sentences and rules. The cells are room to work in: whoever calls lends SIZE of them, so nothing is refused for want of room.
#[tactic(auto, using(crate::proofs::Rulings::stages), unfolding(crate::specs::Rules::ruled))]
pub fn define(text: &[u8], cells: &mut [u64]) -> Result<(usize, usize), Refusal>
    requires { size ≤ length cells.old }
    ensures answer { ruled_as text.now cells.new (judged result) ≡ ruled text.now }
    ensures cells { Worked text.now cells.old cells.new (judged result) }
{
    lex::first_refusal(text)?;
    syntax::first_refusal(text)?;
    judge_file(text, cells)
}

// The first refusal of a text by words, sentences and rules, or none.
#[tactic(auto, unfolding(crate::specs::Rules::rules_verdict))]
pub fn first_refusal(text: &[u8]) -> Result<(), Refusal>
    ensures answer { verdict result ≡ rules_verdict text.now }
    ensures numbers { verdict_numbers (verdict result) ≡ judged_numbers (ruled text.now) }
{
    let mut cells = [0u64; cells::SIZE];
    define(text, &mut cells)?;
    Ok(())
}
