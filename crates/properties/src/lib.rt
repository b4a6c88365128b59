// The property statements of a body: what each sets, and its fault by 7, 8 or 9.
#![tactic(auto)]

ghost use Rattle.std.specs.Prelude.{◌≡◌, Some};
ghost use Rattle.basics.specs.Judged.{judged};
ghost use Rattle.properties.specs.Assigned.{given_in, assign, nearest, no_settings, nothing_assigned, settings_of, assigned};
ghost use Rattle.properties.specs.Properties.{judge_value, judge_settled, judge_known, judge_property};

use basics::{Refusal, Rule};
use parts::{Assignment, Kind};
use property_values::Slot;
use vocabulary::Property;

// What each property is set to.
#[derive(Clone, Copy, Default)]
pub struct Settings {
    pub sw: Option<u64>,
    pub hw: Option<u64>,
    pub reset: Option<u64>,
    pub onread: Option<u64>,
    pub onwrite: Option<u64>,
    pub regwidth: Option<u64>,
    pub accesswidth: Option<u64>,
    pub alignment: Option<u64>,
    pub addressing: Option<u64>,
    pub name: Option<u64>,
    pub desc: Option<u64>,
}

// A body's own settings and its defaults.
#[derive(Clone, Copy, Default)]
pub struct Assigned {
    pub own: Settings,
    pub defaults: Settings,
}

// What a property is set to.
fn given_in(settings: Settings, slot: Slot) -> Option<u64>
    ensures { result ≡ given_in settings slot }
{
    match slot {
        Slot::Sw => settings.sw,
        Slot::Hw => settings.hw,
        Slot::Reset => settings.reset,
        Slot::Onread => settings.onread,
        Slot::Onwrite => settings.onwrite,
        Slot::Regwidth => settings.regwidth,
        Slot::Accesswidth => settings.accesswidth,
        Slot::Alignment => settings.alignment,
        Slot::Addressing => settings.addressing,
        Slot::Name => settings.name,
        Slot::Desc => settings.desc,
    }
}

// The settings with one property set.
#[tactic(auto, unfolding(crate::specs::Assigned::assign))]
fn assign_slot(s: Settings, slot: Slot, n: u64) -> Settings
    ensures { result ≡ assign s slot n }
{
    let set = Some(n);
    match slot {
        Slot::Sw => Settings { sw: set, ..s },
        Slot::Hw => Settings { hw: set, ..s },
        Slot::Reset => Settings { reset: set, ..s },
        Slot::Onread => Settings { onread: set, ..s },
        Slot::Onwrite => Settings { onwrite: set, ..s },
        Slot::Regwidth => Settings { regwidth: set, ..s },
        Slot::Accesswidth => Settings {
            accesswidth: set,
            ..s
        },
        Slot::Alignment => Settings {
            alignment: set,
            ..s
        },
        Slot::Addressing => Settings {
            addressing: set,
            ..s
        },
        Slot::Name => Settings { name: set, ..s },
        Slot::Desc => Settings { desc: set, ..s },
    }
}

// The settings of a body over those from outside.
#[tactic(auto, unfolding(crate::specs::Assigned::nearest))]
pub fn nearest_of(near: Settings, far: Settings) -> Settings
    ensures { result ≡ nearest near far }
{
    Settings {
        sw: near.sw.or(far.sw),
        hw: near.hw.or(far.hw),
        reset: near.reset.or(far.reset),
        onread: near.onread.or(far.onread),
        onwrite: near.onwrite.or(far.onwrite),
        regwidth: near.regwidth.or(far.regwidth),
        accesswidth: near.accesswidth.or(far.accesswidth),
        alignment: near.alignment.or(far.alignment),
        addressing: near.addressing.or(far.addressing),
        name: near.name.or(far.name),
        desc: near.desc.or(far.desc),
    }
}

// Nothing is set.
pub fn no_settings() -> Settings
    ensures { result ≡ no_settings }
{
    Settings::default()
}

// Neither a setting nor a default.
pub fn nothing_assigned() -> Assigned
    ensures { result ≡ nothing_assigned }
{
    Assigned::default()
}

fn settings_of(defaulted: bool, assigned: Assigned) -> Settings
    ensures { result ≡ settings_of defaulted assigned }
{
    if defaulted {
        assigned.defaults
    } else {
        assigned.own
    }
}

// What is set after one more setting, or default.
#[tactic(auto, unfolding(crate::specs::Assigned::assigned))]
fn assign_to(defaulted: bool, before: Assigned, slot: Slot, number: u64) -> Assigned
    ensures { result ≡ assigned defaulted before slot number }
{
    if defaulted {
        let defaults = assign_slot(before.defaults, slot, number);
        Assigned { defaults, ..before }
    } else {
        let own = assign_slot(before.own, slot, number);
        Assigned { own, ..before }
    }
}

#[tactic(auto, unfolding(crate::specs::Properties::judge_value))]
fn judge_value(
    before: Assigned,
    statement: Assignment,
    slot: Slot,
    setting: Option<u64>,
) -> Result<Assigned, Refusal>
    ensures { judged result ≡ judge_value before statement slot setting }
{
    match setting {
        Some(number) => Ok(assign_to(statement.defaulted, before, slot, number)),
        None => {
            let place = property_values::value_place(statement.start, statement.value);
            Err(Rule::BadValue.at(place))
        }
    }
}

// No range over a refused part is judged.
fn judge_settled(
    before: Assigned,
    statement: Assignment,
    slot: Slot,
    refusal: Option<usize>,
    setting: Option<u64>,
) -> Result<Assigned, Refusal>
    ensures { judged result ≡ judge_settled before statement slot refusal setting }
{
    match refusal {
        Some(place) => Err(Rule::BadValue.at(place)),
        None => judge_value(before, statement, slot, setting),
    }
}

#[tactic(auto, unfolding(crate::specs::Properties::judge_known, basics::specs::Judged::unless))]
fn judge_known(
    kind: Kind,
    before: Assigned,
    statement: Assignment,
    property: Property,
) -> Result<Assigned, Refusal>
    ensures { judged result ≡ judge_known kind before statement (Some property) }
{
    if !property_values::is_allowed(statement.defaulted, property, kind) {
        return Err(Rule::PropertyMisplaced.at(statement.start));
    }
    let slot = property_values::slot_of(property);
    if given_in(settings_of(statement.defaulted, before), slot).is_some() {
        return Err(Rule::SetTwice.at(statement.start));
    }
    let refusal = property_values::refusal_in(property, statement.value);
    let setting = property_values::setting_of(property, statement.value);
    judge_settled(before, statement, slot, refusal, setting)
}

// A property statement in a body of a component of this kind, with what is set before it.
#[tactic(auto, unfolding(crate::specs::Properties::judge_property, crate::specs::Properties::judge_known))]
pub fn judge_property(
    text: &[u8],
    kind: Kind,
    before: Assigned,
    statement: Assignment,
) -> Result<Assigned, Refusal>
    ensures { judged result ≡ judge_property text.now kind before statement }
{
    let word = identifiers::bytes_of(text, statement.start, statement.end);
    match vocabulary::property_of(word) {
        Some(property) => judge_known(kind, before, statement, property),
        None => Err(Rule::PropertyMisplaced.at(statement.start)),
    }
}
