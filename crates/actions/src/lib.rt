// What an access does to one stored bit: one decision over the write-effect code, with the zero-triggered and unconditional ones.
#![tactic(auto)]

ghost use Rattle.std.specs.Prelude.{◌≡◌};
ghost use Rattle.actions.specs.Actions.{apply, on_one, on_zero, copied, write_action, read_action};

// What an access does to one stored bit.
#[derive(Clone, Copy)]
pub enum Action {
    Kept,
    Cleared,
    Set,
    Inverted,
}

fn on_one(one: bool, a: Action) -> Action
    ensures { result ≡ on_one one a }
{
    if one { a } else { Action::Kept }
}

fn on_zero(one: bool, a: Action) -> Action
    ensures { result ≡ on_zero one a }
{
    if one { Action::Kept } else { a }
}

fn copied_bit(one: bool) -> Action
    ensures { result ≡ copied one }
{
    if one { Action::Set } else { Action::Cleared }
}

// The write-effect codes, as the rows hold them: none 0, woset 1, woclr 2, wot 3, wzs 4, wzc 5, wzt 6, wclr 7, wset 8.
#[tactic(auto, unfolding(crate::specs::Actions::write_action))]
pub fn write_action(code: u64, one: bool) -> Action
    ensures { result ≡ write_action code one }
{
    match code {
        1 => on_one(one, Action::Set),
        2 => on_one(one, Action::Cleared),
        3 => on_one(one, Action::Inverted),
        4 => on_zero(one, Action::Set),
        5 => on_zero(one, Action::Cleared),
        6 => on_zero(one, Action::Inverted),
        7 => Action::Cleared,
        8 => Action::Set,
        _ => copied_bit(one),
    }
}

// The read-effect codes: none 0, rclr 1, rset 2.
#[tactic(auto, unfolding(crate::specs::Actions::read_action))]
pub fn read_action(code: u64) -> Action
    ensures { result ≡ read_action code }
{
    match code {
        1 => Action::Cleared,
        2 => Action::Set,
        _ => Action::Kept,
    }
}

pub fn applied(a: Action, b: bool) -> bool
    ensures { result ≡ apply a b }
{
    match a {
        Action::Kept => b,
        Action::Cleared => false,
        Action::Set => true,
        Action::Inverted => !b,
    }
}
