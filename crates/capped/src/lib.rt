// Arithmetic on sizes and offsets, cut at a cap above every address, so that nothing wraps.
#![tactic(auto)]

ghost use Rattle.std.specs.Prelude.{◌≡◌, true, ◌+◌, ◌*◌, ◌≤◌};
ghost use Rattle.property_values.specs.Settings.{is_alignment};
ghost use Rattle.capped.specs.Offsets.{cap, factor_bound, cut, raised, common_multiple, power_above};

pub const CAP: u64 = 1099511627776;

// A number cut at the cap.
#[tactic(auto, using(crate::proofs::Laws::cut_min))]
fn cut_at_cap(x: u64) -> u64
    ensures { result ≡ cut x }
{
    x.min(CAP)
}

pub fn sum(a: u64, b: u64) -> u64
    requires { (a ≤ cap) × (b ≤ cap) }
    ensures { (result ≡ cut (a + b)) × (result ≤ cap) }
{
    cut_at_cap(a + b)
}

pub fn product(a: u64, n: u64) -> u64
    requires { (a ≤ cap) × (n ≤ factor_bound) }
    ensures { (result ≡ cut (a * n)) × (result ≤ cap) }
{
    cut_at_cap(a * n)
}

// The smallest multiple of a step that is not below a number.
pub fn raise(x: u64, step: u64) -> u64
    requires { (x ≤ cap) × (1 ≤ step) × (step ≤ cap) }
    ensures { (result ≡ cut (raised x step)) × (result ≤ cap) }
{
    cut_at_cap((x + (step - 1)) / step * step)
}

// The least common multiple of a power of two and a number: the number doubled until it is a multiple.
pub fn common_multiple(a: u64, b: u64) -> u64
    requires { (is_alignment a ≡ true) × (1 ≤ b) × (b ≤ cap) }
    ensures { (result ≡ cut (common_multiple a b)) × (result ≤ cap) }
{
    let mut multiple = b;
    while multiple % a != 0 {
        multiple = 2 * multiple;
    }
    cut_at_cap(multiple)
}

// The smallest power of two that is not below a number.
pub fn power_above(x: u64) -> u64
    requires { x ≤ cap }
    ensures { (result ≡ cut (power_above x)) × (result ≤ cap) }
{
    let mut power = 1;
    while power < x {
        power = 2 * power;
    }
    power
}
