// The bits of a number, and the number of some bits: once over the width, used at 8, 16, 32 and 64.
#![tactic(auto)]

ghost use Rattle.std.specs.Prelude.{◌≡◌, ◌+◌, ◌*◌, ◌^◌, ◌<◌};
ghost use Rattle.bits.specs.Bits.{bit, digit};

// Bit i of a number.
pub fn bit_at(v: u64, i: u64) -> bool
    requires { i < 64 }
    ensures { result ≡ bit v i }
{
    (v >> i) % 2 != 0
}

// A number below 2^i with one more bit.
pub fn with_bit(lower: u64, i: u64, b: bool) -> u64
    requires { (i < 64) × (lower < 2 ^ i) }
    ensures { result ≡ lower + digit b * 2 ^ i }
{
    if b {
        return lower + (1 << i);
    }
    lower
}
