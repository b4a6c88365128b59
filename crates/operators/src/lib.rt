// The operators of constant expressions: how tightly each binds, and its result over numbers of 64 bits, or that it has none.
#![tactic(auto)]

ghost use Rattle.std.specs.Prelude.{◌≡◌};
ghost use Rattle.operators.specs.Operators.{row_of, truth, result_of};

// A shift has to be below it.
const SHIFT_LIMIT: u64 = 64;

#[derive(Clone, Copy, PartialEq, Eq)]
pub enum Operator {
    Times,
    Over,
    Modulo,
    Plus,
    Minus,
    ShiftLeft,
    ShiftRight,
    Less,
    AtMost,
    More,
    AtLeast,
    Same,
    Unlike,
    And,
    Xor,
    Or,
}

// The operator's row, the tightest being 1.
pub fn row_of(operator: Operator) -> usize
    ensures { result ≡ row_of operator }
{
    match operator {
        Operator::Times | Operator::Over | Operator::Modulo => 1,
        Operator::Plus | Operator::Minus => 2,
        Operator::ShiftLeft | Operator::ShiftRight => 3,
        Operator::Less | Operator::AtMost | Operator::More | Operator::AtLeast => 4,
        Operator::Same | Operator::Unlike => 5,
        Operator::And => 6,
        Operator::Xor => 7,
        Operator::Or => 8,
    }
}

fn shift_left(a: u64, b: u64) -> Option<u64>
    ensures { result ≡ result_of Operator.ShiftLeft a b }
{
    if b >= SHIFT_LIMIT {
        return None;
    }
    if a > u64::MAX >> b {
        return None;
    }
    Some(a << b)
}

fn shift_right(a: u64, b: u64) -> Option<u64>
    ensures { result ≡ result_of Operator.ShiftRight a b }
{
    if b >= SHIFT_LIMIT {
        return None;
    }
    Some(a >> b)
}

fn truth_of(holds: bool) -> Option<u64>
    ensures { result ≡ truth holds }
{
    Some(u64::from(holds))
}

// What an operator gives between two numbers: nothing where that is no number from 0 to 2^64 - 1.
#[tactic(auto, unfolding(crate::specs::Operators::result_of))]
pub fn apply(operator: Operator, a: u64, b: u64) -> Option<u64>
    ensures { result ≡ result_of operator a b }
{
    match operator {
        Operator::Times => a.checked_mul(b),
        Operator::Over => a.checked_div(b),
        Operator::Modulo => a.checked_rem(b),
        Operator::Plus => a.checked_add(b),
        Operator::Minus => a.checked_sub(b),
        Operator::ShiftLeft => shift_left(a, b),
        Operator::ShiftRight => shift_right(a, b),
        Operator::Less => truth_of(a < b),
        Operator::AtMost => truth_of(a <= b),
        Operator::More => truth_of(a > b),
        Operator::AtLeast => truth_of(a >= b),
        Operator::Same => truth_of(a == b),
        Operator::Unlike => truth_of(a != b),
        Operator::And => Some(a & b),
        Operator::Xor => Some(a ^ b),
        Operator::Or => Some(a | b),
    }
}
