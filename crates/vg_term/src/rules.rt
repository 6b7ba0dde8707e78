//! Rules for an operation on two parts of one width, as tables.

ghost use Rattle.std.specs.Prelude.{◌≡◌};
ghost use Rattle.vg_term.specs.Rules as rules;

use crate::node::Op;

/// A simpler answer of an operation on two parts.
#[derive(Clone, Copy, PartialEq, Eq, Debug)]
pub(crate) enum Simple {
    /// The part that isn't a constant, or either of two equal ones.
    Part,
    /// The word with no bit set.
    Zero,
    /// The word with only its lowest bit set.
    One,
    /// The word with every bit set.
    Ones,
}

/// `x op x`.
pub(crate) fn on_equal(op: Op) -> Option<Simple>
    ensures { result ≡ rules.on_equal op }
{
    match op {
        Op::Sub | Op::Xor | Op::Urem | Op::Ult | Op::Slt => Some(Simple::Zero),
        Op::And | Op::Or => Some(Simple::Part),
        Op::Eq => Some(Simple::One),
        _ => None,
    }
}

/// `x op !x`, and `!x op x`.
pub(crate) fn on_opposite(op: Op) -> Option<Simple>
    ensures { result ≡ rules.on_opposite op }
{
    match op {
        Op::And | Op::Eq => Some(Simple::Zero),
        Op::Or | Op::Xor | Op::Add => Some(Simple::Ones),
        _ => None,
    }
}

/// `x op 0`.
pub(crate) fn before_zero(op: Op) -> Option<Simple>
    ensures { result ≡ rules.before_zero op }
{
    match op {
        Op::Add | Op::Sub | Op::Or | Op::Xor => Some(Simple::Part),
        Op::Shl | Op::Lshr | Op::Ashr | Op::Urem => Some(Simple::Part),
        Op::Mul | Op::And | Op::Ult => Some(Simple::Zero),
        Op::Udiv => Some(Simple::Ones),
        _ => None,
    }
}

/// `x op 1`.
pub(crate) fn before_one(op: Op) -> Option<Simple>
    ensures { result ≡ rules.before_one op }
{
    match op {
        Op::Mul | Op::Udiv => Some(Simple::Part),
        Op::Urem => Some(Simple::Zero),
        _ => None,
    }
}

/// `x op ones`.
pub(crate) fn before_ones(op: Op) -> Option<Simple>
    ensures { result ≡ rules.before_ones op }
{
    match op {
        Op::And => Some(Simple::Part),
        Op::Or => Some(Simple::Ones),
        _ => None,
    }
}

/// `0 op x`.
pub(crate) fn after_zero(op: Op) -> Option<Simple>
    ensures { result ≡ rules.after_zero op }
{
    match op {
        Op::Add | Op::Or | Op::Xor => Some(Simple::Part),
        Op::Mul | Op::And | Op::Urem => Some(Simple::Zero),
        Op::Shl | Op::Lshr | Op::Ashr => Some(Simple::Zero),
        _ => None,
    }
}

/// `1 op x`.
pub(crate) fn after_one(op: Op) -> Option<Simple>
    ensures { result ≡ rules.after_one op }
{
    match op {
        Op::Mul => Some(Simple::Part),
        _ => None,
    }
}

/// `ones op x`.
pub(crate) fn after_ones(op: Op) -> Option<Simple>
    ensures { result ≡ rules.after_ones op }
{
    match op {
        Op::And => Some(Simple::Part),
        Op::Or => Some(Simple::Ones),
        Op::Ult => Some(Simple::Zero),
        _ => None,
    }
}
