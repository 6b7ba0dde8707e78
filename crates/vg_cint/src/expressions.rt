// Operators on values of any integer types, as C does them: the operands converted, the result of the operator's type.

ghost use Rattle.std.specs.Prelude.{◌≡◌, ◌≢◌, ◌<◌, ◌^◌, IfOk};
ghost use Rattle.vg_cint.specs.Types as types;
ghost use Rattle.vg_cint.specs.Expressions as expressions;

use crate::arithmetic::{add, divide, multiply, negated, remainder, subtract};
use crate::bitwise::{and, complement, or, xor};
use crate::comparing::{equal, less, less_equal};
use crate::shifts::{shift_left, shift_right};
use crate::types::{left_type, promoted, right_type, type_of_binary, type_of_unary};
use crate::value::Value;
use crate::words::{converted, truth};
use vg_core::{BinaryOp, Integer, Reason, UnaryOp};

/// `a op b` as C does it (C11 6.5.5 to 6.5.14): both operands promoted or converted to their common type, and the result with the type that
/// `type_of_binary` gives.
///
/// `&&` and `||` have their value of two operands that are both evaluated; whoever evaluates the right one only where it counts asks `truth` instead.
///
/// `Overflow`: a signed type can't hold the result of `+`, `-`, `*`, `/` or `%`. `DivZero`: a quotient or remainder by 0. `Shift`: a shift by a
/// negative number or by the width or more, or a signed `<<` of a negative value or out of its type.
pub fn binary(op: BinaryOp, a: Value, b: Value) -> Result<Value, Reason>
    ensures value { result ≡ expressions.binary_of op a b }
    ensures below { IfOk result (λ v. v.word < 2 ^ types.width v.of) }
{
    let of = left_type(op, a.of, b.of);
    let by = right_type(op, a.of, b.of);
    let word = on_words(op, of, by, word_at(of, a), word_at(by, b))?;
    Ok(Value {
        of: type_of_binary(op, a.of, b.of),
        word,
    })
}

/// `-a`, `~a` or `!a` as C does it (C11 6.5.3.3): the operand promoted, and the result with the type that `type_of_unary` gives.
///
/// `Overflow`: `-` of the least value of a signed type.
pub fn unary(op: UnaryOp, a: Value) -> Result<Value, Reason>
    requires no_load { op ≢ UnaryOp.Load }
    requires no_address { op ≢ UnaryOp.Address }
    ensures value { result ≡ expressions.unary_of op a }
    ensures below { IfOk result (λ v. v.word < 2 ^ types.width v.of) }
{
    let of = promoted(a.of);
    let word = on_word(op, of, word_at(of, a))?;
    Ok(Value {
        of: type_of_unary(op, a.of),
        word,
    })
}

/// The word of a value converted to a type.
fn word_at(of: Integer, a: Value) -> u64
    ensures { result ≡ expressions.word_at of a }
{
    converted(of, a.of, a.word)
}

/// What an operator gives of two converted words, the left one of type `of` and the right one of type `by`.
fn on_words(op: BinaryOp, of: Integer, by: Integer, a: u64, b: u64) -> Result<u64, Reason>
    ensures { result ≡ expressions.of_words op of by a b }
{
    match op {
        BinaryOp::OrElse => Ok(u64::from(truth(of, a) || truth(by, b))),
        BinaryOp::AndThen => Ok(u64::from(truth(of, a) && truth(by, b))),
        BinaryOp::BitOr => Ok(or(of, a, b)),
        BinaryOp::BitXor => Ok(xor(of, a, b)),
        BinaryOp::BitAnd => Ok(and(of, a, b)),
        BinaryOp::Equal => Ok(u64::from(equal(of, a, b))),
        BinaryOp::NotEqual => Ok(u64::from(!equal(of, a, b))),
        BinaryOp::Less => Ok(u64::from(less(of, a, b))),
        BinaryOp::Greater => Ok(u64::from(less(of, b, a))),
        BinaryOp::LessEqual => Ok(u64::from(less_equal(of, a, b))),
        BinaryOp::GreaterEqual => Ok(u64::from(less_equal(of, b, a))),
        BinaryOp::ShiftLeft => shift_left(of, by, a, b),
        BinaryOp::ShiftRight => shift_right(of, by, a, b),
        BinaryOp::Add => add(of, a, b),
        BinaryOp::Subtract => subtract(of, a, b),
        BinaryOp::Multiply => multiply(of, a, b),
        BinaryOp::Divide => divide(of, a, b),
        BinaryOp::Remainder => remainder(of, a, b),
    }
}

/// What an operator gives of a promoted word.
fn on_word(op: UnaryOp, of: Integer, a: u64) -> Result<u64, Reason>
    ensures { result ≡ expressions.of_word op of a }
{
    match op {
        UnaryOp::Negate => negated(of, a),
        UnaryOp::Complement => Ok(complement(of, a)),
        _ => Ok(u64::from(!truth(of, a))),
    }
}
