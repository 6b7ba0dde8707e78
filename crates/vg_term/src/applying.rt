//! What an operation answers on words.

ghost use Rattle.std.specs.Prelude.{◌≡◌, map};
ghost use Rattle.vg_term.specs.Operations.{Fits, FitsNone, FitsOne, FitsTwo, FitsThree, bits_of, answer, width_of, widths, value_none, value_one};
ghost use Rattle.vg_term.specs.Operations.{value_two, value_three, width_none, width_one, width_two};

use crate::node::Op;
use vg_bits::Word;

/// The word that an operation answers on words that fit it.
pub fn apply(op: Op, parts: &[Word]) -> Word
    requires { Fits op (widths (map bits_of parts.now)) }
    ensures width { result.width ≡ width_of op (widths (map bits_of parts.now)) }
    ensures value { result.value ≡ answer op (map bits_of parts.now) }
{
    match parts {
        [] => constant(op),
        [a] => unary(op, *a),
        [a, b] => binary(op, *a, *b),
        [condition, a, b] => choice(op, *condition, *a, *b),
        _ => unreachable!(),
    }
}

fn constant(op: Op) -> Word
    requires { FitsNone op }
    ensures width { result.width ≡ width_none op }
    ensures value { result.value ≡ value_none op }
{
    match op {
        Op::Const(word) => word,
        _ => unreachable!(),
    }
}

fn unary(op: Op, a: Word) -> Word
    requires { FitsOne op a.width }
    ensures width { result.width ≡ width_one op a.width }
    ensures value { result.value ≡ value_one op (bits_of a) }
{
    match op {
        Op::Not => vg_bits::not(a),
        Op::Extract { from, width } => vg_bits::extract(a, from, width),
        Op::Zext(width) => vg_bits::zext(a, width),
        Op::Sext(width) => vg_bits::sext(a, width),
        _ => unreachable!(),
    }
}

fn binary(op: Op, a: Word, b: Word) -> Word
    requires { FitsTwo op a.width b.width }
    ensures width { result.width ≡ width_two op a.width b.width }
    ensures value { result.value ≡ value_two op (bits_of a) (bits_of b) }
{
    match op {
        Op::Add => vg_bits::add(a, b),
        Op::Sub => vg_bits::sub(a, b),
        Op::Mul => vg_bits::mul(a, b),
        Op::Udiv => vg_bits::udiv(a, b),
        Op::Urem => vg_bits::urem(a, b),
        Op::And => vg_bits::and(a, b),
        Op::Or => vg_bits::or(a, b),
        Op::Xor => vg_bits::xor(a, b),
        Op::Shl => vg_bits::shl(a, b),
        Op::Lshr => vg_bits::lshr(a, b),
        Op::Ashr => vg_bits::ashr(a, b),
        Op::Eq => vg_bits::eq(a, b),
        Op::Ult => vg_bits::ult(a, b),
        Op::Slt => vg_bits::slt(a, b),
        Op::Concat => vg_bits::concat(a, b),
        _ => unreachable!(),
    }
}

fn choice(op: Op, condition: Word, a: Word, b: Word) -> Word
    requires { FitsThree op condition.width a.width b.width }
    ensures width { result.width ≡ a.width }
    ensures value { result.value ≡ value_three op (bits_of condition) (bits_of a) (bits_of b) }
{
    match op {
        Op::Ite => { if condition.value == 1 { a } else { b } }
        _ => unreachable!(),
    }
}
