// Words as the integers that they stand for, and back.

ghost use Rattle.std.specs.Prelude.{◌≡◌, ◌<◌, ◌^◌, ◌%◌, ◌≤ℤ◌, ◌<ℤ◌, pos, neg_ℤ, IsTrue};
ghost use Rattle.vg_cint.specs.Types as types;
ghost use Rattle.vg_cint.specs.Values as values;

use crate::types::width;
use vg_bits::Word;
use vg_core::{Integer, Reason};

/// The word's low bits, as many as its type has.
pub(crate) fn low(of: Integer, word: u64) -> Word
    ensures width { result.width ≡ types.width of }
    ensures value { result.value ≡ values.low of word }
{
    Word::from_low_bits(width(of), word)
}

/// The integer that a word of a signed type stands for.
#[tactic(auto, unfolding(crate::specs::Values::reading))]
pub(crate) fn signed_reading(of: Integer, word: u64) -> i64
    requires { IsTrue of.signed }
    ensures { result ≡ values.reading of word }
{
    low(of, word).signed()
}

/// The integer that a word of the type stands for (C11 6.2.6.2): in two's complement where the type is signed.
#[tactic(auto, unfolding(crate::specs::Values::reading))]
pub fn reading(of: Integer, word: u64) -> i128
    ensures value { result ≡ values.reading of word }
    ensures least { neg_ℤ (pos (2 ^ 63)) ≤ℤ result }
    ensures greatest { result <ℤ pos (2 ^ 64) }
{
    if of.signed {
        i128::from(signed_reading(of, word))
    } else {
        i128::from(low(of, word).value)
    }
}

/// The word of an integer, modulo 2 to the width.
#[tactic(auto, unfolding(crate::specs::Values::word_of))]
pub(crate) fn word_of(of: Integer, value: i128) -> u64
    ensures { result ≡ values.word_of of value }
{
    let low_bits = value.cast_unsigned() & u128::from(u64::MAX);
    Word::from_low_bits(width(of), low_bits as u64).value
}

/// The least value of a type.
fn least(of: Integer) -> i128
    ensures { result ≡ values.least of }
{
    if of.signed {
        -(1_i128 << (width(of) - 1))
    } else {
        0
    }
}

/// The greatest value of a type.
fn greatest(of: Integer) -> i128
    ensures { result ≡ values.greatest of }
{
    if of.signed {
        (1_i128 << (width(of) - 1)) - 1
    } else {
        (1_i128 << width(of)) - 1
    }
}

/// Whether a type can hold this value (C11 6.2.5).
#[tactic(auto, unfolding(crate::specs::Values::can_hold))]
pub fn can_hold(of: Integer, value: i128) -> bool
    ensures { result ≡ values.can_hold of value }
{
    least(of) <= value && value <= greatest(of)
}

/// Whether a type takes this result of an operator: a signed type where it can hold it, an unsigned one always.
#[tactic(auto, unfolding(crate::specs::Values::fits))]
pub(crate) fn fits(of: Integer, value: i128) -> bool
    ensures { result ≡ values.fits of value }
{
    !of.signed || can_hold(of, value)
}

/// The word of an operator's result. `Overflow`: a signed type that can't hold it.
pub(crate) fn held(of: Integer, value: i128) -> Result<u64, Reason>
    ensures { result ≡ values.held of value }
{
    if fits(of, value) {
        Ok(word_of(of, value))
    } else {
        Err(Reason::Overflow)
    }
}

/// A word of the type `from` converted to the type `to` (C11 6.3.1.3): the same value where `to` can hold it, and else modulo 2 to the width, also where
/// `to` is signed.
#[tactic(auto, using(crate::proofs::Laws::word_of_below, crate::proofs::Laws::kept))]
pub fn converted(to: Integer, from: Integer, word: u64) -> u64
    ensures word { result ≡ values.converted to from word }
    ensures below { result < 2 ^ types.width to }
    ensures kept { IsTrue (values.can_hold to (values.reading from word)) → values.reading to result ≡ values.reading from word }
{
    word_of(to, reading(from, word))
}

/// Whether a word of the type, taken as a condition, holds: whether it isn't 0.
pub fn truth(of: Integer, word: u64) -> bool
    ensures { result ≡ values.truth of word }
{
    reading(of, word) != 0
}
