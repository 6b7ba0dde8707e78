// Shifts, whose operands have types of their own. The result has the left one's.

ghost use Rattle.std.specs.Prelude.{◌≡◌, ◌<◌, ◌≤ℤ◌, ◌<ℤ◌, ◌*ℤ◌, ◌^◌, pos, neg_ℤ};
ghost use Rattle.vg_cint.specs.Operators as operators;

use crate::types::width;
use crate::words::{fits, reading, word_of};
use vg_core::{Integer, Reason};

/// Whether a word of this type is shifted by `count` at all: it isn't negative, and below the width.
fn is_within(of: Integer, count: i128) -> bool
    ensures { result ≡ operators.is_within of count }
{
    0 <= count && count < i128::from(width(of))
}

/// 2 to this number of places.
#[tactic(auto, using(std::proofs::lemmas::Nat::one_shl))]
fn power(places: u32) -> i128
    requires { places < 64 }
    ensures { result ≡ pos (2 ^ places) }
{
    i128::from(1_u64 << places)
}

/// A value times 2 to this number of places.
#[tactic(auto, using(crate::proofs::Powers::scaled_fits))]
fn scaled(value: i128, places: u32) -> i128
    requires least { neg_ℤ (pos (2 ^ 63)) ≤ℤ value }
    requires greatest { value <ℤ pos (2 ^ 64) }
    requires places { places < 64 }
    ensures { result ≡ value *ℤ pos (2 ^ places) }
{
    value * power(places)
}

/// A value of the type `of` shifted to the left. `Shift`: `of` is signed, and the value is negative or the result too great.
fn moved_left(of: Integer, value: i128, places: u32) -> Result<u64, Reason>
    requires least { neg_ℤ (pos (2 ^ 63)) ≤ℤ value }
    requires greatest { value <ℤ pos (2 ^ 64) }
    requires places { places < 64 }
    ensures { result ≡ operators.moved_left of value places }
{
    let moved = scaled(value, places);
    if of.signed && value < 0 {
        return Err(Reason::Shift);
    }
    if fits(of, moved) {
        Ok(word_of(of, moved))
    } else {
        Err(Reason::Shift)
    }
}

/// A word of the promoted type `of` shifted to the left by a word of the promoted type `by` (C11 6.5.7), modulo 2 to the width for an unsigned type.
///
/// `Shift`: `count` is negative or not below the width of `of`, or `of` is signed and the left operand is negative or the result too great.
pub fn shift_left(of: Integer, by: Integer, word: u64, count: u64) -> Result<u64, Reason>
    ensures { result ≡ operators.shift_left of by word count }
{
    let count = reading(by, count);
    if is_within(of, count) {
        moved_left(of, reading(of, word), count as u32)
    } else {
        Err(Reason::Shift)
    }
}

/// A word of the promoted type `of` shifted to the right by a word of the promoted type `by` (C11 6.5.7), with the sign from the left.
///
/// `Shift`: `count` is negative or not below the width of `of`.
pub fn shift_right(of: Integer, by: Integer, word: u64, count: u64) -> Result<u64, Reason>
    ensures { result ≡ operators.shift_right of by word count }
{
    let count = reading(by, count);
    if is_within(of, count) {
        Ok(word_of(of, reading(of, word) >> count))
    } else {
        Err(Reason::Shift)
    }
}
