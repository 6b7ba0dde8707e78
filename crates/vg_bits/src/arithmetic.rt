// Sums, differences, products, quotients and remainders, modulo 2 to the width.

ghost use Rattle.std.specs.Prelude.{◌≡◌};
ghost use Rattle.vg_bits.specs.Words as words;

use crate::word::Word;

/// The sum, modulo 2 to the width.
#[tactic(auto, using(crate::proofs::Masks::mod_64))]
pub fn add(a: Word, b: Word) -> Word
    requires { a.width ≡ b.width }
    ensures width { result.width ≡ a.width }
    ensures value { result.value ≡ words.add a.width a.value b.value }
{
    Word::from_low_bits(a.width, a.value.wrapping_add(b.value))
}

/// The difference, modulo 2 to the width.
#[tactic(auto, using(crate::proofs::Machine::wrapped_difference))]
pub fn sub(a: Word, b: Word) -> Word
    requires { a.width ≡ b.width }
    ensures width { result.width ≡ a.width }
    ensures value { result.value ≡ words.sub a.width a.value b.value }
{
    Word::from_low_bits(a.width, a.value.wrapping_sub(b.value))
}

/// The product, modulo 2 to the width.
#[tactic(auto, using(crate::proofs::Masks::mod_64))]
pub fn mul(a: Word, b: Word) -> Word
    requires { a.width ≡ b.width }
    ensures width { result.width ≡ a.width }
    ensures value { result.value ≡ words.mul a.width a.value b.value }
{
    Word::from_low_bits(a.width, a.value.wrapping_mul(b.value))
}

/// The unsigned quotient, rounded down; all ones where the divisor is 0.
pub fn udiv(a: Word, b: Word) -> Word
    requires { a.width ≡ b.width }
    ensures width { result.width ≡ a.width }
    ensures value { result.value ≡ words.udiv a.width a.value b.value }
{
    if b.value == 0 {
        return Word::all_ones(a.width);
    }
    Word {
        width: a.width,
        value: a.value / b.value,
    }
}

/// The unsigned remainder; the dividend where the divisor is 0.
pub fn urem(a: Word, b: Word) -> Word
    requires { a.width ≡ b.width }
    ensures width { result.width ≡ a.width }
    ensures value { result.value ≡ words.urem a.value b.value }
{
    if b.value == 0 {
        return a;
    }
    Word {
        width: a.width,
        value: a.value % b.value,
    }
}
