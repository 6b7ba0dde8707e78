// Sums, products, quotients and remainders. An `i128` holds every whole-number result but an unsigned product.

ghost use Rattle.std.specs.Prelude.{◌≡◌, ◌^◌, ◌*ℤ◌, ◌≤ℤ◌, pos, neg_ℤ, IsTrue};
ghost use Rattle.vg_cint.specs.Values as values;
ghost use Rattle.vg_cint.specs.Operators as operators;

use crate::words::{fits, held, low, reading, signed_reading, word_of};
use vg_core::{Integer, Reason};

/// The sum of two words of one promoted type, modulo 2 to the width for an unsigned type (C11 6.5.6).
///
/// `Overflow`: the type is signed and can't hold the sum.
pub fn add(of: Integer, a: u64, b: u64) -> Result<u64, Reason>
    ensures { result ≡ operators.add of a b }
{
    held(of, reading(of, a) + reading(of, b))
}

/// The difference of two words of one promoted type, modulo 2 to the width for an unsigned type (C11 6.5.6).
///
/// `Overflow`: the type is signed and can't hold the difference.
pub fn subtract(of: Integer, a: u64, b: u64) -> Result<u64, Reason>
    ensures { result ≡ operators.subtract of a b }
{
    held(of, reading(of, a) - reading(of, b))
}

/// The product of two words of one promoted type, modulo 2 to the width for an unsigned type (C11 6.5.5).
///
/// `Overflow`: the type is signed and can't hold the product.
#[tactic(auto, using(crate::proofs::Products::unsigned_product))]
pub fn multiply(of: Integer, a: u64, b: u64) -> Result<u64, Reason>
    ensures { result ≡ operators.multiply of a b }
{
    if of.signed {
        return held(of, signed_product(of, a, b));
    }
    Ok(vg_bits::mul(low(of, a), low(of, b)).value)
}

/// The product of the integers that two words of a signed type stand for.
#[tactic(auto, using(crate::proofs::Products::product_fits))]
fn signed_product(of: Integer, a: u64, b: u64) -> i128
    requires { IsTrue of.signed }
    ensures { result ≡ values.reading of a *ℤ values.reading of b }
{
    i128::from(signed_reading(of, a)) * i128::from(signed_reading(of, b))
}

/// The quotient of two words of one promoted type, rounded towards zero (C11 6.5.5).
///
/// `DivZero`: the divisor is 0. `Overflow`: the least value of a signed type is divided by -1.
pub fn divide(of: Integer, a: u64, b: u64) -> Result<u64, Reason>
    ensures { result ≡ operators.divide of a b }
{
    let divisor = reading(of, b);
    if divisor == 0 {
        return Err(Reason::DivZero);
    }
    held(of, reading(of, a) / divisor)
}

/// The remainder of two words of one promoted type, which has the dividend's sign (C11 6.5.5).
///
/// `DivZero`: the divisor is 0. `Overflow`: the least value of a signed type is divided by -1.
pub fn remainder(of: Integer, a: u64, b: u64) -> Result<u64, Reason>
    ensures { result ≡ operators.remainder of a b }
{
    let dividend = reading(of, a);
    let divisor = reading(of, b);
    remaining(of, dividend, divisor)
}

/// The remainder of two values of the type `of`, which isn't defined where the quotient isn't.
fn remaining(of: Integer, dividend: i128, divisor: i128) -> Result<u64, Reason>
    requires { neg_ℤ (pos (2 ^ 63)) ≤ℤ dividend }
    ensures { result ≡ operators.remaining of dividend divisor }
{
    if divisor == 0 {
        return Err(Reason::DivZero);
    }
    if fits(of, dividend / divisor) {
        Ok(word_of(of, dividend % divisor))
    } else {
        Err(Reason::Overflow)
    }
}

/// A word of a promoted type with the other sign, modulo 2 to the width for an unsigned type (C11 6.5.3.3).
///
/// `Overflow`: the word is the least value of a signed type.
pub fn negated(of: Integer, a: u64) -> Result<u64, Reason>
    ensures { result ≡ operators.negated of a }
{
    held(of, -reading(of, a))
}
