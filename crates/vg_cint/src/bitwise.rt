// The operators that work on each bit by itself.

ghost use Rattle.std.specs.Prelude.{◌≡◌};
ghost use Rattle.vg_cint.specs.Operators as operators;

use crate::words::low;
use vg_core::Integer;

/// The bits that both words of one promoted type have (C11 6.5.10).
pub fn and(of: Integer, a: u64, b: u64) -> u64
    ensures { result ≡ operators.and of a b }
{
    vg_bits::and(low(of, a), low(of, b)).value
}

/// The bits that either of two words of one promoted type has (C11 6.5.12).
pub fn or(of: Integer, a: u64, b: u64) -> u64
    ensures { result ≡ operators.or of a b }
{
    vg_bits::or(low(of, a), low(of, b)).value
}

/// The bits that just one of two words of one promoted type has (C11 6.5.11).
pub fn xor(of: Integer, a: u64, b: u64) -> u64
    ensures { result ≡ operators.xor of a b }
{
    vg_bits::xor(low(of, a), low(of, b)).value
}

/// A word of a promoted type with each bit turned (C11 6.5.3.3).
pub fn complement(of: Integer, a: u64) -> u64
    ensures { result ≡ operators.complement of a }
{
    vg_bits::not(low(of, a)).value
}
