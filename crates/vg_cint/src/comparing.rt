// Comparisons.

ghost use Rattle.std.specs.Prelude.{◌≡◌};
ghost use Rattle.vg_cint.specs.Operators as operators;

use crate::words::reading;
use vg_core::Integer;

/// Whether two words of one promoted type stand for the same integer (C11 6.5.9).
pub fn equal(of: Integer, a: u64, b: u64) -> bool
    ensures { result ≡ operators.equal of a b }
{
    reading(of, a) == reading(of, b)
}

/// Whether the first of two words of one promoted type stands for the lesser integer (C11 6.5.8).
pub fn less(of: Integer, a: u64, b: u64) -> bool
    ensures { result ≡ operators.less of a b }
{
    reading(of, a) < reading(of, b)
}

/// Whether the first of two words of one promoted type stands for the lesser integer or the same one (C11 6.5.8).
pub fn less_equal(of: Integer, a: u64, b: u64) -> bool
    ensures { result ≡ operators.less_equal of a b }
{
    reading(of, a) <= reading(of, b)
}
