// Comparisons, whose answers are words of width 1.

ghost use Rattle.std.specs.Prelude.{◌≡◌};
ghost use Rattle.vg_bits.specs.Words as words;

use crate::word::Word;

/// Whether they are equal: 1 or 0, of width 1.
pub fn eq(a: Word, b: Word) -> Word
    requires { a.width ≡ b.width }
    ensures width { result.width ≡ 1 }
    ensures value { result.value ≡ words.eq a.value b.value }
{
    Word::from_bool(a.value == b.value)
}

/// Whether `a` is less, both read without sign: 1 or 0, of width 1.
pub fn ult(a: Word, b: Word) -> Word
    requires { a.width ≡ b.width }
    ensures width { result.width ≡ 1 }
    ensures value { result.value ≡ words.ult a.value b.value }
{
    Word::from_bool(a.value < b.value)
}

/// Whether `a` is less, both read in two's complement: 1 or 0, of width 1.
pub fn slt(a: Word, b: Word) -> Word
    requires { a.width ≡ b.width }
    ensures width { result.width ≡ 1 }
    ensures value { result.value ≡ words.slt a.width a.value b.value }
{
    Word::from_bool(a.signed() < b.signed())
}
