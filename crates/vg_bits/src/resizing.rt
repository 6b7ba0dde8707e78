// Words made of words of other widths.

ghost use Rattle.std.specs.Prelude.{◌≡◌, ◌+◌, ◌<◌, ◌≤◌};
ghost use Rattle.vg_bits.specs.Words as words;

use crate::word::Word;

/// One word above another: `high` is the more significant part.
#[tactic(auto, using(crate::proofs::Masks::joined, crate::proofs::Masks::joined_below))]
pub fn concat(high: Word, low: Word) -> Word
    requires { high.width + low.width ≤ 64 }
    ensures width { result.width ≡ high.width + low.width }
    ensures value { result.value ≡ words.concat low.width high.value low.value }
{
    Word {
        width: high.width + low.width,
        value: (high.value << low.width) | low.value,
    }
}

/// The `width` bits from bit `from` on, where bit 0 is the least significant.
pub fn extract(a: Word, from: u8, width: u8) -> Word
    requires not_empty { 0 < width }
    requires within { from + width ≤ a.width }
    ensures width { result.width ≡ width }
    ensures value { result.value ≡ words.extract from width a.value }
{
    Word::from_low_bits(width, a.value >> from)
}

/// The word of `width` bits with the same value.
#[tactic(auto, using(crate::proofs::Masks::wider_below))]
pub fn zext(a: Word, width: u8) -> Word
    requires wider { a.width ≤ width }
    requires at_most_64 { width ≤ 64 }
    ensures width { result.width ≡ width }
    ensures value { result.value ≡ a.value }
{
    Word {
        width,
        value: a.value,
    }
}

/// The word of `width` bits with the same signed reading: the sign in every new bit.
pub fn sext(a: Word, width: u8) -> Word
    requires wider { a.width ≤ width }
    requires at_most_64 { width ≤ 64 }
    ensures width { result.width ≡ width }
    ensures value { result.value ≡ words.sext a.width width a.value }
{
    Word::from_signed(width, a.signed())
}
