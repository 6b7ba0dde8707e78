// The operations that work on each bit by itself.

ghost use Rattle.std.specs.Prelude.{◌≡◌, bit_and, bit_or, bit_xor};
ghost use Rattle.vg_bits.specs.Words as words;

use crate::word::Word;

/// The bits that both have.
pub fn and(a: Word, b: Word) -> Word
    requires { a.width ≡ b.width }
    ensures width { result.width ≡ a.width }
    ensures value { result.value ≡ bit_and a.value b.value }
{
    Word {
        width: a.width,
        value: a.value & b.value,
    }
}

/// The bits that either has.
#[tactic(auto, using(std::proofs::lemmas::Nat::or_lt))]
pub fn or(a: Word, b: Word) -> Word
    requires { a.width ≡ b.width }
    ensures width { result.width ≡ a.width }
    ensures value { result.value ≡ bit_or a.value b.value }
{
    Word {
        width: a.width,
        value: a.value | b.value,
    }
}

/// The bits that just one of the two has.
#[tactic(auto, using(std::proofs::lemmas::Nat::xor_lt))]
pub fn xor(a: Word, b: Word) -> Word
    requires { a.width ≡ b.width }
    ensures width { result.width ≡ a.width }
    ensures value { result.value ≡ bit_xor a.value b.value }
{
    Word {
        width: a.width,
        value: a.value ^ b.value,
    }
}

/// Each bit turned.
pub fn not(a: Word) -> Word
    ensures width { result.width ≡ a.width }
    ensures value { result.value ≡ words.not a.width a.value }
{
    Word {
        width: a.width,
        value: Word::all_ones(a.width).value - a.value,
    }
}
