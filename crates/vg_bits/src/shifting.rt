// Shifts by a word's value. Rust shifts a `u64` by less than 64 only, so a shift by the width or more is a case of its own.

ghost use Rattle.std.specs.Prelude.{◌≡◌};
ghost use Rattle.vg_bits.specs.Words as words;

use crate::word::Word;

/// To the left by `b`, with zeros from the right; 0 where `b` is the width or more.
#[tactic(auto, using(crate::proofs::Masks::shifted_off, crate::proofs::Masks::mod_64))]
pub fn shl(a: Word, b: Word) -> Word
    requires { a.width ≡ b.width }
    ensures width { result.width ≡ a.width }
    ensures value { result.value ≡ words.shl a.width a.value b.value }
{
    if b.value >= u64::from(a.width) {
        return Word::zero(a.width);
    }
    Word::from_low_bits(a.width, a.value << b.value)
}

/// To the right by `b`, with zeros from the left; 0 where `b` is the width or more.
#[tactic(auto, using(crate::proofs::Masks::shifted_out))]
pub fn lshr(a: Word, b: Word) -> Word
    requires { a.width ≡ b.width }
    ensures width { result.width ≡ a.width }
    ensures value { result.value ≡ words.lshr a.value b.value }
{
    let value = if b.value < u64::from(a.width) {
        a.value >> b.value
    } else {
        0
    };
    Word {
        width: a.width,
        value,
    }
}

/// To the right by `b`, with the sign from the left; the sign in every bit where `b` is the width or more.
#[tactic(auto, using(crate::proofs::Machine::shifted_back))]
pub fn ashr(a: Word, b: Word) -> Word
    requires { a.width ≡ b.width }
    ensures width { result.width ≡ a.width }
    ensures value { result.value ≡ words.ashr a.width a.value b.value }
{
    // A shift by 63 leaves nothing but the sign, as each longer one would.
    Word::from_signed(a.width, a.signed() >> b.value.min(63))
}
