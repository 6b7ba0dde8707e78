// A machine word, its constructors and its signed reading.

ghost use Rattle.std.specs.Prelude.{◌≡◌, ◌<◌, ◌≤◌, ◌%◌, ◌^◌};
ghost use Rattle.vg_bits.specs.Words as words;

/// A machine word of 1 to 64 bits: a number below 2 to its width. It has no sign of its own; `signed` reads it with one.
#[derive(Clone, Copy, PartialEq, Eq, Hash, Debug)]
pub struct Word {
    /// How many bits it has.
    pub width: u8,
    /// The number that its bits spell.
    pub value: u64,
    pub ghost not_empty: { 0 < width },
    pub ghost at_most_64: { width ≤ 64 },
    pub ghost in_range: { value < 2 ^ width },
}

impl Word {
    /// The word of this width with this value, which fits it.
    pub fn new(width: u8, value: u64) -> Self
        requires not_empty { 0 < width }
        requires at_most_64 { width ≤ 64 }
        requires in_range { value < 2 ^ width }
        ensures width { result.width ≡ width }
        ensures value { result.value ≡ value }
    {
        Word { width, value }
    }

    /// The low bits of a number: the number modulo 2 to the width.
    #[tactic(auto, using(crate::proofs::Masks::masked, crate::proofs::Masks::masked_below))]
    pub fn from_low_bits(width: u8, value: u64) -> Self
        requires not_empty { 0 < width }
        requires at_most_64 { width ≤ 64 }
        ensures width { result.width ≡ width }
        ensures value { result.value ≡ value % 2 ^ width }
    {
        Word {
            width,
            value: value & Word::all_ones(width).value,
        }
    }

    /// The low bits of a signed number in two's complement: the number modulo 2 to the width.
    #[tactic(auto, using(crate::proofs::Machine::low_bits_of_signed))]
    pub fn from_signed(width: u8, value: i64) -> Self
        requires not_empty { 0 < width }
        requires at_most_64 { width ≤ 64 }
        ensures width { result.width ≡ width }
        ensures value { result.value ≡ words.reduced width value }
    {
        Word::from_low_bits(width, value.cast_unsigned())
    }

    /// A truth value as a word of width 1: 1 for true and 0 for false.
    pub fn from_bool(holds: bool) -> Self
        ensures width { result.width ≡ 1 }
        ensures value { result.value ≡ words.bit holds }
    {
        Word {
            width: 1,
            value: u64::from(holds),
        }
    }

    /// The word with no bit set.
    pub fn zero(width: u8) -> Self
        requires not_empty { 0 < width }
        requires at_most_64 { width ≤ 64 }
        ensures width { result.width ≡ width }
        ensures value { result.value ≡ 0 }
    {
        Word { width, value: 0 }
    }

    /// The word with only its lowest bit set.
    #[tactic(auto, using(crate::proofs::Masks::one_below))]
    pub fn one(width: u8) -> Self
        requires not_empty { 0 < width }
        requires at_most_64 { width ≤ 64 }
        ensures width { result.width ≡ width }
        ensures value { result.value ≡ 1 }
    {
        Word { width, value: 1 }
    }

    /// The word with every bit set.
    #[tactic(auto, using(crate::proofs::Masks::ones_down, crate::proofs::Masks::ones_down_below))]
    pub fn all_ones(width: u8) -> Self
        requires not_empty { 0 < width }
        requires at_most_64 { width ≤ 64 }
        ensures width { result.width ≡ width }
        ensures value { result.value ≡ words.all_ones width }
    {
        Word {
            width,
            value: u64::MAX >> (64 - width),
        }
    }

    /// The signed reading in two's complement, from -2^(width - 1) to 2^(width - 1) - 1.
    #[tactic(auto, using(crate::proofs::Machine::signed_back))]
    pub fn signed(self) -> i64
        ensures { result ≡ words.signed self.width self.value }
    {
        let unused = 64 - self.width;
        // The sign goes to the top bit, and the shift back copies it.
        (self.value << unused).cast_signed() >> unused
    }
}
