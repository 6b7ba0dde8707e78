//! What operations on words make of ranges.

ghost use Rattle.std.specs.Prelude.{◌≡◌, ◌≤◌, ◌<◌, IfSome, bit_and};
ghost use Rattle.vg_bits.specs.Words as words;
ghost use Rattle.vg_simp.specs.Ranges.{Covers, CoversOne, CoversTwo, IsHull, IsIn, IsMeet, IsWhole};

use crate::range::Range;
use vg_bits::Word;
use vg_term::Op;

impl Range {
    /// One number.
    pub(crate) fn point(value: u64) -> Range
        ensures low { result.low ≡ value }
        ensures high { result.high ≡ value }
    {
        Range {
            low: value,
            high: value,
        }
    }

    /// All words of a width.
    #[tactic(auto, using(crate::proofs::Ranges::whole_each))]
    pub(crate) fn whole(width: u8) -> Range
        requires some { 0 < width }
        requires most { width ≤ 64 }
        ensures { IsWhole width result }
    {
        Range {
            low: 0,
            high: Word::all_ones(width).value,
        }
    }

    /// The numbers in both, or in the first where none is in both.
    #[tactic(auto, using(crate::proofs::Ranges::meet_each, crate::proofs::Ranges::meet_first))]
    pub(crate) fn both(self, other: Range) -> Range
        ensures { IsMeet self other result }
    {
        let low = self.low.max(other.low);
        let high = self.high.min(other.high);
        if low <= high {
            Range { low, high }
        } else {
            self
        }
    }

    /// The numbers in either, and those between.
    #[tactic(auto, using(crate::proofs::Ranges::hull_each))]
    pub(crate) fn either(self, other: Range) -> Range
        ensures { IsHull self other result }
    {
        Range {
            low: self.low.min(other.low),
            high: self.high.max(other.high),
        }
    }
}

// The sums of words, where all of them wrap or none.
#[tactic(auto, using(crate::proofs::Ranges::sum_plain, crate::proofs::Ranges::sum_wrapped))]
fn sum(x: Range, y: Range, width: u8) -> Option<Range>
    requires some { 0 < width }
    requires most { width ≤ 64 }
    ensures { IfSome result (λ r. Covers (words.add width) x y r) }
{
    let mask = Word::all_ones(width).value;
    if x.high > mask || y.high > mask {
        return None;
    }
    if y.high <= mask - x.high {
        return Some(Range {
            low: x.low + y.low,
            high: x.high + y.high,
        });
    }
    if y.low > mask - x.low {
        return Some(Range {
            low: y.low - (mask - x.low) - 1,
            high: y.high - (mask - x.high) - 1,
        });
    }
    None
}

// The differences of words, where none wraps.
#[tactic(auto, using(crate::proofs::Ranges::difference_plain))]
fn difference(x: Range, y: Range, width: u8) -> Option<Range>
    requires some { 0 < width }
    requires most { width ≤ 64 }
    ensures { IfSome result (λ r. Covers (words.sub width) x y r) }
{
    let mask = Word::all_ones(width).value;
    if x.high > mask || y.high > x.low {
        return None;
    }
    Some(Range {
        low: x.low - y.high,
        high: x.high - y.low,
    })
}

// The products of words, where none wraps.
#[tactic(auto, using(crate::proofs::Ranges::product_plain))]
fn product(x: Range, y: Range, width: u8) -> Option<Range>
    requires some { 0 < width }
    requires most { width ≤ 64 }
    ensures { IfSome result (λ r. Covers (words.mul width) x y r) }
{
    let mask = Word::all_ones(width).value;
    let low = x.low.checked_mul(y.low)?;
    let high = x.high.checked_mul(y.high)?;
    if high > mask || low > high {
        return None;
    }
    Some(Range { low, high })
}

// The bits that two words share.
#[tactic(auto, using(crate::proofs::Ranges::common_plain))]
fn common(x: Range, y: Range) -> Range
    ensures { Covers bit_and x y result }
{
    Range {
        low: 0,
        high: x.high.min(y.high),
    }
}

// The remainders of words.
#[tactic(auto, using(crate::proofs::Ranges::remainder_plain))]
fn remainder(x: Range, y: Range) -> Option<Range>
    ensures { IfSome result (λ r. Covers words.urem x y r) }
{
    if y.low == 0 {
        return None;
    }
    Some(Range {
        low: 0,
        high: x.high.min(y.high - 1),
    })
}

/// What an operation makes of the words in a range, where that is told.
pub(crate) fn of_one(op: Op, width: u8, x: Range) -> Option<Range>
    ensures { IfSome result (λ r. CoversOne op width x r) }
{
    match op {
        Op::Zext(_) => Some(x),
        Op::Extract { from, width } => {
            if from != 0 || width == 0 || width > 64 {
                return None;
            }
            if x.high > Word::all_ones(width).value {
                return None;
            }
            Some(x)
        }
        _ => None,
    }
}

/// What an operation makes of the words of one width in two ranges, where that is told.
pub(crate) fn of_two(op: Op, width: u8, x: Range, y: Range) -> Option<Range>
    requires some { 0 < width }
    requires most { width ≤ 64 }
    ensures { IfSome result (λ r. CoversTwo op width x y r) }
{
    match op {
        Op::Add => sum(x, y, width),
        Op::Sub => difference(x, y, width),
        Op::Mul => product(x, y, width),
        Op::And => Some(common(x, y)),
        Op::Urem => remainder(x, y),
        _ => None,
    }
}
