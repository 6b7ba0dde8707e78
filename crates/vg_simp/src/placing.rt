//! Terms as others moved up or down, and how far they lie apart.

ghost use Rattle.std.specs.Prelude.{◌≡◌, ◌+◌, IfSome, IsTrue, OnOk};
ghost use Rattle.vg_term.specs.Terms.{AreTerms, Stands};
ghost use Rattle.vg_simp.specs.Knowing.{IsApart, IsGap, IsKnown, IsTold};
ghost use Rattle.vg_simp.specs.Places.{IsPlace, IsSpan};

use crate::judging::DEPTH;
use crate::knowledge::{Gap, Knowledge};
use crate::summing::sum_of;
use vg_bits::Word;
use vg_term::{Node, Op, Parts, TermId, TermStop, Terms};

/// A term's value, and so much more or less.
#[derive(Clone, Copy, PartialEq, Eq, Debug)]
pub(crate) struct Place {
    pub(crate) base: TermId,
    pub(crate) plus: u64,
    pub(crate) minus: u64,
}

// How many terms are passed on the way to a base.
const MOST_MOVES: u32 = 8;

// The sum of four numbers.
fn total(a: u64, b: u64, c: u64, d: u64) -> Option<u64>
    ensures { IfSome result (λ t. t ≡ a + b + c + d) }
{
    let first = a.checked_add(b)?;
    let second = first.checked_add(c)?;
    let third = second.checked_add(d)?;
    Some(third)
}

// Whether a gap is on the bases of two places, and wide enough for the one and so much to be at most the other.
#[tactic(auto, using(crate::proofs::Placed::same_id))]
fn spans(gap: Gap, low: Place, by: u64, high: Place) -> bool
    ensures { IsTrue result → IsSpan gap low by high }
{
    if gap.low.0 != low.base.0 || gap.high.0 != high.base.0 {
        return false;
    }
    let Some(left) = total(low.plus, by, high.minus, gap.down) else {
        return false;
    };
    let Some(right) = total(gap.up, high.plus, low.minus, 0) else {
        return false;
    };
    left <= right
}

impl Knowledge {
    // A term as one below it, moved.
    fn moved(&self, terms: &Terms, term: TermId) -> Option<Place>
        requires made { AreTerms terms.now }
        requires stands { Stands terms.now term }
        requires known { IsKnown terms.now self.now }
        ensures { IfSome result (λ place. IsPlace terms.now self.now.facts.items term place) }
    {
        if let Some(sum) = sum_of(terms, term) {
            let range = self.range(terms, sum.base, DEPTH);
            let room = Word::all_ones(sum.word.width).value - sum.word.value;
            if range.high <= room {
                return Some(Place {
                    base: sum.base,
                    plus: sum.word.value,
                    minus: 0,
                });
            }
            if range.low > room {
                return Some(Place {
                    base: sum.base,
                    plus: 0,
                    minus: room + 1,
                });
            }
            return None;
        }
        let Node::Op(op, parts) = terms.node(term) else {
            return None;
        };
        let (Op::Zext(_), Parts::One(part)) = (op, parts) else {
            return None;
        };
        Some(Place {
            base: part,
            plus: 0,
            minus: 0,
        })
    }

    // The place of a term, as its base is moved in turn.
    #[tactic(auto, using(crate::proofs::Placed::moved_on))]
    fn moved_on(&self, terms: &Terms, term: TermId, place: Place) -> Option<Place>
        requires made { AreTerms terms.now }
        requires known { IsKnown terms.now self.now }
        requires place { IsPlace terms.now self.now.facts.items term place }
        ensures { IfSome result (λ next. IsPlace terms.now self.now.facts.items term next) }
    {
        let below = self.moved(terms, place.base)?;
        let plus = place.plus.checked_add(below.plus)?;
        let minus = place.minus.checked_add(below.minus)?;
        Some(Place {
            base: below.base,
            plus,
            minus,
        })
    }

    // The place of a term on a base that isn't moved itself.
    #[tactic(auto, using(crate::proofs::Placed::place_itself))]
    fn place_of(&self, terms: &Terms, term: TermId) -> Place
        requires made { AreTerms terms.now }
        requires stands { Stands terms.now term }
        requires known { IsKnown terms.now self.now }
        ensures { IsPlace terms.now self.now.facts.items term result }
    {
        let mut place = Place {
            base: term,
            plus: 0,
            minus: 0,
        };
        for _ in 0..MOST_MOVES {
            match self.moved_on(terms, term, place) {
                Some(next) => place = next,
                None => return place,
            }
        }
        place
    }

    /// Notes how far two terms lie apart, of which the one and so much are at most the other.
    #[tactic(auto, using(crate::proofs::Placed::apart_gap))]
    pub(crate) fn separate_places(
        &mut self,
        terms: &Terms,
        low: TermId,
        by: u64,
        high: TermId,
    ) -> Result<(), TermStop>
        requires made { AreTerms terms.now }
        requires known { IsKnown terms.now self.old }
        requires first { Stands terms.now low }
        requires second { Stands terms.now high }
        requires apart { IsApart terms.now self.old.facts.items low by high }
        ensures facts { OnOk result (self.new.facts.items ≡ self.old.facts.items) }
        ensures known { OnOk result (IsKnown terms.now self.new) }
    {
        let x = self.place_of(terms, low);
        let y = self.place_of(terms, high);
        let Some(up) = total(x.plus, by, y.minus, 0) else {
            return Ok(());
        };
        let Some(down) = total(y.plus, x.minus, 0, 0) else {
            return Ok(());
        };
        let gap = Gap {
            low: x.base,
            up,
            high: y.base,
            down,
        };
        self.separate(terms, gap)
    }

    // Whether one term and so much are at most another.
    #[tactic(auto, using(crate::proofs::Placed::span_apart, crate::proofs::Placed::no_gap))]
    fn are_apart(&self, terms: &Terms, low: TermId, by: u64, high: TermId) -> bool
        requires made { AreTerms terms.now }
        requires known { IsKnown terms.now self.now }
        requires first { Stands terms.now low }
        requires second { Stands terms.now high }
        ensures { IsTrue result → IsApart terms.now self.now.facts.items low by high }
    {
        let x = self.place_of(terms, low);
        let y = self.place_of(terms, high);
        let none = Gap {
            low: x.base,
            up: 0,
            high: x.base,
            down: 0,
        };
        if spans(none, x, by, y) {
            return true;
        }
        for gap in &self.gaps {
            if spans(*gap, x, by, y) {
                return true;
            }
        }
        false
    }

    /// The truth of a comparison, where it is known how far its sides lie apart.
    pub(crate) fn spaced(&self, terms: &Terms, term: TermId) -> Option<bool>
        requires made { AreTerms terms.now }
        requires stands { Stands terms.now term }
        requires known { IsKnown terms.now self.now }
        ensures { IfSome result (λ holds. IsTold terms.now self.now.facts.items (record { term = term; holds = holds })) }
    {
        let Node::Op(op, parts) = terms.node(term) else {
            return None;
        };
        match (op, parts) {
            (Op::Ult, Parts::Two(a, b)) => {
                if self.are_apart(terms, a, 1, b) {
                    return Some(true);
                }
                if self.are_apart(terms, b, 0, a) {
                    return Some(false);
                }
                None
            }
            (Op::Eq, Parts::Two(a, b)) => {
                if self.are_apart(terms, a, 1, b) {
                    return Some(false);
                }
                if self.are_apart(terms, b, 1, a) {
                    return Some(false);
                }
                None
            }
            _ => None,
        }
    }
}
