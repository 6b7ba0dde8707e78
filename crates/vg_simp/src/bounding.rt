//! Bounds that follow from comparisons.

ghost use Rattle.std.specs.Prelude.{◌≡◌, OnOk};
ghost use Rattle.vg_term.specs.Terms.{AreTerms, Stands};
ghost use Rattle.vg_simp.specs.Knowing.{IsApart, IsKnown, IsOther};

use crate::judging::DEPTH;
use crate::knowledge::Knowledge;
use crate::range::Range;
use vg_term::{TermId, TermStop, Terms};

impl Knowledge {
    /// Notes bounds of two terms, of which the one and so much are at most the other.
    #[tactic(auto, using(crate::proofs::Bounded::lower_within, crate::proofs::Bounded::upper_within))]
    pub(crate) fn bound_apart(
        &mut self,
        terms: &Terms,
        low: TermId,
        by: u64,
        high: TermId,
    ) -> Result<(), TermStop>
        requires made { AreTerms terms.now }
        requires known { IsKnown terms.now self.old }
        requires first { Stands terms.now low }
        requires second { Stands terms.now high }
        requires apart { IsApart terms.now self.old.facts.items low by high }
        ensures facts { OnOk result (self.new.facts.items ≡ self.old.facts.items) }
        ensures known { OnOk result (IsKnown terms.now self.new) }
    {
        let x = self.range(terms, low, DEPTH);
        let y = self.range(terms, high, DEPTH);
        if y.high < by || y.high - by < x.low {
            return Ok(());
        }
        let lower = Range {
            low: x.low,
            high: y.high - by,
        };
        let upper = Range {
            low: x.low + by,
            high: y.high,
        };
        self.bound(terms, low, lower)?;
        self.bound(terms, high, upper)
    }

    /// Notes a bound of a term that differs from another, where that has one value at the end of this one's range.
    #[tactic(auto, using(crate::proofs::Bounded::above_within, crate::proofs::Bounded::below_within))]
    pub(crate) fn bound_other(
        &mut self,
        terms: &Terms,
        a: TermId,
        b: TermId,
    ) -> Result<(), TermStop>
        requires made { AreTerms terms.now }
        requires known { IsKnown terms.now self.old }
        requires first { Stands terms.now a }
        requires second { Stands terms.now b }
        requires other { IsOther terms.now self.old.facts.items a b }
        ensures facts { OnOk result (self.new.facts.items ≡ self.old.facts.items) }
        ensures known { OnOk result (IsKnown terms.now self.new) }
    {
        let x = self.range(terms, a, DEPTH);
        let y = self.range(terms, b, DEPTH);
        if y.low < y.high || x.low == x.high {
            return Ok(());
        }
        if x.low == y.low {
            let above = Range {
                low: x.low + 1,
                high: x.high,
            };
            return self.bound(terms, a, above);
        }
        if x.high == y.low {
            let below = Range {
                low: x.low,
                high: x.high - 1,
            };
            return self.bound(terms, a, below);
        }
        Ok(())
    }
}
