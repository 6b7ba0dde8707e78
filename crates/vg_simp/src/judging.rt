//! What ranges say of terms.

ghost use Rattle.std.specs.Prelude.{IfSome};
ghost use Rattle.vg_bits.specs.Words as words;
ghost use Rattle.vg_term.specs.Terms.{AreTerms, Stands};
ghost use Rattle.vg_simp.specs.Sameness.{IsSame};
ghost use Rattle.vg_simp.specs.Ranges.{Decides, IsFixed};
ghost use Rattle.vg_simp.specs.Knowing.{IsKnown, IsTold};
ghost use Rattle.vg_simp.specs.Passing.{Simplifies};

use crate::knowledge::Knowledge;
use crate::range::Range;
use crate::summing::build_sum;
use vg_bits::Word;
use vg_term::{Node, Op, Parts, TermId, TermStop, Terms};

/// From how many levels below a term its range is drawn.
pub(crate) const DEPTH: u8 = 5;

// Whether the numbers in one range are less than those in another.
#[tactic(auto, using(crate::proofs::Judgements::less_true, crate::proofs::Judgements::less_false))]
fn less(x: Range, y: Range) -> Option<bool>
    ensures { IfSome result (λ holds. Decides words.ult x y holds) }
{
    if x.high < y.low {
        return Some(true);
    }
    if y.high <= x.low {
        return Some(false);
    }
    None
}

// Whether the numbers in one range equal those in another.
#[tactic(auto, using(crate::proofs::Judgements::equal_below, crate::proofs::Judgements::equal_above))]
fn equal(x: Range, y: Range) -> Option<bool>
    ensures { IfSome result (λ holds. Decides words.eq x y holds) }
{
    if x.high < y.low {
        return Some(false);
    }
    if y.high < x.low {
        return Some(false);
    }
    None
}

impl Knowledge {
    // The truth of a comparison, where the ranges of its sides tell it.
    fn decided(&self, terms: &Terms, term: TermId) -> Option<bool>
        requires made { AreTerms terms.now }
        requires stands { Stands terms.now term }
        requires known { IsKnown terms.now self.now }
        ensures { IfSome result (λ holds. IsTold terms.now self.now.facts.items (record { term = term; holds = holds })) }
    {
        let Node::Op(op, parts) = terms.node(term) else {
            return None;
        };
        match (op, parts) {
            (Op::Ult, Parts::Two(a, b)) => {
                let x = self.range(terms, a, DEPTH);
                let y = self.range(terms, b, DEPTH);
                less(x, y)
            }
            (Op::Eq, Parts::Two(a, b)) => {
                let x = self.range(terms, a, DEPTH);
                let y = self.range(terms, b, DEPTH);
                equal(x, y)
            }
            _ => None,
        }
    }

    // The truth of a comparison, where it is known.
    fn compared(&self, terms: &Terms, term: TermId) -> Option<bool>
        requires made { AreTerms terms.now }
        requires stands { Stands terms.now term }
        requires known { IsKnown terms.now self.now }
        ensures { IfSome result (λ holds. IsTold terms.now self.now.facts.items (record { term = term; holds = holds })) }
    {
        match self.decided(terms, term) {
            Some(holds) => Some(holds),
            None => self.spaced(terms, term),
        }
    }

    // The value of a term, where what is noted of it leaves one.
    #[tactic(auto, using(crate::proofs::Judgements::point_fixed))]
    fn fixed(&self, terms: &Terms, term: TermId) -> Option<u64>
        requires made { AreTerms terms.now }
        requires stands { Stands terms.now term }
        requires known { IsKnown terms.now self.now }
        ensures { IfSome result (λ value. IsFixed terms.now self.now.facts.items term value) }
    {
        let range = self.range(terms, term, 0);
        if range.low == range.high {
            return Some(range.low);
        }
        None
    }

    // The term whose lower bits are extended to its own width, where its upper bits are 0.
    fn uncut(&self, terms: &Terms, term: TermId) -> Option<TermId>
        requires made { AreTerms terms.now }
        requires stands { Stands terms.now term }
        requires known { IsKnown terms.now self.now }
        ensures { IfSome result (λ other. IsSame terms.now self.now.facts.items term other) }
    {
        let Node::Op(op, parts) = terms.node(term) else {
            return None;
        };
        let (Op::Zext(_), Parts::One(part)) = (op, parts) else {
            return None;
        };
        let Node::Op(inner, below) = terms.node(part) else {
            return None;
        };
        let (Op::Extract { from, .. }, Parts::One(whole)) = (inner, below) else {
            return None;
        };
        if from != 0 || terms.width(whole) != terms.width(term) {
            return None;
        }
        let range = self.range(terms, whole, DEPTH);
        if range.high > Word::all_ones(terms.width(part)).value {
            return None;
        }
        Some(whole)
    }

    /// What the ranges say of a term alone.
    #[tactic(auto, using(crate::proofs::Sames::itself_simplifies, crate::proofs::Summed::wide_sum_simplifies))]
    pub(crate) fn judged(&self, terms: &mut Terms, term: TermId) -> Result<TermId, TermStop>
        requires made { AreTerms terms.old }
        requires stands { Stands terms.old term }
        requires known { IsKnown terms.old self.now }
        ensures { Simplifies terms.old terms.new self.now.facts.items term result }
    {
        if let Some(holds) = self.compared(terms, term) {
            return terms.build(Op::Const(Word::from_bool(holds)), &[]);
        }
        if let Some(value) = self.fixed(terms, term) {
            let word = Word::from_low_bits(terms.width(term), value);
            return terms.build(Op::Const(word), &[]);
        }
        if let Some(other) = self.uncut(terms, term) {
            return Ok(other);
        }
        if let Some(sum) = self.wide_sum_of(terms, term) {
            return build_sum(terms, sum);
        }
        Ok(term)
    }
}
