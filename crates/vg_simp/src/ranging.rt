//! The ranges of terms.

ghost use Rattle.std.specs.Prelude.{◌≡◌, [], ◌∷◌, IfSome};
ghost use Rattle.vg_term.specs.Terms.{AreTerms, Stands};
ghost use Rattle.vg_simp.specs.Ranges.{IsMet, IsWithin};
ghost use Rattle.vg_simp.specs.Knowing.{Bounds, IsKnown};

use crate::covering::{of_one, of_two};
use crate::knowledge::{Bound, Knowledge};
use crate::range::Range;
use vg_term::{Node, Parts, TermId, Terms};

// A range, narrowed by another where there is one.
fn met(range: Range, other: Option<Range>) -> Range
    ensures { IsMet range other result }
{
    match other {
        Some(other) => range.both(other),
        None => range,
    }
}

impl Knowledge {
    // A term's range, narrowed by a bound if that is on the term.
    #[tactic(auto, using(crate::proofs::Within::narrowed_within))]
    fn narrowed(&self, terms: &Terms, term: TermId, range: Range, bound: Bound) -> Range
        requires within { IsWithin terms.now self.now.facts.items term range }
        requires bounds { Bounds terms.now self.now.facts.items bound }
        ensures made { AreTerms terms.now }
        ensures within { IsWithin terms.now self.now.facts.items term result }
    {
        let _count = terms.len();
        if bound.term.0 == term.0 {
            return range.both(bound.range);
        }
        range
    }

    // A term's range by its width and by what is noted of it.
    #[tactic(auto, using(crate::proofs::Within::whole_within))]
    fn noted(&self, terms: &Terms, term: TermId) -> Range
        requires stands { Stands terms.now term }
        requires known { IsKnown terms.now self.now }
        ensures { IsWithin terms.now self.now.facts.items term result }
    {
        let mut range = Range::whole(terms.width(term));
        for bound in &self.bounds {
            range = self.narrowed(terms, term, range, *bound);
        }
        range
    }

    /// A term's range, by what is noted of it and of the terms so many levels below it.
    #[tactic(auto, using(crate::proofs::Within::constant_within))]
    pub(crate) fn range(&self, terms: &Terms, term: TermId, depth: u8) -> Range
        requires made { AreTerms terms.now }
        requires stands { Stands terms.now term }
        requires known { IsKnown terms.now self.now }
        ensures { IsWithin terms.now self.now.facts.items term result }
    {
        if let Some(word) = terms.constant(term) {
            return Range::point(word.value);
        }
        let noted = self.noted(terms, term);
        if depth == 0 {
            return noted;
        }
        let Node::Op(op, parts) = terms.node(term) else {
            return noted;
        };
        match parts {
            Parts::Zero => noted,
            Parts::One(a) => {
                let x = self.range(terms, a, depth - 1);
                met(noted, of_one(op, terms.width(a), x))
            }
            Parts::Two(a, b) => {
                let width = terms.width(a);
                if terms.width(b) != width {
                    return noted;
                }
                let x = self.range(terms, a, depth - 1);
                let y = self.range(terms, b, depth - 1);
                met(noted, of_two(op, width, x, y))
            }
            Parts::Three(_, a, b) => {
                let x = self.range(terms, a, depth - 1);
                let y = self.range(terms, b, depth - 1);
                noted.both(x.either(y))
            }
        }
    }
}
