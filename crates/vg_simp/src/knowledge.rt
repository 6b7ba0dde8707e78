//! What is known under facts.

ghost use Rattle.std.specs.Prelude.{◌≡◌, [], Contains, IfSome, OnOk};
ghost use Rattle.vg_term.specs.Terms.{AreTerms, Stands};
ghost use Rattle.vg_simp.specs.Sameness.{IsSame};
ghost use Rattle.vg_simp.specs.Ranges.{IsWithin};
ghost use Rattle.vg_simp.specs.Knowing.{IsGap, IsKnown};

use crate::range::Range;
use std::alloc::Global;
use vg_term::{TermId, TermStop, Terms};

/// A term and one that is the same under the facts.
#[derive(Clone, Copy, PartialEq, Eq, Debug)]
pub(crate) struct Replacement {
    pub(crate) term: TermId,
    pub(crate) other: TermId,
}

/// A term of width 1 and the truth that it has under the facts.
#[derive(Clone, Copy, PartialEq, Eq, Debug)]
pub(crate) struct Literal {
    pub(crate) term: TermId,
    pub(crate) holds: bool,
}

/// A term and a range that its value keeps to under the facts.
#[derive(Clone, Copy, PartialEq, Eq, Debug)]
pub(crate) struct Bound {
    pub(crate) term: TermId,
    pub(crate) range: Range,
}

/// Two terms, of which the one's value and `up` are at most the other's value and `down` under the facts, as whole numbers.
#[derive(Clone, Copy, PartialEq, Eq, Debug)]
pub(crate) struct Gap {
    pub(crate) low: TermId,
    pub(crate) up: u64,
    pub(crate) high: TermId,
    pub(crate) down: u64,
}

/// What is known under facts.
#[derive(Drop)]
pub(crate) struct Knowledge {
    /// The facts, in the order in which they were learned.
    pub(crate) facts: Vec<TermId>,
    /// Terms, and what stands for each.
    pub(crate) same: Vec<Replacement>,
    /// Terms, and the ranges of their values.
    pub(crate) bounds: Vec<Bound>,
    /// How far terms lie apart.
    pub(crate) gaps: Vec<Gap>,
}

impl Knowledge {
    /// No facts.
    #[tactic(auto, using(crate::proofs::Knowing::nothing_known))]
    pub(crate) fn new(alloc: Global, terms: &Terms) -> Knowledge
        ensures made { AreTerms terms.now }
        ensures facts { result.facts.items ≡ [] }
        ensures known { IsKnown terms.now result }
    {
        let _count = terms.len();
        Knowledge {
            facts: Vec::new(alloc),
            same: Vec::new(alloc),
            bounds: Vec::new(alloc),
            gaps: Vec::new(alloc),
        }
    }

    // What stands for a term, by one entry.
    fn find(&self, term: TermId) -> Option<TermId>
        ensures { IfSome result (λ other. Contains self.now.same.items (record { term = term; other = other })) }
    {
        for entry in &self.same {
            if entry.term.0 == term.0 {
                return Some(entry.other);
            }
        }
        None
    }

    /// What stands for a term, by as many entries as lead on.
    #[tactic(auto, using(crate::proofs::Sames::same_itself, crate::proofs::Knowing::found_same))]
    pub(crate) fn replaced(&self, terms: &Terms, term: TermId) -> TermId
        requires stands { Stands terms.now term }
        requires known { IsKnown terms.now self.now }
        ensures { IsSame terms.now self.now.facts.items term result }
    {
        let mut last = term;
        for _ in 0..self.same.len() {
            if terms.constant(last).is_some() {
                return last;
            }
            match self.find(last) {
                Some(other) => last = other,
                None => return last,
            }
        }
        last
    }

    /// Notes what stands for a term.
    #[tactic(auto, using(crate::proofs::Knowing::replacement_known))]
    pub(crate) fn replace(
        &mut self,
        terms: &Terms,
        term: TermId,
        other: TermId,
    ) -> Result<(), TermStop>
        requires made { AreTerms terms.now }
        requires known { IsKnown terms.now self.old }
        requires stands { Stands terms.now term }
        requires same { IsSame terms.now self.old.facts.items term other }
        ensures facts { OnOk result (self.new.facts.items ≡ self.old.facts.items) }
        ensures known { OnOk result (IsKnown terms.now self.new) }
    {
        let _count = terms.len();
        match self.same.push(Replacement { term, other }) {
            Ok(_) => Ok(()),
            Err(_) => Err(TermStop::Memory),
        }
    }

    /// Notes a range that a term's value keeps to.
    #[tactic(auto, using(crate::proofs::Knowing::bound_known))]
    pub(crate) fn bound(
        &mut self,
        terms: &Terms,
        term: TermId,
        range: Range,
    ) -> Result<(), TermStop>
        requires known { IsKnown terms.now self.old }
        requires stands { Stands terms.now term }
        requires within { IsWithin terms.now self.old.facts.items term range }
        ensures facts { OnOk result (self.new.facts.items ≡ self.old.facts.items) }
        ensures known { OnOk result (IsKnown terms.now self.new) }
    {
        let _count = terms.len();
        match self.bounds.push(Bound { term, range }) {
            Ok(_) => Ok(()),
            Err(_) => Err(TermStop::Memory),
        }
    }

    /// Notes how far two terms lie apart.
    #[tactic(auto, using(crate::proofs::Knowing::gap_known))]
    pub(crate) fn separate(&mut self, terms: &Terms, gap: Gap) -> Result<(), TermStop>
        requires known { IsKnown terms.now self.old }
        requires gap { IsGap terms.now self.old.facts.items gap }
        ensures facts { OnOk result (self.new.facts.items ≡ self.old.facts.items) }
        ensures known { OnOk result (IsKnown terms.now self.new) }
    {
        let _count = terms.len();
        match self.gaps.push(gap) {
            Ok(_) => Ok(()),
            Err(_) => Err(TermStop::Memory),
        }
    }
}
