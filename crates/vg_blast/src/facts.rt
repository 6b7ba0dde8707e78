// The facts as clauses: a conjunction part by part, a disjunction as one clause.

ghost use Rattle.std.specs.Prelude.{◌≡◌, ◌+◌, ◌<◌, ◌≤◌, true, length, map, All, IfOk, IfErr, OnOk, if◌then◌else◌, ◌&&◌};
ghost use Rattle.vg_term.specs.Terms.{AreTerms, Stands, width_at};
ghost use Rattle.vg_term.specs.declared.node.TermId.{TermId as Id};
ghost use Rattle.vg_blast.specs.declared.stops.BlastStop.TheVariants as stops;
ghost use Rattle.vg_cnf.specs.Clauses.{IsOver};
ghost use Rattle.vg_blast.specs.Circuits.{literals};
ghost use Rattle.vg_blast.specs.Cost.{parts_at};
ghost use Rattle.vg_blast.specs.Marking.{is_marked};
ghost use Rattle.vg_blast.specs.State.{IsState};
ghost use Rattle.vg_blast.specs.Facts.{AddsDisjuncts, AddsIf, HasLiteral, HaveLiterals, Requires, is_leaf, literal_of, required_to};

use crate::disjuncts::{Part, disjuncts};
use crate::marking::{Follow, next};
use crate::stops::BlastStop;
use crate::terms::{Circuit, MOST_LITERALS};
use std::alloc::{AllocError, Global};
use vg_cnf::Lit;
use vg_term::{Parts, TermId, Terms};

/// Whether a term is no conjunction.
fn is_no_conjunction(terms: &Terms, id: TermId) -> bool
    requires { Stands terms.now id }
    ensures value { result ≡ is_leaf terms.now id }
    ensures made { AreTerms terms.now }
{
    match next(terms, Follow::Conjuncts, id) {
        Parts::Zero => true,
        _ => false,
    }
}

impl Circuit {
    /// The literal of a part.
    fn literal(&self, part: Part) -> Lit
        requires { HasLiteral self.now.gates self.now.lists part.term }
        ensures literal { result ≡ literal_of self.now.lists part }
        ensures over { IsOver self.now.gates.variables result }
    {
        let word = self.lists.get(part.term.0 as usize);
        if part.negated {
            word[0].negated()
        } else {
            word[0]
        }
    }

    /// The literals of parts.
    fn literals(&self, alloc: Global, parts: &[Part]) -> Result<Vec<Lit>, AllocError>
        requires { All (λ part. HasLiteral self.now.gates self.now.lists part.term) parts.now }
        ensures literals { IfOk result (λ clause. clause.items ≡ map (literal_of self.now.lists) parts.now) }
        ensures over { IfOk result (λ clause. All (IsOver self.now.gates.variables) clause.items) }
    {
        let mut clause = Vec::new(alloc);
        for part in parts {
            clause.push(self.literal(*part))?;
        }
        Ok(clause)
    }

    /// Requires that a term of width 1 is true, by the clause of its parts as a disjunction.
    fn require(&mut self, alloc: Global, terms: &Terms, id: TermId) -> Result<(), AllocError>
        requires stands { Stands terms.now id }
        requires literals { HaveLiterals terms.now self.old.gates self.old.lists id }
        ensures adds { OnOk result (AddsDisjuncts terms.now self.old.gates self.new.gates self.old.lists id) }
        ensures lists { self.new.lists ≡ self.old.lists }
        ensures names { self.new.names.items ≡ self.old.names.items }
    {
        let parts = disjuncts(alloc, terms, id)?;
        let clause = self.literals(alloc, &parts)?;
        self.gates.add(&clause)
    }

    /// Requires an asserted term, unless it is a conjunction, whose parts are asserted too.
    fn require_asserted(
        &mut self,
        alloc: Global,
        terms: &Terms,
        asserted: &[bool],
        id: TermId,
    ) -> Result<(), AllocError>
        requires stands { Stands terms.now id }
        requires long { length asserted.now ≡ length terms.now }
        requires literals { is_marked asserted.now id ≡ true → HaveLiterals terms.now self.old.gates self.old.lists id }
        ensures one { OnOk result (AddsIf (is_marked asserted.now id && is_leaf terms.now id) terms.now self.old.gates self.new.gates self.old.lists id) }
        ensures lists { self.new.lists ≡ self.old.lists }
        ensures names { self.new.names.items ≡ self.old.names.items }
    {
        if asserted[id.0 as usize] && is_no_conjunction(terms, id) {
            self.require(alloc, terms, id)
        } else {
            Ok(())
        }
    }

    /// Requires each asserted term.
    pub fn require_all(
        &mut self,
        alloc: Global,
        terms: &Terms,
        marks: &[bool],
        asserted: &[bool],
    ) -> Result<(), BlastStop>
        requires made { AreTerms terms.now }
        requires closed { (id : Id) → is_marked marks.now id ≡ true → All (λ part. is_marked marks.now part ≡ true) (parts_at terms.now id) }
        requires state { IsState terms.now marks.now (length terms.now) self.old.gates self.old.lists self.old.names.items }
        requires long { length asserted.now ≡ length terms.now }
        requires marked { (id : Id) → is_marked asserted.now id ≡ true → is_marked marks.now id ≡ true }
        requires flags { (id : Id) → is_marked asserted.now id ≡ true → width_at terms.now id ≡ 1 }
        requires most { literals self.old.gates ≤ 16777216 }
        ensures required { OnOk result (Requires terms.now self.old.names.items asserted.now (length terms.now) self.old.gates self.new.gates) }
        ensures names { OnOk result (self.new.names.items ≡ self.old.names.items) }
        ensures most { OnOk result (literals self.new.gates ≤ 16777216) }
        ensures refused { IfErr result (λ e. e ≡ stops.Clauses → 16777216 < literals self.old.gates + required_to asserted.now (length terms.now)) }
    {
        for at in 0..terms.len() {
            self.require_asserted(alloc, terms, asserted, TermId(at))?;
            if self.gates.literal_count() > MOST_LITERALS {
                return Err(BlastStop::Clauses);
            }
        }
        Ok(())
    }
}
