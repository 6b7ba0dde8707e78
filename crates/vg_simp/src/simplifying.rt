//! Terms rebuilt from their simplified parts.

ghost use Rattle.std.specs.Prelude.{◌≡◌, ◌<◌, length, map, All, IfOk, IsTrue};
ghost use Rattle.vg_term.specs.Operations.{Fits};
ghost use Rattle.vg_term.specs.Terms.{AreTerms, IsConstant, Stands, listed, width_at};
ghost use Rattle.vg_term.specs.Folding.{Folds, IsFolded};
ghost use Rattle.vg_term.specs.Wiring.{Grown};
ghost use Rattle.vg_simp.specs.Closed.{IsClosed, IsConstantOf};
ghost use Rattle.vg_simp.specs.Sameness.{IsSame};
ghost use Rattle.vg_simp.specs.Knowing.{IsKnown};
ghost use Rattle.vg_simp.specs.Passing.{AreSame, KeepsClosed, KeepsConstant, Simplifies, replaced};

use crate::knowledge::Knowledge;
use crate::lists::push;
use crate::marking::reached;
use std::alloc::Global;
use vg_term::{Node, Op, Parts, TermId, TermStop, Terms};

// The entries for some parts.
fn entries(parts: Parts, others: &[TermId]) -> Parts
    requires { All (λ part. part.0 < length others.now) (listed parts) }
    ensures { listed result ≡ replaced others.now (listed parts) }
{
    match parts {
        Parts::Zero => Parts::Zero,
        Parts::One(a) => Parts::One(others[a.0 as usize]),
        Parts::Two(a, b) => Parts::Two(others[a.0 as usize], others[b.0 as usize]),
        Parts::Three(c, a, b) => Parts::Three(
            others[c.0 as usize],
            others[a.0 as usize],
            others[b.0 as usize],
        ),
    }
}

// The operation built on parts that fit it.
fn built(terms: &mut Terms, op: Op, parts: Parts) -> Result<TermId, TermStop>
    requires stand { All (Stands terms.old) (listed parts) }
    requires fits { Fits op (map (width_at terms.old) (listed parts)) }
    ensures made { AreTerms terms.new }
    ensures folds { Folds terms.old terms.new op (listed parts) result }
    ensures folded { All (IsConstant terms.old) (listed parts) → IfOk result (λ id. IsFolded terms.old terms.new op (listed parts) id) }
{
    match parts {
        Parts::Zero => terms.build(op, &[]),
        Parts::One(a) => terms.build(op, &[a]),
        Parts::Two(a, b) => terms.build(op, &[a, b]),
        Parts::Three(c, a, b) => terms.build(op, &[c, a, b]),
    }
}

impl Knowledge {
    // A term on what its parts became.
    #[tactic(auto, using(crate::proofs::Sames::itself_simplifies, crate::proofs::Sames::entries_stand, crate::proofs::Sames::entries_fit, crate::proofs::Sames::entries_within, crate::proofs::Sames::built_same, crate::proofs::Constants::variable_constant))]
    fn rebuilt(&self, terms: &mut Terms, id: TermId, others: &[TermId]) -> Result<TermId, TermStop>
        requires made { AreTerms terms.old }
        requires stands { Stands terms.old id }
        requires long { length others.now ≡ id.0 }
        requires same { AreSame terms.old self.now.facts.items others.now }
        requires facts { All (Stands terms.old) self.now.facts.items }
        ensures simplifies { Simplifies terms.old terms.new self.now.facts.items id result }
        ensures constant { KeepsConstant terms.old terms.new others.now id result }
    {
        match terms.node(id) {
            Node::Var { .. } => Ok(id),
            Node::Op(op, parts) => {
                let simpler = entries(parts, others);
                built(terms, op, simpler)
            }
        }
    }

    // What the facts say of a term alone. A constant stays.
    #[tactic(auto, using(crate::proofs::Sames::itself_simplifies))]
    fn finished(&self, terms: &mut Terms, id: TermId) -> Result<TermId, TermStop>
        requires made { AreTerms terms.old }
        requires stands { Stands terms.old id }
        requires known { IsKnown terms.old self.now }
        ensures simplifies { Simplifies terms.old terms.new self.now.facts.items id result }
        ensures constant { IsConstant terms.old id → (result ≡ Ok id) × (terms.new ≡ terms.old) }
    {
        if terms.constant(id).is_some() {
            return Ok(id);
        }
        let other = self.replaced(terms, id);
        if terms.constant(other).is_some() {
            return Ok(other);
        }
        self.judged(terms, other)
    }

    // What a term becomes, where what the terms before it become is known. One that isn't reached stays as it is.
    #[tactic(auto, using(crate::proofs::Sames::itself_simplifies))]
    fn simpler(
        &self,
        terms: &mut Terms,
        id: TermId,
        is_reached: bool,
        others: &[TermId],
    ) -> Result<TermId, TermStop>
        requires made { AreTerms terms.old }
        requires stands { Stands terms.old id }
        requires long { length others.now ≡ id.0 }
        requires same { AreSame terms.old self.now.facts.items others.now }
        requires known { IsKnown terms.old self.now }
        ensures simplifies { Simplifies terms.old terms.new self.now.facts.items id result }
        ensures constant { IsTrue is_reached → KeepsConstant terms.old terms.new others.now id result }
    {
        if !is_reached {
            return Ok(id);
        }
        let other = self.rebuilt(terms, id, others)?;
        self.finished(terms, other)
    }

    /// A term of the same value wherever the facts are true.
    pub(crate) fn simplified(
        &self,
        alloc: Global,
        terms: &mut Terms,
        goal: TermId,
    ) -> Result<TermId, TermStop>
        requires made { AreTerms terms.old }
        requires stands { Stands terms.old goal }
        requires known { IsKnown terms.old self.now }
        ensures simplifies { Simplifies terms.old terms.new self.now.facts.items goal result }
        ensures closed { KeepsClosed terms.old terms.new goal result }
    {
        let marks = reached(alloc, terms, goal)?;
        let mut others = Vec::new(alloc);
        for at in 0..marks.len() {
            let id = TermId(at as u32);
            let other = self.simpler(terms, id, marks[at], &others)?;
            push(&mut others, other)?;
        }
        Ok(others[goal.0 as usize])
    }
}

/// A term of the same value under every assignment that makes the facts true. A fact is a term of width 1, and it is true where its value is 1.
/// For a term without variables it is the constant of its value. A refusal may leave terms that were made on the way; those that stood stay.
#[tactic(auto, using(crate::proofs::Sames::grown_none))]
pub fn simplify(
    alloc: Global,
    terms: &mut Terms,
    term: TermId,
    facts: &[TermId],
) -> Result<TermId, TermStop>
    requires stands { Stands terms.old term }
    requires facts { All (Stands terms.old) facts.now }
    requires flags { All (λ fact. width_at terms.old fact ≡ 1) facts.now }
    ensures grown { Grown terms.old terms.new }
    ensures kept { IfOk result (λ other. IsSame terms.new facts.now term other) }
    ensures constant { IsClosed terms.old term → IfOk result (λ other. IsConstantOf terms.new term other) }
{
    let mut knowledge = Knowledge::new(alloc, terms);
    for fact in facts {
        knowledge.learn(alloc, terms, *fact)?;
    }
    knowledge.simplified(alloc, terms, term)
}
