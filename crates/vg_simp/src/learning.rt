//! What is learned from a fact.

ghost use Rattle.std.specs.Prelude.{◌≡◌, ◌++◌, ◌∷◌, [], All, OnOk};
ghost use Rattle.vg_term.specs.Terms.{AreTerms, Stands, width_at};
ghost use Rattle.vg_term.specs.Wiring.{Grown};
ghost use Rattle.vg_simp.specs.Sameness.{IsSame};
ghost use Rattle.vg_simp.specs.Knowing.{IsApart, IsKnown, IsOther, IsTold, Learns};

use crate::knowledge::{Knowledge, Literal};
use crate::lists::{push, push_literal};
use std::alloc::Global;
use vg_bits::Word;
use vg_term::{Node, Op, Parts, TermId, TermStop, Terms};

// How many truths are followed from one fact.
const MOST_TRUTHS: u32 = 1000;

impl Knowledge {
    // Adds a truth to those to be noted.
    #[tactic(auto, using(crate::proofs::Knowing::all_push))]
    fn follow(
        &self,
        terms: &Terms,
        todo: &mut Vec<Literal>,
        term: TermId,
        holds: bool,
    ) -> Result<(), TermStop>
        requires told { IsTold terms.now self.now.facts.items (record { term = term; holds = holds }) }
        requires all { All (IsTold terms.now self.now.facts.items) todo.old.items }
        ensures { OnOk result (All (IsTold terms.now self.now.facts.items) todo.new.items) }
    {
        let _count = terms.len();
        push_literal(todo, term, holds)
    }

    // Adds the truths of a term's parts that follow from its own, so that the first is noted next.
    fn open(&self, terms: &Terms, literal: Literal, todo: &mut Vec<Literal>) -> Result<(), TermStop>
        requires made { AreTerms terms.now }
        requires told { IsTold terms.now self.now.facts.items literal }
        requires all { All (IsTold terms.now self.now.facts.items) todo.old.items }
        ensures { OnOk result (All (IsTold terms.now self.now.facts.items) todo.new.items) }
    {
        let Node::Op(op, parts) = terms.node(literal.term) else {
            return Ok(());
        };
        match (op, parts, literal.holds) {
            (Op::And, Parts::Two(a, b), true) => {
                self.follow(terms, todo, b, true)?;
                self.follow(terms, todo, a, true)
            }
            (Op::Or, Parts::Two(a, b), false) => {
                self.follow(terms, todo, b, false)?;
                self.follow(terms, todo, a, false)
            }
            (Op::Not, Parts::One(a), holds) => self.follow(terms, todo, a, !holds),
            _ => Ok(()),
        }
    }

    // Two terms are the same: what stands for the later one is replaced, or what is no constant.
    #[tactic(auto, using(crate::proofs::Sames::joined_same, crate::proofs::Sames::joined_back))]
    fn equate(&mut self, terms: &Terms, a: TermId, b: TermId) -> Result<(), TermStop>
        requires made { AreTerms terms.now }
        requires known { IsKnown terms.now self.old }
        requires first { Stands terms.now a }
        requires second { Stands terms.now b }
        requires same { IsSame terms.now self.old.facts.items a b }
        ensures facts { OnOk result (self.new.facts.items ≡ self.old.facts.items) }
        ensures known { OnOk result (IsKnown terms.now self.new) }
    {
        let x = self.replaced(terms, a);
        let y = self.replaced(terms, b);
        if x.0 == y.0 {
            return Ok(());
        }
        if terms.constant(y).is_some() || terms.constant(x).is_none() && y.0 < x.0 {
            self.replace(terms, x, y)
        } else {
            self.replace(terms, y, x)
        }
    }

    // One term and so much are at most another: both are bounded, and how far they lie apart is noted.
    fn set_apart(
        &mut self,
        terms: &Terms,
        low: TermId,
        by: u64,
        high: TermId,
    ) -> Result<(), TermStop>
        requires made { AreTerms terms.now }
        requires known { IsKnown terms.now self.old }
        requires first { Stands terms.now low }
        requires second { Stands terms.now high }
        requires apart { IsApart terms.now self.old.facts.items low by high }
        ensures facts { OnOk result (self.new.facts.items ≡ self.old.facts.items) }
        ensures known { OnOk result (IsKnown terms.now self.new) }
    {
        self.bound_apart(terms, low, by, high)?;
        self.separate_places(terms, low, by, high)
    }

    // Two terms differ: each is bounded by the other.
    #[tactic(auto, using(crate::proofs::Bounded::other_back))]
    fn part(&mut self, terms: &Terms, a: TermId, b: TermId) -> Result<(), TermStop>
        requires made { AreTerms terms.now }
        requires known { IsKnown terms.now self.old }
        requires first { Stands terms.now a }
        requires second { Stands terms.now b }
        requires other { IsOther terms.now self.old.facts.items a b }
        ensures facts { OnOk result (self.new.facts.items ≡ self.old.facts.items) }
        ensures known { OnOk result (IsKnown terms.now self.new) }
    {
        self.bound_other(terms, a, b)?;
        self.bound_other(terms, b, a)
    }

    // Notes what a truth says of the parts of its term.
    fn relate(&mut self, terms: &Terms, literal: Literal) -> Result<(), TermStop>
        requires made { AreTerms terms.now }
        requires known { IsKnown terms.now self.old }
        requires told { IsTold terms.now self.old.facts.items literal }
        ensures facts { OnOk result (self.new.facts.items ≡ self.old.facts.items) }
        ensures known { OnOk result (IsKnown terms.now self.new) }
    {
        let Node::Op(op, parts) = terms.node(literal.term) else {
            return Ok(());
        };
        match (op, parts, literal.holds) {
            (Op::Eq, Parts::Two(a, b), true) => self.equate(terms, a, b),
            (Op::Eq, Parts::Two(a, b), false) => self.part(terms, a, b),
            (Op::Ult, Parts::Two(a, b), true) => self.set_apart(terms, a, 1, b),
            (Op::Ult, Parts::Two(a, b), false) => self.set_apart(terms, b, 0, a),
            _ => Ok(()),
        }
    }

    // Notes a truth.
    #[tactic(auto, using(crate::proofs::Sames::grown_none))]
    fn note(&mut self, terms: &mut Terms, literal: Literal) -> Result<(), TermStop>
        requires made { AreTerms terms.old }
        requires known { IsKnown terms.old self.old }
        requires told { IsTold terms.old self.old.facts.items literal }
        ensures { Learns terms.old terms.new self.old self.new result }
    {
        if terms.constant(literal.term).is_some() {
            return Ok(());
        }
        let constant = terms.build(Op::Const(Word::from_bool(literal.holds)), &[])?;
        self.replace(terms, literal.term, constant)?;
        self.relate(terms, literal)
    }

    // Notes a truth, and those that follow.
    fn take(&mut self, alloc: Global, terms: &mut Terms, literal: Literal) -> Result<(), TermStop>
        requires made { AreTerms terms.old }
        requires known { IsKnown terms.old self.old }
        requires told { IsTold terms.old self.old.facts.items literal }
        ensures { Learns terms.old terms.new self.old self.new result }
    {
        let mut todo = Vec::new(alloc);
        push_literal(&mut todo, literal.term, literal.holds)?;
        for _ in 0..MOST_TRUTHS {
            let Some(next) = todo.pop() else {
                return Ok(());
            };
            self.note(terms, next)?;
            self.open(terms, next, &mut todo)?;
        }
        Ok(())
    }

    // Adds a fact to those that hold.
    fn accept(&mut self, terms: &Terms, fact: TermId) -> Result<(), TermStop>
        requires known { IsKnown terms.now self.old }
        requires stands { Stands terms.now fact }
        ensures facts { OnOk result (self.new.facts.items ≡ self.old.facts.items ++ fact ∷ []) }
        ensures known { OnOk result (IsKnown terms.now self.new) }
    {
        let _count = terms.len();
        push(&mut self.facts, fact)?;
        Ok(())
    }

    /// Learns a fact, in its simplified form.
    pub(crate) fn learn(
        &mut self,
        alloc: Global,
        terms: &mut Terms,
        fact: TermId,
    ) -> Result<(), TermStop>
        requires made { AreTerms terms.old }
        requires known { IsKnown terms.old self.old }
        requires stands { Stands terms.old fact }
        requires flag { width_at terms.old fact ≡ 1 }
        ensures grown { Grown terms.old terms.new }
        ensures facts { OnOk result (self.new.facts.items ≡ self.old.facts.items ++ fact ∷ []) }
        ensures known { OnOk result (IsKnown terms.new self.new) }
    {
        let simple = self.simplified(alloc, terms, fact)?;
        self.accept(terms, fact)?;
        let literal = Literal {
            term: simple,
            holds: true,
        };
        self.take(alloc, terms, literal)
    }
}
