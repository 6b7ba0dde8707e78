// The literals that are true, in the order in which they were made so.

ghost use Rattle.std.specs.Prelude.{◌≡◌, ◌<◌, ◌≤◌, ◌+◌, ◌-◌, ◌*◌, ◌^◌, ℤ, pos, neg_ℤ, false, [], ◌∷◌, ◌++◌, length, take, OnOk, OnErr, IfOk};
ghost use Rattle.std.specs.Prelude.{slice_index_or, unsigned_abs};
ghost use Rattle.vg_cnf.specs.Clauses.{holds, IsOver};

use crate::codes::code_of;
use std::alloc::{AllocError, Global};
use std::marker::Model;
use vg_cnf::Lit;

/// The literals that are true, each once, in the order in which they were made so.
#[derive(Drop)]
pub(crate) struct Trail {
    variables: u32,
    literals: Vec<Lit>,
    /// Which literals are true, by their places.
    marks: Vec<bool>,
    /// For each literal in order the clause that forced it. These are hints, of which no contract speaks.
    reasons: Vec<Option<usize>>,
}

impl Model for Trail {
    ghost use Rattle.vg_units.specs.Trails.{Made, IsMarked};

    ghost Value = { Made };

    ghost view = { λ a. record { variables = a.variables; literals = a.literals.items } };

    ghost invariant = { λ a. IsMarked a.variables a.literals.items a.marks.items };
}

impl Trail {
    /// No literal is true.
    pub fn new(alloc: Global, variables: u32) -> Result<Self, AllocError>
        requires { variables < 2 ^ 31 }
        ensures { IfOk result (λ trail. trail ≡ record { variables = variables; literals = [] }) }
    {
        Ok(Trail {
            variables,
            literals: Vec::new(alloc),
            marks: vec![in alloc; false; 2 * variables as usize + 2]?,
            reasons: Vec::new(alloc),
        })
    }

    /// The number of variables.
    pub fn variables(&self) -> u32
        ensures count { result ≡ self.now.variables }
        ensures in_range { result < 2 ^ 31 }
    {
        self.variables
    }

    /// How many literals are true.
    pub fn len(&self) -> usize
        ensures count { result ≡ length self.now.literals }
        ensures within { result ≤ 2 * self.now.variables + 2 }
    {
        self.literals.len()
    }

    /// The literal at a place, from 0.
    pub fn get(&self, at: usize) -> Lit
        requires { at < length self.now.literals }
        ensures literal { result ≡ slice_index_or self.now.literals at (pos 0) }
        ensures over { IsOver self.now.variables result }
    {
        self.literals[at]
    }

    /// Whether a literal is true.
    pub fn is_true(&self, literal: Lit) -> bool
        requires { unsigned_abs literal ≤ self.now.variables }
        ensures { result ≡ holds self.now.literals literal }
    {
        self.marks[code_of(literal)]
    }

    /// Whether its negation is.
    pub fn is_false(&self, literal: Lit) -> bool
        requires { unsigned_abs literal ≤ self.now.variables }
        ensures { result ≡ holds self.now.literals (neg_ℤ literal) }
    {
        self.is_true(literal.negated())
    }

    /// The number of the clause that is said to have forced the literal at a place; `None` for a decision. It is a hint.
    pub fn reason(&self, at: usize) -> Option<usize> {
        match self.reasons.get(at) {
            Some(reason) => *reason,
            None => None,
        }
    }

    /// Makes a literal true that isn't, and notes which clause forced it.
    pub fn push(&mut self, literal: Lit, reason: Option<usize>) -> Result<(), AllocError>
        requires over { unsigned_abs literal ≤ self.old.variables }
        requires new { holds self.old.literals literal ≡ false }
        ensures ok { OnOk result (self.new ≡ record self.old { literals = self.old.literals ++ literal ∷ [] }) }
        ensures err { OnErr result (self.new ≡ self.old) }
    {
        self.note(reason)?;
        self.make_true(literal)
    }

    /// Notes which clause forces the literal that is made true next.
    fn note(&mut self, reason: Option<usize>) -> Result<(), AllocError>
        ensures { self.new ≡ self.old }
    {
        self.reasons.truncate(self.literals.len());
        self.reasons.push(reason)?;
        Ok(())
    }

    /// Makes a literal true that isn't.
    fn make_true(&mut self, literal: Lit) -> Result<(), AllocError>
        requires over { unsigned_abs literal ≤ self.old.variables }
        requires new { holds self.old.literals literal ≡ false }
        ensures ok { OnOk result (self.new ≡ record self.old { literals = self.old.literals ++ literal ∷ [] }) }
        ensures err { OnErr result (self.new ≡ self.old) }
    {
        self.literals.push(literal)?;
        self.marks[code_of(literal)] = true;
        Ok(())
    }

    /// Takes back all but the first literals.
    pub fn truncate(&mut self, len: usize)
        ensures { self.new ≡ record self.old { literals = take len self.old.literals } }
    {
        while self.len() > len {
            self.pop();
        }
    }

    /// Takes back the last literal.
    fn pop(&mut self)
        requires { 0 < length self.old.literals }
        ensures { self.new ≡ record self.old { literals = take (length self.old.literals - 1) self.old.literals } }
    {
        if let Some(literal) = self.literals.pop() {
            self.marks[code_of(literal)] = false;
        }
    }
}
