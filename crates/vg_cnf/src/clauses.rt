// Clauses over numbered variables.

ghost use Rattle.std.specs.Prelude.{◌≡◌, ◌<◌, ◌+◌, ◌^◌, ◌++◌, ℤ, pos, [], ◌∷◌, List, length, sum_by, Some, slice_get, OnOk, OnErr, IsTrue, ◌↔◌};

use crate::lists::LiteralLists;
use crate::literal::Lit;
use crate::values::Values;
use std::alloc::{AllocError, Global};
use std::marker::Model;

/// A list of clauses over the variables from 1 up to a number.
#[derive(Drop)]
pub struct Clauses {
    variables: u32,
    lists: LiteralLists,
}

impl Model for Clauses {
    ghost use Rattle.std.specs.Prelude.{◌<◌, ◌^◌, All};
    ghost use Rattle.vg_cnf.specs.Clauses.{ClauseSet, IsClauseOver};

    ghost Value = { ClauseSet };

    ghost view = { λ a. record { variables = a.variables; clauses = a.lists } };

    ghost invariant = { λ a. (a.variables < 2 ^ 31) × All (IsClauseOver a.variables) a.lists };
}

impl Clauses {
    ghost use Rattle.vg_cnf.specs.Clauses.{IsClauseOver, IsModel};

    /// No clauses, over the variables from 1 up to `variables`.
    pub fn new(alloc: Global, variables: u32) -> Self
        requires { variables < 2 ^ 31 }
        ensures { result ≡ record { variables = variables; clauses = [] } }
    {
        Clauses {
            variables,
            lists: LiteralLists::new(alloc),
        }
    }

    /// The number of variables.
    pub fn variables(&self) -> u32
        ensures count { result ≡ self.now.variables }
        ensures in_range { result < 2 ^ 31 }
    {
        self.variables
    }

    /// Adds a variable, of which no clause speaks yet, and answers the literal that it is true.
    pub fn add_variable(&mut self) -> Lit
        requires { self.old.variables + 1 < 2 ^ 31 }
        ensures one_more { self.new ≡ record self.old { variables = self.old.variables + 1 } }
        ensures literal { result ≡ pos self.new.variables }
    {
        self.variables += 1;
        Lit::of_variable(self.variables)
    }

    /// How many clauses there are.
    pub fn len(&self) -> usize
        ensures { result ≡ length self.now.clauses }
    {
        self.lists.len()
    }

    /// Whether there is none.
    pub fn is_empty(&self) -> bool
        ensures { IsTrue result ↔ (self.now.clauses ≡ []) }
    {
        self.len() == 0
    }

    /// How many literals the clauses have together, counted as they stand.
    pub fn literal_count(&self) -> usize
        ensures { result ≡ sum_by length self.now.clauses }
    {
        self.lists.literal_count()
    }

    /// The clause at a place, from 0.
    pub fn get(&self, at: usize) -> &[Lit]
        requires { at < length self.now.clauses }
        ensures clause { slice_get self.now.clauses at ≡ Some result.now }
        ensures over { IsClauseOver self.now.variables result.now }
    {
        self.lists.get(at)
    }

    /// Adds a clause over the variables at the end.
    pub fn push(&mut self, clause: &[Lit]) -> Result<(), AllocError>
        requires { IsClauseOver self.old.variables clause.now }
        ensures ok { OnOk result (self.new ≡ record self.old { clauses = self.old.clauses ++ clause.now ∷ [] }) }
        ensures err { OnErr result (self.new ≡ self.old) }
    {
        self.lists.push(clause)
    }

    /// Whether the values, one for each variable, are a model: they make each clause true.
    pub fn is_satisfied_by(&self, values: &Values) -> bool
        requires { length values.now ≡ self.now.variables }
        ensures { IsTrue result ↔ IsModel values.now self.now }
    {
        for at in 0..self.len() {
            if !values.makes_true(self.get(at)) {
                return false;
            }
        }
        true
    }
}
