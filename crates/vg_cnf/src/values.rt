// A truth value for each variable.

ghost use Rattle.std.specs.Prelude.{◌≡◌, ◌<◌, ◌≤◌, ◌-◌, ℤ, Bool, false, List, [], IsTrue, ◌↔◌, length, IfOk, replicate, unsigned_abs, slice_set, All};
ghost use Rattle.vg_cnf.specs.Clauses.{IsOver, makes_literal_true, makes_true};

use crate::literal::Lit;
use std::alloc::{AllocError, Global};
use std::marker::Model;

/// A truth value for each variable, which contracts see as a list: variable n has the value at place n - 1.
#[derive(Drop)]
pub struct Values {
    values: Vec<bool>,
}

impl Model for Values {
    ghost use Rattle.std.specs.Prelude.{Bool, List};

    ghost Value = { List Bool };

    ghost view = { λ a. a.values.items };
}

impl Values {
    /// All of this many variables false.
    pub fn all_false(alloc: Global, variables: u32) -> Result<Self, AllocError>
        ensures { IfOk result (λ values. values ≡ replicate variables false) }
    {
        let values = vec![in alloc; false; variables as usize]?;
        Ok(Values { values })
    }

    /// How many variables there are.
    pub fn len(&self) -> usize
        ensures { result ≡ length self.now }
    {
        self.values.len()
    }

    /// Whether there is none.
    pub fn is_empty(&self) -> bool
        ensures { IsTrue result ↔ (self.now ≡ []) }
    {
        self.len() == 0
    }

    /// Gives a variable, from 1 on, a value.
    pub fn set(&mut self, variable: u32, value: bool)
        requires not_zero { 0 < variable }
        requires within { variable ≤ length self.old }
        ensures { self.new ≡ slice_set self.old (variable - 1) value }
    {
        self.values[variable as usize - 1] = value;
    }

    /// Whether a literal is true.
    pub fn makes_literal_true(&self, literal: Lit) -> bool
        requires { unsigned_abs literal ≤ length self.now }
        ensures { result ≡ makes_literal_true self.now literal }
    {
        self.values[literal.variable() as usize - 1] == literal.is_positive()
    }

    /// Whether one of the literals is true.
    pub fn makes_true(&self, literals: &[Lit]) -> bool
        requires { All (IsOver (length self.now)) literals.now }
        ensures { result ≡ makes_true self.now literals.now }
    {
        for literal in literals {
            if self.makes_literal_true(*literal) {
                return true;
            }
        }
        false
    }
}
