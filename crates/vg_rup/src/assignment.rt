// The literals that are true.

ghost use Rattle.std.specs.Prelude.{◌≡◌, ℤ, neg_ℤ, [], ◌∷◌, OnOk, IfOk};
ghost use Rattle.vg_cnf.specs.Clauses.{holds};
ghost use Rattle.vg_cnf.specs.Orders.{negations};
ghost use Rattle.vg_rup.specs.Assignment.{SameLiterals};

use std::alloc::{AllocError, Global};
use std::collections::HashSet;
use std::marker::Model;
use vg_cnf::Lit;

/// Literals that are true, which contracts see as a list in no order. It takes room for those alone, whatever their variables' numbers.
#[derive(Drop)]
pub(crate) struct Assignment {
    made: HashSet<Lit>,
}

impl Model for Assignment {
    ghost use Rattle.std.specs.Prelude.{ℤ, List};

    ghost Value = { List ℤ };

    ghost view = { λ a. a.made.keys };
}

impl Assignment {
    /// No literal is true.
    pub fn new(alloc: Global) -> Self
        ensures { result ≡ [] }
    {
        Assignment {
            made: HashSet::new(alloc),
        }
    }

    /// The literals of a clause are false.
    pub fn falsifying(alloc: Global, clause: &[Lit]) -> Result<Self, AllocError>
        ensures { IfOk result (λ made. SameLiterals made (negations clause.now)) }
    {
        let mut made = Assignment::new(alloc);
        for literal in clause {
            made.make_true(literal.negated())?;
        }
        Ok(made)
    }

    /// Whether a literal is true.
    pub fn is_true(&self, literal: Lit) -> bool
        ensures { result ≡ holds self.now literal }
    {
        self.made.contains(&literal)
    }

    /// Whether its negation is.
    pub fn is_false(&self, literal: Lit) -> bool
        ensures { result ≡ holds self.now (neg_ℤ literal) }
    {
        self.is_true(literal.negated())
    }

    /// Makes one more literal true.
    pub fn make_true(&mut self, literal: Lit) -> Result<(), AllocError>
        ensures { OnOk result (SameLiterals self.new (literal ∷ self.old)) }
    {
        self.made.insert(literal)?;
        Ok(())
    }
}
