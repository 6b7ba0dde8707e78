// Clauses that grow, over variables of which the first is always true.

ghost use Rattle.std.specs.Prelude.{◌≡◌, ◌<◌, ◌+◌, ◌&&◌, pos, [], ◌∷◌, All, IfOk, OnOk};
ghost use Rattle.vg_cnf.specs.Clauses.{IsOver};
ghost use Rattle.vg_blast.specs.Circuits.{Adds, Grows, IsNet, MakesBit, literals, truth, differ};
ghost use Rattle.vg_blast.specs.Gates.{AreInputs, gate_value};

use crate::gate::Gate;
use std::alloc::{AllocError, Global};
use std::marker::Model;
use vg_cnf::{Clauses, Lit, is_clause};

/// The most variables that there may be. The numbers of literals reach no further.
const MOST_VARIABLES: u32 = 2_147_483_646;

/// Clauses over variables, of which the first is true in each model.
#[derive(Drop)]
pub(crate) struct Net {
    clauses: Clauses,
}

impl Model for Net {
    ghost use Rattle.vg_cnf.specs.Clauses.{ClauseSet};
    ghost use Rattle.vg_blast.specs.Circuits.{IsNet};

    ghost Value = { ClauseSet };

    ghost view = { λ n. n.clauses };

    ghost invariant = { λ n. IsNet n.clauses };
}

impl Net {
    /// The clause that the first variable is true, and no more.
    pub fn new(alloc: Global) -> Result<Self, AllocError>
        ensures { IfOk result (λ net. net ≡ record { variables = 1; clauses = (pos 1 ∷ []) ∷ [] }) }
    {
        let mut clauses = Clauses::new(alloc, 1);
        clauses.push(&[Lit::of_variable(1)])?;
        Ok(Net { clauses })
    }

    /// A new variable, of which no clause speaks yet.
    pub fn fresh(&mut self) -> Result<Lit, AllocError>
        ensures stood { IsNet self.old }
        ensures grows { Grows self.old self.new }
        ensures one_more { OnOk result (self.new ≡ record self.old { variables = self.old.variables + 1 }) }
        ensures literal { IfOk result (λ l. l ≡ pos self.new.variables) }
    {
        if self.clauses.variables() >= MOST_VARIABLES {
            return Err(AllocError);
        }
        Ok(self.clauses.add_variable())
    }

    /// Adds a clause, but for one that holds a literal along with its negation, which is true anyhow.
    pub fn add(&mut self, clause: &[Lit]) -> Result<(), AllocError>
        requires { All (IsOver self.old.variables) clause.now }
        ensures adds { OnOk result (Adds self.old self.new clause.now) }
        ensures grows { Grows self.old self.new }
    {
        if is_clause(clause) {
            self.clauses.push(clause)?;
        }
        Ok(())
    }

    /// A new variable that has the value of a gate.
    pub fn define(&mut self, gate: Gate) -> Result<Lit, AllocError>
        requires { AreInputs self.old gate }
        ensures grows { Grows self.old self.new }
        ensures gate { IfOk result (λ out. MakesBit self.old self.new 12 out (λ v. gate_value v gate)) }
    {
        match gate {
            Gate::And(a, b) => self.define_and(a, b),
            Gate::Xor(a, b) => self.define_xor(a, b),
        }
    }

    /// A new variable that is true where both literals are.
    fn define_and(&mut self, a: Lit, b: Lit) -> Result<Lit, AllocError>
        requires { IsOver self.old.variables a × IsOver self.old.variables b }
        ensures grows { Grows self.old self.new }
        ensures gate { IfOk result (λ out. MakesBit self.old self.new 7 out (λ v. truth v a && truth v b)) }
    {
        let out = self.fresh()?;
        self.add(&[out.negated(), a])?;
        self.add(&[out.negated(), b])?;
        self.add(&[out, a.negated(), b.negated()])?;
        Ok(out)
    }

    /// A new variable that is true where just one of the literals is.
    fn define_xor(&mut self, a: Lit, b: Lit) -> Result<Lit, AllocError>
        requires { IsOver self.old.variables a × IsOver self.old.variables b }
        ensures grows { Grows self.old self.new }
        ensures gate { IfOk result (λ out. MakesBit self.old self.new 12 out (λ v. differ (truth v a) (truth v b))) }
    {
        let out = self.fresh()?;
        self.add(&[out.negated(), a, b])?;
        self.add(&[out.negated(), a.negated(), b.negated()])?;
        self.add(&[out, a.negated(), b])?;
        self.add(&[out, a, b.negated()])?;
        Ok(out)
    }

    /// How many literals the clauses have together.
    pub fn literal_count(&self) -> usize
        ensures { result ≡ literals self.now }
    {
        self.clauses.literal_count()
    }

    /// The clauses.
    pub fn into_clauses(self) -> Clauses
        ensures { result ≡ self }
    {
        self.clauses
    }
}
