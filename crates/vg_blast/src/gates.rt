// Gates that are built once each: a table tells which stand.

ghost use Rattle.std.specs.Prelude.{◌≡◌, ◌&&◌, ◌||◌, ◌+◌, ◌∷◌, [], All, pos, negsuc, IfOk, OnOk};
ghost use Rattle.vg_cnf.specs.Clauses.{IsOver};
ghost use Rattle.vg_blast.specs.Circuits.{Adds, MakesBit, IsNet, literals, truth as literal_truth, differ, choose, most};
ghost use Rattle.vg_blast.specs.Gates.{AreInputs, gate_value};

use crate::gate::{Gate, and_gate, folded_and, folded_xor, truth, with_signs, xor_gate};
use crate::net::Net;
use indexmap::IndexMap;
use std::alloc::{AllocError, Global};
use std::marker::Model;
use vg_cnf::{Clauses, Lit};

/// Clauses, and the outputs of the gates that they define.
#[derive(Drop)]
pub(crate) struct Gates {
    net: Net,
    outputs: IndexMap<Gate, Lit>,
}

impl Model for Gates {
    ghost use Rattle.std.specs.Prelude.{All};
    ghost use Rattle.vg_cnf.specs.Clauses.{ClauseSet};
    ghost use Rattle.vg_blast.specs.Circuits.{IsNet};
    ghost use Rattle.vg_blast.specs.Gates.{IsEntry};

    ghost Value = { ClauseSet };

    ghost view = { λ g. g.net };

    ghost invariant = { λ g. IsNet g.net × All (IsEntry g.net) g.outputs.entries };
}

impl Gates {
    /// The output of a gate: the standing one, or else a new variable.
    fn output(&mut self, gate: Gate) -> Result<Lit, AllocError>
        requires { AreInputs self.old gate }
        ensures { IfOk result (λ out. MakesBit self.old self.new 12 out (λ v. gate_value v gate)) }
    {
        if let Some(out) = self.outputs.get(&gate).copied() {
            return Ok(out);
        }
        let out = self.net.define(gate)?;
        match self.outputs.insert(gate, out) {
            Ok(_) => Ok(out),
            Err(_) => Err(AllocError),
        }
    }

    /// The literal that is true in each model.
    pub fn truth(&self) -> Lit
        ensures literal { result ≡ pos 1 }
        ensures stood { IsNet self.now }
    {
        let _ = &self.net;
        truth()
    }

    /// The literal that is false in each model.
    pub fn falsity(&self) -> Lit
        ensures literal { result ≡ negsuc 0 }
        ensures stood { IsNet self.now }
    {
        self.truth().negated()
    }

    /// A new variable, of which no clause speaks yet.
    pub fn fresh(&mut self) -> Result<Lit, AllocError>
        ensures one_more { OnOk result (self.new ≡ record self.old { variables = self.old.variables + 1 }) }
        ensures literal { IfOk result (λ l. l ≡ pos self.new.variables) }
    {
        self.net.fresh()
    }

    /// Adds a clause, but for one that holds a literal along with its negation, which is true anyhow.
    pub fn add(&mut self, clause: &[Lit]) -> Result<(), AllocError>
        requires { All (IsOver self.old.variables) clause.now }
        ensures adds { OnOk result (Adds self.old self.new clause.now) }
    {
        self.net.add(clause)
    }

    /// How many literals the clauses have together.
    pub fn literal_count(&self) -> usize
        ensures { result ≡ literals self.now }
    {
        self.net.literal_count()
    }

    /// No gates, and the clause that the first variable is true.
    pub fn new(alloc: Global) -> Result<Self, AllocError>
        ensures { IfOk result (λ gates. gates ≡ record { variables = 1; clauses = (pos 1 ∷ []) ∷ [] }) }
    {
        let net = Net::new(alloc)?;
        Ok(Gates {
            net,
            outputs: IndexMap::new(alloc),
        })
    }

    /// The clauses.
    pub fn into_clauses(self) -> Clauses
        ensures { result ≡ self }
    {
        self.net.into_clauses()
    }

    /// Whether both are true.
    pub fn and(&mut self, a: Lit, b: Lit) -> Result<Lit, AllocError>
        requires { IsOver self.old.variables a × IsOver self.old.variables b }
        ensures { IfOk result (λ out. MakesBit self.old self.new 12 out (λ v. literal_truth v a && literal_truth v b)) }
    {
        let _ = &self.net;
        match folded_and(a, b) {
            Some(out) => Ok(out),
            None => self.output(and_gate(a, b)),
        }
    }

    /// Whether just one is true.
    pub fn xor(&mut self, a: Lit, b: Lit) -> Result<Lit, AllocError>
        requires { IsOver self.old.variables a × IsOver self.old.variables b }
        ensures { IfOk result (λ out. MakesBit self.old self.new 12 out (λ v. differ (literal_truth v a) (literal_truth v b))) }
    {
        let _ = &self.net;
        if let Some(out) = folded_xor(a, b) {
            return Ok(out);
        }
        let out = self.output(xor_gate(a, b))?;
        Ok(with_signs(a, b, out))
    }

    /// Whether either is true.
    pub fn or(&mut self, a: Lit, b: Lit) -> Result<Lit, AllocError>
        requires { IsOver self.old.variables a × IsOver self.old.variables b }
        ensures { IfOk result (λ out. MakesBit self.old self.new 12 out (λ v. literal_truth v a || literal_truth v b)) }
    {
        let neither = self.and(a.negated(), b.negated())?;
        Ok(neither.negated())
    }

    /// The second where the first is true, and else the third.
    pub fn choice(&mut self, condition: Lit, a: Lit, b: Lit) -> Result<Lit, AllocError>
        requires { IsOver self.old.variables condition × IsOver self.old.variables a × IsOver self.old.variables b }
        ensures { IfOk result (λ out. MakesBit self.old self.new 36 out (λ v. choose (literal_truth v condition) (literal_truth v a) (literal_truth v b))) }
    {
        if a == b {
            return Ok(a);
        }
        let taken = self.and(condition, a)?;
        let left = self.and(condition.negated(), b)?;
        self.or(taken, left)
    }

    /// What at least two of the three are.
    pub fn majority(&mut self, a: Lit, b: Lit, c: Lit) -> Result<Lit, AllocError>
        requires { IsOver self.old.variables a × IsOver self.old.variables b × IsOver self.old.variables c }
        ensures { IfOk result (λ out. MakesBit self.old self.new 48 out (λ v. most (literal_truth v a) (literal_truth v b) (literal_truth v c))) }
    {
        let one = self.xor(a, b)?;
        let both = self.and(a, b)?;
        let decided = self.and(one, c)?;
        self.or(both, decided)
    }
}
