// Clauses that are known, and what follows from them.

ghost use Rattle.std.specs.Prelude.{◌≡◌, ◌≤◌, pos, true, false, [], ◌∷◌, ◌++◌, OnOk, IfOk, IsTrue, All, unsigned_abs};
ghost use Rattle.vg_cnf.specs.Clauses.{is_clause as clause_test, IsOver};
ghost use Rattle.vg_cnf.specs.Propagation.{follows as list_follows};
ghost use Rattle.vg_cnf.specs.Orders.{occurs};

use crate::assignment::Assignment;
use crate::propagation::propagate;
use std::alloc::{AllocError, Global};
use std::marker::Model;
use vg_cnf::{Clauses, Lit, LiteralLists, is_clause};
use vg_units::Propagator;

/// Clauses that are known, which contracts see as a list.
#[derive(Drop)]
pub(crate) struct Known {
    lists: LiteralLists,
    /// The same clauses, as long as they name no variable beyond the given ones.
    search: Option<Propagator>,
    /// Whether the empty clause follows from them, so that each clause does.
    is_refuted: bool,
}

impl Model for Known {
    ghost use Rattle.std.specs.Prelude.{ℤ, List};
    ghost use Rattle.vg_rup.specs.Knowledge.{IsKnown};

    ghost Value = { List (List ℤ) };

    ghost view = { λ a. a.lists };

    ghost invariant = { λ a. IsKnown a.lists a.search a.is_refuted };
}

impl Known {
    /// The given clauses are known.
    pub fn new(alloc: Global, clauses: &Clauses) -> Result<Self, AllocError>
        ensures { IfOk result (λ known. known ≡ clauses.now.clauses) }
    {
        let mut known = Known {
            lists: LiteralLists::new(alloc),
            search: Some(Propagator::new(alloc, clauses.variables())?),
            is_refuted: false,
        };
        for at in 0..clauses.len() {
            known.push(clauses.get(at))?;
        }
        Ok(known)
    }

    /// Whether a list follows from the known clauses by unit propagation.
    pub fn follows(&mut self, alloc: Global, list: &[Lit]) -> Result<bool, AllocError>
        ensures same { self.new ≡ self.old }
        ensures answer { IfOk result (λ answer. answer ≡ list_follows self.old list.now) }
    {
        if !is_clause(list) {
            return Ok(false);
        }
        if self.is_refuted {
            return Ok(true);
        }
        if let Some(mut search) = self.search.take() {
            if is_over(list, search.variables()) {
                let answer = search.follows(list)?;
                self.search = Some(search);
                return Ok(answer);
            }
        }
        follows_by_passes(alloc, &self.lists, list)
    }

    /// Adds a clause to those that are known.
    pub fn push(&mut self, clause: &[Lit]) -> Result<(), AllocError>
        requires { clause_test clause.now ≡ true }
        ensures { OnOk result (self.new ≡ self.old ++ clause.now ∷ []) }
    {
        let search = self.search.take();
        self.lists.push(clause)?;
        if let Some(mut search) = search {
            if is_over(clause, search.variables()) {
                if search.add(clause)? {
                    self.search = Some(search);
                } else {
                    self.is_refuted = true;
                }
            }
        }
        Ok(())
    }
}

/// Whether the literals are of the variables from 1 up to a number.
fn is_over(list: &[Lit], variables: u32) -> bool
    ensures { IsTrue result → All (IsOver variables) list.now }
{
    list.iter().all(|literal| literal.variable() <= variables)
}

/// Whether a clause follows from others by unit propagation, found in passes over all of them. This needs no room for variables, whatever their numbers.
fn follows_by_passes(
    alloc: Global,
    clauses: &LiteralLists,
    clause: &[Lit],
) -> Result<bool, AllocError>
    requires nonzero { occurs clauses.now (pos 0) ≡ false }
    requires clause { clause_test clause.now ≡ true }
    ensures { IfOk result (λ answer. answer ≡ list_follows clauses.now clause.now) }
{
    let mut made = Assignment::falsifying(alloc, clause)?;
    let conflict = propagate(clauses, &mut made)?;
    Ok(conflict)
}
