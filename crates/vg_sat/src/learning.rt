// Clauses made shorter, so that each literal is needed.

ghost use Rattle.std.specs.Prelude.{◌≡◌, IfOk, IsOk};
ghost use Rattle.vg_units.specs.Searching.{IsAtRest};
ghost use Rattle.vg_sat.specs.Learned.{IsLearnable, IsLearned};
ghost use Rattle.vg_sat.specs.Walks.{IsStep};

use crate::halving::needed_beside;
use crate::order::Order;
use crate::walking::{Walk, assume_in_turn, decide_all};
use std::alloc::{AllocError, Global};
use vg_cnf::{Lit, Values};
use vg_units::Propagator;

/// What a conflict, or none, comes to.
#[derive(Drop)]
pub(crate) enum Step {
    /// Values that make each clause true.
    Model(Values),
    /// A clause to be learned, of which no literal can be left out.
    Learned(Vec<Lit>),
}

/// Decides until there is a model or a conflict to learn from.
pub(crate) fn next_step(
    alloc: Global,
    search: &mut Propagator,
    order: &mut Order,
) -> Result<Step, AllocError>
    requires { IsAtRest search.old }
    ensures same { IsOk result → (search.new.variables ≡ search.old.variables) × (search.new.clauses ≡ search.old.clauses) }
    ensures at_rest { IsOk result → IsAtRest search.new }
    ensures step { IfOk result (IsStep search.old) }
{
    match decide_all(alloc, search, order)? {
        Walk::Model(values) => Ok(Step::Model(values)),
        Walk::Conflict(decisions, traced) => {
            order.end_conflict()?;
            let clause = learn(alloc, search, &decisions, &traced)?;
            Ok(Step::Learned(clause))
        }
    }
}

/// What the conflict was traced back to, where that leads to a conflict indeed, and else the decisions.
fn learn(
    alloc: Global,
    search: &mut Propagator,
    decisions: &[Lit],
    traced: &[Lit],
) -> Result<Vec<Lit>, AllocError>
    requires at_rest { IsAtRest search.old }
    requires learnable { IsLearnable search.old.variables search.old.clauses decisions.now }
    ensures same { IsOk result → (search.new.variables ≡ search.old.variables) × (search.new.clauses ≡ search.old.clauses) }
    ensures at_rest { IsOk result → IsAtRest search.new }
    ensures learned { IfOk result (λ c. IsLearned search.old.variables search.old.clauses c.items) }
{
    match assume_in_turn(alloc, search, traced)? {
        Some(clause) => shorten(alloc, search, &clause),
        None => shorten(alloc, search, decisions),
    }
}

/// The clause without those literals after the first that aren't needed.
fn shorten(alloc: Global, search: &mut Propagator, clause: &[Lit]) -> Result<Vec<Lit>, AllocError>
    requires at_rest { IsAtRest search.old }
    requires learnable { IsLearnable search.old.variables search.old.clauses clause.now }
    ensures same { IsOk result → (search.new.variables ≡ search.old.variables) × (search.new.clauses ≡ search.old.clauses) }
    ensures at_rest { IsOk result → IsAtRest search.new }
    ensures learned { IfOk result (λ c. IsLearned search.old.variables search.old.clauses c.items) }
{
    let (first, others) = clause.split_at(1);
    let mut kept = Vec::new(alloc);
    kept.extend_from_slice(first)?;
    let more = needed_beside(alloc, search, first, others)?;
    kept.extend_from_slice(&more)?;
    Ok(kept)
}
