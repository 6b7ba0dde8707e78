// The search for a model or a refutation.

ghost use Rattle.std.specs.Prelude.{◌≡◌, ◌≤◌, ◌^◌, [], IfOk, MatchOption, All};
ghost use Rattle.vg_cnf.specs.Clauses.{IsClauseOver};
ghost use Rattle.vg_cnf.specs.Orders.{Reaches};
ghost use Rattle.vg_sat.specs.Loading.{IsLoaded};
ghost use Rattle.vg_sat.specs.Answers.{IsAnswer, IsDecided};

use crate::answer::Answer;
use crate::learning::{Step, next_step};
use crate::order::Order;
use std::alloc::{AllocError, Global};
use vg_cnf::{Clauses, Refutation};
use vg_parts::Memory;
use vg_units::Propagator;

/// Searches for a model of the clauses, or for a refutation, in which each step is a clause that was learned. After `limit` clauses it gives up: these are
/// different, follow in turn, and none of them could have been shorter. With a limit of 3 to the number of variables or more it doesn't give up.
pub fn solve(alloc: Global, clauses: &Clauses, limit: u32) -> Result<Answer, Memory>
    ensures answer { IfOk result (IsAnswer clauses.now limit) }
    ensures decided { 3 ^ clauses.now.variables ≤ limit → IfOk result IsDecided }
{
    each_is_over(clauses);
    let Some(mut search) = load(alloc, clauses)? else {
        let mut learned = Refutation::new(alloc);
        learned.push(&[])?;
        return Ok(Answer::Refuted(learned));
    };
    let mut order = Order::new(alloc, clauses.variables())?;
    search_on(alloc, clauses, &mut search, &mut order, limit)
}

/// Learns clause after clause from the loaded clauses, until there is a model, a refutation or as many as allowed.
fn search_on(
    alloc: Global,
    clauses: &Clauses,
    search: &mut Propagator,
    order: &mut Order,
    limit: u32,
) -> Result<Answer, Memory>
    requires loaded { IsLoaded clauses.now search.old }
    requires over { All (IsClauseOver clauses.now.variables) clauses.now.clauses }
    ensures answer { IfOk result (IsAnswer clauses.now limit) }
    ensures decided { 3 ^ clauses.now.variables ≤ limit → IfOk result IsDecided }
{
    let mut learned = Refutation::new(alloc);
    for _count in 0..limit {
        match next_step(alloc, search, order)? {
            Step::Model(values) => return Ok(Answer::Model(values)),
            Step::Learned(clause) => {
                learned.push(&clause)?;
                if !search.add(&clause)? {
                    learned.push(&[])?;
                    return Ok(Answer::Refuted(learned));
                }
            }
        }
    }
    Ok(Answer::Spent(learned))
}

/// The clauses, unless unit propagation alone refutes them.
fn load(alloc: Global, clauses: &Clauses) -> Result<Option<Propagator>, AllocError>
    ensures { IfOk result (λ search. MatchOption search (Reaches clauses.now.clauses []) (IsLoaded clauses.now)) }
{
    let mut search = Propagator::new(alloc, clauses.variables())?;
    for at in 0..clauses.len() {
        if !search.add(clauses.get(at))? {
            return Ok(None);
        }
    }
    Ok(Some(search))
}

/// Does nothing: its contract says what holds of each clause.
fn each_is_over(clauses: &Clauses)
    ensures { All (IsClauseOver clauses.now.variables) clauses.now.clauses }
{
    for at in 0..clauses.len() {
        let _clause = clauses.get(at);
    }
}
