// Decisions one after another, until all variables are decided or a clause is false.

ghost use Rattle.std.specs.Prelude.{◌≡◌, ◌<◌, IfOk, IfSome, IsOk, MatchOption, length, neg_ℤ, true, false, ◌⊎◌};
ghost use Rattle.vg_cnf.specs.Clauses.{holds, IsOver};
ghost use Rattle.vg_units.specs.Searching.{IsAtRest};
ghost use Rattle.vg_units.specs.Propagating.{AreWithin};
ghost use Rattle.vg_sat.specs.Learned.{IsLearnable};
ghost use Rattle.vg_sat.specs.Walks.{IsWalk, AreValues, Walked};
ghost use Rattle.vg_sat.specs.Choices.{IsUndecided, AreAssigned};

use crate::order::Order;
use crate::tracing::trace_back;
use std::alloc::{AllocError, Global};
use vg_cnf::{Lit, Values};
use vg_units::Propagator;

/// Where decisions led.
#[derive(Drop)]
pub(crate) enum Walk {
    /// All variables are decided, and each clause is true.
    Model(Values),
    /// The clause that not all decisions hold, the last one first; and the literals of one that the conflict was traced back to.
    Conflict(Vec<Lit>, Vec<Lit>),
}

/// Decides one variable after another: first as the order says, and then any that it left out.
pub(crate) fn decide_all(
    alloc: Global,
    search: &mut Propagator,
    order: &mut Order,
) -> Result<Walk, AllocError>
    requires { IsAtRest search.old }
    ensures same { IsOk result → (search.new.variables ≡ search.old.variables) × (search.new.clauses ≡ search.old.clauses) }
    ensures at_rest { IsOk result → IsAtRest search.new }
    ensures led { IfOk result (IsWalk search.old) }
{
    let mut clause = Vec::new(alloc);
    search.facts();
    let Some(conflict) = decide_each(search, order, &mut clause)? else {
        let values = values_of(alloc, search)?;
        search.release();
        return Ok(Walk::Model(values));
    };
    let traced = trace_back(alloc, search, order, conflict)?;
    order.leave(search)?;
    search.release();
    Ok(Walk::Conflict(clause, traced))
}

/// Decides until a clause is false or all variables are true or false.
fn decide_each(
    search: &mut Propagator,
    order: &mut Order,
    clause: &mut Vec<Lit>,
) -> Result<Option<usize>, AllocError>
    requires { Walked search.old clause.old.items }
    ensures same { IsOk result → (search.new.variables ≡ search.old.variables) × (search.new.clauses ≡ search.old.clauses) }
    ensures led { IfOk result (λ end. MatchOption end (Walked search.new clause.new.items × AreAssigned search.new)
        (λ at. IsLearnable search.old.variables search.old.clauses clause.new.items × (0 < length search.new.starts))) }
{
    let conflict = decide_in_order(search, order, clause)?;
    if conflict.is_some() {
        return Ok(conflict);
    }
    decide_rest(search, clause)
}

/// Decides as the order says, as long as it names a variable.
fn decide_in_order(
    search: &mut Propagator,
    order: &mut Order,
    clause: &mut Vec<Lit>,
) -> Result<Option<usize>, AllocError>
    requires { Walked search.old clause.old.items }
    ensures same { IsOk result → (search.new.variables ≡ search.old.variables) × (search.new.clauses ≡ search.old.clauses) }
    ensures led { IfOk result (λ end. MatchOption end (Walked search.new clause.new.items)
        (λ at. IsLearnable search.old.variables search.old.clauses clause.new.items × (0 < length search.new.starts))) }
{
    for _turn in 0..search.variables() {
        let Some(decision) = order.next(search) else {
            return Ok(None);
        };
        let conflict = decide(search, clause, decision)?;
        if conflict.is_some() {
            return Ok(conflict);
        }
    }
    Ok(None)
}

/// Decides that each variable is false that is neither true nor false.
fn decide_rest(search: &mut Propagator, clause: &mut Vec<Lit>) -> Result<Option<usize>, AllocError>
    requires { Walked search.old clause.old.items }
    ensures same { IsOk result → (search.new.variables ≡ search.old.variables) × (search.new.clauses ≡ search.old.clauses) }
    ensures led { IfOk result (λ end. MatchOption end (Walked search.new clause.new.items × AreAssigned search.new)
        (λ at. IsLearnable search.old.variables search.old.clauses clause.new.items × (0 < length search.new.starts))) }
{
    for before in 0..search.variables() {
        let decision = Lit::of_variable(before + 1).negated();
        if is_undecided(search, decision) {
            let conflict = decide(search, clause, decision)?;
            if conflict.is_some() {
                return Ok(conflict);
            }
        }
    }
    Ok(None)
}

/// The clause of those literals that have to be assumed false, the last one first, until a clause is false; `None` where none is with all of them.
pub(crate) fn assume_in_turn(
    alloc: Global,
    search: &mut Propagator,
    literals: &[Lit],
) -> Result<Option<Vec<Lit>>, AllocError>
    requires { IsAtRest search.old }
    ensures same { IsOk result → (search.new.variables ≡ search.old.variables) × (search.new.clauses ≡ search.old.clauses) }
    ensures at_rest { IsOk result → IsAtRest search.new }
    ensures learnable { IfOk result (λ clause. IfSome clause (λ c. IsLearnable search.old.variables search.old.clauses c.items)) }
{
    let mut clause = Vec::new(alloc);
    search.facts();
    for literal in literals {
        let decision = literal.negated();
        if is_open(search, decision) {
            let conflict = decide(search, &mut clause, decision)?;
            if conflict.is_some() {
                search.release();
                return Ok(Some(clause));
            }
        }
    }
    search.release();
    Ok(None)
}

/// Decides a literal, notes its negation before the others, and answers the place of a clause that became false.
fn decide(
    search: &mut Propagator,
    clause: &mut Vec<Lit>,
    decision: Lit,
) -> Result<Option<usize>, AllocError>
    requires undecided { IsUndecided search.old decision }
    requires walked { Walked search.old clause.old.items }
    ensures same { IsOk result → (search.new.variables ≡ search.old.variables) × (search.new.clauses ≡ search.old.clauses) }
    ensures led { IfOk result (λ end. MatchOption end (Walked search.new clause.new.items)
        (λ at. IsLearnable search.old.variables search.old.clauses clause.new.items)) }
    ensures level { IsOk result → 0 < length search.new.starts }
    ensures kept { IsOk result → AreWithin search.old.trail search.new.trail }
    ensures decided { IsOk result → holds search.new.trail decision ≡ true }
{
    search.facts();
    clause.insert(0, decision.negated())?;
    search.decide(decision)?;
    search.propagate()
}

/// The values of the variables.
fn values_of(alloc: Global, search: &Propagator) -> Result<Values, AllocError>
    ensures { IfOk result (AreValues search.now) }
{
    let mut values = Values::all_false(alloc, search.variables())?;
    for before in 0..search.variables() {
        if search.is_true(Lit::of_variable(before + 1)) {
            values.set(before + 1, true);
        }
    }
    Ok(values)
}

/// Whether a literal is neither true nor false.
fn is_undecided(search: &Propagator, literal: Lit) -> bool
    requires { IsOver search.now.variables literal }
    ensures undecided { result ≡ true → IsUndecided search.now literal }
    ensures decided { result ≡ false → (holds search.now.trail literal ≡ true) ⊎ (holds search.now.trail (neg_ℤ literal) ≡ true) }
{
    !search.is_true(literal) && !search.is_false(literal)
}

/// Whether a literal is of one of the variables, and neither true nor false.
pub(crate) fn is_open(search: &Propagator, literal: Lit) -> bool
    ensures { result ≡ true → IsUndecided search.now literal }
{
    literal.variable() <= search.variables() && is_undecided(search, literal)
}
