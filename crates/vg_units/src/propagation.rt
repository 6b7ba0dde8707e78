// Unit propagation over watched literals (Moskewicz, Madigan, Zhao, Zhang and Malik: Chaff, 2001).

ghost use Rattle.std.specs.Prelude.{◌≡◌, ◌<◌, ◌≤◌, ◌+◌, true, false, neg_ℤ, unsigned_abs, length, take, slice_index_or, IfOk, OnErr, MatchOption, All};
ghost use Rattle.vg_cnf.specs.Clauses.{holds, IsOver};
ghost use Rattle.vg_units.specs.Watching.{list_of, IsUnwatched};
ghost use Rattle.vg_units.specs.Propagating.{Advances, AreWatched, AreFalseBeside, Ends, Forces, IsOpenBeside, IsOther, Visits};

use crate::trail::Trail;
use crate::watches::{Pair, Watches};
use std::alloc::AllocError;
use vg_cnf::Lit;

/// What was found at a clause of which a watched literal has become false.
#[derive(Clone, Copy)]
enum Visit {
    /// It still watches that literal, since it is true.
    Kept,
    /// It doesn't watch that literal any more.
    Moved,
    /// The clause with this number is false.
    Conflict(usize),
}

/// Makes true what the clauses force, from the literal at a place of the trail on, and answers a clause that became false.
pub(crate) fn propagate(
    watches: &mut Watches,
    trail: &mut Trail,
    head: usize,
) -> Result<Option<usize>, AllocError>
    requires variables { watches.old.variables ≡ trail.old.variables }
    requires within { head ≤ length trail.old.literals }
    requires watched { AreWatched watches.old trail.old.literals (take head trail.old.literals) }
    ensures advances { Advances watches.old watches.new trail.old trail.new }
    ensures ends { IfOk result (Ends watches.new trail.new.literals trail.new.literals) }
{
    let mut at = head;
    while at < trail.len() {
        let conflict = settle(watches, trail, at)?;
        if conflict.is_some() {
            return Ok(conflict);
        }
        at += 1;
    }
    Ok(None)
}

/// Looks at each clause that watches the negation of the literal at a place of the trail.
fn settle(
    watches: &mut Watches,
    trail: &mut Trail,
    head: usize,
) -> Result<Option<usize>, AllocError>
    requires variables { watches.old.variables ≡ trail.old.variables }
    requires within { head < length trail.old.literals }
    requires watched { AreWatched watches.old trail.old.literals (take head trail.old.literals) }
    ensures advances { Advances watches.old watches.new trail.old trail.new }
    ensures ends { IfOk result (Ends watches.new trail.new.literals (take (head + 1) trail.new.literals)) }
{
    let literal = trail.get(head).negated();
    let mut count = watches.count(literal);
    let mut at = 0;
    while at < count {
        match look_at(watches, trail, literal, at)? {
            Visit::Kept => at += 1,
            Visit::Moved => count -= 1,
            Visit::Conflict(clause) => return Ok(Some(clause)),
        }
    }
    Ok(None)
}

/// Looks at the clause at a place of a false literal's list.
fn look_at(
    watches: &mut Watches,
    trail: &mut Trail,
    literal: Lit,
    at: usize,
) -> Result<Visit, AllocError>
    requires variables { watches.old.variables ≡ trail.old.variables }
    requires over { unsigned_abs literal ≤ watches.old.variables }
    requires is_false { holds trail.old.literals (neg_ℤ literal) ≡ true }
    requires within { at < length (list_of watches.old literal) }
    ensures advances { Advances watches.old watches.new trail.old trail.new }
    ensures visits { IfOk result (Visits watches.old watches.new trail.old.literals trail.new.literals literal at
        (slice_index_or (list_of watches.old literal) at 0)) }
{
    let clause = watches.entry(literal, at);
    let Some(other) = other_watched(watches, clause, literal) else {
        watches.leave_out(literal, at);
        return Ok(Visit::Moved);
    };
    if other == literal || trail.is_true(other) {
        return Ok(Visit::Kept);
    }
    let Some(second) = open_beside(watches.clause(clause), other, trail) else {
        return force(trail, clause, other);
    };
    let first = other;
    watches.exchange(literal, at, clause, &Pair { first, second })?;
    Ok(Visit::Moved)
}

/// The other watched literal of a clause that watches one; `None` where it is no clause, or watches others.
fn other_watched(watches: &Watches, clause: usize, literal: Lit) -> Option<Lit>
    ensures { MatchOption result (IsUnwatched watches.now literal clause) (IsOther watches.now clause literal) }
{
    if clause >= watches.len() {
        return None;
    }
    let pair = watches.pair(clause);
    if pair.first == literal {
        Some(pair.second)
    } else if pair.second == literal {
        Some(pair.first)
    } else {
        None
    }
}

/// A literal of a clause that isn't false, beside one.
pub(crate) fn open_beside(clause: &[Lit], other: Lit, trail: &Trail) -> Option<Lit>
    requires { All (IsOver trail.now.variables) clause.now }
    ensures { MatchOption result (AreFalseBeside trail.now.literals clause.now other) (IsOpenBeside trail.now.literals clause.now other) }
{
    for literal in clause {
        if *literal != other && !trail.is_false(*literal) {
            return Some(*literal);
        }
    }
    None
}

/// Makes a literal true, unless it is false already and so is its clause.
fn force(trail: &mut Trail, clause: usize, literal: Lit) -> Result<Visit, AllocError>
    requires over { unsigned_abs literal ≤ trail.old.variables }
    requires not_true { holds trail.old.literals literal ≡ false }
    ensures forces { IfOk result (Forces trail.old trail.new clause literal) }
    ensures err { OnErr result (trail.new ≡ trail.old) }
{
    if trail.is_false(literal) {
        return Ok(Visit::Conflict(clause));
    }
    trail.push(literal, Some(clause))?;
    Ok(Visit::Kept)
}
