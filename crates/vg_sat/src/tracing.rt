// Conflicts traced back to the first literal of the last level that alone, with literals of the levels before, leads to them (Marques-Silva and
// Sakallah: GRASP, 1996).

ghost use Rattle.std.specs.Prelude.{◌<◌, length};

use crate::order::Order;
use std::alloc::{AllocError, Global};
use vg_cnf::Lit;
use vg_units::Propagator;

/// A conflict that is being traced back.
#[derive(Drop)]
struct Trace {
    /// Where each variable stands in the trail.
    places: Vec<usize>,
    /// Which literals of the trail lead to the conflict, by their places.
    leading: Vec<bool>,
    /// How many of these are of the last level and were not traced yet.
    open: usize,
    /// Those of the levels before, negated.
    clause: Vec<Lit>,
}

/// The literals, all false, of which a clause may be learned; the one of the last level stands last. The variables on the way are bumped.
/// The reasons that are followed are hints, so it is to be checked that the clause follows.
pub(crate) fn trace_back(
    alloc: Global,
    search: &Propagator,
    order: &mut Order,
    conflict: usize,
) -> Result<Vec<Lit>, AllocError>
    requires { 0 < length search.now.starts }
{
    let last = search.start(search.level() - 1);
    let mut trace = Trace::new(alloc, search)?;
    trace.add_clause(search, order, conflict)?;
    for at in (last..search.true_count()).rev() {
        if trace.leading.get(at) == Some(&true) {
            trace.open = trace.open.saturating_sub(1);
            if trace.open == 0 {
                trace.clause.push(search.literal(at).negated())?;
                return Ok(trace.clause);
            }
            if let Some(reason) = search.reason(at) {
                trace.add_clause(search, order, reason)?;
            }
        }
    }
    Ok(trace.clause)
}

impl Trace {
    fn new(alloc: Global, search: &Propagator) -> Result<Self, AllocError> {
        let mut places = vec![in alloc; 0; search.variables() as usize + 1]?;
        for at in 0..search.true_count() {
            if let Some(place) = places.get_mut(search.literal(at).variable() as usize) {
                *place = at;
            }
        }
        Ok(Trace {
            places,
            leading: vec![in alloc; false; search.true_count()]?,
            open: 0,
            clause: Vec::new(alloc),
        })
    }

    /// The literals of a clause, negated, lead to the conflict. Those from before the first decision don't count.
    fn add_clause(
        &mut self,
        search: &Propagator,
        order: &mut Order,
        clause: usize,
    ) -> Result<(), AllocError>
        requires { 0 < length search.now.starts }
    {
        if clause < search.clause_count() {
            for literal in search.clause(clause) {
                self.add_literal(search, order, *literal)?;
            }
        }
        Ok(())
    }

    fn add_literal(
        &mut self,
        search: &Propagator,
        order: &mut Order,
        literal: Lit,
    ) -> Result<(), AllocError>
        requires { 0 < length search.now.starts }
    {
        let Some(place) = self.places.get(literal.variable() as usize) else {
            return Ok(());
        };
        let place = *place;
        if place >= search.start(0) && self.leading.get(place) == Some(&false) {
            if let Some(leading) = self.leading.get_mut(place) {
                *leading = true;
            }
            order.bump(literal.variable());
            if place >= search.start(search.level() - 1) {
                self.open = self.open.saturating_add(1);
            } else {
                self.clause.push(literal)?;
            }
        }
        Ok(())
    }
}
