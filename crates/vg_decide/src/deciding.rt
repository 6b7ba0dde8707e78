//! Deciding facts on machine words.
ghost use Rattle.std.specs.Prelude.{◌≡◌, All, IfOk, IfErr, OnOk};
ghost use Rattle.vg_cnf.specs.Refutations.{IsRefutation};
ghost use Rattle.vg_term.specs.Terms.{Stands, width_at};
ghost use Rattle.vg_term.specs.Wiring.{Grown};
ghost use Rattle.vg_decide.specs.Deciding.{IsDecision, IsCause};

use crate::decision::{DecideStop, Decision};
use crate::simpler::simpler_facts;
use std::alloc::Global;
use vg_blast::{assignment, blast};
use vg_cnf::{Clauses, Refutation};
use vg_rup::{RupFault, check_refutation};
use vg_sat::{Answer, solve};
use vg_term::{TermId, Terms};

/// Decides whether some assignment makes every fact true. A fact is a term of width 1, and it is true where its value is 1.
///
/// Each fact is simplified once, under those before it; the simplified facts become clauses, of which the solver finds a model or a refutation, and the
/// refutation is checked. The search is given up after `limit` learned clauses. Terms are added on the way; those that stood stay.
///
/// `Terms` comes where no place is left for a term, `Clauses` where the simplified facts cost more literals than clauses may have, `Memory` where memory ran
/// out.
pub fn decide(
    alloc: Global,
    terms: &mut Terms,
    facts: &[TermId],
    limit: u32,
) -> Result<Decision, DecideStop>
    requires stand { All (Stands terms.old) facts.now }
    requires flags { All (λ fact. width_at terms.old fact ≡ 1) facts.now }
    ensures grown { Grown terms.old terms.new }
    ensures decided { IfOk result (IsDecision terms.new facts.now limit) }
    ensures cause { IfErr result (IsCause terms.new facts.now) }
{
    let simpler = simpler_facts(alloc, terms, facts)?;
    let blasted = blast(alloc, terms, &simpler)?;
    match solve(alloc, &blasted.clauses, limit)? {
        Answer::Model(values) => {
            let assign = assignment(alloc, terms, &blasted, &values)?;
            Ok(Decision::Possible(assign))
        }
        Answer::Refuted(steps) => {
            check(alloc, &blasted.clauses, &steps)?;
            Ok(Decision::Refuted(steps))
        }
        Answer::Spent(steps) => Ok(Decision::Spent(steps)),
    }
}

// Checks the solver's refutation. The solver answers good ones alone, so want of memory alone can stand in the way; that it is good is the checker's word.
fn check(alloc: Global, clauses: &Clauses, steps: &Refutation) -> Result<(), DecideStop>
    requires { IsRefutation clauses.now.clauses steps.now }
    ensures good { OnOk result (IsRefutation clauses.now.clauses steps.now) }
    ensures memory { IfErr result (λ e. e ≡ DecideStop.Memory) }
{
    match check_refutation(alloc, clauses, steps) {
        Ok(()) => Ok(()),
        Err(RupFault::Memory) => Err(DecideStop::Memory),
        Err(_) => unreachable!(),
    }
}
