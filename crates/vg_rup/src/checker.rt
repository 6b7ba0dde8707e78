// Refutations of clauses, checked list by list.

ghost use Rattle.std.specs.Prelude.{◌≡◌, OnOk, IfErr};
ghost use Rattle.vg_cnf.specs.Refutations.{IsRefutation, ends_empty as has_empty_end};
ghost use Rattle.vg_rup.specs.Fault.{IsFault};
ghost use Rattle.vg_rup.specs.declared.checker.RupFault.TheVariants.{Memory};

use crate::known::Known;
use std::alloc::{AllocError, Global};
use thiserror::Error;
use vg_cnf::{Clauses, LiteralLists, Refutation};

/// Why a refutation was not accepted.
#[derive(Clone, Copy, Debug, PartialEq, Eq, Error)]
pub enum RupFault {
    /// The step with this number, counted from 1, is the first that doesn't follow by unit propagation from the clauses and the steps before it.
    #[error("step {0} does not follow by unit propagation")]
    NotUnit(usize),
    /// Each step follows, and the last is not the empty clause, or there is no step.
    #[error("the last step is not the empty clause")]
    NoEmpty,
    /// Memory was refused, which says nothing of the refutation.
    #[error("out of memory")]
    Memory,
}

impl From<AllocError> for RupFault {
    ghost from_gives = { λ _ e. e ≡ Memory };

    fn from(_e: AllocError) -> RupFault {
        RupFault::Memory
    }
}

/// Checks that a refutation is good: each step follows by unit propagation from the clauses and the steps before it ("reverse unit propagation", the steps of
/// DRAT proofs that only add clauses), and the last is the empty clause. A list that holds a literal along with its negation is no clause, and follows from
/// nothing. Steps may name variables beyond those of the clauses: nothing is reserved by a literal's number.
pub fn check_refutation(
    alloc: Global,
    clauses: &Clauses,
    proof: &Refutation,
) -> Result<(), RupFault>
    ensures good { OnOk result (IsRefutation clauses.now.clauses proof.now) }
    ensures fault { IfErr result (IsFault clauses.now.clauses proof.now) }
{
    let mut known = Known::new(alloc, clauses)?;
    for at in 0..proof.len() {
        let step = proof.get(at);
        if !known.follows(alloc, step)? {
            return Err(RupFault::NotUnit(at + 1));
        }
        known.push(step)?;
    }
    if ends_empty(proof) {
        Ok(())
    } else {
        Err(RupFault::NoEmpty)
    }
}

/// Whether there is a last list and it is empty.
fn ends_empty(lists: &LiteralLists) -> bool
    ensures { result ≡ has_empty_end lists.now }
{
    !lists.is_empty() && lists.get(lists.len() - 1).is_empty()
}
