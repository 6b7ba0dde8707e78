//! What is decided of facts, and why nothing is.
ghost use Rattle.std.specs.Prelude.{◌≡◌};
ghost use Rattle.vg_decide.specs.declared.decision.DecideStop.TheVariants as stops;
ghost use Rattle.vg_decide.specs.Deciding.{term_stop, blast_stop};

use std::alloc::{AllocError, AllocFailed};
use thiserror::Error;
use vg_blast::BlastStop;
use vg_cnf::Refutation;
use vg_parts::Memory;
use vg_term::{Assign, TermStop};

/// What was decided of facts.
#[derive(Drop)]
pub enum Decision {
    /// An assignment that makes every fact true.
    Possible(Assign),
    /// No assignment makes every fact true. The facts' clauses have this refutation, which was checked.
    Refuted(Refutation),
    /// The search was given up. As many clauses were learned as was allowed: these, each of them new.
    Spent(Refutation),
}

/// Why facts weren't decided.
#[derive(Clone, Copy, Debug, PartialEq, Eq, Error)]
pub enum DecideStop {
    /// No place is left for a term that is needed to simplify a fact.
    #[error("too many terms")]
    Terms,
    /// The simplified facts need more literals than clauses may have (`MOST_LITERALS` of `vg_blast`).
    #[error("too many literals")]
    Clauses,
    /// Memory ran out.
    #[error("out of memory")]
    Memory,
}

impl From<AllocError> for DecideStop {
    ghost from_gives = { λ _ e. e ≡ stops.Memory };

    fn from(_e: AllocError) -> DecideStop {
        DecideStop::Memory
    }
}

impl<T: Drop> From<AllocFailed<T>> for DecideStop {
    ghost from_gives = { λ _ e. e ≡ stops.Memory };

    fn from(_e: AllocFailed<T>) -> DecideStop {
        DecideStop::Memory
    }
}

impl From<Memory> for DecideStop {
    ghost from_gives = { λ _ e. e ≡ stops.Memory };

    fn from(_e: Memory) -> DecideStop {
        DecideStop::Memory
    }
}

impl From<TermStop> for DecideStop {
    ghost from_gives = { λ stop e. e ≡ term_stop stop };

    fn from(e: TermStop) -> DecideStop {
        match e {
            TermStop::Full => DecideStop::Terms,
            TermStop::Memory => DecideStop::Memory,
        }
    }
}

impl From<BlastStop> for DecideStop {
    ghost from_gives = { λ stop e. e ≡ blast_stop stop };

    fn from(e: BlastStop) -> DecideStop {
        match e {
            BlastStop::Clauses => DecideStop::Clauses,
            BlastStop::Memory => DecideStop::Memory,
        }
    }
}
