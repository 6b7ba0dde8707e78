//! Why a term was not made.

ghost use Rattle.std.specs.Prelude.{◌≡◌};
ghost use Rattle.vg_term.specs.declared.stops.TermStop.TheVariants as stops;

use std::alloc::AllocError;
use thiserror::Error;

/// Why a term was not made. The terms are then as they were.
#[derive(Clone, Copy, Debug, PartialEq, Eq, Error)]
pub enum TermStop {
    /// `MOST_TERMS` terms stand, and a new one is needed.
    #[error("too many terms")]
    Full,
    /// Memory ran out.
    #[error("out of memory")]
    Memory,
}

impl From<AllocError> for TermStop {
    ghost from_gives = { λ _ e. e ≡ stops.Memory };

    fn from(_e: AllocError) -> TermStop {
        TermStop::Memory
    }
}
