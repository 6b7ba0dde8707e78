// Why facts were not blasted.

ghost use Rattle.std.specs.Prelude.{◌≡◌};
ghost use Rattle.vg_blast.specs.declared.stops.BlastStop.TheVariants.{Memory};

use std::alloc::AllocError;
use thiserror::Error;

/// Why facts were not blasted.
#[derive(Clone, Copy, Debug, PartialEq, Eq, Error)]
pub enum BlastStop {
    /// More than `MOST_LITERALS` literals are needed.
    #[error("too many literals")]
    Clauses,
    /// Memory ran out.
    #[error("out of memory")]
    Memory,
}

impl From<AllocError> for BlastStop {
    ghost from_gives = { λ _ e. e ≡ Memory };

    fn from(_e: AllocError) -> BlastStop {
        BlastStop::Memory
    }
}
