//! Why a step is refused.
ghost use Rattle.std.specs.Prelude.{◌≡◌};
ghost use Rattle.vg_smean.specs.declared.stops.Stop.TheVariants as stops;
ghost use Rattle.vg_smean.specs.declared.stops.SpecStop.TheVariants as refusals;

use std::alloc::{AllocError, AllocFailed};
use thiserror::Error;
use vg_parts::Memory;

/// Why a step comes to no end.
#[derive(Clone, Copy, Debug, PartialEq, Eq)]
pub enum Stop {
    /// A choice is missing, or can't be handed out.
    Choice,
    /// Something is asked that the state doesn't tell.
    Untold,
    /// Memory ran out.
    Memory,
}

impl From<Memory> for Stop {
    ghost from_gives = { λ _ e. e ≡ stops.Memory };

    fn from(_e: Memory) -> Stop {
        Stop::Memory
    }
}

impl From<AllocError> for Stop {
    ghost from_gives = { λ _ e. e ≡ stops.Memory };

    fn from(_e: AllocError) -> Stop {
        Stop::Memory
    }
}

impl<T: Drop> From<AllocFailed<T>> for Stop {
    ghost from_gives = { λ _ e. e ≡ stops.Memory };

    fn from(_e: AllocFailed<T>) -> Stop {
        Stop::Memory
    }
}

/// Why a specification's step is refused.
#[derive(Clone, Copy, Debug, PartialEq, Eq, Error)]
pub enum SpecStop {
    /// A choice is missing, can't be handed out, or is left.
    #[error("the choices do not fit")]
    Choice,
    /// Memory ran out.
    #[error("out of memory")]
    Memory,
}

impl From<Memory> for SpecStop {
    ghost from_gives = { λ _ e. e ≡ refusals.Memory };

    fn from(_e: Memory) -> SpecStop {
        SpecStop::Memory
    }
}

impl From<AllocError> for SpecStop {
    ghost from_gives = { λ _ e. e ≡ refusals.Memory };

    fn from(_e: AllocError) -> SpecStop {
        SpecStop::Memory
    }
}
