//! Where a reader stops, and what a whole text is refused for.
ghost use Rattle.std.specs.Prelude.{◌≡◌};
ghost use Rattle.vg_forms.specs.declared.stops.Stop.TheVariants as stops;

use std::alloc::{AllocError, AllocFailed};
use thiserror::Error;
use vg_parts::Memory;

/// Why reading stops. The reader then stands at the token that is meant.
#[derive(Clone, Copy, Debug, PartialEq, Eq)]
pub enum Stop {
    /// The next token fits nothing that may stand there.
    Wrong,
    /// The next token opens one nesting too many.
    Deep,
    /// Memory ran out.
    Memory,
}

impl From<AllocError> for Stop {
    ghost from_gives = { λ _ e. e ≡ stops.Memory };

    fn from(_e: AllocError) -> Stop {
        Stop::Memory
    }
}

impl<T: Drop> From<AllocFailed<T>> for Stop {
    ghost from_gives = { λ _ e. e ≡ stops.Memory };

    fn from(_e: AllocFailed<T>) -> Stop {
        Stop::Memory
    }
}

impl From<Memory> for Stop {
    ghost from_gives = { λ _ e. e ≡ stops.Memory };

    fn from(_e: Memory) -> Stop {
        Stop::Memory
    }
}

/// Why tokens were not read as a tree. Places are in bytes from the text's start.
#[derive(Clone, Copy, Debug, PartialEq, Eq, Error)]
pub enum ReadFault {
    /// The first token with which no text of the grammar goes on, or the end of the last one.
    #[error("syntax at {0}")]
    Syntax(u32),
    /// The token that opens one nesting too many.
    #[error("too deep at {0}")]
    Deep(u32),
    /// Memory ran out.
    #[error("out of memory")]
    Memory,
}
