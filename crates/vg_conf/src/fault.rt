//! Why a configuration is refused.
ghost use Rattle.std.specs.Prelude.{◌≡◌};
ghost use Rattle.vg_conf.specs.declared.fault.ConfFault.TheVariants as faults;

use std::alloc::{AllocError, AllocFailed};
use thiserror::Error;
use vg_parts::Memory;

/// Why a configuration is refused. A name is told by the place at which it is declared in the specification's text.
#[derive(Clone, Copy, Debug, PartialEq, Eq, Error)]
pub enum ConfFault {
    /// A line, counted from 1, is of no form, has an unknown name or a number too large, names a cell that isn't there, or is the 65,537th route.
    #[error("a line of the configuration can't be read")]
    Line(u64),
    /// A declared number is given again.
    #[error("a number is given twice")]
    Twice(u32),
    /// A number or a route's value lies out of its range.
    #[error("a number is out of its range")]
    Range(u32),
    /// A declared number isn't given.
    #[error("a number is not given")]
    Absent(u32),
    /// A premise, counted from 1, doesn't hold.
    #[error("a premise does not hold")]
    Premise(u64),
    /// A rule, counted from 1, doesn't hold of a cell.
    #[error("a rule does not hold")]
    Rule(u64),
    /// Memory ran out.
    #[error("out of memory")]
    Memory,
}

impl From<Memory> for ConfFault {
    ghost from_gives = { λ _ e. e ≡ faults.Memory };

    fn from(_e: Memory) -> ConfFault {
        ConfFault::Memory
    }
}

impl From<AllocError> for ConfFault {
    ghost from_gives = { λ _ e. e ≡ faults.Memory };

    fn from(_e: AllocError) -> ConfFault {
        ConfFault::Memory
    }
}

impl<T: Drop> From<AllocFailed<T>> for ConfFault {
    ghost from_gives = { λ _ e. e ≡ faults.Memory };

    fn from(_e: AllocFailed<T>) -> ConfFault {
        ConfFault::Memory
    }
}
