//! Why a question isn't decided.

use std::alloc::{AllocError, AllocFailed};
use thiserror::Error;
use vg_decide::DecideStop;
use vg_parts::Memory;
use vg_term::TermStop;

/// Why a question isn't decided.
#[derive(Clone, Copy, Debug, PartialEq, Eq, Error)]
pub enum Stop {
    /// A word is neither an operation, nor a number, nor a name.
    #[error("a word is none")]
    Word,
    /// An operation has too few operands, or operands of widths that it doesn't take, or a fact is followed by more.
    #[error("operands")]
    Operands,
    /// A fact isn't of one bit.
    #[error("no fact")]
    Fact,
    /// There are too many terms or clauses.
    #[error("limit")]
    Limit,
    /// Memory ran out.
    #[error("no memory")]
    Memory,
}

impl From<AllocError> for Stop {
    fn from(_e: AllocError) -> Stop {
        Stop::Memory
    }
}

impl<T: Drop> From<AllocFailed<T>> for Stop {
    fn from(_e: AllocFailed<T>) -> Stop {
        Stop::Memory
    }
}

impl From<Memory> for Stop {
    fn from(_e: Memory) -> Stop {
        Stop::Memory
    }
}

impl From<TermStop> for Stop {
    fn from(e: TermStop) -> Stop {
        match e {
            TermStop::Full => Stop::Limit,
            TermStop::Memory => Stop::Memory,
        }
    }
}

impl From<DecideStop> for Stop {
    fn from(e: DecideStop) -> Stop {
        match e {
            DecideStop::Memory => Stop::Memory,
            _ => Stop::Limit,
        }
    }
}
