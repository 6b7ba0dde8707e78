//! Why a run ends without counts.
ghost use Rattle.std.specs.Prelude.{◌≡◌};
ghost use Rattle.vg_bench.specs.Statuses.{status_of};

use std::alloc::AllocError;
use thiserror::Error;
use vg_parts::Memory;

/// Why a run ends without counts. What is shown of it is the line that is printed.
#[derive(Clone, Copy, Debug, PartialEq, Eq, Error)]
pub enum Stop {
    /// The command line is that of no run.
    #[error("usage: vg_bench containers lookups|mix COUNT, read FILE, type FILE, run FILE CAPTURE, solve FILE LIMIT [PROOF], check FILE PROOF")]
    Usage,
    /// Memory ran out.
    #[error("no memory")]
    Memory,
    /// A file couldn't be read.
    #[error("read fault")]
    Read,
    /// The file is longer than a C text may be.
    #[error("limit c")]
    Long,
    /// The C text is refused, or names something of a library.
    #[error("text")]
    Text,
    /// The capture is refused.
    #[error("capture")]
    Capture,
    /// Printing failed.
    #[error("write fault")]
    Print,
    /// A file couldn't be written.
    #[error("write fault")]
    Write,
    /// The file of the clauses is malformed in this line, counted from 1.
    #[error("clauses line {0}")]
    Clauses(usize),
    /// The file of the proof is malformed in this line, counted from 1.
    #[error("proof line {0}")]
    Proof(usize),
}

impl Stop {
    /// The exit status.
    pub fn status(self) -> u8
        ensures { result ≡ status_of self }
    {
        match self {
            Stop::Usage => 2,
            Stop::Memory => 8,
            Stop::Print | Stop::Write => 7,
            Stop::Read => 6,
            Stop::Long => 11,
            Stop::Clauses(_) | Stop::Proof(_) | Stop::Text => 3,
            Stop::Capture => 5,
        }
    }
}

impl From<Memory> for Stop {
    fn from(_: Memory) -> Stop {
        Stop::Memory
    }
}

impl From<AllocError> for Stop {
    fn from(_: AllocError) -> Stop {
        Stop::Memory
    }
}
