//! Why a call on files could not be done.
use thiserror::Error;

/// A file or a sink has failed.
#[derive(Clone, Copy, Debug, PartialEq, Eq, Error)]
#[error("a file or a sink failed")]
pub struct Failed;

/// Why a file was not loaded.
#[derive(Clone, Copy, Debug, PartialEq, Eq, Error)]
pub enum LoadFault {
    /// The file could not be opened or read.
    #[error("a file could not be read")]
    Read,
    /// The file has more bytes than the limit.
    #[error("a file is too long")]
    TooLong,
    /// Memory ran out.
    #[error("out of memory")]
    Memory,
}
