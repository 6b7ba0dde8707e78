//! How much is read.

/// The most bytes that a C text or a specification may have.
pub const MAX_TEXT: u64 = 1_048_576;
