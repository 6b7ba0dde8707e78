//! What comes of a call.

use vg_cmemory::Pointer;
use vg_core::Reason;

/// What a call answers.
#[derive(Clone, Copy, Debug, PartialEq, Eq)]
pub enum Answer {
    /// A `void` call has nothing to answer.
    Nothing,
    /// The word of an integer, whose type the call's signature gives.
    Word(u64),
    /// A pointer to what was lent.
    Address(Pointer),
}

/// Why a call came to no end.
#[derive(Clone, Copy, Debug, PartialEq, Eq)]
pub enum Stop {
    /// The call has no meaning.
    Wrong(Reason),
    /// A partial library was asked what it doesn't tell.
    Untold,
}
