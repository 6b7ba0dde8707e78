//! What can go wrong in a run of a C function.

/// What a run does that has no meaning in C, or that its specification or the library doesn't allow.
#[derive(Clone, Copy, Debug, PartialEq, Eq)]
pub enum Reason {
    /// A signed result that its type can't hold (C11 6.5, paragraph 5), a quotient of the least value by -1 among them.
    Overflow,
    /// A quotient or remainder by zero (C11 6.5.5).
    DivZero,
    /// A shift by a negative number or by the width or more, or a signed left shift of a negative value or out of its type (C11 6.5.7).
    Shift,
    /// A read of a byte or pointer that isn't set, or the end of a function that should have answered a value.
    Unset,
    /// An access outside an object.
    OutOfObject,
    /// An access to an object whose life has ended (C11 6.2.4).
    Dead,
    /// An access at an offset that isn't a multiple of its type's alignment (C11 6.3.2.3).
    Misaligned,
    /// A library call whose precondition doesn't hold, by the number of its row in the library's table.
    Before(u8),
    /// A chunk or cell that wasn't given back.
    LoanLeft,
    /// A value that is neither a port nor -1 nor -2.
    NoPort,
    /// Indices handed out that the specification refuses.
    Choices,
    /// Another verdict than the specification's.
    Verdict,
    /// Another frame than the specification's: the least offset at which they differ.
    Frame(u32),
    /// Another state than the specification's: the least object at which they differ.
    State(u16),
    /// A state that breaks a rule of the specification: the least such object.
    Unlawful(u16),
}
