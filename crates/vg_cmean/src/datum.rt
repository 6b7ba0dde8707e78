//! What expressions give.

use vg_cint::Value;
use vg_cmemory::{Pointer, Room};
use vg_core::CType;

/// An lvalue that is made of bytes (C11 6.3.2.1).
#[derive(Clone, Copy, Debug, PartialEq, Eq)]
pub struct Lvalue {
    pub pointer: Pointer,
    /// Its type.
    pub of: CType,
    /// Whether it is in a packed struct, where it may stand at any offset.
    pub loose: bool,
    /// The innermost array that its path names, of which it is an element or a part of one.
    pub room: Option<Room>,
    /// Whether it is the element just past the last one of that array.
    pub past: bool,
    /// Where it is named in the text.
    pub at: u32,
}

/// What an expression gives.
#[derive(Clone, Copy, Debug, Default, PartialEq, Eq)]
pub enum Datum {
    /// Nothing, as a call of a `void` function.
    #[default]
    Nothing,
    /// An integer.
    Word(Value),
    /// A pointer that is set.
    Address(Pointer),
    /// An lvalue that is made of bytes.
    Lvalue(Lvalue),
    /// A pointer variable as an lvalue, with the number of the node that declares it, and where it is named in the text.
    PointerVariable { node: u32, at: u32 },
}
