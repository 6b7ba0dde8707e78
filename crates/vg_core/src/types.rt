//! The types of C that the subset has.

use crate::tree::HandleKind;

/// An integer type: its width in bits, which is 8, 16, 32 or 64, and whether it is signed (C11 6.2.5). `int` and `int32_t` are one type.
#[derive(Clone, Copy, Debug, PartialEq, Eq)]
pub struct Integer {
    pub bits: u8,
    pub signed: bool,
}

/// What a pointer points to, or an array is of.
#[derive(Clone, Copy, Debug, PartialEq, Eq)]
pub enum Target {
    Void,
    Int { bits: u8, signed: bool },
    /// A struct, by the number of the node that declares it.
    Struct(u32),
}

/// The type of an expression, a variable, a parameter or a field.
#[derive(Clone, Copy, Debug, PartialEq, Eq)]
pub enum CType {
    Void,
    Int { bits: u8, signed: bool },
    Pointer(Target),
    /// An array of so many elements.
    Array(Target, u32),
    /// A struct, by the number of the node that declares it.
    Struct(u32),
    /// An object of the library.
    Handle(HandleKind),
}

/// How many bytes a value takes, and of what its offset in an object is a multiple (C11 6.2.8).
#[derive(Clone, Copy, Debug, PartialEq, Eq)]
pub struct Layout {
    pub size: u32,
    pub align: u32,
}
