// A value with its type.

use vg_core::Integer;

/// A value of an integer type, kept as its word.
#[derive(Clone, Copy, Debug, PartialEq, Eq)]
pub struct Value {
    /// Its type.
    pub of: Integer,
    /// Its word in two's complement, below 2 to the width. Of a greater number the low bits count.
    pub word: u64,
}
