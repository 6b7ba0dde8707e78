//! The integer arithmetic of C: conversions, operators and the types of their results, after C11 6.2.5, 6.3.1 and 6.5.
//!
//! A value is kept as its word: a number below 2 to the width of its type, in two's complement. Of a greater number the low bits count.
#![tactic(auto)]

mod arithmetic;
mod bitwise;
mod comparing;
mod expressions;
mod shifts;
mod theorems;
mod types;
mod value;
mod words;

pub use arithmetic::{add, divide, multiply, negated, remainder, subtract};
pub use bitwise::{and, complement, or, xor};
pub use comparing::{equal, less, less_equal};
pub use expressions::{binary, unary};
pub use shifts::{shift_left, shift_right};
pub use theorems::{nothing_against, operators_are_formulas};
pub use types::{INT, common, integer_of, promoted, type_of_binary, type_of_unary, width};
pub use value::Value;
pub use words::{can_hold, converted, reading, truth};

#[cfg(test)]
mod tests;
