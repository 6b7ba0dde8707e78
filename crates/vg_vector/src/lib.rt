//! Cells of bytes of one size in one block, with loans that can't be copied.
#![tactic(auto)]

mod cells;
#[cfg(test)]
mod tests;

pub use cells::{CellLoan, Cells};
