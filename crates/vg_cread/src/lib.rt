//! The trees of C texts, read from their tokens.
#![tactic(auto)]

mod expressions;
mod items;
mod kinds;
mod reader;
mod reading;
#[cfg(test)]
mod shown;
mod statements;
mod types;

pub use reading::{MOST_NESTED, ReadFault, one_tree, read_unit, tree_in_order};

#[cfg(test)]
mod tests;
