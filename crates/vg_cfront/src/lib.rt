//! From the text of a network function to its typed unit, in one call; and what is said of a text's places and names.
#![tactic(auto)]

mod fault;
mod front;
mod places;
#[cfg(test)]
mod tests;

pub use fault::{CFault, FaultKind};
pub use front::{name_bytes, read_c};
pub use places::{LineColumn, line_column};
