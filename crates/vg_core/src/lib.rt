//! What the crates that read, type and run C texts share: the tree of a text, the types of C, and what can go wrong in a run.
#![tactic(auto)]

mod library;
mod reason;
mod tree;
mod types;
mod unit;
mod verdict;

pub use library::{Row, library_answer, library_row, library_rows, library_takes};
pub use reason::Reason;
pub use tree::{Base, BinaryOp, HandleKind, IntType, Kind, Name, Node, Parts, Tree, UnaryOp};
pub use types::{CType, Integer, Layout, Target};
pub use unit::{Note, Referent, Unit, erase, layout_of, offset_of, target_layout};
pub use verdict::Verdict;

#[cfg(test)]
mod unit_tests;
