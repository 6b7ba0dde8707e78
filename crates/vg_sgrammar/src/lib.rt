//! The grammar of specifications, and reading a text as it is written.
#![tactic(auto)]

mod declarations;
mod expressions;
mod kinds;
mod reader;
mod reading;
mod statements;
mod tree;

pub use reading::{MOST_NESTED, WrittenSpec, read_written};
pub use tree::{Block, Declaration, Expression, Field, Name, Placed, Size, Statement, Tree};

#[cfg(test)]
mod functions;
#[cfg(test)]
mod tests;
