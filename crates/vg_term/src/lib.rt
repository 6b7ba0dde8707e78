// Terms over machine words: a shared store of operations and variables, their values, and constructors that fold.
#![tactic(auto)]

mod applying;
mod comparing;
mod cutting;
mod equal;
mod folding;
mod known;
mod node;
mod rules;
mod stops;
mod terms;
#[cfg(test)]
mod tests;
mod valuing;
mod wire;
mod wiring;

pub use applying::apply;
pub use node::{Node, Op, Parts, TermId};
pub use stops::TermStop;
pub use terms::{MOST_TERMS, Terms};
pub use valuing::{Assign, value};
