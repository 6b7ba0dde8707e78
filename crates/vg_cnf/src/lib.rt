// Clauses over Boolean variables, their models, unit propagation and refutations.
#![tactic(auto)]

mod clauses;
mod lists;
mod literal;
#[cfg(test)]
mod tests;
mod values;

pub use clauses::Clauses;
pub use lists::{LiteralLists, Refutation};
pub use literal::{Lit, is_clause};
pub use values::Values;
