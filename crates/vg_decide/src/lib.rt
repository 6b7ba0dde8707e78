//! Facts on machine words, decided: an assignment that makes them all true, or a refutation of them that was checked.
//!
//! This is where terms, clauses, the solver and the checker meet. Nothing that simplifies, blasts or searches is trusted: that facts are
//! refuted is a clause of `decide`.
#![tactic(auto)]

mod deciding;
mod decision;
mod simpler;
#[cfg(test)]
mod tests;

pub use deciding::decide;
pub use decision::{DecideStop, Decision};
