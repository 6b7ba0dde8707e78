// A solver of clauses that answers a model, a refutation, or the clauses that it learned before it gave up.
#![tactic(auto)]

mod answer;
mod halving;
mod learning;
mod order;
mod restarts;
mod solver;
#[cfg(test)]
mod tests;
mod tracing;
mod walking;

pub use answer::Answer;
pub use solver::solve;
