//! Indices that are handed out, linked by age, and taken back.
#![tactic(auto)]

mod chain;
mod ring;
mod spare;
#[cfg(test)]
mod tests;

pub use chain::Chain;
