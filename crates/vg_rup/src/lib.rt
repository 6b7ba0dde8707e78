// A checker of refutations: it takes no list on trust.
#![tactic(auto)]

mod assignment;
mod checker;
mod known;
mod propagation;
#[cfg(test)]
mod tests;

pub use checker::{RupFault, check_refutation};
