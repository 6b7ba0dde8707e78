// Unit propagation that watches two literals of each clause.
#![tactic(auto)]

mod codes;
mod lists;
mod propagation;
mod propagator;
mod trail;
mod watches;

pub use propagator::Propagator;
