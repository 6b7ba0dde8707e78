//! The integers of a run are words of their types.
#![tactic(auto)]

mod laws;

pub use laws::values_fit;
