//! What typing counts of the steps and turns of a text bounds its runs.
#![tactic(auto)]

mod counting;
mod laws;

pub use counting::loops_are_counted;
pub use laws::counts_are_bounds;
