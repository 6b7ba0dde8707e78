//! What every other crate may stand on: want of memory, and accesses that are counted in proofs alone.
#![tactic(auto)]

mod memory;
mod steps;

pub use memory::Memory;
pub use steps::{Slots, Steps};
