// Bit blasting: facts on machine words as clauses on their bits.
#![tactic(auto)]

mod adding;
mod assigning;
mod bitwise;
mod blasting;
mod comparing;
mod disjuncts;
mod facts;
mod gate;
mod gates;
mod marking;
mod multiplying;
mod net;
mod operation;
mod shifting;
mod stops;
mod terms;
#[cfg(test)]
mod tests;
mod wiring;

pub use assigning::assignment;
pub use blasting::{Blasted, blast};
pub use stops::BlastStop;
pub use terms::MOST_LITERALS;
