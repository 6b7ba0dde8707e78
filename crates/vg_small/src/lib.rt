//! Functions of the port alone, in one small form of C and of the specification: what a text spells, what the function does and what it
//! costs. They stand in for C and for the specification language, and go when those are verified.
#![tactic(auto)]

mod bytes;
mod form;
mod numbers;
mod reading;
mod small;
mod words;

pub use reading::{read_small, sends_to_ports, takes_few_steps};
pub use small::{Lang, Small, SmallFault, Test, Tests};

#[cfg(test)]
mod tests;
