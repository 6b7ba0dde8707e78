//! Configurations: what their texts give, checked against the specification.
#![tactic(auto)]

mod fault;
mod given;
mod lines;
mod named;
mod numbers;
mod pieces;
mod reading;
#[cfg(test)]
mod tests;

pub use fault::ConfFault;
pub use given::{CellLine, Given};
pub use lines::gathered;
pub use numbers::{address_in, number_in};
pub use reading::read_conf;
