//! Whether a C text and a specification fit, and what an extern of the text is in the specification.
#![tactic(auto)]

mod binding;
mod externs;
mod fitting;
mod misfit;
mod structs;
#[cfg(test)]
mod tests;

pub use binding::{Binding, bound_to};
pub use fitting::fit;
pub use misfit::{Misfit, Place};
