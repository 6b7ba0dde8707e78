//! The containers as the library's tables: the parts that the library of functions is made of.
#![tactic(auto)]

mod agreement;
mod beginning;
mod chain;
mod expiry;
mod link;
mod object;
mod real;
mod routes;
mod telling;
#[cfg(test)]
mod tests;
mod vector;

pub use chain::RealChain;
pub use link::RealLink;
pub use real::{RealLib, SEED};
pub use routes::RealRoutes;
pub use vector::RealVector;
