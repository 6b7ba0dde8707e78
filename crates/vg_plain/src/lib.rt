//! The library as lists: the plainest that meets the library's rows. It serves tests and proofs.
#![tactic(auto)]

mod agreement;
mod beginning;
mod expiry;
mod link;
mod object;
mod plain;
mod slots;
mod telling;
mod vector;
mod writing;

pub use plain::PlainLib;
