//! Prefix tables: which route is the one for an IPv4 address, in at most three reads.
//!
//! The table has three levels, for 16, 8 and 8 bits of the address, as in Gupta, Lin and McKeown, "Routing Lookups in Hardware
//! at Memory Access Speeds" (INFOCOM 1998), with one level more.
#![tactic(auto)]

mod building;
mod entry;
mod inserting;
mod levels;
mod prefix;
#[cfg(test)]
mod tests;

pub use prefix::Prefix;
