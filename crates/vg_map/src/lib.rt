//! A hash table of fixed capacity, from keys of one length to indices, that takes no memory once it is made.
#![tactic(auto)]

mod fixed;
mod hash;
mod slots;

pub use fixed::HashMapFixed;
