//! What a name of a C text names (C11 6.2.1 to 6.2.3), told without an order of looking.
#![tactic(auto)]

mod laws;

pub use laws::names_are_one;
