//! The library as tables: what its states are, what each call means, and the trait that every library meets.
#![tactic(auto)]

mod bytes;
mod evaluation;
mod fields;
mod keyed;
mod lawfulness;
mod laws;
mod library;
mod links;
mod numbered;
mod object;
mod routing;
mod start;
mod state;
mod tables;
#[cfg(test)]
mod tests;

pub use bytes::Bytes;
pub use evaluation::{Cell, Scope, operate, value};
pub use fields::field_value;
pub use keyed::Keyed;
pub use lawfulness::{cell_struct, lawful, rule_holds};
pub use laws::{
    an_opening_link_is_lawful, an_opening_state_is_lawful, only_what_goes_is_forgotten,
};
pub use library::Lib;
pub use numbered::Numbered;
pub use object::{LinkTable, Object, PrefixTable, VectorTable};
pub use routing::longest_match;
pub use start::{bytes_in, field_at, opening, with_field};
pub use state::LibState;
