//! Forms of text: what a construct has of tokens, one behind the other, what spells it, and what reads it. Over any tokens, any
//! constructs that are counted, and any tree.
#![tactic(auto)]

mod stops;
mod token;

pub use stops::{ReadFault, Stop};
pub use token::Token;
