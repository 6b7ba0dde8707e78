//! The tokens of C texts: names, keywords, signs and numbers, between blanks, comments and directives.
#![tactic(auto)]

mod bytes;
mod comments;
mod cutting;
mod directives;
mod kinds;
mod numbers;
mod pieces;
mod tables;

pub use cutting::tokens;
pub use kinds::{Keyword, Number, NumberType, Sign, TokFault, Token, TokenKind};

#[cfg(test)]
mod tests;
