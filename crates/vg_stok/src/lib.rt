//! The tokens of specification texts: names, words, signs and numbers, between blanks and comments.
#![tactic(auto)]

mod bytes;
mod comments;
mod cutting;
mod kinds;
mod numbers;
mod pieces;
mod tables;

pub use cutting::tokens;
pub use kinds::{Sign, TokenKind, Word};

#[cfg(test)]
mod tests;
