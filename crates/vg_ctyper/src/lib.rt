//! Typing of C texts: the type of each expression, what each name stands for, sizes and places, and the first fault (C11 6.2 to 6.9, for the profile).
#![tactic(auto)]

mod declaration_rules;
mod demands;
mod expression_rules;
mod fault;
mod fields;
mod given;
mod kinds;
mod notes;
mod rules;
mod statement_rules;
mod typed;
mod typing;

pub use fault::{Rule, TypeFault};
pub use typing::{notes_are_one, type_unit, types_are_small};

#[cfg(test)]
mod tests;
