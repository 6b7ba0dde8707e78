//! The types of a specification and of its configuration.
//!
//! A specification is what it declares (its shape), the names of that, and its expressions and statements, each told by its number in a
//! list in which parts stand before what they are parts of.
#![tactic(auto)]

mod code;
mod config;
mod depths;
mod laws;
mod names;
mod shape;
mod spec;
#[cfg(test)]
mod tests;

pub use code::{Code, FrameWord, Operation, Operator, Parts, SExpr, SStmt, part_of};
pub use config::{Config, Fill, Route};
pub use laws::each_address_has_one_match;
pub use names::Names;
pub use shape::{Field, FieldType, Number, Object, ObjectKind, Rule, Shape, Size, Struct, Width};
pub use spec::{Spec, is_declared, name_at, object_name};
