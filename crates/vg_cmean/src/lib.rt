//! What a typed C text means when it runs on a frame, and a machine that does just that (C11 6.5, 6.8).
#![tactic(auto)]

mod calls;
mod chains;
mod datum;
mod fault;
mod machine;
mod nesting;
mod operators;
mod places;
mod run;
pub mod typings;
mod values;
mod world;

pub use machine::{Done, Machine, has_externs};
