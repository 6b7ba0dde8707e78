//! The top call: what the words of a command line ask for, from the files that they name to the lines that are printed.
#![tactic(auto)]

mod agreement;
mod exit;
mod handler;
mod limits;
mod lines;
mod report;
mod setup;
mod stop;
mod top;

pub use exit::Exit;
pub use stop::{Stop, Unbuilt};
pub use top::{Status, refuse, run};

#[cfg(test)]
mod tests;
