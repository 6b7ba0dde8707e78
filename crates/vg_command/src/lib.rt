//! The command line: which words spell which command.
#![tactic(auto)]

mod command;
mod forms;
mod names;
mod numbers;
mod shipped;

pub use command::{Command, FileNames, command_in};
pub use names::MOST_PORTS;

#[cfg(test)]
mod tests;
