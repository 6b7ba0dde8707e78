//! Files and a sink in memory, for tests: they tell all that they hold and all that was made, and fail as planned.
#![tactic(auto)]

mod calls;
mod making;
mod memory;
mod memory_sink;
mod named;
mod pages;
mod reading;
#[cfg(test)]
mod tests;

pub use memory::MemFiles;
pub use memory_sink::MemSink;
