//! Replaying captures through a handler of frames: one capture out for each port, and a log.
#![tactic(auto)]

mod handled;
mod handler;
mod lines;
mod outputs;
mod replaying;
mod stop;
#[cfg(test)]
mod tests;
mod totals;
mod under_way;

pub use handled::{FrameHead, Handed, MAX_HANDED, Outcome};
pub use handler::Handler;
pub use replaying::replay;
pub use stop::RunStop;
pub use totals::Totals;
pub use under_way::{Next, Replay};
