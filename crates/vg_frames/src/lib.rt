//! Made frames: a sequence of numbers, and of each number the UDP frame of a flow. They stand in for a capture where none is given.
#![tactic(auto)]

mod frames;
mod laws;
#[cfg(test)]
mod tests;

pub use frames::{FRAME_BYTES, checksum, flow_of, frame_bytes, next_number, time_of};
pub use laws::frames_are_as_worked;
