//! The memory of a run of a C function as a list of objects (C11 6.2.4, 6.5.3.2).
#![tactic(auto)]

mod access;
mod bytes;
mod cells;
mod frame_calls;
mod laws;
mod loans;
mod local;
mod memory;
mod object;
mod runs;

pub use access::lies_in;
pub use bytes::put_in_frame;
pub use cells::{against_write_of, load_of, read_of};
pub use frame_calls::{FrameCall, call_in_row, row_of};
pub use laws::{
    cells_are_elsewhere, chunks_are_apart, gone_stays_gone, rows_are_named, writes_stay_inside,
};
pub use memory::FrameMemory;
pub use object::{Chunk, Object, Pointer, Room};

#[cfg(test)]
mod tests;
