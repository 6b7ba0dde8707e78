//! Captures: files of frames with their times.
//!
//! The format is pcap, version 2.4, as libpcap's manual page pcap-savefile(5) has it, for link type Ethernet.
#![tactic(auto)]

mod buffered;
mod captures;
mod encoding;
mod faults;
mod format;
mod headers;
mod merge;
mod reader;
mod reading;
mod records;
#[cfg(test)]
mod tests;
mod writer;

pub use captures::{stream_or_bad, written_is_read};
pub use faults::{CaptureFault, CaptureRefusal, Damage, HeaderField};
pub use format::MAX_CAPTURED;
pub use merge::{Merge, MergeFault};
pub use reader::CaptureReader;
pub use writer::CaptureWriter;
