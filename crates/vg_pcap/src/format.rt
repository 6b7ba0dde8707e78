//! The numbers of the file format, by libpcap's manual page pcap-savefile(5), version 2.4.
//!
//! A header is the magic, in 4 bytes, the major and the minor version, in 2 each, zone, accuracy and snap length, in 4 each,
//! and the link type, in 4. A record begins with seconds, fraction, captured and original length, in 4 bytes each.

pub(crate) const HEADER_SIZE: usize = 24;

pub(crate) const RECORD_HEAD_SIZE: usize = 16;

// The magic tells the unit of times, and by its order of bytes that of all numbers.
pub(crate) const MICROSECOND_MAGIC: u32 = 0xa1b2_c3d4;

pub(crate) const NANOSECOND_MAGIC: u32 = 0xa1b2_3c4d;

pub(crate) const MAJOR_VERSION: u16 = 2;

pub(crate) const MINOR_VERSION: u16 = 4;

pub(crate) const ETHERNET: u32 = 1;

pub(crate) const MICROSECONDS_PER_SECOND: u32 = 1_000_000;

pub(crate) const NANOSECONDS_PER_MICROSECOND: u64 = 1000;

pub(crate) const NANOSECONDS_PER_SECOND: u64 = 1_000_000_000;

/// A capture keeps at most this many bytes of a packet.
pub const MAX_CAPTURED: usize = 262_144;

// So many bytes of a file are read ahead at once.
pub(crate) const BUFFER_SIZE: usize = 65_536;

// So many bytes of a record, with the numbers before it, go out at once.
pub(crate) const FIRST_SIZE: usize = 2048;
