//! Why a capture is refused.
use thiserror::Error;

/// The part of a capture's header that is refused; of several the first in this order.
#[derive(Clone, Copy, Debug, PartialEq, Eq)]
pub enum HeaderField {
    /// The file has fewer than the header's 24 bytes.
    Length,
    /// The first four bytes are no magic of the format.
    Magic,
    /// The version isn't 2.4.
    Version,
    /// The link type isn't Ethernet's.
    Link,
}

/// Why a record is refused; of several reasons `Fraction` comes first, then `Long`.
#[derive(Clone, Copy, Debug, PartialEq, Eq)]
pub enum Damage {
    /// The file ends inside the record.
    Cut,
    /// The record says that more than `MAX_CAPTURED` bytes of it were captured.
    Long,
    /// The fraction of the record's time is a second or more.
    Fraction,
}

/// What of a capture is refused.
#[derive(Clone, Copy, Debug, PartialEq, Eq)]
pub enum CaptureRefusal {
    /// Its header.
    Header(HeaderField),
    /// The record of this number, counted from 1; a number that would pass `u64::MAX` stays there.
    Record { number: u64, why: Damage },
}

/// Why a capture couldn't be opened or read on.
#[derive(Clone, Copy, Debug, PartialEq, Eq, Error)]
pub enum CaptureFault {
    /// Its bytes are refused.
    #[error("the capture is refused")]
    Refused(CaptureRefusal),
    /// The file couldn't be opened or read.
    #[error("a file could not be read")]
    Read,
    /// Memory ran out.
    #[error("out of memory")]
    Memory,
}
