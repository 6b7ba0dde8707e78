//! What becomes of a frame.

/// What a function does with a frame.
#[derive(Clone, Copy, Debug, PartialEq, Eq)]
pub enum Verdict {
    /// The frame is dropped.
    Drop,
    /// The frame goes out at this port.
    Send(u16),
    /// The frame goes out at every port but the one it came in at.
    Flood,
}
