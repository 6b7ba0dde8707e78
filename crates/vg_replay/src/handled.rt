//! A frame, and what is done with it.
use arrayvec::ArrayVec;
use vg_core::Verdict;

/// What a frame came in with besides its bytes.
#[derive(Clone, Copy)]
pub struct FrameHead {
    /// The port at which it came in.
    pub port: u16,
    /// When it came, in nanoseconds: the latest time of a record so far in its capture.
    pub time: u64,
    /// How long it was, in bytes, before it was cut to what was captured.
    pub original: u32,
}

/// An index that was handed out: the number of its chain among the objects of a specification, and the index.
#[derive(Clone, Copy, Debug, Default, PartialEq, Eq)]
pub struct Handed {
    pub chain: u32,
    pub index: u32,
}

/// At most this many indices are handed out for a frame.
pub const MAX_HANDED: usize = 64;

/// What was done with a frame, beside what was written into it.
#[derive(Clone, Debug, Drop, PartialEq, Eq)]
pub struct Outcome {
    pub verdict: Verdict,
    pub steps: u64,
    /// The indices that were handed out, in order.
    pub handed: ArrayVec<Handed, MAX_HANDED>,
}

/// A frame as it goes out, with what was done with it.
#[derive(Clone, Copy)]
pub struct HandledFrame<'a> {
    pub head: FrameHead,
    pub bytes: &'a [u8],
    pub outcome: &'a Outcome,
}
