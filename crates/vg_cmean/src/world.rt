//! What a run goes by, and what it works on.

use crate::datum::Datum;
use vg_cmemory::FrameMemory;
use vg_core::Unit;

/// What a run of a text goes by.
#[derive(Clone, Copy)]
pub struct Env<'a> {
    /// The typed text.
    pub unit: &'a Unit,
    /// For each node that another goes on from, as `a` in `a + b` and in `a.b`, the number of the other.
    pub above: &'a [u32],
}

/// What a run works on.
#[derive(Drop)]
pub struct World<'m, 'f, 'w> {
    /// The objects that live, the chunks that are lent, and the steps that were taken.
    pub memory: &'m mut FrameMemory,
    pub frame: &'f mut [u8],
    /// Room for the arguments of calls, which wait until all of a call are evaluated.
    pub waiting: &'w mut [Datum],
}
