//! What a run reports when it is done.

use vg_replay::Totals;

/// A function that meets its specification, and what its replay counted.
#[derive(Clone, Copy, Debug, PartialEq, Eq)]
pub struct Report {
    /// How many ways frames take through the tests of both texts.
    pub paths: u32,
    /// The most steps that a frame takes.
    pub steps: u64,
    pub totals: Totals,
}
