//! Ranges of numbers.

ghost use Rattle.std.specs.Prelude.{◌≤◌};

/// The numbers from `low` to `high`.
#[derive(Clone, Copy, PartialEq, Eq, Debug)]
pub(crate) struct Range {
    pub(crate) low: u64,
    pub(crate) high: u64,
    pub ghost ordered: { low ≤ high },
}
