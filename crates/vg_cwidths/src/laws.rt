//! Laws, as the contract of a function that does nothing.
ghost use Rattle.vg_cwidths.specs.Widths.{NodesFit, RunsFit};

/// Each integer that a node gives, and that a run returns, is a word of its type.
pub fn values_fit()
    ensures nodes { NodesFit }
    ensures runs { RunsFit }
{}
