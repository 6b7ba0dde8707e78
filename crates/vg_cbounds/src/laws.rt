//! Laws, as the contract of a function that does nothing.
ghost use Rattle.vg_cbounds.specs.Bounds.{NodesAreBounded, RunsAreBounded, LoopsAreBounded};

/// What typing counts is a bound, for well typed texts whose loops it could count: of the steps of each node from any state on, of the steps of a run on
/// any frame, and of the turns of each loop.
pub fn counts_are_bounds()
    ensures nodes { NodesAreBounded }
    ensures runs { RunsAreBounded }
    ensures loops { LoopsAreBounded }
{}
