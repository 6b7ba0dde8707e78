//! Laws of the rows, each as the contract of a function that does nothing.
ghost use Rattle.vg_crows.specs.Worked.{LoansAndChanges, RefusalsComeInOrder};

/// Loans and changes in worked frames, and what comes of calls behind them.
pub fn a_frame_of_calls()
    ensures { LoansAndChanges }
{}

/// The first thing that isn't met is the reason.
pub fn refusals_come_in_order()
    ensures { RefusalsComeInOrder }
{}
