//! Counts of what was done with frames.
ghost use Rattle.std.specs.Prelude.{◌≡◌, ◌+◌, ◌<◌, ◌≤◌, ◌^◌};

use crate::handled::Outcome;
use vg_core::Verdict;

/// How many frames there were, how many of them were sent, dropped and flooded, and how many steps they took together.
#[derive(Clone, Copy, Debug, Default, PartialEq, Eq)]
pub struct Totals {
    pub frames: u32,
    pub sent: u32,
    pub dropped: u32,
    pub flooded: u32,
    pub steps: u64,
}

impl Totals {
    ghost use Rattle.vg_replay.specs.Counts.{counted, AreFew};

    // One frame more, with which this was done.
    pub(crate) fn counted(self, outcome: &Outcome) -> Totals
        requires { AreFew self outcome.now.steps }
        ensures { result ≡ counted self outcome.now.verdict outcome.now.steps }
    {
        let mut totals = self;
        totals.frames += 1;
        totals.steps += outcome.steps;
        match outcome.verdict {
            Verdict::Drop => totals.dropped += 1,
            Verdict::Send(_) => totals.sent += 1,
            Verdict::Flood => totals.flooded += 1,
        }
        totals
    }
}
