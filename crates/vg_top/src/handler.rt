//! Frames put through a small function.
ghost use Rattle.vg_small.specs.Meaning.{SendsBelow};
ghost use Rattle.vg_top.specs.Frames.{AlwaysTakesFewSteps};

use arrayvec::ArrayVec;
use std::convert::Infallible;
use vg_replay::{FrameHead, Handler, Outcome};
use vg_small::Small;

/// A small function that takes few steps and sends to none but so many ports, as what frames are put through. It never changes, and never stops.
#[derive(Drop)]
pub struct SmallHandler {
    pub function: Small,
    pub ports: u16,
    pub ghost few: { AlwaysTakesFewSteps function },
    pub ghost below: { SendsBelow ports function },
}

impl Handler for SmallHandler {
    ghost use Rattle.vg_top.specs.Frames.{Handles};

    type Stop = Infallible;

    ghost takes = { λ handler. record { ports = handler.ports; since = 0 } };

    ghost handles = { λ old h new. Handles old.function h new.function };

    ghost stops_at = { λ handler a reason. ⊥ };

    #[tactic(auto, using(crate::proofs::Handled::verdict_below))]
    fn handle(&mut self, head: FrameHead, _frame: &mut [u8]) -> Result<Outcome, Infallible> {
        Ok(Outcome {
            verdict: self.function.verdict(head.port),
            steps: self.function.steps(head.port),
            handed: ArrayVec::new(),
        })
    }
}
