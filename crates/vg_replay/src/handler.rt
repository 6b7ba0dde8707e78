//! What a replay puts its frames through.
ghost use Rattle.std.specs.Prelude.{◌≡◌, ◌<◌, ◌≤◌, ◌^◌, length, IfOk, IfErr, OnOk};
ghost use Rattle.vg_pcap.specs.Captures.{longest};
ghost use Rattle.vg_pcap.specs.Arrivals.{Arrival};
ghost use Rattle.vg_replay.specs.Outputs.{Handled, SendsBelow};
ghost use Rattle.vg_replay.specs.Handler.{Takes};
ghost use Rattle.vg_replay.specs.View.{arrival_of, handled_as};

use crate::handled::{FrameHead, Outcome};

/// What a replay puts its frames through, one after another. It may change with each.
pub trait Handler: Drop {
    /// Why it stops.
    type Stop: Drop;

    /// What frames it takes in this state.
    ghost takes: { Self → Takes };

    /// In the first state a frame is handled so, and that leads to the second state.
    ghost handles: { Self → Handled → Self → Type 0 };

    /// In this state it stops at a frame for this reason.
    ghost stops_at: { Self → Arrival → Self.Stop → Type 0 };

    /// Handles a frame, whose bytes it may change in place, or stops at it: then the replay ends, and the frame is neither written nor told in the log. A
    /// frame has at most 262,144 bytes, and its time isn't below that of the frame before it. It takes at most 2^31 steps, so that those of all frames can be
    /// counted, and is sent to no port but those of the replay.
    fn handle(&mut self, head: FrameHead, frame: &mut [u8]) -> Result<Outcome, Self::Stop>
        requires short { length frame.old ≤ longest }
        requires port { head.port < (takes self.old).ports }
        requires time { (takes self.old).since ≤ head.time }
        ensures handled { IfOk result (λ o. handles self.old (handled_as head frame.old frame.new o) self.new) }
        ensures few { IfOk result (λ o. o.steps ≤ 2 ^ 31) }
        ensures sends { IfOk result (λ o. SendsBelow (takes self.old).ports o.verdict) }
        ensures ports { OnOk result ((takes self.new).ports ≡ (takes self.old).ports) }
        ensures since { OnOk result ((takes self.new).since ≤ head.time) }
        ensures stops { IfErr result (stops_at self.old (arrival_of head frame.old)) };
}
