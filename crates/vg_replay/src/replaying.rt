//! Replaying captures through a handler.
ghost use Rattle.std.specs.Prelude.{◌≡◌, ◌≤◌, ◌+◌, length, map, string_bytes};
ghost use Rattle.vg_replay.specs.Replays.{AreReplayFiles, ReplayFiles};
ghost use Rattle.vg_replay.specs.Handling.{ReplaysThrough};

use crate::handler::Handler;
use crate::stop::RunStop;
use crate::totals::Totals;
use crate::under_way::Replay;
use std::alloc::Global;
use vg_base::{Files, MAX_OPEN};

/// Replays the captures `ins` through a handler, and writes the captures `outs` and the log.
pub fn replay<H: Handler, F: Files>(
    alloc: Global,
    handler: H,
    files: &mut F,
    log: &str,
    ins: &[String],
    outs: &[String],
) -> Result<Totals, RunStop<H::Stop>>
    requires room { (F.disk files.old).open_count + length ins.now + length outs.now + 1 ≤ MAX_OPEN }
    requires names { AreReplayFiles (record { log = log.now; ins = map string_bytes ins.now; outs = map string_bytes outs.now }) }
    requires takes { H.takes handler ≡ record { ports = length ins.now; since = 0 } }
    ensures { ReplaysThrough H.handles H.stops_at (F.disk files.old) (F.disk files.new)
        (record { log = log.now; ins = map string_bytes ins.now; outs = map string_bytes outs.now }) handler result }
{
    let replay = Replay::start(alloc, handler, files, log, ins, outs)?;
    replay.run(files)
}
