//! A replay that is under way.
ghost use Rattle.std.specs.Prelude.{◌≡◌, ◌<◌, ◌≤◌, ◌+◌, ◌^◌, List, length, map, string_bytes, true, IfOk, IfErr, OnOk};
ghost use Rattle.vg_base.specs.Files.{Disk, Writes};
ghost use Rattle.vg_base.specs.Several.{AreOpen};
ghost use Rattle.vg_pcap.specs.Frames.{Framed, Fits};
ghost use Rattle.vg_pcap.specs.Merge.{IsNext, AreReadable};
ghost use Rattle.vg_replay.specs.Outputs.{Handled};
ghost use Rattle.vg_replay.specs.Replays.{AreReplayFiles, ReplayFiles};
ghost use Rattle.vg_replay.specs.UnderWay.{Replaying, output_ids, AreWritable, Going, IsReady};
ghost use Rattle.vg_replay.specs.Handling.{StartsReplay, HandlesNext, GoesOn, IsReadyOn};
ghost use Rattle.vg_replay.specs.Stepping.{Steps, HandlesFrame, HasChanged, ClosesAll};

use crate::handled::{FrameHead, HandledFrame, Outcome};
use crate::handler::Handler;
use crate::outputs::Outputs;
use crate::stop::{RunStop, stop_of};
use crate::totals::Totals;
use std::alloc::Global;
use std::marker::Model;
use vg_base::{Failed, Files, MAX_OPEN};
use vg_pcap::Merge;

/// A replay that is under way: captures that come in, what they are put through, the captures that go out, and the log.
#[derive(Drop)]
pub struct Replay<H> {
    handler: H,
    merge: Merge,
    outputs: Outputs,
    totals: Totals,
}

impl<H> Model for Replay<H> {
    ghost use Rattle.vg_replay.specs.UnderWay.{ReplayOf};

    ghost Value = { ReplayOf H };

    ghost view = { λ r. record {
      handler = r.handler;
      files = record { inputs = r.merge; outs = r.outputs.captures.items; log = r.outputs.log; totals = r.totals };
    } };
}

/// What a replay has come to.
#[derive(Drop)]
pub enum Next<H> {
    /// A frame was handled.
    Again(Replay<H>),
    /// No frame was left, and every file was closed.
    End(Totals),
}

impl<H: Handler> Replay<H> {
    /// Begins a replay of the captures `ins` through a handler: opens them in the order of ports, creates the captures `outs` in the same order, each with
    /// its header, and then the log, and reads each port's first record. All memory is taken here, but for what the handler takes.
    ///
    /// A refusal leaves nothing open.
    pub fn start<F: Files>(
        alloc: Global,
        handler: H,
        files: &mut F,
        log: &str,
        ins: &[String],
        outs: &[String],
    ) -> Result<Replay<H>, RunStop<H::Stop>>
        requires room { (F.disk files.old).open_count + length ins.now + length outs.now + 1 ≤ MAX_OPEN }
        requires names { AreReplayFiles (record { log = log.now; ins = map string_bytes ins.now; outs = map string_bytes outs.now }) }
        requires takes { H.takes handler ≡ record { ports = length ins.now; since = 0 } }
        ensures starts { StartsReplay H.handles H.stops_at (F.disk files.old) (F.disk files.new)
            (record { log = log.now; ins = map string_bytes ins.now; outs = map string_bytes outs.now }) handler result }
        ensures ready { IfOk result (λ r. IsReady (H.takes r.handler) r.files.inputs) }
    {
        let Ok(captures) = Vec::with_capacity(alloc, outs.len()) else {
            return Err(RunStop::Memory);
        };
        let merge = match Merge::start(alloc, files, ins) {
            Ok(merge) => merge,
            Err(fault) => return Err(stop_of(fault)),
        };
        let Ok(outputs) = Outputs::create(files, captures, log, outs) else {
            let _ = merge.close(files);
            return Err(RunStop::Write);
        };
        let mut replay = Replay {
            handler,
            merge,
            outputs,
            totals: Totals::default(),
        };
        match replay.merge.fill(files) {
            Ok(()) => Ok(replay),
            Err(fault) => {
                let _ = replay.close(files);
                Err(stop_of(fault))
            }
        }
    }

    /// Handles the next frame: puts it through the handler, writes it into the captures that the verdict sends it to, in the order of ports, and then its
    /// line into the log, and reads the record after it. Where the handler stops, nothing of that frame is written.
    ///
    /// `End` comes where no frame was left before the call. Every file is closed before that and before a refusal. Where closing an output fails before
    /// `End`, it is `Write`.
    pub fn next_frame<F: Files>(self, files: &mut F) -> Result<Next<H>, RunStop<H::Stop>>
        requires going { (s : Disk) × (n : ReplayFiles) × (past : List Handled) × Going s (F.disk files.old) n self.files past }
        requires ready { IsReady (H.takes self.handler) self.files.inputs }
        ensures handles { (s : Disk) (n : ReplayFiles) (past : List Handled) → Going s (F.disk files.old) n self.files past →
            HandlesNext H.handles H.stops_at s (F.disk files.new) n self past result }
        ensures ready { IfOk result (IsReadyOn H.takes) }
    {
        let mut replay = self;
        match replay.step(files) {
            Ok(true) => Ok(Next::Again(replay)),
            Ok(false) => {
                let totals = replay.totals;
                match replay.close(files) {
                    Ok(()) => Ok(Next::End(totals)),
                    Err(Failed) => Err(RunStop::Write),
                }
            }
            Err(stop) => {
                let _ = replay.close(files);
                Err(stop)
            }
        }
    }

    /// Handles all frames that are left, and answers the counts of all.
    pub fn run<F: Files>(self, files: &mut F) -> Result<Totals, RunStop<H::Stop>>
        requires going { (s : Disk) × (n : ReplayFiles) × (past : List Handled) × Going s (F.disk files.old) n self.files past }
        requires ready { IsReady (H.takes self.handler) self.files.inputs }
        ensures { (s : Disk) (n : ReplayFiles) (past : List Handled) → Going s (F.disk files.old) n self.files past →
            GoesOn H.handles H.stops_at s (F.disk files.new) n self past result }
    {
        let mut replay = self;
        loop {
            match replay.next_frame(files) {
                Ok(Next::Again(next)) => replay = next,
                Ok(Next::End(totals)) => return Ok(totals),
                Err(stop) => return Err(stop),
            }
        }
    }

    // Handles the next frame, where there is one, and answers whether there was. After a refusal the replay can only be closed.
    fn step<F: Files>(&mut self, files: &mut F) -> Result<bool, RunStop<H::Stop>>
        requires going { (s : Disk) × (n : ReplayFiles) × (past : List Handled) × Going s (F.disk files.old) n self.old.files past }
        requires ready { IsReady (H.takes self.old.handler) self.old.files.inputs }
        ensures steps { (s : Disk) (n : ReplayFiles) (past : List Handled) → Going s (F.disk files.old) n self.old.files past →
            Steps H.handles H.stops_at s (F.disk files.old) (F.disk files.new) n self.old self.new past result }
        ensures ready { IfOk result (λ more. more ≡ true → IsReady (H.takes self.new.handler) self.new.files.inputs) }
    {
        let Some(port) = self.merge.next_port() else {
            return Ok(false);
        };
        if self.totals.frames == u32::MAX {
            return Err(RunStop::Frames);
        }
        let outcome = self.handle(files, port)?;
        self.totals = self.totals.counted(&outcome);
        match self.merge.advance(files, port) {
            Ok(()) => Ok(true),
            Err(fault) => Err(stop_of(fault)),
        }
    }

    // Puts the next frame, which came in at this port, through the handler, and writes it and its line.
    fn handle<F: Files>(&mut self, files: &mut F, port: u16) -> Result<Outcome, RunStop<H::Stop>>
        requires next { (frame : Framed) × IsNext self.old.files.inputs (record { port = port; frame = frame }) × Fits frame }
        requires open { AreOpen (F.disk files.old) Writes (output_ids self.old.files) }
        requires few { length self.old.files.outs ≤ MAX_OPEN }
        requires number { self.old.files.totals.frames + 1 < 2 ^ 32 }
        requires ready { IsReady (H.takes self.old.handler) self.old.files.inputs }
        ensures changed { (frame : Framed) → IsNext self.old.files.inputs (record { port = port; frame = frame }) →
            HasChanged self.old.files self.new.files (record { port = port; frame = frame }) }
        ensures handles { (frame : Framed) → IsNext self.old.files.inputs (record { port = port; frame = frame }) →
            HandlesFrame H.handles H.stops_at (F.disk files.old) (F.disk files.new) self.old self.new (record { port = port; frame = frame }) result }
        ensures ports { OnOk result ((H.takes self.new.handler).ports ≡ (H.takes self.old.handler).ports) }
        ensures since { (frame : Framed) → IsNext self.old.files.inputs (record { port = port; frame = frame }) →
            OnOk result ((H.takes self.new.handler).since ≤ frame.time) }
    {
        let head = FrameHead {
            port,
            time: self.merge.time(port),
            original: self.merge.original(port),
        };
        let outcome = match self.handler.handle(head, self.merge.frame_mut(port)) {
            Ok(outcome) => outcome,
            Err(reason) => return Err(RunStop::Handler(reason)),
        };
        let frame = HandledFrame {
            head,
            bytes: self.merge.frame(port),
            outcome: &outcome,
        };
        match self.outputs.write(files, self.totals.frames + 1, &frame) {
            Ok(()) => Ok(outcome),
            Err(Failed) => Err(RunStop::Write),
        }
    }

    // Closes every file, also where closing one of them fails. `Failed` tells of one that was written.
    fn close<F: Files>(self, files: &mut F) -> Result<(), Failed>
        requires readable { AreReadable (F.disk files.old) self.files.inputs }
        requires writable { AreWritable (F.disk files.old) (output_ids self.files) }
        ensures { ClosesAll (F.disk files.old) (F.disk files.new) self.files result }
    {
        let Replay { merge, outputs, .. } = self;
        let closed = outputs.close(files);
        let _ = merge.close(files);
        closed
    }
}
