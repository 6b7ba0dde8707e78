//! The outputs of a replay: the captures, by port, and the log.
ghost use Rattle.std.specs.Prelude.{ℕ, List, ◌≡◌, ◌+◌, ◌<◌, ◌≤◌, ◌++◌, [], ◌∷◌, length, map, string_bytes, vec_capacity, Result, Ok, Err, IfOk, OnErr};
ghost use Rattle.vg_base.specs.Files.{Writes, IsOpen, WritesAll};
ghost use Rattle.vg_base.specs.Several.{AreOpen};
ghost use Rattle.vg_pcap.specs.Frames.{Fits};
ghost use Rattle.vg_replay.specs.Outputs.{goes_to, piece_to};
ghost use Rattle.vg_replay.specs.View.{view, outgoing};
ghost use Rattle.vg_replay.specs.UnderWay.{AreWritable};
ghost use Rattle.vg_replay.specs.Writing.{Puts, pieces_of, WritesFrame, CreatesCaptures, ClosesWritten, HasCreatedAll, HasFailedAll};

use crate::handled::HandledFrame;
use crate::lines::log_line;
use vg_base::{Failed, Files, MAX_OPEN, put_all};
use vg_core::Verdict;
use vg_pcap::CaptureWriter;

/// The captures that are written, by port, and the id of the log.
#[derive(Drop)]
pub struct Outputs {
    pub captures: Vec<CaptureWriter>,
    pub log: u32,
}

impl Outputs {
    /// Creates the captures in the order of their ports, each with its header, and then the log. `captures` has room for all of them. A refusal leaves
    /// nothing open.
    pub fn create<F: Files>(
        files: &mut F,
        captures: Vec<CaptureWriter>,
        log: &str,
        outs: &[String],
    ) -> Result<Outputs, Failed>
        requires empty { captures.items ≡ [] }
        requires capacity { length outs.now ≤ vec_capacity captures }
        requires room { (F.disk files.old).open_count + length outs.now + 1 ≤ MAX_OPEN }
        ensures created { IfOk result (λ o. HasCreatedAll (F.disk files.old) (F.disk files.new) (map string_bytes outs.now) log.now o.captures.items o.log) }
        ensures failed { OnErr result (HasFailedAll (F.disk files.old) (F.disk files.new) (map string_bytes outs.now) log.now) }
    {
        let mut captures = captures;
        if create_captures(files, &mut captures, outs).is_err() {
            let _ = close_captures(files, captures);
            return Err(Failed);
        }
        match files.create(log) {
            Ok(log) => Ok(Outputs { captures, log }),
            Err(Failed) => {
                let _ = close_captures(files, captures);
                Err(Failed)
            }
        }
    }

    /// Writes a frame into the captures, and then its line into the log, so that a line never names a frame that isn't in the captures. The frame has
    /// this number.
    pub fn write<F: Files>(
        &mut self,
        files: &mut F,
        number: u32,
        frame: &HandledFrame<'_>,
    ) -> Result<(), Failed>
        requires open { AreOpen (F.disk files.old) Writes (self.old.captures.items ++ self.old.log ∷ []) }
        requires few { length self.old.captures.items ≤ MAX_OPEN }
        requires fits { Fits (outgoing frame.now) }
        ensures same_captures { self.new.captures.items ≡ self.old.captures.items }
        ensures same_log { self.new.log ≡ self.old.log }
        ensures writes { (came : List ℕ) →
            WritesFrame (F.disk files.old) (F.disk files.new) self.old.captures.items self.old.log number (view frame.now came) result }
    {
        put_frame(files, &mut self.captures, frame)?;
        put_all(files, self.log, log_line(number, frame).as_str().as_bytes())
    }

    /// Closes the log and the captures, also where closing one of them fails.
    pub fn close<F: Files>(self, files: &mut F) -> Result<(), Failed>
        requires { AreWritable (F.disk files.old) (self.captures.items ++ self.log ∷ []) }
        ensures { ClosesWritten (F.disk files.old) (F.disk files.new) (self.captures.items ++ self.log ∷ []) result }
    {
        let Outputs { captures, log } = self;
        let log = files.close(log);
        let captures = close_captures(files, captures);
        log?;
        captures
    }
}

// Creates captures in the order of their ports.
fn create_captures<F: Files>(
    files: &mut F,
    captures: &mut Vec<CaptureWriter>,
    outs: &[String],
) -> Result<(), Failed>
    requires empty { captures.old.items ≡ [] }
    requires capacity { length outs.now ≤ vec_capacity captures.old }
    requires room { (F.disk files.old).open_count + length outs.now ≤ MAX_OPEN }
    ensures { CreatesCaptures (F.disk files.old) (F.disk files.new) (map string_bytes outs.now) captures.new.items result }
{
    for out in outs {
        let capture = CaptureWriter::start(files, out.as_str())?;
        captures.push_reserved(capture);
    }
    Ok(())
}

// Closes captures, also where closing one of them fails.
fn close_captures<F: Files>(files: &mut F, captures: Vec<CaptureWriter>) -> Result<(), Failed>
    requires { AreWritable (F.disk files.old) captures.items }
    ensures { ClosesWritten (F.disk files.old) (F.disk files.new) captures.items result }
{
    let mut captures = captures;
    let mut result = Ok(());
    while let Some(capture) = captures.pop() {
        if capture.close(files).is_err() {
            result = Err(Failed);
        }
    }
    result
}

// Whether a verdict on a frame of one port sends it to another.
fn goes_to(verdict: Verdict, from: u16, to: u16) -> bool
    ensures { result ≡ goes_to verdict from to }
{
    match verdict {
        Verdict::Drop => false,
        Verdict::Send(port) => port == to,
        Verdict::Flood => from != to,
    }
}

// Writes a frame into the capture of a port, where the verdict on it sends it there.
#[tactic(auto, unfolding(crate::specs::Outputs::piece_to))]
fn send_to<F: Files>(
    files: &mut F,
    capture: &mut CaptureWriter,
    port: u16,
    frame: &HandledFrame<'_>,
) -> Result<(), Failed>
    requires open { IsOpen Writes ((F.disk files.old).opened capture.old) }
    requires fits { Fits (outgoing frame.now) }
    ensures same { capture.new ≡ capture.old }
    ensures writes { (came : List ℕ) → WritesAll (F.disk files.old) (F.disk files.new) capture.old (piece_to port (view frame.now came)) result }
{
    if goes_to(frame.outcome.verdict, frame.head.port, port) {
        capture.put(files, frame.head.time, frame.head.original, frame.bytes)
    } else {
        Ok(())
    }
}

// Writes a frame into the captures that the verdict on it sends it to, in the order of ports.
fn put_frame<F: Files>(
    files: &mut F,
    captures: &mut Vec<CaptureWriter>,
    frame: &HandledFrame<'_>,
) -> Result<(), Failed>
    requires open { AreOpen (F.disk files.old) Writes captures.old.items }
    requires few { length captures.old.items ≤ MAX_OPEN }
    requires fits { Fits (outgoing frame.now) }
    ensures same { captures.new.items ≡ captures.old.items }
    ensures puts { (came : List ℕ) →
        Puts (F.disk files.old) (F.disk files.new) captures.old.items (pieces_of (view frame.now came)) (length captures.old.items) result }
{
    for port in 0..captures.len() as u16 {
        send_to(files, &mut captures[port as usize], port, frame)?;
    }
    Ok(())
}
