//! Captures that are merged into one order of frames.
ghost use Rattle.std.specs.Prelude.{◌≡◌, ◌<◌, ◌≤◌, ◌+◌, [], ◌∷◌, ◌++◌, ℕ, map, length, List, Some, IfSome, IfNone, All, slice_get, true, false, string_bytes};
ghost use Rattle.vg_base.specs.Files.{Disk};
ghost use Rattle.vg_pcap.specs.Frames.{Framed, Stream, Fits};
ghost use Rattle.vg_pcap.specs.Arrivals.{Arrival, AllCome, ComeFirst};
ghost use Rattle.vg_pcap.specs.Reader.{IsReadable};
ghost use Rattle.vg_pcap.specs.Merge.{Input, AreReadable, IsNext, IsNextAt, IsChanged, Comes, StartsMerge, Fills, Advances, ClosesInputs};
ghost use Rattle.vg_pcap.specs.Inputs.{AreApart, IsLeastBelow, Refills, RefillsAt, OpensPort};

use crate::faults::CaptureFault;
use crate::reader::CaptureReader;
use std::alloc::Global;
use std::marker::Model;
use vg_base::{Failed, Files, MAX_OPEN};

/// Why frames of several ports couldn't be read on, and at which port.
#[derive(Clone, Copy, Debug, PartialEq, Eq)]
pub struct MergeFault {
    pub port: u16,
    pub fault: CaptureFault,
}

/// The captures of several ports, whose frames come out in one order: by time, then by port, then by their place in the port's capture.
#[derive(Drop)]
pub struct Merge {
    inputs: Vec<PortInput>,
}

impl Model for Merge {
    ghost use Rattle.std.specs.Prelude.{List};
    ghost use Rattle.vg_pcap.specs.Merge.{Input};
    ghost use Rattle.vg_pcap.specs.Inputs.{AreInputs};

    ghost Value = { List Input };

    ghost view = { λ m. m.inputs.items };

    ghost invariant = { λ m. AreInputs m.inputs.items };
}

/// The capture of a port, and whether its last frame waits to be handled.
#[derive(Drop)]
struct PortInput {
    reader: CaptureReader,
    waits: bool,
}

impl Model for PortInput {
    ghost use Rattle.vg_pcap.specs.Merge.{Input};

    ghost Value = { Input };

    ghost view = { λ p. record { reader = p.reader; waits = p.waits } };
}

impl PortInput {
    ghost use Rattle.std.specs.Borrow.{sem};
    ghost use Rattle.vg_pcap.specs.Lending.{LendsInput};

    // The bytes of the last frame, to be changed in place.
    fn frame_mut(&mut self) -> &mut [u8]
        ensures* writes_back { sem 𝓛 (LendsInput self.entry result) }
        ensures value { result.now ≡ self.old.reader.frame.bytes }
    {
        self.reader.frame_mut()
    }

    // Reads the next record, in place of the last one.
    fn refill<F: Files>(&mut self, files: &mut F) -> Result<(), CaptureFault>
        requires { IsReadable (F.disk files.old) self.old.reader.id }
        ensures { Refills (F.disk files.old) (F.disk files.new) self.old self.new result }
    {
        match self.reader.next(files) {
            Ok(waits) => {
                self.waits = waits;
                Ok(())
            }
            Err(fault) => {
                self.waits = false;
                Err(fault)
            }
        }
    }
}

impl Merge {
    ghost use Rattle.std.specs.Borrow.{sem};
    ghost use Rattle.vg_pcap.specs.Lending.{LendsNext, IsWritten, over_next};

    /// Opens the captures of these names, that of port 0 first, and reads their headers. All memory is taken here. The name `-` is a port at which nothing
    /// comes in.
    ///
    /// A refusal tells the port, and leaves nothing open.
    pub fn start<F: Files>(
        alloc: Global,
        files: &mut F,
        ins: &[String],
    ) -> Result<Merge, MergeFault>
        requires { (F.disk files.old).open_count + length ins.now ≤ MAX_OPEN }
        ensures { StartsMerge (F.disk files.old) (F.disk files.new) (map string_bytes ins.now) result }
    {
        let mut inputs = Vec::new(alloc);
        for (port, name) in ins.iter().enumerate() {
            if let Err(fault) = open_port(alloc, files, &mut inputs, name.as_str()) {
                let _ = close_all(files, inputs);
                return Err(MergeFault {
                    port: port as u16,
                    fault,
                });
            }
        }
        Ok(Merge { inputs })
    }

    /// Reads the first record of each port, that of port 0 first. It is called once, right after `start`. After a refusal the merge can only be closed.
    pub fn fill<F: Files>(&mut self, files: &mut F) -> Result<(), MergeFault>
        requires readable { AreReadable (F.disk files.old) self.old }
        ensures { Fills (F.disk files.old) (F.disk files.new) self.old self.new result }
    {
        for port in 0..self.inputs.len() as u16 {
            if let Err(fault) = self.refill(files, port) {
                return Err(MergeFault { port, fault });
            }
        }
        Ok(())
    }

    /// The port of the next frame, or nothing where every capture has ended.
    pub fn next_port(&self) -> Option<u16>
        ensures next { IfSome result (IsNextAt self.now) }
        ensures fits { (a : Arrival) → IsNext self.now a → Fits a.frame }
        ensures first { (a : Arrival) → IsNext self.now a → (s : Disk) (streams : List Stream) (past : List Arrival) → Comes s self.now streams past →
            (left : List Stream) × ComeFirst streams (past ++ a ∷ []) left }
        ensures none { IfNone result (All (λ input. input.waits ≡ false) self.now) }
        ensures end { IfNone result ((s : Disk) (streams : List Stream) (past : List Arrival) → Comes s self.now streams past → AllCome streams past) }
    {
        let mut next = None;
        for port in 0..self.inputs.len() as u16 {
            next = earlier(&self.inputs, next, port);
        }
        next
    }

    /// The bytes of the next frame, which came in at this port.
    pub fn frame(&self, port: u16) -> &[u8]
        requires { IsNextAt self.now port }
        ensures { (a : Arrival) → IsNext self.now a → result.now ≡ a.frame.bytes }
    {
        self.next_input(port).reader.frame()
    }

    /// The bytes of the next frame, which came in at this port, to be changed in place. It keeps its length and its time, and is still the next.
    pub fn frame_mut(&mut self, port: u16) -> &mut [u8]
        requires { IsNextAt self.old port }
        ensures* writes_back { sem 𝓛 (LendsNext self.entry result) }
        ensures value { (a : Arrival) → IsNext self.old a → result.now ≡ a.frame.bytes }
        ensures written { (a : Arrival) (bytes : List ℕ) → IsNext self.old a → length bytes ≡ length a.frame.bytes →
            IsWritten self.old (over_next self.old bytes) a bytes }
    {
        let next = &mut self.inputs[port as usize];
        next.frame_mut()
    }

    /// When the next frame, which came in at this port, came: in nanoseconds.
    pub fn time(&self, port: u16) -> u64
        requires { IsNextAt self.now port }
        ensures { (a : Arrival) → IsNext self.now a → result ≡ a.frame.time }
    {
        self.next_input(port).reader.time()
    }

    /// How long the next frame, which came in at this port, was, in bytes, before it was cut to what was captured.
    pub fn original(&self, port: u16) -> u32
        requires { IsNextAt self.now port }
        ensures { (a : Arrival) → IsNext self.now a → result ≡ a.frame.original }
    {
        self.next_input(port).reader.original()
    }

    /// Reads the record after the next frame, which came in at this port and has been handled then. After a refusal the merge can only be closed. It takes
    /// no memory.
    pub fn advance<F: Files>(&mut self, files: &mut F, port: u16) -> Result<(), MergeFault>
        requires readable { AreReadable (F.disk files.old) self.old }
        requires next { IsNextAt self.old port }
        ensures { Advances (F.disk files.old) (F.disk files.new) self.old self.new result }
    {
        match self.refill(files, port) {
            Ok(()) => Ok(()),
            Err(fault) => Err(MergeFault { port, fault }),
        }
    }

    /// Closes every capture, also where closing one of them fails.
    pub fn close<F: Files>(self, files: &mut F) -> Result<(), Failed>
        requires readable { AreReadable (F.disk files.old) self }
        ensures { ClosesInputs (F.disk files.old) (F.disk files.new) self result }
    {
        let Merge { inputs } = self;
        close_all(files, inputs)
    }

    // The input whose frame is next, at this port.
    fn next_input(&self, port: u16) -> &PortInput
        requires { IsNextAt self.now port }
        ensures { (a : Arrival) → IsNext self.now a → slice_get self.now a.port ≡ Some result.now }
    {
        &self.inputs[port as usize]
    }

    // Reads the next record of a port.
    fn refill<F: Files>(&mut self, files: &mut F, port: u16) -> Result<(), CaptureFault>
        requires port { port < length self.old }
        requires readable { AreReadable (F.disk files.old) self.old }
        ensures { RefillsAt (F.disk files.old) (F.disk files.new) self.old self.new port result }
    {
        let input = &mut self.inputs[port as usize];
        input.refill(files)
    }
}

// Opens the capture of one more port.
fn open_port<F: Files>(
    alloc: Global,
    files: &mut F,
    inputs: &mut Vec<PortInput>,
    name: &str,
) -> Result<(), CaptureFault>
    requires { (F.disk files.old).open_count < MAX_OPEN }
    ensures { OpensPort (F.disk files.old) (F.disk files.new) name.now inputs.old.items inputs.new.items result }
{
    let Ok(()) = inputs.reserve(1) else {
        return Err(CaptureFault::Memory);
    };
    let reader = CaptureReader::start(alloc, files, name)?;
    inputs.push_reserved(PortInput {
        reader,
        waits: false,
    });
    Ok(())
}

// Closes every capture, also where closing one of them fails.
fn close_all<F: Files>(files: &mut F, mut inputs: Vec<PortInput>) -> Result<(), Failed>
    requires readable { AreReadable (F.disk files.old) inputs.items }
    requires apart { AreApart inputs.items }
    ensures { ClosesInputs (F.disk files.old) (F.disk files.new) inputs.items result }
{
    let mut result = Ok(());
    while let Some(input) = inputs.pop() {
        let PortInput { reader, waits: _ } = input;
        result = result.and(reader.close(files));
    }
    result
}

// The port whose frame comes first: that of a port before this one, if one waits there, or this one's.
fn earlier(inputs: &[PortInput], before: Option<u16>, port: u16) -> Option<u16>
    requires port { port < length inputs.now }
    requires before { IsLeastBelow inputs.now port before }
    ensures { IsLeastBelow inputs.now (port + 1) result }
{
    let input = &inputs[port as usize];
    if !input.waits {
        return before;
    }
    let Some(first) = before else {
        return Some(port);
    };
    let other = &inputs[first as usize];
    if input.reader.time() < other.reader.time() {
        Some(port)
    } else {
        Some(first)
    }
}

#[cfg(test)]
mod tests;
