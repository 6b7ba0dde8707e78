//! Why a replay stops early.
ghost use Rattle.std.specs.Prelude.{◌≡◌};
ghost use Rattle.vg_replay.specs.Stepping.{stop_of};

use vg_pcap::{CaptureFault, CaptureRefusal, MergeFault};

/// Why a replay stopped early.
#[derive(Clone, Copy, Debug, PartialEq, Eq)]
pub enum RunStop<S> {
    /// The capture of this port is refused.
    Capture { port: u16, refusal: CaptureRefusal },
    /// A file couldn't be read.
    Read,
    /// A file couldn't be written.
    Write,
    /// There is a frame after number 4,294,967,295.
    Frames,
    /// Memory ran out, before any output was created.
    Memory,
    /// The handler stopped, before a frame was written.
    Handler(S),
}

// Why a replay stops where its inputs can't be read on.
pub(crate) fn stop_of<S>(e: MergeFault) -> RunStop<S>
    ensures { result ≡ stop_of e }
{
    match e.fault {
        CaptureFault::Refused(refusal) => RunStop::Capture {
            port: e.port,
            refusal,
        },
        CaptureFault::Read => RunStop::Read,
        CaptureFault::Memory => RunStop::Memory,
    }
}
