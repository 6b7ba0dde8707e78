//! Why a run stops early.
ghost use Rattle.std.specs.Prelude.{◌≡◌};
ghost use Rattle.vg_top.specs.Stops.{stop_of};

use crate::exit::Exit;
use std::convert::Infallible;
use vg_pcap::CaptureRefusal;
use vg_replay::RunStop;
use vg_small::Lang;

/// What isn't built yet.
#[derive(Clone, Copy, Debug, PartialEq, Eq)]
pub enum Unbuilt {
    /// A command other than `run`, or a `run` with a configuration.
    Words,
    /// A text that isn't of the small form, or a C text that sends to a port that the specification doesn't declare.
    Text(Lang),
}

/// Why a run stopped early.
#[derive(Clone, Copy, Debug, PartialEq, Eq)]
pub enum Stop {
    /// The C function and its specification give a frame of this port different verdicts. The name of the C function stands
    /// `at` this byte of its text.
    Wrong { at: u32, port: u16 },
    /// The words are those of no command, or name captures of another number of ports than the specification declares.
    Usage,
    /// This port's capture is refused. Where its header is, nothing was created. Where a record is, the frames up to the port's
    /// last good one were handled, and none where its first record is refused.
    Capture { port: u16, refusal: CaptureRefusal },
    /// A file couldn't be read.
    Read,
    /// A file couldn't be written.
    Write,
    /// Memory ran out, before any output was created.
    Memory,
    /// A text has more than 1,048,576 bytes.
    Limit(Lang),
    /// There is a frame after number 4,294,967,295.
    Frames,
    /// This isn't built yet.
    NotBuilt(Unbuilt),
}

impl Stop {
    ghost use Rattle.vg_top.specs.Statuses.{exit_of};

    /// How a run ends that stops for this reason.
    pub fn exit(self) -> Exit
        ensures { result ≡ exit_of self }
    {
        match self {
            Stop::Wrong { .. } => Exit::Wrong,
            Stop::Usage => Exit::Usage,
            Stop::Capture { .. } => Exit::Capture,
            Stop::Read => Exit::Read,
            Stop::Write => Exit::Write,
            Stop::Memory => Exit::Memory,
            Stop::Limit(_) | Stop::Frames => Exit::Limit,
            Stop::NotBuilt(_) => Exit::NotBuilt,
        }
    }
}

// Why a run stops whose replay stopped.
pub(crate) fn stop_of(stop: RunStop<Infallible>) -> Stop
    ensures { result ≡ stop_of stop }
{
    match stop {
        RunStop::Capture { port, refusal } => Stop::Capture { port, refusal },
        RunStop::Read => Stop::Read,
        RunStop::Write => Stop::Write,
        RunStop::Frames => Stop::Frames,
        RunStop::Memory => Stop::Memory,
        RunStop::Handler(never) => match never {},
    }
}
