//! Standard output as a sink. It tells no bytes: what the system does with them is trusted.
ghost use Rattle.std.specs.Prelude.{false, []};
ghost use Rattle.vg_base.specs.Sink.{IsFresh};

use crate::faults::Failed;
use crate::sink::Sink;
use std::io;
use std::io::Write;

/// The standard output of the system.
#[derive(Drop)]
pub struct HostSink<R: Print> {
    system: R,
    faults: u64,
}

impl<R: Print> HostSink<R> {
    /// The standard output of this system.
    pub fn new(system: R) -> Self
        ensures { IsFresh (⟦<HostSink<R> as Sink>⟧.flow result) }
    {
        HostSink { system, faults: 0 }
    }
}

impl<R: Print> Sink for HostSink<R> {
    ghost flow = { λ h. record { faults = h.faults; tells_made = false; made = [] } };

    fn write(&mut self, piece: &[u8]) -> Result<usize, Failed> {
        match io::writer(&self.system).write(piece) {
            Ok(n) if n > 0 || piece.is_empty() => Ok(n),
            _ => {
                self.faults = self.faults.saturating_add(1);
                Err(Failed)
            }
        }
    }
}
