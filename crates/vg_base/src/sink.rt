//! Where text is written.
ghost use Rattle.vg_base.specs.Sink.{Flow, FlowsSome, FlowsAll};

use crate::faults::Failed;

/// Where text goes, as a program's standard output. A call that answers `Failed` has counted a fault; the count never
/// falls. A type may tell what was written.
pub trait Sink {
    /// What is seen of it.
    ghost flow: { Self → Flow };

    /// Appends first bytes of a piece, as many as it answers. Taking nothing of a piece that isn't empty is a fault.
    fn write(&mut self, piece: &[u8]) -> Result<usize, Failed>
        ensures { FlowsSome (flow self.old) (flow self.new) piece.now result };
}

/// Appends the whole piece, in as many writes as it takes. Where one of them fails a prefix of the piece went out.
pub fn say_all<O: Sink>(out: &mut O, piece: &[u8]) -> Result<(), Failed>
    ensures { FlowsAll (O.flow out.old) (O.flow out.new) piece.now result }
{
    let mut done = 0;
    while done < piece.len() {
        let (_, rest) = piece.split_at(done);
        let n = out.write(rest)?;
        done += n;
    }
    Ok(())
}
