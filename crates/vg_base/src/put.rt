//! Writing the whole of a piece.
ghost use Rattle.vg_base.specs.Files.{Writes, IsOpen, WritesAll};

use crate::faults::Failed;
use crate::files::Files;

/// Appends the whole piece to a file, in as many writes as it takes. Where one of them fails a prefix of the piece went out.
pub fn put_all<F: Files>(files: &mut F, id: u32, piece: &[u8]) -> Result<(), Failed>
    requires { IsOpen Writes ((F.disk files.old).opened id) }
    ensures { WritesAll (F.disk files.old) (F.disk files.new) id piece.now result }
{
    let mut done = 0;
    while done < piece.len() {
        let n = files.write(id, &piece[done..])?;
        done += n;
    }
    Ok(())
}
