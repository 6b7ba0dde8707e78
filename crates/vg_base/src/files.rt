//! Files by their names, which are read from their start and written at their end.
ghost use Rattle.std.specs.Prelude.{◌<◌, IsSome};
ghost use Rattle.vg_base.specs.Files.{Disk, Reads, Writes, IsOpen, OpensRead, ReadsNext, Creates, WritesSome, Closes};

use crate::faults::Failed;

/// At most this many files of one object are open at once.
pub const MAX_OPEN: u32 = 64;

/// Files by their names, as a program sees them. A call that answers `Failed` has counted a fault of its kind: of reading
/// (`open_read`, `read`), of writing (`create`, `write`, `close` of what was created), or of shutting (`close` of what was
/// read). The counts never fall. A type may tell the bytes that can be read and those that were written, or neither.
pub trait Files {
    /// What is seen of it.
    ghost disk: { Self → Disk };

    /// Opens a file for reading, from its first byte. A name that doesn't exist is a fault.
    fn open_read(&mut self, name: &str) -> Result<u32, Failed>
        requires { (disk self.old).open_count < MAX_OPEN }
        ensures { OpensRead (disk self.old) (disk self.new) name.now result };

    /// Reads the next bytes of a file into the first places of `into`, as many as it answers. Where `into` isn't empty, 0
    /// is the file's end.
    fn read(&mut self, id: u32, into: &mut [u8]) -> Result<usize, Failed>
        requires { IsOpen Reads ((disk self.old).opened id) }
        ensures { ReadsNext (disk self.old) (disk self.new) id into.new result };

    /// Makes an empty file, or empties the created one of that name, and opens it for writing.
    fn create(&mut self, name: &str) -> Result<u32, Failed>
        requires { (disk self.old).open_count < MAX_OPEN }
        ensures { Creates (disk self.old) (disk self.new) name.now result };

    /// Appends first bytes of a piece, as many as it answers. Taking nothing of a piece that isn't empty is a fault.
    fn write(&mut self, id: u32, piece: &[u8]) -> Result<usize, Failed>
        requires { IsOpen Writes ((disk self.old).opened id) }
        ensures { WritesSome (disk self.old) (disk self.new) id piece.now result };

    /// Closes an id, also where this fails.
    fn close(&mut self, id: u32) -> Result<(), Failed>
        requires { IsSome ((disk self.old).opened id) }
        ensures { Closes (disk self.old) (disk self.new) id result };
}
