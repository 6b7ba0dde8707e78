//! Reading the whole of a file.
ghost use Rattle.std.specs.Prelude.{◌<◌};
ghost use Rattle.vg_base.specs.Files.{Reads, IsOpen};
ghost use Rattle.vg_base.specs.Loading.{ReadsAll, Loads};

use crate::faults::LoadFault;
use crate::files::{Files, MAX_OPEN};
use std::alloc::Global;

// How many bytes are read at once.
const CHUNK: usize = 4096;

// The rest of an open file.
fn read_all<F: Files>(
    alloc: Global,
    files: &mut F,
    id: u32,
    limit: u64,
) -> Result<Vec<u8>, LoadFault>
    requires { IsOpen Reads ((F.disk files.old).opened id) }
    ensures { ReadsAll (F.disk files.old) (F.disk files.new) id limit result }
{
    let mut got = Vec::new(alloc);
    let mut chunk = [0u8; CHUNK];
    while got.len() as u64 <= limit {
        let Ok(n) = files.read(id, &mut chunk) else {
            return Err(LoadFault::Read);
        };
        if n == 0 {
            return Ok(got);
        }
        let Ok(()) = got.extend_from_slice(&chunk[..n]) else {
            return Err(LoadFault::Memory);
        };
    }
    Err(LoadFault::TooLong)
}

/// The bytes of a file that holds at most `limit` bytes: `Read` where it couldn't be opened or read, `TooLong` where it
/// holds more, `Memory` where there is none for it. The file is closed again, and a fault in closing it changes nothing.
pub fn load<F: Files>(
    alloc: Global,
    files: &mut F,
    name: &str,
    limit: u64,
) -> Result<Vec<u8>, LoadFault>
    requires { (F.disk files.old).open_count < MAX_OPEN }
    ensures { Loads (F.disk files.old) (F.disk files.new) name.now limit result }
{
    let Ok(id) = files.open_read(name) else {
        return Err(LoadFault::Read);
    };
    let got = read_all(alloc, files, id, limit);
    let _ = files.close(id);
    got
}
