//! Reads and writes of any object of a run, cells of the library among them.
ghost use Rattle.std.specs.Prelude.{◌≡◌, ◌≤◌, ◌<◌, ◌^◌, true, false, Some, OnErr, Ok, length, All};
ghost use Rattle.vg_cint.specs.Tests.{tested};
ghost use Rattle.vg_cmemory.specs.Access.{leaves};
ghost use Rattle.vg_abs.specs.Library.{IsVector};
ghost use Rattle.vg_crows.specs.State.{full};
ghost use Rattle.vg_crows.specs.Access as accesses;
ghost use Rattle.vg_crows.specs.Views.{CellsAreThere, SameLent, seen};

use crate::book::Book;
use vg_abs::Lib;
use vg_cmemory::{FrameMemory, Object, Pointer, Room, against_write_of, load_of, read_of};
use vg_core::Reason;

/// The word of so many bytes behind a pointer, little-endian.
///
/// The first that holds: `Dead`: the object lives no longer. `OutOfObject`: not all of the bytes are in it, or in the room that is given.
/// `Misaligned`: the offset isn't a multiple of `align`. `Unset`: one of the bytes isn't set.
pub fn load<L: Lib>(
    memory: &FrameMemory,
    frame: &[u8],
    book: &Book,
    lib: &L,
    pointer: Pointer,
    room: Option<Room>,
    size: u32,
    align: u32,
) -> Result<u64, Reason>
    requires at_most_a_word { size ≤ 8 }
    requires aligned { 0 < align }
    requires told { (L.library lib.now).missed ≡ false }
    requires lent { SameLent (L.library lib.now) book.now }
    requires cells { CellsAreThere (L.library lib.now) book.now }
    ensures { result ≡ accesses.load (seen memory.now frame.now (L.library lib.now) book.now) pointer room size align }
{
    match pointer.object {
        Object::Cell {
            vector,
            index,
            number,
        } => {
            if !book.is_lent_as(vector, index, number) {
                return Err(Reason::Dead);
            }
            load_of(lib.cell(vector, index), room, pointer.offset, size, align)
        }
        _ => memory.load(frame, pointer, room, size, align),
    }
}

/// Whether so many bytes may be written behind a pointer, which is told without writing them. The reasons are those of `store`.
pub fn against_write<L: Lib>(
    memory: &FrameMemory,
    frame: &[u8],
    book: &Book,
    lib: &L,
    pointer: Pointer,
    room: Option<Room>,
    size: u32,
    align: u32,
) -> Result<(), Reason>
    requires aligned { 0 < align }
    requires told { (L.library lib.now).missed ≡ false }
    requires lent { SameLent (L.library lib.now) book.now }
    requires cells { CellsAreThere (L.library lib.now) book.now }
    ensures { result ≡ tested (accesses.write_tests (seen memory.now frame.now (L.library lib.now) book.now) pointer room size align) tt }
{
    match pointer.object {
        Object::Cell {
            vector,
            index,
            number,
        } => {
            if !book.is_lent_as(vector, index, number) {
                return Err(Reason::Dead);
            }
            against_write_of(lib.cell(vector, index), room, pointer.offset, size, align)
        }
        _ => memory.against_write(frame, pointer, room, size, align),
    }
}

/// The bytes behind a pointer, as many as fit into `into`, at any alignment.
///
/// The first that holds: `Dead`: the object lives no longer. `OutOfObject`: not all of them are in it. `Unset`: one of them isn't set.
pub fn read<L: Lib>(
    memory: &FrameMemory,
    frame: &[u8],
    book: &Book,
    lib: &L,
    pointer: Pointer,
    into: &mut [u8],
) -> Result<(), Reason>
    requires short { length into.old < 2 ^ 32 }
    requires told { (L.library lib.now).missed ≡ false }
    requires lent { SameLent (L.library lib.now) book.now }
    requires cells { CellsAreThere (L.library lib.now) book.now }
    ensures value { leaves result into.new ≡ accesses.bytes_behind (seen memory.now frame.now (L.library lib.now) book.now) pointer (length into.old) }
    ensures length { length into.new ≡ length into.old }
{
    match pointer.object {
        Object::Cell {
            vector,
            index,
            number,
        } => {
            if !book.is_lent_as(vector, index, number) {
                return Err(Reason::Dead);
            }
            read_of(lib.cell(vector, index), pointer.offset, into)
        }
        _ => memory.read(frame, pointer, into),
    }
}
