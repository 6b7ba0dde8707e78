//! Writes to any object of a run, cells of the library among them.
ghost use Rattle.std.specs.Prelude.{◌≡◌, ◌≤◌, ◌<◌, ◌+◌, ◌-◌, ◌^◌, true, false, [], Some, OnErr, Ok, ℕ, List, length, take, unwrap_or};
ghost use Rattle.std.specs.FinMap.{get};
ghost use Rattle.vg_cint.specs.Tests.{tested};
ghost use Rattle.vg_cmemory.specs.Access.{leaves, bytes_of_word};
ghost use Rattle.vg_abs.specs.Library.{IsVector};
ghost use Rattle.vg_abs.specs.State.{vector_of};
ghost use Rattle.vg_abs.specs.Effects.{with_bytes};
ghost use Rattle.vg_crows.specs.Access as accesses;
ghost use Rattle.vg_crows.specs.Access.{over};
ghost use Rattle.vg_crows.specs.Record.{marked};
ghost use Rattle.vg_crows.specs.Views.{CellsAreThere, SameLent, seen};

use crate::book::Book;
use vg_abs::Lib;
use vg_cmemory::{FrameMemory, Object, Pointer, Room, against_write_of, put_in_frame};
use vg_core::Reason;

// A word's low bytes into a cell that is lent, so many from one on.
fn store_cell<L: Lib>(lib: &mut L, vector: u16, index: u32, at: u32, size: u32, word: u64)
    requires told { (L.library lib.old).missed ≡ false }
    requires vector { IsVector (L.library lib.old) vector }
    requires lent { (L.library lib.old).lent vector index ≡ true }
    requires at_most_a_word { size ≤ 8 }
    requires within { (cell : List ℕ) → get (vector_of (L.library lib.old).state vector).cells index ≡ Some cell → at + size ≤ length cell }
    ensures state { (L.library lib.new).state ≡ with_bytes (L.library lib.old).state vector index
        (over (unwrap_or (get (vector_of (L.library lib.old).state vector).cells index) []) at (bytes_of_word size word)) }
    ensures lent { (other cell : ℕ) → (L.library lib.new).lent other cell ≡ (L.library lib.old).lent other cell }
    ensures choices { (L.library lib.new).choices ≡ (L.library lib.old).choices }
    ensures missed { (L.library lib.new).missed ≡ false }
{
    let _cell = lib.cell(vector, index);
    let mut bytes = [0; 8];
    put_in_frame(&mut bytes, 0, size, word);
    lib.store(vector, index, at, &bytes[..size as usize]);
}

/// Writes the low bytes of a word, so many, behind a pointer, little-endian. A write to a cell changes its link, where it has one.
///
/// The first that holds, and then nothing is written: `Dead`: the object lives no longer. `OutOfObject`: not all of the bytes are in it, or in the
/// room that is given. `Misaligned`: the offset isn't a multiple of `align`.
pub fn store<L: Lib>(
    memory: &mut FrameMemory,
    frame: &mut [u8],
    book: &mut Book,
    lib: &mut L,
    pointer: Pointer,
    room: Option<Room>,
    size: u32,
    align: u32,
    word: u64,
) -> Result<(), Reason>
    requires at_most_a_word { size ≤ 8 }
    requires aligned { 0 < align }
    requires told { (L.library lib.old).missed ≡ false }
    requires lent { SameLent (L.library lib.old) book.old }
    requires cells { CellsAreThere (L.library lib.old) book.old }
    ensures value { leaves result (seen memory.new frame.new (L.library lib.new) book.new)
        ≡ accesses.store (seen memory.old frame.old (L.library lib.old) book.old) pointer room size align word }
    ensures lent { SameLent (L.library lib.new) book.new }
    ensures choices { (L.library lib.new).choices ≡ (L.library lib.old).choices }
    ensures missed { (L.library lib.new).missed ≡ false }
    ensures handed { book.new.handed ≡ book.old.handed }
    ensures stops { OnErr result (seen memory.new frame.new (L.library lib.new) book.new ≡ seen memory.old frame.old (L.library lib.old) book.old) }
{
    match pointer.object {
        Object::Cell {
            vector,
            index,
            number,
        } => {
            if !book.is_lent_as(vector, index, number) {
                return Err(Reason::Dead);
            }
            against_write_of(lib.cell(vector, index), room, pointer.offset, size, align)?;
            store_cell(lib, vector, index, pointer.offset as u32, size, word);
            book.mark(vector.saturating_sub(2));
            Ok(())
        }
        Object::Declared { .. } => memory.store(frame, pointer, room, size, align, word),
        Object::Chunk { .. } => memory.store(frame, pointer, room, size, align, word),
    }
}
