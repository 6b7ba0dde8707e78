//! Cells of the library that are lent: objects whose bytes are given from beside.
ghost use Rattle.std.specs.Prelude.{◌≡◌, ◌≤◌, ◌<◌, ◌+◌, ◌^◌, true, Some, None, OnErr, map, length};
ghost use Rattle.vg_cint.specs.Tests.{tested};
ghost use Rattle.vg_cmemory.specs.State.{State, sizes};
ghost use Rattle.vg_cmemory.specs.Access.{set, leaves, load_from, bytes_of, access_tests, write_tests, content, all_set, or_zero, put, Bytes};
ghost use Rattle.vg_cmemory.specs.Cells as cells;
ghost use Rattle.vg_cmemory.specs.Cells.{octets, with_name, all_of, bytes_from, bytes_of_state};

use crate::access::{chunk_of, part_of, refusal, refused};
use crate::bytes::word_in_frame;
use crate::memory::FrameMemory;
use crate::object::{Object, Pointer, Room};
use vg_core::Reason;

/// The word of so many bytes of a cell with these bytes, little-endian.
///
/// The first that holds: `OutOfObject`: not all of the bytes are in it, or in the room that is given. `Misaligned`: the offset isn't a multiple of
/// `align`.
#[tactic(auto, using(crate::proofs::Parts::octets_read))]
pub fn load_of(
    bytes: &[u8],
    room: Option<Room>,
    offset: u64,
    size: u32,
    align: u32,
) -> Result<u64, Reason>
    requires at_most_a_word { size ≤ 8 }
    requires aligned { 0 < align }
    ensures { result ≡ load_from (octets (Some bytes.now)) (map set bytes.now) room offset size align }
{
    match refusal(bytes.len() as u64, room, offset, size, align) {
        Some(reason) => Err(reason),
        None => { Ok(word_in_frame(part_of(bytes, offset as usize, size as usize))) }
    }
}

/// Whether so many bytes may be written into a cell with these bytes. The reasons are those of `load_of`.
pub fn against_write_of(
    bytes: &[u8],
    room: Option<Room>,
    offset: u64,
    size: u32,
    align: u32,
) -> Result<(), Reason>
    requires aligned { 0 < align }
    ensures { result ≡ tested (access_tests (octets (Some bytes.now)) (length (map set bytes.now)) room offset size align) tt }
{
    refused(refusal(bytes.len() as u64, room, offset, size, align))
}

/// The bytes of a cell with these bytes, from one on, as many as fit into `into`.
///
/// `OutOfObject`: not all of them are in it. Then nothing is written.
#[tactic(auto, using(crate::proofs::Parts::octets_from))]
pub fn read_of(bytes: &[u8], offset: u64, into: &mut [u8]) -> Result<(), Reason>
    requires short { length into.old < 2 ^ 32 }
    ensures value { leaves result into.new ≡ bytes_from (octets (Some bytes.now)) (map set bytes.now) offset (length into.old) }
    ensures kept { OnErr result (into.new ≡ into.old) }
    ensures length { length into.new ≡ length into.old }
{
    refused(refusal(bytes.len() as u64, None, offset, into.len() as u32, 1))?;
    into.copy_from_slice(part_of(bytes, offset as usize, into.len()));
    Ok(())
}

// Some bytes into as many places from one on, where all of them are set.
fn fill(bytes: &[Option<u8>], into: &mut [u8], at: usize) -> bool
    requires within { at + length bytes.now ≤ length into.old }
    ensures all { result ≡ all_set bytes.now }
    ensures value { result ≡ true → into.new ≡ put into.old at (map or_zero bytes.now) }
    ensures length { length into.new ≡ length into.old }
{
    let [first, rest @ ..] = bytes else {
        return true;
    };
    let Some(byte) = *first else {
        return false;
    };
    into[at] = byte;
    fill(rest, into, at + 1)
}

// Some bytes into as many places, unless one of them isn't set.
fn fill_all(bytes: &[Option<u8>], into: &mut [u8]) -> Result<(), Reason>
    requires as_many { length bytes.now ≡ length into.old }
    ensures value { leaves result into.new ≡ all_of bytes.now }
    ensures length { length into.new ≡ length into.old }
{
    if fill(bytes, into, 0) {
        Ok(())
    } else {
        Err(Reason::Unset)
    }
}

// The bytes of an object that lives, from one on.
#[tactic(auto, using(crate::proofs::Parts::set_from))]
fn read_set(bytes: &[Option<u8>], offset: u64, into: &mut [u8]) -> Result<(), Reason>
    requires short { length into.old < 2 ^ 32 }
    ensures value { leaves result into.new ≡ bytes_from (Bytes bytes.now) bytes.now offset (length into.old) }
    ensures length { length into.new ≡ length into.old }
{
    refused(refusal(bytes.len() as u64, None, offset, into.len() as u32, 1))?;
    let from = offset as usize;
    fill_all(&bytes[from..][..into.len()], into)
}

impl FrameMemory {
    /// The number of the next object, by which the library's cell is named that is lent now.
    #[tactic(auto, unfolding(crate::specs::State::sizes))]
    pub fn name(&mut self) -> u64
        ensures number { result ≡ cells.next_name self.old }
        ensures value { self.new ≡ with_name self.old }
        ensures sizes { sizes self.new ≡ sizes self.old }
    {
        let number = self.next_object;
        self.next_object = number.wrapping_add(1);
        number
    }

    /// Whether so many bytes may be written behind a pointer, which is told without writing them. The reasons are those of `store`.
    pub fn against_write(
        &self,
        frame: &[u8],
        pointer: Pointer,
        room: Option<Room>,
        size: u32,
        align: u32,
    ) -> Result<(), Reason>
        requires aligned { 0 < align }
        ensures { result ≡ tested (write_tests (record { own = self.now; frame = frame.now }) pointer room size align) tt }
    {
        match pointer.object {
            Object::Declared { node, number } => {
                self.refusal_declared(node, number, room, pointer.offset, size, align)
            }
            Object::Chunk { number } => {
                let Some(chunk) = chunk_of(self.chunk_list.as_slice(), number) else {
                    return Err(Reason::Dead);
                };
                let bytes = part_of(frame, chunk.from as usize, chunk.size as usize);
                refused(refusal(bytes.len() as u64, room, pointer.offset, size, align))
            }
            Object::Cell { .. } => Err(Reason::Dead),
        }
    }

    /// The bytes behind a pointer, as many as fit into `into`, at any alignment.
    ///
    /// The first that holds: `Dead`: the object lives no longer, or is a cell of the library. `OutOfObject`: not all of them are in it. `Unset`: one
    /// of them isn't set.
    pub fn read(&self, frame: &[u8], pointer: Pointer, into: &mut [u8]) -> Result<(), Reason>
        requires short { length into.old < 2 ^ 32 }
        ensures value { leaves result into.new ≡ bytes_of_state (record { own = self.now; frame = frame.now }) pointer (length into.old) }
        ensures length { length into.new ≡ length into.old }
    {
        match pointer.object {
            Object::Declared { node, number } => {
                let Some(local) = self.local_list.as_slice().get(node as usize) else {
                    return Err(Reason::Dead);
                };
                if local.run != self.run || local.number != number {
                    return Err(Reason::Dead);
                }
                read_set(local.bytes.as_slice(), pointer.offset, into)
            }
            Object::Chunk { number } => {
                let Some(chunk) = chunk_of(self.chunk_list.as_slice(), number) else {
                    return Err(Reason::Dead);
                };
                let bytes = part_of(frame, chunk.from as usize, chunk.size as usize);
                read_of(bytes, pointer.offset, into)
            }
            Object::Cell { .. } => Err(Reason::Dead),
        }
    }
}
