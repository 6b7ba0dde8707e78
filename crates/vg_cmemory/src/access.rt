//! Reads and writes of objects.
ghost use Rattle.std.specs.Prelude.{◌≡◌, ◌≤◌, ◌<◌, ◌+◌, ◌-◌, ◌^◌, IfNone, OnOk, OnErr, Some, List, ℕ, length, map};
ghost use Rattle.vg_cmemory.specs.Access as accesses;
ghost use Rattle.vg_cmemory.specs.Access.{Bytes, Lent, place_tests, access_tests, write_tests, put, load_from, bytes_of, content_of_chunk};
ghost use Rattle.vg_cmemory.specs.Access.{content_of_option, load, store, leaves, ends_at, part, bytes_of_word, set};
ghost use Rattle.vg_cmemory.specs.State.{sizes};
ghost use Rattle.vg_cint.specs.Tests.{first_against, unless, tested};

use crate::bytes::{put_in_frame, word_in_frame, word_of};
use crate::local::write;
use crate::memory::FrameMemory;
use crate::object::{Chunk, Object, Pointer, Room};
use vg_core::Reason;

/// Whether so many bytes from an offset on are in a room. Where none is given, they are.
pub fn lies_in(room: Option<Room>, offset: u64, size: u64) -> bool
    ensures { result ≡ accesses.lies_in room offset size }
{
    match room {
        Some(room) => {
            let at = offset.wrapping_sub(room.from);
            at <= room.size && size <= room.size - at
        }
        None => true,
    }
}

// The first reason against an access to an object of so many bytes that lives.
pub(crate) fn refusal(
    bytes: u64,
    room: Option<Room>,
    offset: u64,
    size: u32,
    align: u32,
) -> Option<Reason>
    requires aligned { 0 < align }
    ensures value { result ≡ first_against (place_tests bytes room offset size align) }
    ensures within { IfNone result (offset + size ≤ bytes) }
{
    if offset > bytes || bytes - offset < u64::from(size) {
        return Some(Reason::OutOfObject);
    }
    if !lies_in(room, offset, u64::from(size)) {
        return Some(Reason::OutOfObject);
    }
    if offset % u64::from(align) != 0 {
        return Some(Reason::Misaligned);
    }
    None
}

fn load_bytes(
    bytes: &[Option<u8>],
    room: Option<Room>,
    offset: u64,
    size: u32,
    align: u32,
) -> Result<u64, Reason>
    requires at_most_a_word { size ≤ 8 }
    requires aligned { 0 < align }
    ensures { result ≡ load_from (Bytes bytes.now) bytes.now room offset size align }
{
    if let Some(reason) = refusal(bytes.len() as u64, room, offset, size, align) {
        return Err(reason);
    }
    let from = offset as usize;
    match word_of(&bytes[from..][..size as usize]) {
        Some(word) => Ok(word),
        None => Err(Reason::Unset),
    }
}

pub(crate) fn chunk_of(chunks: &[Chunk], number: u64) -> Option<Chunk>
    ensures { content_of_option result ≡ content_of_chunk chunks.now number }
{
    match chunks {
        [] => None,
        [first, rest @ ..] => {
            if first.number == number {
                return Some(*first);
            }
            chunk_of(rest, number)
        }
    }
}

// So many bytes from one on, as far as there are.
pub(crate) fn part_of(bytes: &[u8], from: usize, size: usize) -> &[u8]
    ensures { result.now ≡ part bytes.now from size }
{
    let behind = &bytes[from.min(bytes.len())..];
    &behind[..size.min(behind.len())]
}

// A refusal as a fault.
pub(crate) fn refused(reason: Option<Reason>) -> Result<(), Reason>
    ensures { result ≡ unless reason tt }
{
    match reason {
        Some(reason) => Err(reason),
        None => Ok(()),
    }
}

impl FrameMemory {
    /// Whether a pointer stands just past the end of an object that lives (C11 6.5.6 p8).
    pub fn ends_at(&self, frame: &[u8], pointer: Pointer) -> bool
        ensures { result ≡ ends_at (record { own = self.now; frame = frame.now }) pointer }
    {
        match pointer.object {
            Object::Declared { node, number } => {
                let Some(local) = self.local_list.as_slice().get(node as usize) else {
                    return false;
                };
                local.run == self.run
                    && local.number == number
                    && pointer.offset == local.bytes.len() as u64
            }
            Object::Chunk { number } => {
                let Some(chunk) = chunk_of(self.chunk_list.as_slice(), number) else {
                    return false;
                };
                let bytes = part_of(frame, chunk.from as usize, chunk.size as usize);
                pointer.offset == bytes.len() as u64
            }
            Object::Cell { .. } => false,
        }
    }

    /// The word of so many bytes behind a pointer, little-endian.
    ///
    /// The first that holds: `Dead`: the object lives no longer, or is a cell of the library, whose bytes aren't here. `OutOfObject`: not all of the
    /// bytes are in it, or in the room that is given.
    /// `Misaligned`: the offset isn't a multiple of `align`. `Unset`: one of the bytes isn't set.
    pub fn load(
        &self,
        frame: &[u8],
        pointer: Pointer,
        room: Option<Room>,
        size: u32,
        align: u32,
    ) -> Result<u64, Reason>
        requires at_most_a_word { size ≤ 8 }
        requires aligned { 0 < align }
        ensures { result ≡ load (record { own = self.now; frame = frame.now }) pointer room size align }
    {
        match pointer.object {
            Object::Declared { node, number } => {
                let Some(local) = self.local_list.as_slice().get(node as usize) else {
                    return Err(Reason::Dead);
                };
                if local.run != self.run || local.number != number {
                    return Err(Reason::Dead);
                }
                load_bytes(local.bytes.as_slice(), room, pointer.offset, size, align)
            }
            Object::Chunk { number } => {
                let Some(chunk) = chunk_of(self.chunk_list.as_slice(), number) else {
                    return Err(Reason::Dead);
                };
                load_lent(frame, chunk, room, pointer.offset, size, align)
            }
            Object::Cell { .. } => Err(Reason::Dead),
        }
    }

    /// Writes the low bytes of a word, so many, behind a pointer, little-endian.
    ///
    /// The first that holds, and then nothing is written: `Dead`: the object lives no longer, or is a cell of the library. `OutOfObject`: not all of
    /// the bytes are in it, or in the room that is given. `Misaligned`: the offset isn't a multiple of `align`.
    pub fn store(
        &mut self,
        frame: &mut [u8],
        pointer: Pointer,
        room: Option<Room>,
        size: u32,
        align: u32,
        word: u64,
    ) -> Result<(), Reason>
        requires aligned { 0 < align }
        ensures value { leaves result (record { own = self.new; frame = frame.new }) ≡ store (record { own = self.old; frame = frame.old }) pointer
            room size align word }
        ensures kept { OnErr result (self.new ≡ self.old) }
        ensures frame_kept { OnErr result (frame.new ≡ frame.old) }
        ensures sizes { sizes self.new ≡ sizes self.old }
    {
        match pointer.object {
            Object::Declared { node, number } => {
                self.store_declared(node, number, room, pointer.offset, size, align, word)
            }
            Object::Chunk { number } => {
                let Some(chunk) = chunk_of(self.chunk_list.as_slice(), number) else {
                    return Err(Reason::Dead);
                };
                store_lent(frame, chunk, room, pointer.offset, size, align, word)
            }
            Object::Cell { .. } => Err(Reason::Dead),
        }
    }

    fn store_declared(
        &mut self,
        node: u32,
        number: u64,
        room: Option<Room>,
        offset: u64,
        size: u32,
        align: u32,
        word: u64,
    ) -> Result<(), Reason>
        requires aligned { 0 < align }
        ensures value { (frame : List ℕ) → leaves result (record { own = self.new; frame = frame }) ≡ store (record { own = self.old; frame = frame })
            (record { object = Object.Declared node number; offset = offset }) room size align word }
        ensures kept { OnErr result (self.new ≡ self.old) }
        ensures sizes { sizes self.new ≡ sizes self.old }
    {
        self.refusal_declared(node, number, room, offset, size, align)?;
        self.write(node, offset, size, word);
        Ok(())
    }

    // The first reason against an access to the object that a declaration made with this number.
    pub(crate) fn refusal_declared(
        &self,
        node: u32,
        number: u64,
        room: Option<Room>,
        offset: u64,
        size: u32,
        align: u32,
    ) -> Result<(), Reason>
        requires aligned { 0 < align }
        ensures value { (frame : List ℕ)
            → result ≡ tested (write_tests (record { own = self.now; frame = frame }) (record {
              object = Object.Declared node number;
              offset =
                  offset;
            }) room size align) tt }
        ensures near { OnOk result (offset + size < 2 ^ 64) }
    {
        let Some(local) = self.local_list.as_slice().get(node as usize) else {
            return Err(Reason::Dead);
        };
        if local.run != self.run || local.number != number {
            return Err(Reason::Dead);
        }
        refused(refusal(local.bytes.len() as u64, room, offset, size, align))
    }

    fn write(&mut self, node: u32, at: u64, size: u32, word: u64)
        requires near { at + size < 2 ^ 64 }
        ensures value { self.new ≡ accesses.written_in node at (bytes_of_word size word) self.old }
        ensures sizes { sizes self.new ≡ sizes self.old }
    {
        let run = self.run;
        if (node as usize) < self.local_list.len() {
            write(&mut self.local_list[node as usize], run, at, size, word);
        }
    }
}

fn load_lent(
    frame: &[u8],
    chunk: Chunk,
    room: Option<Room>,
    offset: u64,
    size: u32,
    align: u32,
) -> Result<u64, Reason>
    requires at_most_a_word { size ≤ 8 }
    requires aligned { 0 < align }
    ensures { result ≡ load_from (Lent chunk.from chunk.size) (bytes_of frame.now (Lent chunk.from chunk.size)) room offset size align }
{
    load_set(
        part_of(frame, chunk.from as usize, chunk.size as usize),
        chunk,
        room,
        offset,
        size,
        align,
    )
}

// A read of a chunk with these bytes.
#[tactic(auto, using(crate::proofs::Parts::chunk_read))]
fn load_set(
    bytes: &[u8],
    chunk: Chunk,
    room: Option<Room>,
    offset: u64,
    size: u32,
    align: u32,
) -> Result<u64, Reason>
    requires at_most_a_word { size ≤ 8 }
    requires aligned { 0 < align }
    ensures { result ≡ load_from (Lent chunk.from chunk.size) (map set bytes.now) room offset size align }
{
    match refusal(bytes.len() as u64, room, offset, size, align) {
        Some(reason) => Err(reason),
        None => { Ok(word_in_frame(part_of(bytes, offset as usize, size as usize))) }
    }
}

fn store_lent(
    frame: &mut [u8],
    chunk: Chunk,
    room: Option<Room>,
    offset: u64,
    size: u32,
    align: u32,
    word: u64,
) -> Result<(), Reason>
    requires aligned { 0 < align }
    ensures value { leaves result frame.new ≡ tested (access_tests (Lent chunk.from chunk.size)
        (length (bytes_of frame.old (Lent chunk.from chunk.size))) room offset size align)
        (put frame.old (chunk.from + offset) (bytes_of_word size word)) }
    ensures kept { OnErr result (frame.new ≡ frame.old) }
{
    let bytes = part_of(frame, chunk.from as usize, chunk.size as usize).len() as u64;
    refused(refusal(bytes, room, offset, size, align))?;
    put_in_frame(frame, u64::from(chunk.from) + offset, size, word);
    Ok(())
}
