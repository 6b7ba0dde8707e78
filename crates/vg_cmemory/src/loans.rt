//! Chunks of the frame, borrowed and given back.
ghost use Rattle.std.specs.Prelude.{◌≡◌, ◌≤◌, ◌<◌, ◌+◌, length, OnOk, OnErr, IfOk, Ok, slice_get};
ghost use Rattle.vg_cint.specs.Tests.{tested};
ghost use Rattle.vg_cmemory.specs.Access.{leaves};
ghost use Rattle.vg_cmemory.specs.State.{sizes};
ghost use Rattle.vg_cmemory.specs.Loans as loans;
ghost use Rattle.vg_cmemory.specs.Loans.{start_of_loan, is_start, last_chunk};

use crate::frame_calls::{FrameCall, row_of};
use crate::memory::FrameMemory;
use crate::object::{Chunk, Object, Pointer};
use vg_core::Reason;

// Whether a pointer is the start of a chunk.
fn is_start(pointer: Pointer, chunk: Option<Chunk>) -> bool
    ensures { result ≡ is_start pointer chunk }
{
    match (pointer.object, chunk) {
        (Object::Chunk { number }, Some(chunk)) => number == chunk.number && pointer.offset == 0,
        _ => false,
    }
}

impl FrameMemory {
    // Whether so many bytes can be lent.
    fn against_loan(&self, frame_length: u32, count: u64) -> Result<(), Reason>
        ensures value { result ≡ tested (loans.borrow_tests self.now frame_length count) tt }
        ensures within { OnOk result (self.now.lent + count ≤ frame_length) }
        ensures few { OnOk result (length self.now.chunks < 16) }
    {
        if count == 0 {
            return Err(Reason::Before(row_of(FrameCall::Borrow)));
        }
        if self.next > frame_length || u64::from(frame_length - self.next) < count {
            return Err(Reason::Before(row_of(FrameCall::Borrow)));
        }
        if self.chunk_list.len() < 16 {
            Ok(())
        } else {
            Err(Reason::Before(row_of(FrameCall::Borrow)))
        }
    }

    fn last_chunk(&self) -> Option<Chunk>
        ensures { result ≡ last_chunk self.now }
    {
        let count = self.chunk_list.len();
        if count == 0 {
            return None;
        }
        self.chunk_list.as_slice().get(count - 1).copied()
    }

    /// Lends the next bytes of a frame of `frame_length` bytes, and answers a pointer to the first.
    ///
    /// `Before(2)`: no byte is asked for, or more than are left, or 16 chunks are lent. Then nothing changes.
    #[tactic(auto, unfolding(crate::specs::State::sizes))]
    pub fn borrow(&mut self, frame_length: u32, count: u64) -> Result<Pointer, Reason>
        ensures value { leaves result self.new ≡ loans.borrow self.old frame_length count }
        ensures start { IfOk result (λ p. p ≡ start_of_loan self.old) }
        ensures kept { OnErr result (self.new ≡ self.old) }
        ensures sizes { sizes self.new ≡ sizes self.old }
    {
        self.against_loan(frame_length, count)?;
        let number = self.next_object;
        let from = self.next;
        let size = count as u32;
        self.chunk_list.push(Chunk { number, from, size });
        self.next = from + size;
        self.next_object = number.wrapping_add(1);
        Ok(Pointer {
            object: Object::Chunk { number },
            offset: 0,
        })
    }

    /// Takes back the chunk that was lent last.
    ///
    /// `Before(3)`: the pointer isn't its start, or no chunk is lent. Then nothing changes.
    #[tactic(auto, unfolding(crate::specs::State::sizes))]
    pub fn give_back(&mut self, pointer: Pointer) -> Result<(), Reason>
        ensures value { leaves result self.new ≡ loans.give_back self.old pointer }
        ensures kept { OnErr result (self.new ≡ self.old) }
        ensures sizes { sizes self.new ≡ sizes self.old }
    {
        let last = self.last_chunk();
        if !is_start(pointer, last) {
            return Err(Reason::Before(row_of(FrameCall::Return)));
        }
        if let Some(chunk) = self.chunk_list.pop() {
            self.next = chunk.from;
        }
        Ok(())
    }
}
