//! What a run has beside the frame.
ghost use Rattle.std.specs.Prelude.{◌≡◌, ◌∷◌, ◌++◌, [], length, IfOk, OnErr, None};
ghost use Rattle.vg_cmemory.specs.State as state;
ghost use Rattle.vg_cmemory.specs.State.{sizes, with_node, take_back_all, tick, declare, end_life, hold, start_of, start, slot, points_of};

use crate::local::{Local, begin, end, hold};
use crate::object::{Chunk, Object, Pointer};
use crate::runs::next_run;
use arrayvec::ArrayVec;
use std::alloc::{AllocError, Global};
use std::marker::Model;

/// The memory of a run of a C function beside the frame, and the count of its steps.
#[derive(Drop)]
pub struct FrameMemory {
    pub(crate) local_list: Vec<Local>,
    pub(crate) chunk_list: ArrayVec<Chunk, 16>,
    pub(crate) run: u64,
    pub(crate) next: u32,
    pub(crate) taken: u32,
    pub(crate) next_object: u64,
}

impl Model for FrameMemory {
    ghost use Rattle.vg_cmemory.specs.State.{Own};

    ghost Value = { Own };

    ghost use Rattle.vg_cmemory.specs.Kept.{slots_of, AreOfRuns};

    ghost view = { λ m. record {
      slots = slots_of m.run m.local_list.items;
      chunks = m.chunk_list.items;
      lent = m.next;
      steps = m.taken;
      born =
          m.next_object;
    } };

    ghost invariant = { λ m. AreOfRuns m.run m.local_list.items };
}

impl FrameMemory {
    /// The memory of a text of no nodes.
    #[tactic(auto, unfolding(crate::specs::State::sizes))]
    pub fn new(alloc: Global) -> FrameMemory
        ensures value { result ≡ start [] }
        ensures sizes { sizes result ≡ [] }
    {
        FrameMemory {
            local_list: Vec::new(alloc),
            chunk_list: ArrayVec::new(),
            run: 1,
            next: 0,
            taken: 0,
            next_object: 1,
        }
    }

    /// One node more, whose objects have so many bytes.
    #[tactic(auto, using(crate::proofs::Slots::sizes_more))]
    pub fn add(&mut self, alloc: Global, size: u32) -> Result<(), AllocError>
        ensures value { IfOk result (λ _. self.new ≡ with_node size self.old) }
        ensures sizes { IfOk result (λ _. sizes self.new ≡ sizes self.old ++ size ∷ []) }
    {
        self.add_node(alloc, size)?;
        Ok(())
    }

    fn add_node(&mut self, alloc: Global, size: u32) -> Result<(), AllocError>
        ensures { IfOk result (λ _. self.new ≡ with_node size self.old) }
    {
        let bytes = vec![in alloc; None; size as usize]?;
        self.local_list.push(Local {
            bytes,
            points: None,
            number: 0,
            run: 0,
        })?;
        Ok(())
    }

    /// Begins a run anew: nothing lives or is lent, and no step is taken. It takes as long for a text of any size.
    #[tactic(auto, using(crate::proofs::Slots::sizes_at_rest), unfolding(crate::specs::State::sizes))]
    pub fn restart(&mut self)
        ensures value { self.new ≡ start (sizes self.old) }
        ensures sizes { sizes self.new ≡ sizes self.old }
    {
        self.run = next_run(&mut self.local_list, self.run);
        self.chunk_list.clear();
        self.next = 0;
        self.taken = 0;
        self.next_object = 1;
    }

    /// Takes back all chunks that are lent.
    #[tactic(auto, unfolding(crate::specs::State::sizes))]
    pub fn take_back_all(&mut self)
        ensures value { self.new ≡ take_back_all self.old }
        ensures sizes { sizes self.new ≡ sizes self.old }
    {
        self.chunk_list.clear();
        self.next = 0;
    }

    /// Counts a step, up to the greatest number of 32 bits.
    #[tactic(auto, unfolding(crate::specs::State::sizes))]
    pub fn tick(&mut self)
        ensures value { self.new ≡ tick self.old }
        ensures sizes { sizes self.new ≡ sizes self.old }
    {
        if self.taken < u32::MAX {
            self.taken += 1;
        }
    }

    /// How many steps were taken.
    pub fn steps(&self) -> u32
        ensures { result ≡ self.now.steps }
    {
        self.taken
    }

    /// How many chunks are lent.
    pub fn chunks_out(&self) -> u32
        ensures { result ≡ length self.now.chunks }
    {
        self.chunk_list.len() as u32
    }

    /// A new object of the declaration with this node, of which nothing is set (C11 6.2.4, 6.7.9).
    #[tactic(auto, using(crate::proofs::Slots::sizes_declare))]
    pub fn declare(&mut self, node: u32)
        ensures value { self.new ≡ declare node self.old }
        ensures sizes { sizes self.new ≡ sizes self.old }
    {
        let number = self.next_object;
        self.next_object = number.wrapping_add(1);
        let run = self.run;
        if (node as usize) < self.local_list.len() {
            begin(&mut self.local_list[node as usize], run, number);
        }
    }

    /// The object of the declaration with this node lives no longer.
    #[tactic(auto, using(crate::proofs::Slots::sizes_end_life))]
    pub fn end_life(&mut self, node: u32)
        ensures value { self.new ≡ end_life node self.old }
        ensures sizes { sizes self.new ≡ sizes self.old }
    {
        let run = self.run;
        if (node as usize) < self.local_list.len() {
            end(&mut self.local_list[node as usize], run);
        }
    }

    /// Sets the pointer variable that a node declares.
    #[tactic(auto, using(crate::proofs::Slots::sizes_hold))]
    pub fn hold(&mut self, node: u32, pointer: Pointer)
        ensures value { self.new ≡ hold node pointer self.old }
        ensures sizes { sizes self.new ≡ sizes self.old }
    {
        let run = self.run;
        if (node as usize) < self.local_list.len() {
            hold(&mut self.local_list[node as usize], run, pointer);
        }
    }

    /// The pointer in the pointer variable that a node declares, where it is set.
    pub fn held(&self, node: u32) -> Option<Pointer>
        ensures { result ≡ points_of (slot self.now node).life }
    {
        let local = self.local_list.as_slice().get(node as usize)?;
        if local.run == self.run {
            local.points
        } else {
            None
        }
    }

    /// The start of the object that the declaration with this node made last; of none where that lives no longer.
    pub fn start_of(&self, node: u32) -> Pointer
        ensures { result ≡ start_of self.now node }
    {
        let number = self.number(node);
        Pointer {
            object: Object::Declared { node, number },
            offset: 0,
        }
    }

    fn number(&self, node: u32) -> u64
        ensures { result ≡ state.number_of (slot self.now node).life }
    {
        match self.local_list.as_slice().get(node as usize) {
            Some(local) => {
                if local.run == self.run {
                    local.number
                } else {
                    0
                }
            }
            None => 0,
        }
    }
}
