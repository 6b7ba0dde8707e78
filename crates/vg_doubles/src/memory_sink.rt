//! A sink in memory, which tells all that was written.
ghost use Rattle.std.specs.Prelude.{◌≤◌, vec_len, vec_capacity};

use crate::calls::Calls;
use std::alloc::Global;
use vg_base::{Failed, Sink};
use vg_parts::Memory;

/// A sink in memory. Which of its calls fail can be known beforehand: the numbers of some are given, and only so many
/// bytes are taken.
#[derive(Drop)]
pub struct MemSink {
    calls: Calls,
    made: Vec<u8>,
    room: u64,
    faults: u64,
    ghost reserved: { room ≤ vec_capacity made },
    ghost within: { vec_len made ≤ room },
}

impl MemSink {
    ghost use Rattle.std.specs.Prelude.{◌≡◌, IfOk, IsTrue};
    ghost use Rattle.vg_base.specs.Sink.{IsFresh};
    ghost use Rattle.vg_doubles.specs.MemorySink.{flow_of, plan_of, room_of};

    /// A sink that takes `room` bytes. The calls with the numbers `fails`, counted from 1, fail. All memory is taken here.
    pub fn new(alloc: Global, room: u64, fails: Vec<u64>) -> Result<MemSink, Memory>
        ensures told { IfOk result (λ m. IsTrue (flow_of m).tells_made) }
        ensures fresh { IfOk result (λ m. IsFresh (flow_of m)) }
        ensures plan { IfOk result (λ m. plan_of m ≡ record { calls = 0; fails = fails.items }) }
        ensures room { IfOk result (λ m. room_of m ≡ room) }
    {
        let Ok(made) = Vec::with_capacity(alloc, room as usize) else {
            return Err(Memory);
        };
        Ok(MemSink {
            calls: Calls::new(fails),
            made,
            room,
            faults: 0,
        })
    }

    /// What was written.
    pub fn written(&self) -> &[u8]
        ensures { result.now ≡ (flow_of self.now).made }
    {
        self.made.as_slice()
    }
}

impl Sink for MemSink {
    ghost use Rattle.std.specs.Prelude.{◌≡◌, is_err, IfOk};
    ghost use Rattle.vg_base.specs.Sink.{FlowsSome};
    ghost use Rattle.vg_doubles.specs.Plan.{write_fails, later, taken};
    ghost use Rattle.vg_doubles.specs.MemorySink.{flow_of, plan_of, room_of};

    ghost flow = { flow_of };

    fn write(&mut self, piece: &[u8]) -> Result<usize, Failed>
        ensures writes { FlowsSome (flow_of self.old) (flow_of self.new) piece.now result }
        ensures fails { is_err result ≡ write_fails (plan_of self.old) (room_of self.old) (flow_of self.old).made piece.now }
        ensures taken { IfOk result (λ n. n ≡ taken (room_of self.old) (flow_of self.old).made piece.now) }
        ensures plan { plan_of self.new ≡ later (plan_of self.old) }
        ensures room { room_of self.new ≡ room_of self.old }
    {
        let left = self.room as usize - self.made.len();
        let n = left.min(piece.len());
        if self.calls.next_fails() || (n == 0 && !piece.is_empty()) {
            self.faults = self.faults.saturating_add(1);
            return Err(Failed);
        }
        let (front, _) = piece.split_at(n);
        let Ok(()) = self.made.extend_from_slice(front) else {
            unreachable!();
        };
        Ok(n)
    }
}
