//! The chain: which indices are handed out, with their times, and which are free.
ghost use Rattle.std.specs.Prelude.{◌≡◌, ◌<◌, ◌≤◌, ◌+◌, ◌↔◌, ℕ, [], ◌∷◌, length, vec_len, slice_set, nat_lt, is_some, IsSome, IsNone, Some, IfOk};
ghost use Rattle.std.specs.Prelude.{IfSome, IfNone};
ghost use Rattle.std.specs.List.{range_with_len};
ghost use Rattle.vg_dchain.specs.ChainState.{ChainState, IsFree, IsLawful, time_at, oldest_below, after_allocation, after_rejuvenation, after_freeing};

use crate::ring::Ring;
use crate::spare::Spare;
use std::alloc::Global;
use std::marker::Model;
use std::sync::ledger::Ledger;
use vg_parts::{Memory, Steps};

/// Indices below a range, each free or handed out with the time of its last use. Times are in
/// nanoseconds and never fall. Each call that counts `steps` makes at most twelve accesses to links.
#[derive(Drop)]
pub struct Chain {
    by_age: Ring,
    spare: Spare,
    times: Vec<Option<u64>>,
    newest: u64,
}

impl Model for Chain {
    ghost use Rattle.std.specs.Prelude.{length};
    ghost use Rattle.vg_dchain.specs.ChainState.{ChainState};
    ghost use Rattle.vg_dchain.specs.Times.{stamps_of, IsChain};

    ghost Value = { ChainState };

    ghost view = { λ c. record {
      range = length c.times.items;
      entries = stamps_of c.times.items c.by_age.order;
      free = c.spare.order;
      highest = c.newest;
    } };

    ghost invariant = { λ c. IsChain c.by_age c.spare c.times.items c.newest };
}

// Notes the time at the index, and as the highest.
fn stamp(times: &mut Vec<Option<u64>>, newest: &mut u64, index: u32, now: u64)
    requires { index < vec_len times.old }
    ensures times { times.new.items ≡ slice_set times.old.items index (Some now) }
    ensures newest { newest.new ≡ now }
{
    times[index as usize] = Some(now);
    *newest = now;
}

fn is_older(time: u64, before: u64) -> bool
    ensures { result ≡ nat_lt time before }
{
    time < before
}

impl Chain {
    /// A chain whose indices below `range` are all free, to be handed out from 0 upwards.
    pub fn new(alloc: Global, range: u32) -> Result<Chain, Memory>
        ensures { IfOk result (λ made. made ≡ record { range = range; entries = []; free = range_with_len 0 range; highest = 0 }) }
    {
        let by_age = Ring::new(alloc, range)?;
        let spare = Spare::new(alloc, range)?;
        let Ok(times) = vec![in alloc; None; range as usize] else {
            return Err(Memory);
        };
        Ok(Chain {
            by_age,
            spare,
            times,
            newest: 0,
        })
    }

    /// Hands out the first free index, with this time. None where all are handed out.
    pub fn allocate<L: Ledger>(&mut self, now: u64, steps: &mut Steps<L>) -> Option<u32>
        requires { self.old.highest ≤ now }
        ensures full { IsNone result ↔ (length self.old.entries ≡ self.old.range) }
        ensures kept { IfNone result (self.new ≡ self.old) }
        ensures first { IfSome result (λ i. self.old.free ≡ i ∷ self.new.free) }
        ensures free { IfSome result (λ i. IsFree self.old i) }
        ensures allocated { IfSome result (λ i. self.new ≡ after_allocation self.old i now) }
        ensures cost { steps.new ≤ steps.old + 12 }
    {
        if self.spare.is_empty() {
            return None;
        }
        let index = self.spare.take(steps);
        self.by_age.push_last(index, steps);
        stamp(&mut self.times, &mut self.newest, index, now);
        Some(index)
    }

    /// Makes a handed-out index the youngest, with this time.
    pub fn rejuvenate<L: Ledger>(&mut self, index: u32, now: u64, steps: &mut Steps<L>)
        requires allocated { IsSome (time_at self.old.entries index) }
        requires time { self.old.highest ≤ now }
        ensures rejuvenated { self.new ≡ after_rejuvenation self.old index now }
        ensures cost { steps.new ≤ steps.old + 12 }
    {
        self.by_age.move_last(index, steps);
        stamp(&mut self.times, &mut self.newest, index, now);
    }

    /// Takes a handed-out index back. It is the next to be handed out.
    pub fn free<L: Ledger>(&mut self, index: u32, steps: &mut Steps<L>)
        requires { IsSome (time_at self.old.entries index) }
        ensures freed { self.new ≡ after_freeing self.old index }
        ensures cost { steps.new ≤ steps.old + 12 }
    {
        self.release(index, steps);
    }

    /// Takes back the oldest index whose time is below the bound. None where there is none.
    pub fn expire_one<L: Ledger>(&mut self, before: u64, steps: &mut Steps<L>) -> Option<u32>
        ensures oldest { result ≡ oldest_below before self.old.entries }
        ensures freed { IfSome result (λ i. self.new ≡ after_freeing self.old i) }
        ensures kept { IfNone result (self.new ≡ self.old) }
        ensures cost { steps.new ≤ steps.old + 12 }
    {
        if self.by_age.count() == 0 {
            return None;
        }
        let index = self.by_age.first(steps);
        if !is_older(self.time(index), before) {
            return None;
        }
        self.release(index, steps);
        Some(index)
    }

    // Frees a handed-out index, in seven accesses.
    fn release<L: Ledger>(&mut self, index: u32, steps: &mut Steps<L>)
        requires { IsSome (time_at self.old.entries index) }
        ensures freed { self.new ≡ after_freeing self.old index }
        ensures cost { steps.new ≡ steps.old + 7 }
    {
        self.by_age.remove(index, steps);
        self.spare.put(index, steps);
        self.times[index as usize] = None;
    }

    /// Whether an index below the range is handed out.
    pub fn is_allocated(&self, index: u32) -> bool
        requires { index < self.now.range }
        ensures { result ≡ is_some (time_at self.now.entries index) }
    {
        self.times[index as usize].is_some()
    }

    /// The time of a handed-out index's last use.
    pub fn time(&self, index: u32) -> u64
        requires { IsSome (time_at self.now.entries index) }
        ensures { time_at self.now.entries index ≡ Some result }
    {
        self.times[index as usize].unwrap_or(0)
    }

    /// How many indices are handed out.
    pub fn count(&self) -> u32
        ensures count { result ≡ length self.now.entries }
        ensures lawful { IsLawful self.now }
    {
        self.by_age.count()
    }

    /// The highest time that the chain was told.
    pub fn highest(&self) -> u64
        ensures { result ≡ self.now.highest }
    {
        self.newest
    }
}
