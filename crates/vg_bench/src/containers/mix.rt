//! The mix of an address translator: each packet makes old flows expire, then finds its own or begins it.
ghost use Rattle.std.specs.Prelude.{◌<◌, ◌≤◌, ◌≡◌, ◌+◌, None, IfOk};
ghost use Rattle.std.specs.FinMap as map;
ghost use Rattle.vg_bench.specs.Sizes.{AreSized};

use super::CAPACITY;
use crate::keys::{Key, flow_of, key_of, next_state};
use std::alloc::Global;
use std::marker::Brand;
use std::sync::ledger::{Blank, Ledger};
use vg_dchain::Chain;
use vg_map::HashMapFixed;
use vg_parts::{Memory, Steps};

// How many nanoseconds lie between two packets.
const BETWEEN: u64 = 1_000;

// How many nanoseconds a flow is kept after its last packet: that is 200,000 packets.
const SPAN: u64 = 200_000_000;

/// What the packets of a run met.
#[derive(Clone, Copy, Debug, PartialEq, Eq)]
pub struct Counts {
    /// Packets of flows that were in the table.
    pub found: u32,
    /// Packets that began a flow.
    pub new: u32,
    /// Flows that were taken out for their age.
    pub expired: u64,
}

// What a packet met.
#[derive(Clone, Copy)]
enum Met {
    Found,
    New,
    // No index was free. This can't be: there are no more flows than indices.
    Nothing,
}

// The flows that are remembered: the index of each key, the ages of the indices, and the key of each index.
#[derive(Drop)]
struct Flows {
    indices: HashMapFixed,
    ages: Chain,
    keys: Vec<Key>,
}

impl Flows {
    fn new(alloc: Global) -> Result<Flows, Memory>
        ensures sized { IfOk result (λ flows. AreSized flows.indices flows.ages) }
        ensures young { IfOk result (λ flows. flows.ages.highest ≡ 0) }
    {
        let Ok(indices) = HashMapFixed::new(alloc, CAPACITY, 13) else {
            return Err(Memory);
        };
        let ages = Chain::new(alloc, CAPACITY)?;
        let Ok(keys) = vec![in alloc; [0; 13]; CAPACITY as usize] else {
            return Err(Memory);
        };
        Ok(Flows {
            indices,
            ages,
            keys,
        })
    }

    // Takes the key of an index out of the map.
    fn forget(&mut self, index: u32)
        requires { AreSized self.old.indices self.old.ages }
        ensures sized { AreSized self.new.indices self.new.ages }
        ensures ages { self.new.ages ≡ self.old.ages }
    {
        let Some(key) = self.keys.get(index as usize) else {
            return;
        };
        if self.indices.get(key).is_some() {
            self.indices.erase(key);
        }
    }

    // Takes out the flows whose last packet came before a time, and counts them.
    fn expire<L: Ledger>(&mut self, before: u64, steps: &mut Steps<L>) -> u32
        requires { AreSized self.old.indices self.old.ages }
        ensures sized { AreSized self.new.indices self.new.ages }
        ensures highest { self.new.ages.highest ≡ self.old.ages.highest }
        ensures count { result ≤ 65536 }
    {
        let mut expired = 0;
        for _turn in 0..self.ages.count() {
            let Some(index) = self.ages.expire_one(before, steps) else {
                return expired;
            };
            self.forget(index);
            expired += 1;
        }
        expired
    }

    // Notes that a flow's packet came.
    fn refresh<L: Ledger>(&mut self, index: u32, now: u64, steps: &mut Steps<L>) -> Met
        requires sized { AreSized self.old.indices self.old.ages }
        requires time { self.old.ages.highest ≤ now }
        ensures sized { AreSized self.new.indices self.new.ages }
        ensures time { self.new.ages.highest ≤ now }
    {
        if index >= CAPACITY || !self.ages.is_allocated(index) {
            return Met::Nothing;
        }
        self.ages.rejuvenate(index, now, steps);
        Met::Found
    }

    // Begins a flow, where an index is free.
    fn begin<L: Ledger>(&mut self, key: &Key, now: u64, steps: &mut Steps<L>) -> Met
        requires sized { AreSized self.old.indices self.old.ages }
        requires time { self.old.ages.highest ≤ now }
        requires absent { map.get self.old.indices.indices key.now ≡ None }
        ensures sized { AreSized self.new.indices self.new.ages }
        ensures time { self.new.ages.highest ≤ now }
    {
        if self.indices.size() >= CAPACITY {
            return Met::Nothing;
        }
        let Some(index) = self.ages.allocate(now, steps) else {
            return Met::Nothing;
        };
        if let Some(place) = self.keys.get_mut(index as usize) {
            *place = *key;
        }
        self.indices.put(key, index);
        Met::New
    }

    // A packet of the flow with this key comes.
    fn handle<L: Ledger>(&mut self, key: &Key, now: u64, steps: &mut Steps<L>) -> Met
        requires sized { AreSized self.old.indices self.old.ages }
        requires time { self.old.ages.highest ≤ now }
        ensures sized { AreSized self.new.indices self.new.ages }
        ensures time { self.new.ages.highest ≤ now }
    {
        match self.indices.get(key) {
            Some(index) => self.refresh(index, now, steps),
            None => self.begin(key, now, steps),
        }
    }
}

// What so many packets met.
fn packets<L: Ledger>(alloc: Global, count: u32, blank: Blank) -> Result<Counts, Memory>
    requires name { blank.name ≡ L.name }
    requires parts { blank.parts ≡ L.parts }
    requires backed { 0 < blank.parts }
    ensures { IfOk result (λ counts. counts.found + counts.new ≤ count) }
{
    let mut steps = Steps::<L>::new(blank);
    let mut flows = Flows::new(alloc)?;
    let mut state = 1;
    let (mut found, mut new, mut expired) = (0, 0, 0);
    for turn in 0..count {
        state = next_state(state);
        let now = turn as u64 * BETWEEN;
        expired += flows.expire(now.saturating_sub(SPAN), &mut steps) as u64;
        match flows.handle(&key_of(flow_of(state)), now, &mut steps) {
            Met::Found => found += 1,
            Met::New => new += 1,
            Met::Nothing => {}
        }
    }
    Ok(Counts {
        found,
        new,
        expired,
    })
}

/// What so many packets of made flows met, a microsecond apart. Each flow is kept for 0.2 seconds after its last packet.
pub fn mix(alloc: Global, count: u32) -> Result<Counts, Memory>
    ensures { IfOk result (λ counts. counts.found + counts.new ≤ count) }
{
    packets::<Brand>(alloc, count, Blank::new(1))
}

#[cfg(test)]
mod tests;
