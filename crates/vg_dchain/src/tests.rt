ghost use Rattle.std.specs.Prelude.{◌≡◌, ◌<◌, ◌≤◌};

use super::*;
use std::alloc::{AllocError, Global};
use std::marker::Brand;
use std::sync::ledger::{Blank, Ledger};
use std::test::Fail;
use vg_parts::{Memory, Steps};

// What three allocations at 1, 2 and 3 hand out; then 0 is used at 4, and what is older than 4
// expires, one by one; then what is handed out next.
fn three<L: Ledger>(alloc: Global, blank: Blank) -> Result<[Option<u32>; 7], Memory>
    requires name { blank.name ≡ L.name }
    requires parts { blank.parts ≡ L.parts }
    requires backed { 0 < blank.parts }
{
    let mut steps = Steps::<L>::new(blank);
    let mut chain = Chain::new(alloc, 3)?;
    let first = chain.allocate(1, &mut steps);
    let second = chain.allocate(2, &mut steps);
    let third = chain.allocate(3, &mut steps);
    if chain.is_allocated(0) && chain.highest() <= 4 {
        chain.rejuvenate(0, 4, &mut steps);
    }
    let oldest = chain.expire_one(4, &mut steps);
    let next = chain.expire_one(4, &mut steps);
    let none = chain.expire_one(4, &mut steps);
    let again = allocate(&mut chain, 4, &mut steps);
    Ok([first, second, third, oldest, next, none, again])
}

// Hands out an index where the time isn't below the highest.
fn allocate<L: Ledger>(chain: &mut Chain, now: u64, steps: &mut Steps<L>) -> Option<u32>
    ensures { chain.new.range ≡ chain.old.range }
{
    if chain.highest() > now {
        return None;
    }
    chain.allocate(now, steps)
}

#[test]
fn a_chain_of_three(rt: HostRuntime) -> Result<(), Fail> {
    let seen = three::<Brand>(rt.alloc(), Blank::new(1)).expect(&rt, "room for a chain of three");
    let want = [Some(0), Some(1), Some(2), Some(1), Some(2), None, Some(2)];
    assert_eq!(rt; seen, want);
    Ok(())
}

// A chain of no index hands out and expires none; one of a single index hands it out again and again.
fn none_or_one<L: Ledger>(alloc: Global, blank: Blank) -> Result<[Option<u32>; 7], Memory>
    requires name { blank.name ≡ L.name }
    requires parts { blank.parts ≡ L.parts }
    requires backed { 0 < blank.parts }
{
    let mut steps = Steps::<L>::new(blank);
    let mut empty = Chain::new(alloc, 0)?;
    let mut single = Chain::new(alloc, 1)?;
    let none = allocate(&mut empty, 5, &mut steps);
    let no_older = empty.expire_one(u64::MAX, &mut steps);
    let only = allocate(&mut single, 5, &mut steps);
    let no_more = allocate(&mut single, 5, &mut steps);
    let as_old = single.expire_one(5, &mut steps);
    let older = single.expire_one(6, &mut steps);
    let again = allocate(&mut single, 6, &mut steps);
    Ok([none, no_older, only, no_more, as_old, older, again])
}

#[test]
fn chains_of_none_and_one(rt: HostRuntime) -> Result<(), Fail> {
    let seen = none_or_one::<Brand>(rt.alloc(), Blank::new(1)).expect(&rt, "room for one index");
    assert_eq!(rt; seen, [None, None, Some(0), None, None, Some(0), Some(0)]);
    Ok(())
}

const RANGE: u32 = 5;

/// The same as plain lists: the entries by age, and the free indices, the last handed out first.
#[derive(Drop)]
struct Plain {
    entries: Vec<(u32, u64)>,
    free: Vec<u32>,
}

impl Plain {
    fn time(&self, index: u32) -> Option<u64> {
        let at = self.entries.iter().position(|entry| entry.0 == index)?;
        Some(self.entries[at].1)
    }

    fn drop_entry(&mut self, index: u32) {
        self.entries.retain(|entry| entry.0 != index);
    }

    fn allocate(&mut self, now: u64) -> Result<Option<u32>, AllocError> {
        let Some(index) = self.free.pop() else {
            return Ok(None);
        };
        self.entries.push((index, now))?;
        Ok(Some(index))
    }

    fn rejuvenate(&mut self, index: u32, now: u64) -> Result<(), AllocError> {
        if self.time(index).is_some() {
            self.drop_entry(index);
            self.entries.push((index, now))?;
        }
        Ok(())
    }

    fn free(&mut self, index: u32) -> Result<(), AllocError> {
        if self.time(index).is_some() {
            self.drop_entry(index);
            self.free.push(index)?;
        }
        Ok(())
    }

    fn expire_one(&mut self, before: u64) -> Result<Option<u32>, AllocError> {
        let Some(&(index, time)) = self.entries.first() else {
            return Ok(None);
        };
        if time >= before {
            return Ok(None);
        }
        self.free(index)?;
        Ok(Some(index))
    }
}

// One call on both; whether they answer the same.
fn step<L: Ledger>(
    chain: &mut Chain,
    plain: &mut Plain,
    seed: u64,
    now: u64,
    steps: &mut Steps<L>,
) -> Result<bool, AllocError>
    requires { chain.old.range ≡ 5 }
    ensures { chain.new.range ≡ 5 }
{
    let index = (seed >> 40) as u32 % RANGE;
    match (seed >> 50) % 5 {
        0 | 1 => Ok(allocate(chain, now, steps) == plain.allocate(now)?),
        2 => {
            rejuvenate(chain, index, now, steps);
            plain.rejuvenate(index, now)?;
            Ok(true)
        }
        3 => {
            free(chain, index, steps);
            plain.free(index)?;
            Ok(true)
        }
        _ => {
            let before = now.saturating_sub(4);
            Ok(chain.expire_one(before, steps) == plain.expire_one(before)?)
        }
    }
}

fn rejuvenate<L: Ledger>(chain: &mut Chain, index: u32, now: u64, steps: &mut Steps<L>)
    requires { index < chain.old.range }
    ensures { chain.new.range ≡ chain.old.range }
{
    if chain.is_allocated(index) && chain.highest() <= now {
        chain.rejuvenate(index, now, steps);
    }
}

fn free<L: Ledger>(chain: &mut Chain, index: u32, steps: &mut Steps<L>)
    requires { index < chain.old.range }
    ensures { chain.new.range ≡ chain.old.range }
{
    if chain.is_allocated(index) {
        chain.free(index, steps);
    }
}

// What the chain tells of an index.
fn time(chain: &Chain, index: u32) -> Option<u64>
    requires { index < chain.now.range }
{
    if !chain.is_allocated(index) {
        return None;
    }
    Some(chain.time(index))
}

// Whether both tell the same.
fn agree(chain: &Chain, plain: &Plain) -> bool
    requires { chain.now.range ≡ 5 }
{
    for index in 0..RANGE {
        if time(chain, index) != plain.time(index) {
            return false;
        }
    }
    chain.count() as usize == plain.entries.len()
}

// How many of 4,000 made calls leave both the same.
fn run<L: Ledger>(chain: &mut Chain, plain: &mut Plain, blank: Blank) -> Result<u32, AllocError>
    requires name { blank.name ≡ L.name }
    requires parts { blank.parts ≡ L.parts }
    requires backed { 0 < blank.parts }
    requires range { chain.old.range ≡ 5 }
{
    let mut steps = Steps::<L>::new(blank);
    let mut seed: u64 = 1;
    let mut same = 0;
    for turn in 0..4000u32 {
        seed = seed
            .wrapping_mul(6364136223846793005)
            .wrapping_add(1442695040888963407);
        if step(chain, plain, seed, turn as u64 / 2, &mut steps)? && agree(chain, plain) {
            same += 1;
        }
    }
    Ok(same)
}

#[test]
fn many_calls_are_those_on_plain_lists(rt: HostRuntime) -> Result<(), Fail> {
    let alloc = rt.alloc();
    let mut chain = Chain::new(alloc, RANGE).expect(&rt, "room for five indices");
    let mut plain = Plain {
        entries: Vec::new(alloc),
        free: Vec::from_slice(alloc, &[4, 3, 2, 1, 0])?,
    };
    assert_eq!(rt; run::<Brand>(&mut chain, &mut plain, Blank::new(1))?, 4000);
    Ok(())
}
