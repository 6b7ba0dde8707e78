//! Indices by age.
ghost use Rattle.std.specs.Prelude.{◌≡◌, ◌<◌, ◌≤◌, ◌∷◌, ◌↔◌, [], length, IsSome, IsNone, Some, IfOk, IfSome, IfNone};
ghost use Rattle.std.specs.List.{range_with_len};
ghost use Rattle.vg_dchain.specs.ChainState.{IsFree, IsLawful, time_at, oldest_below, after_allocation, after_rejuvenation, after_freeing};

use std::alloc::Global;
use std::marker::{Brand, Model};
use std::sync::ledger::{Blank, Ledger};
use vg_dchain::Chain;
use vg_parts::{Memory, Steps};

/// A chain whose accesses nobody counts: indices below a range, each free or handed out with the time of its last use.
#[derive(Drop)]
pub struct RealChain {
    chain: Chain,
}

impl Model for RealChain {
    ghost use Rattle.vg_dchain.specs.ChainState.{ChainState};

    ghost Value = { ChainState };

    ghost view = { λ c. c.chain };
}

impl RealChain {
    /// A chain whose indices below `range` are all free, to be handed out from 0 upwards. No other call takes memory.
    pub fn new(alloc: Global, range: u32) -> Result<RealChain, Memory>
        ensures opens { IfOk result (λ made. made ≡ record { range = range; entries = []; free = range_with_len 0 range; highest = 0 }) }
        ensures lawful { IfOk result IsLawful }
    {
        let chain = Chain::new(alloc, range)?;
        let _handed_out = chain.count();
        Ok(RealChain { chain })
    }

    /// Hands out the first free index, with this time. None where all are handed out.
    pub fn allocate(&mut self, now: u64) -> Option<u32>
        requires { self.old.highest ≤ now }
        ensures full { IsNone result ↔ (length self.old.entries ≡ self.old.range) }
        ensures kept { IfNone result (self.new ≡ self.old) }
        ensures first { IfSome result (λ i. self.old.free ≡ i ∷ self.new.free) }
        ensures free { IfSome result (λ i. IsFree self.old i) }
        ensures allocated { IfSome result (λ i. self.new ≡ after_allocation self.old i now) }
        ensures lawful { IsLawful self.new }
    {
        allocate::<Brand>(&mut self.chain, now, Blank::new(1))
    }

    /// Makes a handed-out index the youngest, with this time.
    pub fn rejuvenate(&mut self, index: u32, now: u64)
        requires allocated { IsSome (time_at self.old.entries index) }
        requires time { self.old.highest ≤ now }
        ensures rejuvenated { self.new ≡ after_rejuvenation self.old index now }
        ensures lawful { IsLawful self.new }
    {
        rejuvenate::<Brand>(&mut self.chain, index, now, Blank::new(1));
    }

    /// Takes a handed-out index back. It is the next to be handed out.
    pub fn free(&mut self, index: u32)
        requires { IsSome (time_at self.old.entries index) }
        ensures freed { self.new ≡ after_freeing self.old index }
        ensures lawful { IsLawful self.new }
    {
        free::<Brand>(&mut self.chain, index, Blank::new(1));
    }

    /// Takes back the oldest index whose time is below the bound. None where there is none.
    pub fn expire_one(&mut self, before: u64) -> Option<u32>
        ensures oldest { result ≡ oldest_below before self.old.entries }
        ensures freed { IfSome result (λ i. self.new ≡ after_freeing self.old i) }
        ensures kept { IfNone result (self.new ≡ self.old) }
        ensures lawful { IsLawful self.new }
    {
        expire_one::<Brand>(&mut self.chain, before, Blank::new(1))
    }

    /// The last time of an index below the range, or none where it is free.
    pub fn time(&self, index: u32) -> Option<u64>
        requires { index < self.now.range }
        ensures { result ≡ time_at self.now.entries index }
    {
        if self.chain.is_allocated(index) {
            Some(self.chain.time(index))
        } else {
            None
        }
    }

    /// How many indices are handed out.
    pub fn count(&self) -> u32
        ensures count { result ≡ length self.now.entries }
        ensures lawful { IsLawful self.now }
    {
        self.chain.count()
    }

    /// The highest time that the chain was told.
    pub fn highest(&self) -> u64
        ensures { result ≡ self.now.highest }
    {
        self.chain.highest()
    }
}

// In what follows the count is asked for, since with it a chain tells that it is lawful.

fn allocate<L: Ledger>(chain: &mut Chain, now: u64, blank: Blank) -> Option<u32>
    requires name { blank.name ≡ L.name }
    requires parts { blank.parts ≡ L.parts }
    requires backed { 0 < blank.parts }
    requires time { chain.old.highest ≤ now }
    ensures full { IsNone result ↔ (length chain.old.entries ≡ chain.old.range) }
    ensures kept { IfNone result (chain.new ≡ chain.old) }
    ensures first { IfSome result (λ i. chain.old.free ≡ i ∷ chain.new.free) }
    ensures free { IfSome result (λ i. IsFree chain.old i) }
    ensures allocated { IfSome result (λ i. chain.new ≡ after_allocation chain.old i now) }
    ensures lawful { IsLawful chain.new }
{
    let allocated = chain.allocate(now, &mut Steps::<L>::new(blank));
    let _handed_out = chain.count();
    allocated
}

fn rejuvenate<L: Ledger>(chain: &mut Chain, index: u32, now: u64, blank: Blank)
    requires name { blank.name ≡ L.name }
    requires parts { blank.parts ≡ L.parts }
    requires backed { 0 < blank.parts }
    requires allocated { IsSome (time_at chain.old.entries index) }
    requires time { chain.old.highest ≤ now }
    ensures rejuvenated { chain.new ≡ after_rejuvenation chain.old index now }
    ensures lawful { IsLawful chain.new }
{
    chain.rejuvenate(index, now, &mut Steps::<L>::new(blank));
    let _handed_out = chain.count();
}

fn free<L: Ledger>(chain: &mut Chain, index: u32, blank: Blank)
    requires name { blank.name ≡ L.name }
    requires parts { blank.parts ≡ L.parts }
    requires backed { 0 < blank.parts }
    requires allocated { IsSome (time_at chain.old.entries index) }
    ensures freed { chain.new ≡ after_freeing chain.old index }
    ensures lawful { IsLawful chain.new }
{
    chain.free(index, &mut Steps::<L>::new(blank));
    let _handed_out = chain.count();
}

fn expire_one<L: Ledger>(chain: &mut Chain, before: u64, blank: Blank) -> Option<u32>
    requires name { blank.name ≡ L.name }
    requires parts { blank.parts ≡ L.parts }
    requires backed { 0 < blank.parts }
    ensures oldest { result ≡ oldest_below before chain.old.entries }
    ensures freed { IfSome result (λ i. chain.new ≡ after_freeing chain.old i) }
    ensures kept { IfNone result (chain.new ≡ chain.old) }
    ensures lawful { IsLawful chain.new }
{
    let expired = chain.expire_one(before, &mut Steps::<L>::new(blank));
    let _handed_out = chain.count();
    expired
}
