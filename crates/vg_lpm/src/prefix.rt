//! A prefix table and its look-up.
ghost use Rattle.std.specs.Prelude.{◌≡◌, ◌+◌, ◌*◌, ◌%◌, ◌^◌, ◌<◌, ◌≤◌, All, IfOk, length};
ghost use Rattle.vg_stree.specs.Routes.{IsLongestMatch};

use crate::building::built;
use crate::entry::{Entry, entry_of};
use std::alloc::Global;
use std::marker::Model;
use std::snapshot::Snapshot;
use std::sync::ledger::Ledger;
use vg_parts::{Memory, Slots, Steps};
use vg_stree::Route;

/// A prefix table. Contracts see it as the list of its routes.
#[derive(Drop)]
pub struct Prefix {
    // What the table was made from. It has no bytes: only clauses read it.
    routes: Snapshot<Vec<Route>>,
    first: Slots,
    second: Slots,
    third: Slots,
}

impl Model for Prefix {
    ghost use Rattle.std.specs.Prelude.{List};
    ghost use Rattle.vg_stree.specs.declared.config.Route.{Route};
    ghost use Rattle.vg_lpm.specs.Table.{IsTableOf};

    ghost Value = { List Route };

    ghost view = { λ p. p.routes.value.items };

    ghost invariant = { λ p. IsTableOf p.routes.value.items p.first p.second p.third };
}

// The place of an entry: the lowest 8 bits choose it within its block.
fn place(block: u32, bits: u32) -> u32
    requires { block < 2 ^ 24 }
    ensures { result ≡ block * 256 + bits % 256 }
{
    block * 256 + bits % 256
}

impl Prefix {
    /// The table of these routes, of which each field but `table` counts: at most 65,536, each of length at most 32. No other
    /// call takes memory.
    pub fn new(alloc: Global, routes: &[Route]) -> Result<Prefix, Memory>
        requires count { length routes.now ≤ 65536 }
        requires lengths { All (λ route. route.len ≤ 32) routes.now }
        ensures { IfOk result (λ prefix. prefix ≡ routes.now) }
    {
        // A snapshot is of a whole value and not of a slice, so the routes are copied while the table is built.
        let Ok(given) = Vec::from_slice(alloc, routes) else {
            return Err(Memory);
        };
        let levels = built(alloc, given.as_slice())?;
        Ok(Prefix {
            routes: Snapshot::of(&given),
            first: Slots::new(levels.first),
            second: Slots::new(levels.second),
            third: Slots::new(levels.third),
        })
    }

    /// The value of the longest route that matches the address, and of equally long ones that of the last. Nothing exactly
    /// where no route matches. Each read of the table counts a step.
    pub fn lookup<L: Ledger>(&self, address: u32, steps: &mut Steps<L>) -> Option<u16>
        ensures answer { IsLongestMatch self.now address result }
        ensures counted { steps.new ≤ steps.old + 3 }
    {
        let block = match entry_of(self.first.get(address >> 16, steps)) {
            Entry::Leaf(value) => return value,
            Entry::Link(block) => block,
        };
        let block = match entry_of(self.second.get(place(block, address >> 8), steps)) {
            Entry::Leaf(value) => return value,
            Entry::Link(block) => block,
        };
        match entry_of(self.third.get(place(block, address), steps)) {
            Entry::Leaf(value) => value,
            Entry::Link(_) => unreachable!(),
        }
    }
}
