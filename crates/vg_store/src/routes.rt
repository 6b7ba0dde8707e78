//! A routing table.
ghost use Rattle.std.specs.Prelude.{◌≡◌, ◌≤◌, ◌<◌, All, IfOk, length};
ghost use Rattle.vg_stree.specs.Routes.{IsLongestMatch, longest_match};

use std::alloc::Global;
use std::marker::Brand;
use std::snapshot::Snapshot;
use std::sync::ledger::{Blank, Ledger};
use vg_lpm::Prefix;
use vg_parts::{Memory, Steps};
use vg_stree::{Route, each_address_has_one_match};

/// A routing table, in a prefix table whose reads nobody counts.
#[derive(Drop)]
pub struct RealRoutes {
    // What the table was made from. It has no bytes: only clauses read it.
    routes: Snapshot<Vec<Route>>,
    prefix: Prefix,
    ghost same: { prefix ≡ routes.value.items },
}

impl RealRoutes {
    /// The table of these routes: at most 65,536, each of length at most 32. No other call takes memory.
    pub fn new(alloc: Global, routes: &[Route]) -> Result<RealRoutes, Memory>
        requires count { length routes.now ≤ 65536 }
        requires lengths { All (λ route. route.len ≤ 32) routes.now }
        ensures { IfOk result (λ made. made.routes.value.items ≡ routes.now) }
    {
        let given = Vec::from_slice(alloc, routes)?;
        let prefix = Prefix::new(alloc, given.as_slice())?;
        Ok(RealRoutes {
            routes: Snapshot::of(&given),
            prefix,
        })
    }

    /// What a look-up of an address answers: the value of the longest route that matches, of equally long ones the last.
    pub fn lookup(&self, address: u32) -> Option<u16>
        ensures { result ≡ longest_match self.now.routes.value.items address }
    {
        each_address_has_one_match();
        lookup::<Brand>(&self.prefix, address, Blank::new(1))
    }
}

fn lookup<L: Ledger>(prefix: &Prefix, address: u32, blank: Blank) -> Option<u16>
    requires name { blank.name ≡ L.name }
    requires parts { blank.parts ≡ L.parts }
    requires backed { 0 < blank.parts }
    ensures { IsLongestMatch prefix.now address result }
{
    prefix.lookup(address, &mut Steps::<L>::new(blank))
}
