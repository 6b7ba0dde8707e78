//! Indices that are free, linked from the first on.
ghost use Rattle.std.specs.Prelude.{◌≡◌, ◌<◌, ◌+◌, ◌↔◌, ℕ, [], ◌∷◌, length, slice_index, IsTrue, IfOk};
ghost use Rattle.std.specs.List.{range_with_len};
ghost use Rattle.vg_dchain.specs.Indices.{IsAbsent};

use std::alloc::Global;
use std::marker::Model;
use std::sync::ledger::Ledger;
use vg_parts::{Memory, Slots, Steps};

/// Indices below a bound, of which the first is taken first. The slot at the bound, which is no
/// index, comes before the first.
#[derive(Drop)]
pub struct Spare {
    bound: u32,
    count: u32,
    next: Slots,
}

impl Model for Spare {
    ghost use Rattle.vg_dchain.specs.Indices.{Indices};
    ghost use Rattle.vg_dchain.specs.Links.{indices_after, IsRow};

    ghost Value = { Indices };

    ghost view = { λ s. record { bound = s.bound; order = indices_after s.count s.next s.bound } };

    ghost invariant = { λ s. IsRow s.next s.bound (indices_after s.count s.next s.bound) };
}

// Links from the bound to 0, and from each index to the next.
fn ascending(alloc: Global, bound: u32) -> Result<Vec<u32>, Memory>
    ensures { IfOk result (λ links. (length links.items ≡ bound + 1) × ((k : ℕ) → k < bound → slice_index links.items k ≡ k + 1)
        × (slice_index links.items bound ≡ 0)) }
{
    let Ok(links) = vec![in alloc; 0; bound as usize + 1] else {
        return Err(Memory);
    };
    let mut links = links;
    for i in 0..bound {
        links[i as usize] = i + 1;
    }
    Ok(links)
}

impl Spare {
    /// All indices below the bound, from 0 upwards.
    pub fn new(alloc: Global, bound: u32) -> Result<Spare, Memory>
        ensures { IfOk result (λ spare. spare ≡ record { bound = bound; order = range_with_len 0 bound }) }
    {
        let links = ascending(alloc, bound)?;
        Ok(Spare {
            bound,
            count: bound,
            next: Slots::new(links),
        })
    }

    /// Whether there are none.
    pub fn is_empty(&self) -> bool
        ensures { IsTrue result ↔ (self.now.order ≡ []) }
    {
        self.count == 0
    }

    /// Takes the first index, in three accesses.
    pub fn take<L: Ledger>(&mut self, steps: &mut Steps<L>) -> u32
        requires { 0 < length self.old.order }
        ensures taken { self.old ≡ record self.new { order = result ∷ self.new.order } }
        ensures cost { steps.new ≡ steps.old + 3 }
    {
        let index = self.next.get(self.bound, steps);
        let second = self.next.get(index, steps);
        self.next.set(self.bound, second, steps);
        self.count -= 1;
        index
    }

    /// Puts an index before all others, in three accesses.
    pub fn put<L: Ledger>(&mut self, index: u32, steps: &mut Steps<L>)
        requires bound { index < self.old.bound }
        requires absent { IsAbsent index self.old.order }
        requires room { length self.old.order < self.old.bound }
        ensures put { self.new ≡ record self.old { order = index ∷ self.old.order } }
        ensures cost { steps.new ≡ steps.old + 3 }
    {
        let first = self.next.get(self.bound, steps);
        self.next.set(index, first, steps);
        self.next.set(self.bound, index, steps);
        self.count += 1;
    }
}
