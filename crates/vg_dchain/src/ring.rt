//! Indices in an order, linked both ways.
ghost use Rattle.std.specs.Prelude.{◌≡◌, ◌<◌, ◌+◌, ℕ, [], ◌∷◌, ◌++◌, length, slice_get, Some, Contains, IfOk};
ghost use Rattle.vg_dchain.specs.Indices.{IsAbsent, without};

use std::alloc::Global;
use std::marker::Model;
use std::sync::ledger::Ledger;
use vg_parts::{Memory, Slots, Steps};

/// Indices below a bound in an order. The links go round: the slot at the bound, which is no index,
/// comes before the first and after the last.
#[derive(Drop)]
pub struct Ring {
    bound: u32,
    count: u32,
    next: Slots,
    previous: Slots,
}

impl Model for Ring {
    ghost use Rattle.vg_dchain.specs.Indices.{Indices};
    ghost use Rattle.vg_dchain.specs.Links.{indices_after, IsRing};

    ghost Value = { Indices };

    ghost view = { λ r. record { bound = r.bound; order = indices_after r.count r.next r.bound } };

    ghost invariant = { λ r. IsRing r.next r.previous r.bound (indices_after r.count r.next r.bound) };
}

impl Ring {
    /// No indices yet, of those below the bound.
    pub fn new(alloc: Global, bound: u32) -> Result<Ring, Memory>
        ensures { IfOk result (λ ring. ring ≡ record { bound = bound; order = [] }) }
    {
        let Ok(next) = vec![in alloc; bound; bound as usize + 1] else {
            return Err(Memory);
        };
        let Ok(previous) = vec![in alloc; bound; bound as usize + 1] else {
            return Err(Memory);
        };
        Ok(Ring {
            bound,
            count: 0,
            next: Slots::new(next),
            previous: Slots::new(previous),
        })
    }

    /// How many indices there are.
    pub fn count(&self) -> u32
        ensures { result ≡ length self.now.order }
    {
        self.count
    }

    /// The first index, in one access.
    pub fn first<L: Ledger>(&self, steps: &mut Steps<L>) -> u32
        requires { 0 < length self.now.order }
        ensures value { slice_get self.now.order 0 ≡ Some result }
        ensures cost { steps.new ≡ steps.old + 1 }
    {
        self.next.get(self.bound, steps)
    }

    /// Puts an index at the end, in five accesses.
    pub fn push_last<L: Ledger>(&mut self, index: u32, steps: &mut Steps<L>)
        requires bound { index < self.old.bound }
        requires absent { IsAbsent index self.old.order }
        requires room { length self.old.order < self.old.bound }
        ensures pushed { self.new ≡ record self.old { order = self.old.order ++ index ∷ [] } }
        ensures cost { steps.new ≡ steps.old + 5 }
    {
        let last = self.previous.get(self.bound, steps);
        self.next.set(last, index, steps);
        self.previous.set(index, last, steps);
        self.next.set(index, self.bound, steps);
        self.previous.set(self.bound, index, steps);
        self.count += 1;
    }

    /// Takes an index out, in four accesses.
    pub fn remove<L: Ledger>(&mut self, index: u32, steps: &mut Steps<L>)
        requires { Contains self.old.order index }
        ensures removed { self.new ≡ record self.old { order = without self.old.order index } }
        ensures cost { steps.new ≡ steps.old + 4 }
    {
        let before = self.previous.get(index, steps);
        let after = self.next.get(index, steps);
        self.next.set(before, after, steps);
        self.previous.set(after, before, steps);
        self.count -= 1;
    }
    /// Puts an index that is there at the end, in nine accesses.
    #[tactic(auto, using(crate::proofs::IndexLemmas::absent_from_rest))]
    pub fn move_last<L: Ledger>(&mut self, index: u32, steps: &mut Steps<L>)
        requires contains { Contains self.old.order index }
        requires bound { index < self.old.bound }
        requires room { length (without self.old.order index) < self.old.bound }
        ensures moved { self.new ≡ record self.old { order = without self.old.order index ++ index ∷ [] } }
        ensures cost { steps.new ≡ steps.old + 9 }
    {
        self.remove(index, steps);
        self.push_last(index, steps);
    }
}
