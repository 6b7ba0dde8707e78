//! The list library.
ghost use Rattle.std.specs.Prelude.{◌≤◌, ◌^◌, vec_len};

use crate::agreement::first_difference;
use crate::beginning::begin;
use crate::object::PlainObject;
use std::alloc::Global;
use vg_abs::{Lib, LibState, an_opening_state_is_lawful, longest_match, opening};
use vg_parts::Memory;
use vg_stree::{Config, Spec};
use vg_vector::CellLoan;

/// Objects are numbered by 16 bits.
const MOST_OBJECTS: usize = 65536;

/// The library over lists. It hands out the least free index. All its memory is taken where it is made.
#[derive(Drop)]
pub struct PlainLib {
    objects: Vec<PlainObject>,
    ghost few: { vec_len objects ≤ 2 ^ 16 },
}

impl PlainLib {
    ghost use Rattle.std.specs.Prelude.{◌≡◌, IfOk, ℕ, false};
    ghost use Rattle.vg_abs.specs.Opening as openings;
    ghost use Rattle.vg_abs.specs.Library.{IsVector};
    ghost use Rattle.vg_plain.specs.PlainStates.{library_of, holder_of};

    /// The library in the state that a valid configuration opens with, with no cell lent.
    pub fn start(alloc: Global, spec: &Spec, config: &Config) -> Result<PlainLib, Memory>
        requires { openings.IsValid spec.now config.now }
        ensures opens { IfOk result (λ made. (library_of made).state ≡ openings.opening spec.now config.now) }
        ensures free { IfOk result (λ made. (vector index : ℕ) → (library_of made).lent vector index ≡ false) }
    {
        an_opening_state_is_lawful();
        let state = opening(alloc, spec, config)?;
        let mut objects = Vec::new(alloc);
        for object in &state.objects {
            let kind = spec.shape().objects()[objects.len()].kind;
            objects.push(begin(alloc, spec.shape(), kind, object)?)?;
        }
        if objects.len() > MOST_OBJECTS {
            return Err(Memory);
        }
        Ok(PlainLib { objects })
    }

    // The object with the cells of a vector: itself, or the map of its link.
    fn holder(&self, vector: u16) -> usize
        requires { IsVector (library_of self.now) vector }
        ensures { result ≡ holder_of self.now.objects.items vector }
    {
        match &self.objects[vector as usize] {
            PlainObject::Keys => vector as usize - 2,
            _ => vector as usize,
        }
    }
}

impl Lib for PlainLib {
    ghost use Rattle.std.specs.Prelude.{◌≡◌, ◌≤◌, ◌<◌, ◌+◌, ◌≢◌, ◌⊎◌, ℕ, length, true, false, Some, None, IfSome};
    ghost use Rattle.std.specs.FinMap.{get};
    ghost use Rattle.vg_abs.specs.Library.{IsChain, Meets, Allocates};
    ghost use Rattle.vg_abs.specs.State.{link_of_chain};
    ghost use Rattle.vg_abs.specs.Rows.{ChainAllocate};
    ghost use Rattle.vg_plain.specs.PlainStates.{library_of};

    ghost library = { library_of };

    fn missed(&self) -> bool {
        false
    }

    fn map_get(&mut self, map: u16, key: &[u8]) -> Option<u32> {
        match &self.objects[map as usize] {
            PlainObject::Map(link) => link.get(key),
            _ => unreachable!(),
        }
    }

    fn map_put(&mut self, map: u16, key: &[u8], index: u32) {
        match &mut self.objects[map as usize] {
            PlainObject::Map(link) => link.put(key, index),
            _ => unreachable!(),
        }
    }

    fn map_erase(&mut self, map: u16, key: &[u8]) {
        match &mut self.objects[map as usize] {
            PlainObject::Map(link) => link.erase(key),
            _ => unreachable!(),
        }
    }

    fn map_size(&self, map: u16) -> u32 {
        match &self.objects[map as usize] {
            PlainObject::Map(link) => link.size(),
            _ => unreachable!(),
        }
    }

    fn chain_allocate(&mut self, chain: u16, now: u64) -> Option<u32>
        requires chain { IsChain (library_of self.old) chain }
        requires needs { Meets (library_of self.old) (ChainAllocate chain now) }
        ensures row { Allocates (library_of self.old) (library_of self.new) chain now result }
        ensures least { IfSome result (λ index. (other : ℕ) → other < index → get (link_of_chain (library_of self.old).state chain).times other ≡ None → ⊥) }
    {
        match &mut self.objects[chain as usize - 1] {
            PlainObject::Map(link) => link.allocate(now),
            _ => unreachable!(),
        }
    }

    fn chain_is(&mut self, chain: u16, index: u32) -> bool {
        match &self.objects[chain as usize - 1] {
            PlainObject::Map(link) => link.time(index).is_some(),
            _ => unreachable!(),
        }
    }

    fn chain_count(&self, chain: u16) -> u32 {
        match &self.objects[chain as usize - 1] {
            PlainObject::Map(link) => link.count(),
            _ => unreachable!(),
        }
    }

    fn chain_highest(&self, chain: u16) -> u64 {
        match &self.objects[chain as usize - 1] {
            PlainObject::Map(link) => link.highest(),
            _ => unreachable!(),
        }
    }

    fn chain_rejuvenate(&mut self, chain: u16, index: u32, now: u64) {
        match &mut self.objects[chain as usize - 1] {
            PlainObject::Map(link) => link.rejuvenate(index, now),
            _ => unreachable!(),
        }
    }

    fn chain_free(&mut self, chain: u16, index: u32) {
        match &mut self.objects[chain as usize - 1] {
            PlainObject::Map(link) => link.free(index),
            _ => unreachable!(),
        }
    }

    fn expire(&mut self, link: u16, before: u64) -> u32 {
        match &mut self.objects[link as usize] {
            PlainObject::Map(link) => link.expire(before),
            _ => unreachable!(),
        }
    }

    fn borrow(&mut self, vector: u16, index: u32) -> CellLoan {
        let holder = self.holder(vector);
        match &mut self.objects[holder] {
            PlainObject::Cells(cells) => cells.borrow(index),
            PlainObject::Map(link) => link.borrow(index),
            _ => unreachable!(),
        }
    }

    fn cell(&self, vector: u16, index: u32) -> &[u8] {
        let holder = self.holder(vector);
        match &self.objects[holder] {
            PlainObject::Cells(cells) => cells.cell(index),
            PlainObject::Map(link) => link.cell(index),
            _ => unreachable!(),
        }
    }

    fn store(&mut self, vector: u16, index: u32, from: u32, bytes: &[u8]) {
        let holder = self.holder(vector);
        match &mut self.objects[holder] {
            PlainObject::Cells(cells) => cells.store(index, from, bytes),
            PlainObject::Map(link) => link.store(index, from, bytes),
            _ => unreachable!(),
        }
    }

    fn give_back(&mut self, vector: u16, loan: CellLoan) {
        let holder = self.holder(vector);
        match &mut self.objects[holder] {
            PlainObject::Cells(cells) => cells.give_back(loan),
            PlainObject::Map(link) => link.give_back(loan),
            _ => unreachable!(),
        }
    }

    fn lookup(&mut self, table: u16, address: u32) -> Option<u16> {
        match &self.objects[table as usize] {
            PlainObject::Prefixes(routes) => longest_match(routes, address),
            _ => unreachable!(),
        }
    }

    fn differs(&self, state: &LibState) -> Option<u16> {
        first_difference(&self.objects, state)
    }
}
