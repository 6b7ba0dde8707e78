//! The real library.
ghost use Rattle.std.specs.Prelude.{◌≤◌, ◌^◌, vec_len};

use crate::agreement::first_difference;
use crate::beginning::begin;
use crate::object::RealObject;
use std::alloc::Global;
use vg_abs::{Lib, LibState, an_opening_state_is_lawful, opening};
use vg_parts::Memory;
use vg_stree::{Config, Spec};
use vg_vector::CellLoan;

/// The seed with which each map spreads its keys. Everybody can know it: it guards against accidents, and not against a sender
/// who chooses keys that all stand in one place.
pub const SEED: u64 = 0x243f_6a88_85a3_08d3;

/// Objects are numbered by 16 bits.
const MOST_OBJECTS: usize = 65536;

/// The library over its containers: each map in a hash table, each chain linked by age, each vector in one block of cells, and
/// each prefix table in three levels. It hands out the first of a chain's free indices, and a freed index is the next; it expires
/// the oldest first. All its memory is taken where it is made.
#[derive(Drop)]
pub struct RealLib {
    objects: Vec<RealObject>,
    ghost few: { vec_len objects ≤ 2 ^ 16 },
}

impl RealLib {
    ghost use Rattle.std.specs.Prelude.{◌≡◌, IfOk, ℕ, false};
    ghost use Rattle.vg_abs.specs.Opening as openings;
    ghost use Rattle.vg_abs.specs.Library.{IsVector};
    ghost use Rattle.vg_plain.specs.PlainStates.{holder_of};
    ghost use Rattle.vg_store.specs.RealStates.{library_of, plainly};

    /// The library in the state that a valid configuration opens with, with no cell lent.
    pub fn start(alloc: Global, spec: &Spec, config: &Config) -> Result<RealLib, Memory>
        requires { openings.IsValid spec.now config.now }
        ensures opens { IfOk result (λ made. (library_of made).state ≡ openings.opening spec.now config.now) }
        ensures free { IfOk result (λ made. (vector index : ℕ) → (library_of made).lent vector index ≡ false) }
    {
        an_opening_state_is_lawful();
        let state = opening(alloc, spec, config)?;
        let mut objects = Vec::new(alloc);
        for object in &state.objects {
            let kind = spec.shape().objects()[objects.len()].kind;
            objects.push(begin(alloc, spec.shape(), kind, object)?)?;
        }
        if objects.len() > MOST_OBJECTS {
            return Err(Memory);
        }
        Ok(RealLib { objects })
    }

    // The object with the cells of a vector: itself, or the map of its link.
    fn holder(&self, vector: u16) -> usize
        requires { IsVector (library_of self.now) vector }
        ensures { result ≡ holder_of (plainly self.now.objects.items) vector }
    {
        match &self.objects[vector as usize] {
            RealObject::Keys => vector as usize - 2,
            _ => vector as usize,
        }
    }
}

impl Lib for RealLib {
    ghost use Rattle.std.specs.Prelude.{◌≡◌, ◌≤◌, ◌<◌, ◌+◌, ◌-◌, ◌∷◌, ◌≢◌, ◌⊎◌, ℕ, length, true, false, Some, None, IfSome};
    ghost use Rattle.std.specs.FinMap.{get};
    ghost use Rattle.vg_dchain.specs.ChainState.{after_rejuvenation, after_freeing};
    ghost use Rattle.vg_abs.specs.Library.{IsMap, IsChain, Meets, Allocates, Does, MayExpire, Expires};
    ghost use Rattle.vg_abs.specs.Rows.{ChainAllocate, ChainRejuvenate, ChainFree};
    ghost use Rattle.vg_store.specs.RealLinks.{after_expiry};
    ghost use Rattle.vg_store.specs.RealStates.{library_of, ages_of};

    ghost library = { library_of };

    fn missed(&self) -> bool {
        false
    }

    fn map_get(&mut self, map: u16, key: &[u8]) -> Option<u32> {
        match &self.objects[map as usize] {
            RealObject::Map(link) => link.get(key),
            _ => unreachable!(),
        }
    }

    fn map_put(&mut self, map: u16, key: &[u8], index: u32) {
        match &mut self.objects[map as usize] {
            RealObject::Map(link) => link.put(key, index),
            _ => unreachable!(),
        }
    }

    fn map_erase(&mut self, map: u16, key: &[u8]) {
        match &mut self.objects[map as usize] {
            RealObject::Map(link) => link.erase(key),
            _ => unreachable!(),
        }
    }

    fn map_size(&self, map: u16) -> u32 {
        match &self.objects[map as usize] {
            RealObject::Map(link) => link.size(),
            _ => unreachable!(),
        }
    }

    fn chain_allocate(&mut self, chain: u16, now: u64) -> Option<u32>
        requires chain { IsChain (library_of self.old) chain }
        requires needs { Meets (library_of self.old) (ChainAllocate chain now) }
        ensures row { Allocates (library_of self.old) (library_of self.new) chain now result }
        ensures first { IfSome result (λ index. (ages_of self.old (chain - 1)).free ≡ index ∷ (ages_of self.new (chain - 1)).free) }
    {
        match &mut self.objects[chain as usize - 1] {
            RealObject::Map(link) => link.allocate(now),
            _ => unreachable!(),
        }
    }

    fn chain_is(&mut self, chain: u16, index: u32) -> bool {
        match &self.objects[chain as usize - 1] {
            RealObject::Map(link) => link.time(index).is_some(),
            _ => unreachable!(),
        }
    }

    fn chain_count(&self, chain: u16) -> u32 {
        match &self.objects[chain as usize - 1] {
            RealObject::Map(link) => link.count(),
            _ => unreachable!(),
        }
    }

    fn chain_highest(&self, chain: u16) -> u64 {
        match &self.objects[chain as usize - 1] {
            RealObject::Map(link) => link.highest(),
            _ => unreachable!(),
        }
    }

    fn chain_rejuvenate(&mut self, chain: u16, index: u32, now: u64)
        requires chain { IsChain (library_of self.old) chain }
        requires needs { Meets (library_of self.old) (ChainRejuvenate chain index now) }
        ensures row { Does (library_of self.old) (library_of self.new) (ChainRejuvenate chain index now) }
        ensures youngest { ages_of self.new (chain - 1) ≡ after_rejuvenation (ages_of self.old (chain - 1)) index now }
    {
        match &mut self.objects[chain as usize - 1] {
            RealObject::Map(link) => link.rejuvenate(index, now),
            _ => unreachable!(),
        }
    }

    fn chain_free(&mut self, chain: u16, index: u32)
        requires chain { IsChain (library_of self.old) chain }
        requires needs { Meets (library_of self.old) (ChainFree chain index) }
        ensures row { Does (library_of self.old) (library_of self.new) (ChainFree chain index) }
        ensures next { ages_of self.new (chain - 1) ≡ after_freeing (ages_of self.old (chain - 1)) index }
    {
        match &mut self.objects[chain as usize - 1] {
            RealObject::Map(link) => link.free(index),
            _ => unreachable!(),
        }
    }

    fn expire(&mut self, link: u16, before: u64) -> u32
        requires map { IsMap (library_of self.old) link }
        requires ready { MayExpire (library_of self.old) link }
        ensures row { Expires (library_of self.old) (library_of self.new) link before result }
        ensures oldest { ages_of self.new link ≡ after_expiry (ages_of self.old link) result }
    {
        match &mut self.objects[link as usize] {
            RealObject::Map(link) => link.expire(before),
            _ => unreachable!(),
        }
    }

    fn borrow(&mut self, vector: u16, index: u32) -> CellLoan {
        let holder = self.holder(vector);
        match &mut self.objects[holder] {
            RealObject::Cells(cells) => cells.borrow(index),
            RealObject::Map(link) => link.borrow(index),
            _ => unreachable!(),
        }
    }

    fn cell(&self, vector: u16, index: u32) -> &[u8] {
        let holder = self.holder(vector);
        match &self.objects[holder] {
            RealObject::Cells(cells) => cells.lent_cell(index),
            RealObject::Map(link) => link.cell(index),
            _ => unreachable!(),
        }
    }

    fn store(&mut self, vector: u16, index: u32, from: u32, bytes: &[u8]) {
        let holder = self.holder(vector);
        match &mut self.objects[holder] {
            RealObject::Cells(cells) => cells.store(index, from, bytes),
            RealObject::Map(link) => link.store(index, from, bytes),
            _ => unreachable!(),
        }
    }

    fn give_back(&mut self, vector: u16, loan: CellLoan) {
        let holder = self.holder(vector);
        match &mut self.objects[holder] {
            RealObject::Cells(cells) => cells.give_back(loan),
            RealObject::Map(link) => link.give_back(loan),
            _ => unreachable!(),
        }
    }

    fn lookup(&mut self, table: u16, address: u32) -> Option<u16> {
        match &self.objects[table as usize] {
            RealObject::Prefixes(routes) => routes.lookup(address),
            _ => unreachable!(),
        }
    }

    fn differs(&self, state: &LibState) -> Option<u16> {
        first_difference(&self.objects, state)
    }
}
