//! A link: a map, a chain and a vector of one capacity.
ghost use Rattle.std.specs.Prelude.{◌≡◌, ◌≤◌, ◌<◌, ◌+◌, ◌≢◌, ◌++◌, ◌∷◌, ◌↔◌, IsTrue, ℕ, List, true, false, length, take, drop, replicate, slice_get};
ghost use Rattle.std.specs.Prelude.{unwrap_or, Some, None, IfOk, IfSome, IfNone, IsSome};
ghost use Rattle.std.specs.FinMap.{get};
ghost use Rattle.vg_dchain.specs.ChainState.{after_allocation, after_rejuvenation, after_freeing};
ghost use Rattle.vg_abs.specs.Effects.{with_key, without_key, with_index, with_time, without_index, with_cell, expired};
ghost use Rattle.vg_abs.specs.Agreement.{BothTell, ChainsAgree, MapsAgree};
ghost use Rattle.vg_abs.specs.Answers.{count_before};
ghost use Rattle.vg_abs.specs.Opening.{opening_link};
ghost use Rattle.vg_plain.specs.PlainTables.{joined};
ghost use Rattle.vg_plain.specs.LinkStates.{with_link, with_lent, IsKeyed, CellsAgree};
ghost use Rattle.vg_store.specs.RealLinks.{link_of, seen, after_expiry};

use crate::chain::RealChain;
use crate::expiry::expire_oldest;
use crate::telling::{keys_told, times_told};
use crate::vector::RealVector;
use std::alloc::Global;
use std::marker::Model;
use vg_abs::{Bytes, LinkTable, Numbered};
use vg_map::HashMapFixed;
use vg_parts::Memory;
use vg_vector::CellLoan;

/// A link: a map from keys to indices, the indices by age, and a cell for each index.
#[derive(Drop)]
pub struct RealLink {
    capacity: u32,
    key_length: u32,
    keys: HashMapFixed,
    ages: RealChain,
    cells: RealVector,
}

impl Model for RealLink {
    ghost use Rattle.std.specs.Prelude.{◌≡◌};
    ghost use Rattle.vg_store.specs.RealLinks.{Parts, parts_code, AreLinked};

    ghost Value = { Parts };

    ghost coded = { parts_code };

    ghost view = { λ l. record { keys = l.keys; ages = l.ages; cells = l.cells } };

    ghost invariant = { λ l. AreLinked (record { keys = l.keys; ages = l.ages; cells = l.cells }) × (l.ages.range ≡ l.capacity)
        × (l.keys.key_len ≡ l.key_length) };
}

impl RealLink {
    /// A link at the start. All its memory is taken here. The seed changes where keys stand, and nothing that is answered.
    pub fn new(alloc: Global, capacity: u32, key_length: u32, seed: u64) -> Result<RealLink, Memory>
        ensures { IfOk result (λ made. seen made ≡ record { link = opening_link capacity key_length; lent = replicate capacity false }) }
    {
        Ok(RealLink {
            capacity,
            key_length,
            keys: HashMapFixed::with_seed(alloc, capacity, key_length, seed)?,
            ages: RealChain::new(alloc, capacity)?,
            cells: RealVector::new(alloc, capacity, key_length)?,
        })
    }

    /// The index of a key, or none.
    pub fn get(&self, key: &[u8]) -> Option<u32>
        requires { length key.now ≡ (link_of self.now).key_length }
        ensures { result ≡ joined (get (link_of self.now).keys key.now) }
    {
        self.keys.get(key)
    }

    /// Maps an absent key to an index, where there is room.
    pub fn put(&mut self, key: &[u8], index: u32)
        requires room { (link_of self.old).size < (link_of self.old).capacity }
        requires long { length key.now ≡ (link_of self.old).key_length }
        requires absent { joined (get (link_of self.old).keys key.now) ≡ None }
        ensures link { seen self.new ≡ with_link (seen self.old) (with_key (link_of self.old) key.now index) }
        ensures ages { self.new.ages ≡ self.old.ages }
    {
        self.keys.put(key, index);
    }

    /// Makes a present key absent.
    pub fn erase(&mut self, key: &[u8])
        requires long { length key.now ≡ (link_of self.old).key_length }
        requires present { IsSome (joined (get (link_of self.old).keys key.now)) }
        ensures link { seen self.new ≡ with_link (seen self.old) (without_key true (link_of self.old) key.now) }
        ensures ages { self.new.ages ≡ self.old.ages }
    {
        self.keys.erase(key);
    }

    /// How many keys are mapped.
    pub fn size(&self) -> u32
        ensures { result ≡ (link_of self.now).size }
    {
        self.keys.size()
    }

    /// How many indices are allocated.
    pub fn count(&self) -> u32
        ensures { result ≡ (link_of self.now).count }
    {
        self.ages.count()
    }

    /// The highest time that the chain was told.
    pub fn highest(&self) -> u64
        ensures { result ≡ (link_of self.now).highest }
    {
        self.ages.highest()
    }

    /// The last time of an index, or none where it is free.
    pub fn time(&self, index: u32) -> Option<u64>
        requires { index < (link_of self.now).capacity }
        ensures { result ≡ joined (get (link_of self.now).times index) }
    {
        self.ages.time(index)
    }

    /// Hands out the first free index and gives it this time, or none where no index is free.
    pub fn allocate(&mut self, now: u64) -> Option<u32>
        requires { (link_of self.old).highest ≤ now }
        ensures none { IfNone result (((link_of self.old).count ≡ (link_of self.old).capacity) × (self.new ≡ self.old)) }
        ensures inside { IfSome result (λ index. (index < (link_of self.old).capacity) × ((link_of self.old).count ≢ (link_of self.old).capacity)) }
        ensures free { IfSome result (λ index. get (link_of self.old).times index ≡ None) }
        ensures first { IfSome result (λ index. self.old.ages.free ≡ index ∷ self.new.ages.free) }
        ensures handed { IfSome result (λ index. seen self.new ≡ with_link (seen self.old) (with_index (link_of self.old) index now)) }
    {
        self.ages.allocate(now)
    }

    /// Gives an allocated index this time.
    pub fn rejuvenate(&mut self, index: u32, now: u64)
        requires allocated { IsSome (joined (get (link_of self.old).times index)) }
        requires time { (link_of self.old).highest ≤ now }
        ensures link { seen self.new ≡ with_link (seen self.old) (with_time (link_of self.old) index now) }
        ensures ages { self.new.ages ≡ after_rejuvenation self.old.ages index now }
    {
        self.ages.rejuvenate(index, now);
    }

    /// Frees an allocated index.
    pub fn free(&mut self, index: u32)
        requires { IsSome (joined (get (link_of self.old).times index)) }
        ensures link { seen self.new ≡ with_link (seen self.old) (without_index true (link_of self.old) index) }
        ensures ages { self.new.ages ≡ after_freeing self.old.ages index }
    {
        self.ages.free(index);
    }

    /// Frees exactly the indices with a time before a bound, the oldest first, erases the keys in their cells, and answers how many
    /// they are.
    pub fn expire(&mut self, before: u64) -> u32
        requires { IsKeyed (link_of self.old) }
        ensures freed { Some result ≡ count_before true (link_of self.old) before }
        ensures expired { seen self.new ≡ with_link (seen self.old) (expired true (link_of self.old) before result) }
        ensures oldest { self.new.ages ≡ after_expiry self.old.ages result }
    {
        expire_oldest(&mut self.keys, &mut self.ages, &self.cells, before)
    }

    /// Lends a cell that isn't lent.
    pub fn borrow(&mut self, index: u32) -> CellLoan
        requires inside { index < (link_of self.old).capacity }
        requires not_lent { unwrap_or (slice_get (seen self.old).lent index) false ≡ false }
        ensures loan { result ≡ index }
        ensures lent { seen self.new ≡ with_lent (seen self.old) index true }
        ensures now { unwrap_or (slice_get (seen self.new).lent index) false ≡ true }
        ensures cell { IsSome (get (link_of self.old).cells index) }
        ensures ages { self.new.ages ≡ self.old.ages }
    {
        self.cells.borrow(index)
    }

    /// Takes back a lent cell.
    pub fn give_back(&mut self, loan: CellLoan)
        requires { unwrap_or (slice_get (seen self.old).lent loan) false ≡ true }
        ensures lent { seen self.new ≡ with_lent (seen self.old) loan false }
        ensures ages { self.new.ages ≡ self.old.ages }
    {
        self.cells.give_back(loan);
    }

    /// The bytes of a lent cell.
    pub fn cell(&self, index: u32) -> &[u8]
        requires { unwrap_or (slice_get (seen self.now).lent index) false ≡ true }
        ensures { get (link_of self.now).cells index ≡ Some result.now }
    {
        self.cells.lent_cell(index)
    }

    /// Stores bytes into a lent cell, from a place on.
    pub fn store(&mut self, index: u32, from: u32, bytes: &[u8])
        requires lent { unwrap_or (slice_get (seen self.old).lent index) false ≡ true }
        requires within { (cell : List ℕ) → get (link_of self.old).cells index ≡ Some cell → from + length bytes.now ≤ length cell }
        ensures cell { IsSome (get (link_of self.old).cells index) }
        ensures stored { (cell : List ℕ) → get (link_of self.old).cells index ≡ Some cell →
            seen self.new ≡ with_link (seen self.old)
            (with_cell (link_of self.old) index (take from cell ++ bytes.now ++ drop (from + length bytes.now) cell)) }
        ensures ages { self.new.ages ≡ self.old.ages }
    {
        self.cells.store(index, from, bytes);
    }

    /// Whether the map agrees with that of a table, in what both tell.
    pub fn map_agrees(&self, other: &LinkTable, full: bool) -> bool
        ensures { IsTrue result ↔ MapsAgree true full (link_of self.now) other.now }
    {
        if self.keys.size() != other.size {
            return false;
        }
        keys_told(&self.keys, self.key_length, &other.keys, full)
    }

    /// Whether the chain agrees with that of a table, in what both tell.
    pub fn chain_agrees(&self, other: &LinkTable, full: bool) -> bool
        requires { (link_of self.now).capacity ≡ other.now.capacity }
        ensures { IsTrue result ↔ ChainsAgree true full (link_of self.now) other.now }
    {
        if self.ages.count() != other.count {
            return false;
        }
        if self.ages.highest() != other.highest {
            return false;
        }
        times_told(&self.ages, self.capacity, &other.times, full)
    }

    /// Whether the cells agree with those of a table.
    pub fn cells_agree(&self, other: &Numbered<Bytes>) -> bool
        ensures { IsTrue result ↔ CellsAgree (link_of self.now).cells other.now }
    {
        self.cells.agrees(other)
    }
}
