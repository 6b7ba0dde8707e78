//! A link: its keys in slots, its times and its cells in places.
ghost use Rattle.std.specs.Prelude.{◌≡◌, ◌≤◌, ◌<◌, ◌+◌, ◌≢◌, ◌↔◌, IsTrue, ◌∷◌, ◌++◌, [], ℕ, List, true, false, length, take, drop, replicate};
ghost use Rattle.std.specs.Prelude.{slice_get, unwrap_or, is_some, Some, None, IfOk, IfSome, IfNone, IsSome};
ghost use Rattle.std.specs.FinMap.{get};
ghost use Rattle.vg_abs.specs.Effects.{with_key, without_key, with_index, with_time, without_index, with_cell, expired};
ghost use Rattle.vg_abs.specs.Agreement.{ChainsAgree, MapsAgree};
ghost use Rattle.vg_abs.specs.Answers.{count_before};
ghost use Rattle.vg_abs.specs.Opening.{opening_link};
ghost use Rattle.vg_plain.specs.PlainTables.{joined};
ghost use Rattle.vg_plain.specs.LinkStates.{with_link, with_lent, IsKeyed, CellsAgree};

use crate::expiry::expire_places;
use crate::slots::{clear_key, find, first_free};
use crate::telling::{cells_told, keys_told, times_told};
use crate::writing::{fill_cell, write_cell};
use std::alloc::Global;
use std::marker::Model;
use vg_abs::{Bytes, LinkTable, Numbered};
use vg_parts::Memory;
use vg_vector::{CellLoan, Cells};

/// A link: a map in slots of keys and their indices, a chain in the times of its indices, and a vector in cells.
#[derive(Drop)]
pub struct PlainLink {
    capacity: u32,
    key_length: u32,
    indices: Vec<Option<u32>>,
    keys: Cells,
    times: Vec<Option<u64>>,
    cells: Cells,
    size: u32,
    count: u32,
    highest: u64,
}

impl Model for PlainLink {
    ghost use Rattle.vg_plain.specs.LinkStates.{LinkState, link_state_code};

    ghost Value = { LinkState };

    ghost coded = { link_state_code };

    ghost use Rattle.vg_plain.specs.PlainLinks.{seen_link, IsKept};

    ghost view = { seen_link };

    ghost invariant = { IsKept };
}

impl PlainLink {
    /// A link at the start. All its memory is taken here.
    pub fn new(alloc: Global, capacity: u32, key_length: u32) -> Result<PlainLink, Memory>
        ensures { IfOk result (λ made. made ≡ record { link = opening_link capacity key_length; lent = replicate capacity false }) }
    {
        Ok(PlainLink {
            capacity,
            key_length,
            indices: vec![in alloc; None; capacity as usize]?,
            keys: Cells::new(alloc, capacity, key_length)?,
            times: vec![in alloc; None; capacity as usize]?,
            cells: Cells::new(alloc, capacity, key_length)?,
            size: 0,
            count: 0,
            highest: 0,
        })
    }

    /// The index of a key, or none.
    pub fn get(&self, key: &[u8]) -> Option<u32>
        ensures { result ≡ joined (get self.now.link.keys key.now) }
    {
        find(&self.indices, &self.keys, key)
    }

    /// Maps an absent key to an index, where there is room.
    pub fn put(&mut self, key: &[u8], index: u32)
        requires room { self.old.link.size < self.old.link.capacity }
        requires long { length key.now ≡ self.old.link.key_length }
        requires absent { joined (get self.old.link.keys key.now) ≡ None }
        ensures { self.new ≡ with_link self.old (with_key self.old.link key.now index) }
    {
        if let Some(i) = first_free(&self.indices) {
            self.indices[i] = Some(index);
            fill_cell(&mut self.keys, i as u32, key);
            self.size += 1;
        }
    }

    /// Makes a present key absent.
    pub fn erase(&mut self, key: &[u8])
        requires { IsSome (joined (get self.old.link.keys key.now)) }
        ensures { self.new ≡ with_link self.old (without_key true self.old.link key.now) }
    {
        clear_key(&mut self.indices, &self.keys, key);
        self.size -= 1;
    }

    /// How many keys are mapped.
    pub fn size(&self) -> u32
        ensures { result ≡ self.now.link.size }
    {
        self.size
    }

    /// How many indices are allocated.
    pub fn count(&self) -> u32
        ensures { result ≡ self.now.link.count }
    {
        self.count
    }

    /// The highest time that the chain was told.
    pub fn highest(&self) -> u64
        ensures { result ≡ self.now.link.highest }
    {
        self.highest
    }

    /// The last time of an index, or none where it is free.
    pub fn time(&self, index: u32) -> Option<u64>
        requires { index < self.now.link.capacity }
        ensures { result ≡ joined (get self.now.link.times index) }
    {
        self.times[index as usize]
    }

    /// Hands out the least free index and gives it this time, or none where no index is free.
    pub fn allocate(&mut self, now: u64) -> Option<u32>
        ensures none { IfNone result ((self.old.link.count ≡ self.old.link.capacity) × (self.new ≡ self.old)) }
        ensures inside { IfSome result (λ index. (index < self.old.link.capacity) × (self.old.link.count ≢ self.old.link.capacity)) }
        ensures free { IfSome result (λ index. get self.old.link.times index ≡ None) }
        ensures least { IfSome result (λ index. (other : ℕ) → other < index → get self.old.link.times other ≡ None → ⊥) }
        ensures handed { IfSome result (λ index. self.new ≡ with_link self.old (with_index self.old.link index now)) }
    {
        let i = first_free(&self.times)?;
        self.times[i] = Some(now);
        self.count += 1;
        self.highest = now;
        Some(i as u32)
    }

    /// Gives an allocated index this time.
    pub fn rejuvenate(&mut self, index: u32, now: u64)
        requires inside { index < self.old.link.capacity }
        requires allocated { IsSome (joined (get self.old.link.times index)) }
        ensures { self.new ≡ with_link self.old (with_time self.old.link index now) }
    {
        self.times[index as usize] = Some(now);
        self.highest = now;
    }

    /// Frees an allocated index.
    pub fn free(&mut self, index: u32)
        requires inside { index < self.old.link.capacity }
        requires allocated { IsSome (joined (get self.old.link.times index)) }
        ensures { self.new ≡ with_link self.old (without_index true self.old.link index) }
    {
        self.times[index as usize] = None;
        self.count -= 1;
    }

    /// Frees exactly the indices with a time before a bound, erases the keys in their cells, and answers how many they are.
    pub fn expire(&mut self, before: u64) -> u32
        requires { IsKeyed self.old.link }
        ensures freed { Some result ≡ count_before true self.old.link before }
        ensures expired { self.new ≡ with_link self.old (expired true self.old.link before result) }
    {
        let freed = expire_places(
            &mut self.indices,
            &self.keys,
            &mut self.times,
            &self.cells,
            before,
        );
        self.size -= freed;
        self.count -= freed;
        freed
    }

    /// Lends a cell that isn't lent.
    pub fn borrow(&mut self, index: u32) -> CellLoan
        requires inside { index < self.old.link.capacity }
        requires not_lent { unwrap_or (slice_get self.old.lent index) false ≡ false }
        ensures loan { result ≡ index }
        ensures lent { self.new ≡ with_lent self.old index true }
        ensures now { unwrap_or (slice_get self.new.lent index) false ≡ true }
        ensures cell { IsSome (get self.old.link.cells index) }
    {
        self.cells.borrow(index)
    }

    /// Takes back a lent cell.
    pub fn give_back(&mut self, loan: CellLoan)
        requires { unwrap_or (slice_get self.old.lent loan) false ≡ true }
        ensures { self.new ≡ with_lent self.old loan false }
    {
        self.cells.give_back(loan);
    }

    /// The bytes of a cell.
    pub fn cell(&self, index: u32) -> &[u8]
        requires { unwrap_or (slice_get self.now.lent index) false ≡ true }
        ensures { get self.now.link.cells index ≡ Some result.now }
    {
        self.cells.cell(index)
    }

    /// Stores bytes into a cell, from a place on.
    pub fn store(&mut self, index: u32, from: u32, bytes: &[u8])
        requires lent { unwrap_or (slice_get self.old.lent index) false ≡ true }
        requires within { (cell : List ℕ) → get self.old.link.cells index ≡ Some cell → from + length bytes.now ≤ length cell }
        ensures cell { IsSome (get self.old.link.cells index) }
        ensures stored { (cell : List ℕ) → get self.old.link.cells index ≡ Some cell →
            self.new ≡ with_link self.old (with_cell self.old.link index (take from cell ++ bytes.now ++ drop (from + length bytes.now) cell)) }
    {
        write_cell(&mut self.cells, index, from, bytes);
    }

    /// Whether the chain agrees with that of a table, in what both tell.
    pub fn chain_agrees(&self, other: &LinkTable, full: bool) -> bool
        requires { self.now.link.capacity ≡ other.now.capacity }
        ensures { IsTrue result ↔ ChainsAgree true full self.now.link other.now }
    {
        if self.count != other.count {
            return false;
        }
        if self.highest != other.highest {
            return false;
        }
        times_told(&self.times, &other.times, full)
    }

    /// Whether the cells agree with those of a table.
    pub fn cells_agree(&self, other: &Numbered<Bytes>) -> bool
        ensures { IsTrue result ↔ CellsAgree self.now.link.cells other.now }
    {
        cells_told(&self.cells, self.capacity, other)
    }

    /// Whether the map agrees with that of a table, in what both tell.
    pub fn map_agrees(&self, other: &LinkTable, full: bool) -> bool
        ensures { IsTrue result ↔ MapsAgree true full self.now.link other.now }
    {
        if self.size != other.size {
            return false;
        }
        keys_told(&self.indices, &self.keys, &other.keys, full)
    }
}
