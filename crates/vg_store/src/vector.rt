//! A vector in one block of cells.
ghost use Rattle.std.specs.Prelude.{◌≡◌, ◌≤◌, ◌<◌, ◌+◌, ◌++◌, ◌↔◌, IsTrue, List, ℕ, true, false, length, take, drop, replicate, slice_get, unwrap_or};
ghost use Rattle.std.specs.Prelude.{Some, IsSome, IfOk};
ghost use Rattle.std.specs.FinMap.{get};
ghost use Rattle.vg_vector.specs.Cells.{with_cell, with_loan};
ghost use Rattle.vg_abs.specs.Agreement.{BothTell};

use std::alloc::Global;
use std::marker::Model;
use vg_abs::{Bytes, Numbered};
use vg_parts::Memory;
use vg_vector::{CellLoan, Cells};

/// A vector: so many cells of so many bytes, each of which may be lent.
#[derive(Drop)]
pub struct RealVector {
    count: u32,
    cells: Cells,
}

impl Model for RealVector {
    ghost use Rattle.std.specs.Prelude.{◌≡◌, length};
    ghost use Rattle.vg_vector.specs.Cells.{CellList};

    ghost Value = { CellList };

    ghost view = { λ v. v.cells };

    ghost invariant = { λ v. (length v.cells.lent ≡ v.count) × (length v.cells.cells ≡ v.count) };
}

// Bytes are written into a cell, from a place on.
fn write_cell(cells: &mut Cells, index: u32, from: u32, bytes: &[u8])
    requires inside { index < length cells.old.cells }
    requires within { (cell : List ℕ) → slice_get cells.old.cells index ≡ Some cell → from + length bytes.now ≤ length cell }
    ensures { (cell : List ℕ) → slice_get cells.old.cells index ≡ Some cell →
        cells.new ≡ with_cell cells.old index (take from cell ++ bytes.now ++ drop (from + length bytes.now) cell) }
{
    let start = from as usize;
    let cell = cells.cell_mut(index);
    cell[start..start + bytes.len()].copy_from_slice(bytes);
}

impl RealVector {
    /// So many cells of so many zeros, none of them lent. No other call takes memory.
    pub fn new(alloc: Global, count: u32, size: u32) -> Result<RealVector, Memory>
        ensures size { IfOk result (λ made. made.size ≡ size) }
        ensures zeros { IfOk result (λ made. made.cells ≡ replicate count (replicate size 0)) }
        ensures free { IfOk result (λ made. made.lent ≡ replicate count false) }
    {
        let cells = Cells::new(alloc, count, size)?;
        Ok(RealVector { count, cells })
    }

    /// How many cells there are.
    pub fn count(&self) -> u32
        ensures { result ≡ length self.now.cells }
    {
        self.count
    }

    /// The bytes of a cell that is there.
    pub fn cell(&self, index: u32) -> &[u8]
        requires { index < length self.now.cells }
        ensures value { slice_get self.now.cells index ≡ Some result.now }
        ensures size { length result.now ≡ self.now.size }
    {
        self.cells.cell(index)
    }

    /// A cell holds these bytes.
    pub fn fill(&mut self, index: u32, bytes: &[u8])
        requires inside { index < length self.old.cells }
        requires whole { length bytes.now ≡ self.old.size }
        ensures { self.new ≡ with_cell self.old index bytes.now }
    {
        self.cells.cell_mut(index).copy_from_slice(bytes);
    }

    /// Lends a cell that isn't lent.
    pub fn borrow(&mut self, index: u32) -> CellLoan
        requires inside { index < length self.old.cells }
        requires not_lent { unwrap_or (slice_get self.old.lent index) false ≡ false }
        ensures loan { result ≡ index }
        ensures lent { self.new ≡ with_loan self.old index true }
        ensures now { unwrap_or (slice_get self.new.lent index) false ≡ true }
    {
        self.cells.borrow(index)
    }

    /// Takes back a lent cell.
    pub fn give_back(&mut self, loan: CellLoan)
        requires { unwrap_or (slice_get self.old.lent loan) false ≡ true }
        ensures { self.new ≡ with_loan self.old loan false }
    {
        self.cells.give_back(loan);
    }

    /// The bytes of a lent cell.
    pub fn lent_cell(&self, index: u32) -> &[u8]
        requires { unwrap_or (slice_get self.now.lent index) false ≡ true }
        ensures value { slice_get self.now.cells index ≡ Some result.now }
    {
        self.cells.cell(index)
    }

    /// Stores bytes into a lent cell, from a place on.
    pub fn store(&mut self, index: u32, from: u32, bytes: &[u8])
        requires lent { unwrap_or (slice_get self.old.lent index) false ≡ true }
        requires within { (cell : List ℕ) → slice_get self.old.cells index ≡ Some cell → from + length bytes.now ≤ length cell }
        ensures cell { IsSome (slice_get self.old.cells index) }
        ensures stored { (cell : List ℕ) → slice_get self.old.cells index ≡ Some cell →
            self.new ≡ with_cell self.old index (take from cell ++ bytes.now ++ drop (from + length bytes.now) cell) }
    {
        write_cell(&mut self.cells, index, from, bytes);
    }

    /// Whether the cells agree with a table, in what both tell.
    pub fn agrees(&self, other: &Numbered<Bytes>) -> bool
        ensures { IsTrue result ↔ ((index : ℕ) → BothTell (slice_get self.now.cells index) (get other.now index)) }
    {
        for i in 0..self.count {
            if let Some(bytes) = other.get(u64::from(i)) {
                if bytes.as_slice() != self.cells.cell(i) {
                    return false;
                }
            }
        }
        true
    }
}
