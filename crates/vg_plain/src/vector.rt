//! A vector of its own.
ghost use Rattle.std.specs.Prelude.{◌≡◌, ◌≤◌, ◌<◌, ◌+◌, ◌^◌, ◌++◌, ◌↔◌, IsTrue, List, ℕ, true, false, length, take, drop, replicate, slice_get};
ghost use Rattle.std.specs.Prelude.{unwrap_or, Some, IsSome, IfOk};
ghost use Rattle.vg_vector.specs.Cells.{with_cell, with_loan};
ghost use Rattle.vg_plain.specs.PlainTables.{cell_table};
ghost use Rattle.vg_plain.specs.LinkStates.{CellsAgree};

use crate::telling::cells_told;
use crate::writing::{fill_cell, write_cell};
use std::alloc::Global;
use std::marker::Model;
use vg_abs::{Bytes, Numbered};
use vg_parts::Memory;
use vg_vector::{CellLoan, Cells};

/// A vector of its own, in cells.
#[derive(Drop)]
pub struct PlainVector {
    count: u32,
    cells: Cells,
}

impl Model for PlainVector {
    ghost use Rattle.std.specs.Prelude.{◌≡◌, length};
    ghost use Rattle.vg_vector.specs.Cells.{CellList};

    ghost Value = { CellList };

    ghost view = { λ v. v.cells };

    ghost invariant = { λ v. (length v.cells.lent ≡ v.count) × (length v.cells.cells ≡ v.count) };
}

impl PlainVector {
    /// So many cells of so many zeros.
    pub fn new(alloc: Global, count: u32, size: u32) -> Result<PlainVector, Memory>
        ensures size { IfOk result (λ made. made.size ≡ size) }
        ensures zeros { IfOk result (λ made. made.cells ≡ replicate count (replicate size 0)) }
        ensures free { IfOk result (λ made. made.lent ≡ replicate count false) }
    {
        Ok(PlainVector {
            count,
            cells: Cells::new(alloc, count, size)?,
        })
    }

    /// A cell holds these bytes.
    pub fn fill(&mut self, index: u32, bytes: &[u8])
        requires inside { index < length self.old.cells }
        requires whole { length bytes.now ≡ self.old.size }
        ensures { self.new ≡ with_cell self.old index bytes.now }
    {
        fill_cell(&mut self.cells, index, bytes);
    }

    /// Lends a cell that isn't lent.
    pub fn borrow(&mut self, index: u32) -> CellLoan
        requires inside { index < length self.old.cells }
        requires not_lent { unwrap_or (slice_get self.old.lent index) false ≡ false }
        ensures loan { result ≡ index }
        ensures lent { self.new ≡ with_loan self.old index true }
        ensures now { unwrap_or (slice_get self.new.lent index) false ≡ true }
    {
        self.cells.borrow(index)
    }

    /// Takes back a lent cell.
    pub fn give_back(&mut self, loan: CellLoan)
        requires { unwrap_or (slice_get self.old.lent loan) false ≡ true }
        ensures { self.new ≡ with_loan self.old loan false }
    {
        self.cells.give_back(loan);
    }

    /// The bytes of a cell.
    pub fn cell(&self, index: u32) -> &[u8]
        requires { unwrap_or (slice_get self.now.lent index) false ≡ true }
        ensures { slice_get self.now.cells index ≡ Some result.now }
    {
        self.cells.cell(index)
    }

    /// Stores bytes into a cell, from a place on.
    pub fn store(&mut self, index: u32, from: u32, bytes: &[u8])
        requires lent { unwrap_or (slice_get self.old.lent index) false ≡ true }
        requires within { (cell : List ℕ) → slice_get self.old.cells index ≡ Some cell → from + length bytes.now ≤ length cell }
        ensures cell { IsSome (slice_get self.old.cells index) }
        ensures stored { (cell : List ℕ) → slice_get self.old.cells index ≡ Some cell →
            self.new ≡ with_cell self.old index (take from cell ++ bytes.now ++ drop (from + length bytes.now) cell) }
    {
        write_cell(&mut self.cells, index, from, bytes);
    }

    /// Whether the cells agree with those of a table, in what both tell.
    pub fn agrees(&self, other: &Numbered<Bytes>) -> bool
        ensures { IsTrue result ↔ CellsAgree (cell_table 0 self.now.cells) other.now }
    {
        cells_told(&self.cells, self.count, other)
    }
}
