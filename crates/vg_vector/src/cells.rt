//! A list of cells of one size, which are lent one by one.
ghost use Rattle.std.specs.Prelude.{◌≡◌, ◌<◌, ◌+◌, ◌*◌, ℕ, true, false, length, replicate, slice_get, Some, IfOk, List, Bool};
ghost use Rattle.std.specs.Borrow.{sem};
ghost use Rattle.vg_vector.specs.Cells.{with_loan};

use std::alloc::Global;
use std::marker::Model;
use vg_parts::Memory;

/// A list of cells, each of the same number of bytes, in one block of memory. A cell may be lent,
/// to one borrower at a time; that is noted here, and stops nobody from reading or writing it.
#[derive(Drop)]
pub struct Cells {
    size: u32,
    bytes: Vec<u8>,
    loans: Vec<bool>,
}

impl Model for Cells {
    ghost use Rattle.std.specs.Prelude.{◌≡◌, ◌*◌, length};
    ghost use Rattle.vg_vector.specs.Cells.{CellList, cells_of};

    ghost Value = { CellList };

    ghost view = { λ c. record {
      size = c.size;
      cells = cells_of (length c.loans.items) c.size c.bytes.items;
      lent = c.loans.items;
    } };

    ghost invariant = { λ c. length c.bytes.items ≡ length c.loans.items * c.size };
}

/// The leave to use one cell until it is given back. It carries no bytes and can't be copied. Where
/// it is dropped instead, the cell stays lent.
#[derive(Drop)]
pub struct CellLoan {
    cell: u32,
}

impl Model for CellLoan {
    ghost use Rattle.std.specs.Prelude.{ℕ};

    ghost Value = { ℕ };

    ghost view = { λ l. l.cell };
}

impl CellLoan {
    /// Which cell it is.
    pub fn index(&self) -> u32
        ensures { result ≡ self.now }
    {
        self.cell
    }
}

impl Cells {
    ghost use Rattle.vg_vector.specs.Lending.{LendsCell};

    /// This many cells of this many bytes each, all 0, and none lent. Nothing that is done with them
    /// later takes memory.
    pub fn new(alloc: Global, length: u32, size: u32) -> Result<Cells, Memory>
        ensures size { IfOk result (λ made. made.size ≡ size) }
        ensures zeros { IfOk result (λ made. made.cells ≡ replicate length (replicate size 0)) }
        ensures free { IfOk result (λ made. made.lent ≡ replicate length false) }
    {
        let block = length as usize * size as usize;
        let Ok(bytes) = vec![in alloc; 0; block] else {
            return Err(Memory);
        };
        let Ok(loans) = vec![in alloc; false; length as usize] else {
            return Err(Memory);
        };
        Ok(Cells { size, bytes, loans })
    }

    /// The bytes of a cell.
    pub fn cell(&self, i: u32) -> &[u8]
        requires { i < length self.now.cells }
        ensures value { slice_get self.now.cells i ≡ Some result.now }
        ensures size { length result.now ≡ self.now.size }
    {
        let start = i as usize * self.size as usize;
        &self.bytes[start..start + self.size as usize]
    }

    /// The bytes of a cell, to be written. Every other cell stays, and so does what is lent.
    pub fn cell_mut(&mut self, i: u32) -> &mut [u8]
        requires { i < length self.old.cells }
        ensures* writes_back { sem 𝓛 (LendsCell self.entry i result) }
        ensures value { slice_get self.old.cells i ≡ Some result.now }
        ensures size { length result.now ≡ self.old.size }
    {
        let start = i as usize * self.size as usize;
        let end = start + self.size as usize;
        self.bytes.slice_mut(start..end)
    }

    /// Lends a cell that isn't lent.
    pub fn borrow(&mut self, i: u32) -> CellLoan
        requires { slice_get self.old.lent i ≡ Some false }
        ensures loan { result ≡ i }
        ensures lent { self.new ≡ with_loan self.old i true }
    {
        self.loans[i as usize] = true;
        CellLoan { cell: i }
    }

    /// Takes back a cell that is lent.
    pub fn give_back(&mut self, loan: CellLoan)
        requires { slice_get self.old.lent loan ≡ Some true }
        ensures { self.new ≡ with_loan self.old loan false }
    {
        self.loans[loan.cell as usize] = false;
    }
}
