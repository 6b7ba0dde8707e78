//! Writing into cells.
ghost use Rattle.std.specs.Prelude.{◌≡◌, ◌≤◌, ◌<◌, ◌+◌, ◌++◌, length, take, drop, slice_get, Some, List, ℕ};
ghost use Rattle.vg_vector.specs.Cells.{with_cell};

use vg_vector::Cells;

/// A cell holds these bytes.
pub fn fill_cell(cells: &mut Cells, i: u32, bytes: &[u8])
    requires cell { i < length cells.old.cells }
    requires whole { length bytes.now ≡ cells.old.size }
    ensures { cells.new ≡ with_cell cells.old i bytes.now }
{
    cells.cell_mut(i).copy_from_slice(bytes);
}

/// Bytes are stored into a cell, from a place on.
pub fn write_cell(cells: &mut Cells, i: u32, from: u32, bytes: &[u8])
    requires cell { i < length cells.old.cells }
    requires within { (cell : List ℕ) → slice_get cells.old.cells i ≡ Some cell → from + length bytes.now ≤ length cell }
    ensures { (cell : List ℕ) → slice_get cells.old.cells i ≡ Some cell →
        cells.new ≡ with_cell cells.old i (take from cell ++ bytes.now ++ drop (from + length bytes.now) cell) }
{
    let start = from as usize;
    let end = start + bytes.len();
    let cell = cells.cell_mut(i);
    cell[start..end].copy_from_slice(bytes);
}
