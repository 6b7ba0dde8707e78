//! What a run has done with the library in one frame.
ghost use Rattle.std.specs.Prelude.{◌≡◌, ◌<◌, ◌==◌, ◌&&◌, false, length, map, unwrap_or, slice_get};
ghost use Rattle.std.specs.List.{list_any};
ghost use Rattle.vg_abs.specs.Rows as library;
ghost use Rattle.vg_crows.specs.Record as records;
ghost use Rattle.vg_crows.specs.Record.{so_far, marked, place_of, is_name_of, with_handed, with_cell};

use arrayvec::ArrayVec;
use std::marker::Model;

/// A cell that is lent, with its number as an object.
#[derive(Clone, Copy, Debug, Default, PartialEq, Eq)]
pub struct Cell {
    pub vector: u16,
    pub index: u32,
    pub number: u64,
}

/// The book that a run keeps of one frame: the indices that it was handed, the cells that are lent to it, and the links that it changed.
#[derive(Drop)]
pub struct Book {
    pub(crate) handed_list: ArrayVec<(u16, u32), 64>,
    pub(crate) cell_list: ArrayVec<Cell, 16>,
    pub(crate) changed_list: Vec<bool>,
}

impl Model for Book {
    ghost use Rattle.vg_crows.specs.Record.{Record};

    ghost Value = { Record };

    ghost view = { λ b. record { handed = b.handed_list.items; cells = b.cell_list.items; changed = b.changed_list.items } };
}

impl Book {
    /// How many indices were handed out in this frame.
    pub fn handed_count(&self) -> usize
        ensures { result ≡ length self.now.handed }
    {
        self.handed_list.len()
    }

    /// How many cells are lent.
    pub fn lent_count(&self) -> usize
        ensures { result ≡ length (so_far self.now).lent }
    {
        self.cell_list.len()
    }

    /// Whether a cell is lent.
    pub fn is_lent(&self, vector: u16, index: u32) -> bool
        ensures { result ≡ library.is_lent (so_far self.now) vector index }
    {
        is_among(self.cell_list.as_slice(), vector, index)
    }

    /// Whether a cell is lent under a name.
    pub fn is_lent_as(&self, vector: u16, index: u32, number: u64) -> bool
        ensures { result ≡ records.is_lent_as self.now vector index number }
    {
        is_named(self.cell_list.as_slice(), vector, index, number)
    }

    /// Whether any cell of a vector is lent.
    pub fn is_any_lent(&self, vector: u16) -> bool
        ensures { result ≡ list_any (λ cell. cell.0 == vector) (so_far self.now).lent }
    {
        is_any_of(self.cell_list.as_slice(), vector)
    }

    /// Whether a link was changed, by its map.
    #[tactic(auto, using(crate::proofs::Marks::any_marked))]
    pub fn is_changed(&self, map: u16) -> bool
        ensures { result ≡ list_any (λ changed. changed == map) (so_far self.now).changed }
    {
        is_marked(self.changed_list.as_slice(), map)
    }

    /// A link is changed, by its map.
    pub fn mark(&mut self, map: u16)
        ensures { self.new ≡ marked self.old map }
    {
        if (map as usize) < self.changed_list.len() {
            self.changed_list[map as usize] = true;
        }
    }

    /// An index of a chain was handed out.
    pub fn hand(&mut self, chain: u16, index: u32)
        requires { length self.old.handed < 64 }
        ensures { self.new ≡ with_handed self.old chain index }
    {
        self.handed_list.push((chain, index));
    }

    /// A cell was lent.
    pub fn lend(&mut self, cell: Cell)
        requires { length self.old.cells < 16 }
        ensures { self.new ≡ with_cell self.old cell }
    {
        self.cell_list.push(cell);
    }
}

fn is_marked(changed: &[bool], map: u16) -> bool
    ensures { result ≡ unwrap_or (slice_get changed.now map) false }
{
    match changed.get(map as usize) {
        Some(changed) => *changed,
        None => false,
    }
}

fn is_among(cells: &[Cell], vector: u16, index: u32) -> bool
    ensures { result ≡ list_any (λ cell. (cell.0 == vector) && (cell.1 == index)) (map place_of cells.now) }
{
    match cells {
        [] => false,
        [first, rest @ ..] => {
            first.vector == vector && first.index == index || is_among(rest, vector, index)
        }
    }
}

fn is_named(cells: &[Cell], vector: u16, index: u32, number: u64) -> bool
    ensures { result ≡ list_any (is_name_of vector index number) cells.now }
{
    match cells {
        [] => false,
        [first, rest @ ..] => {
            first.vector == vector && first.index == index && first.number == number
                || is_named(rest, vector, index, number)
        }
    }
}

fn is_any_of(cells: &[Cell], vector: u16) -> bool
    ensures { result ≡ list_any (λ cell. cell.0 == vector) (map place_of cells.now) }
{
    match cells {
        [] => false,
        [first, rest @ ..] => first.vector == vector || is_any_of(rest, vector),
    }
}
