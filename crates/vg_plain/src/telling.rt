//! Whether lists tell what tables tell.
ghost use Rattle.std.specs.Prelude.{◌≡◌, ◌≤◌, ◌<◌, ◌^◌, ◌↔◌, ℕ, List, length, true, Some, None, Option, IsTrue, slice_get};
ghost use Rattle.std.specs.FinMap.{get};
ghost use Rattle.vg_abs.specs.Agreement.{BothTell};
ghost use Rattle.vg_abs.specs.Answers.{listed_or_none};
ghost use Rattle.vg_plain.specs.PlainTables.{key_table, time_table, cell_table, joined};

use crate::slots::find;
use vg_abs::{Bytes, Keyed, Numbered};
use vg_vector::Cells;

// Whether an answer is the one that is told, if one is; what isn't listed is told as absent, or free, where all is told.
fn is_time_told(time: Option<u64>, listed: Option<Option<u64>>, full: bool) -> bool
    ensures { IsTrue result ↔ BothTell (Some time) (listed_or_none full listed) }
{
    match listed {
        Some(told) => told == time,
        None => !full || time.is_none(),
    }
}

/// Whether times agree with a table, which tells all where it is full.
pub fn times_told(times: &[Option<u64>], table: &Numbered<Option<u64>>, full: bool) -> bool
    ensures { IsTrue result ↔ ((index : ℕ) → index < length times.now → BothTell (Some (joined (slice_get times.now index)))
        (listed_or_none full (get table.now index))) }
{
    for i in 0..times.len() {
        if !is_time_told(times[i], table.get(i as u64).copied(), full) {
            return false;
        }
    }
    true
}

/// Whether cells agree with a table.
pub fn cells_told(cells: &Cells, count: u32, table: &Numbered<Bytes>) -> bool
    requires { count ≡ length cells.now.cells }
    ensures { IsTrue result ↔ ((index : ℕ) → BothTell (slice_get cells.now.cells index) (get table.now index)) }
{
    for i in 0..count {
        if let Some(bytes) = table.get(u64::from(i)) {
            if bytes.as_slice() != cells.cell(i) {
                return false;
            }
        }
    }
    true
}

/// Whether the keys in slots agree with a table, which tells all where it is full.
pub fn keys_told(indices: &[Option<u32>], keys: &Cells, table: &Keyed, full: bool) -> bool
    requires alike { length indices.now ≡ length keys.now.cells }
    requires few { length indices.now < 2 ^ 32 }
    ensures { IsTrue result ↔ ((key : List ℕ) → BothTell (Some (joined (get (key_table indices.now keys.now.cells) key)))
        (listed_or_none full (get table.now key))) }
{
    if !are_listed(indices, keys, table) {
        return false;
    }
    if !full {
        return true;
    }
    list_all(indices, keys, table)
}

// Whether an answer is the one that a table tells, if it tells one.
fn is_index_told(index: Option<u32>, told: Option<Option<u32>>) -> bool
    ensures { IsTrue result ↔ BothTell (Some index) told }
{
    match told {
        Some(told) => told == index,
        None => true,
    }
}

// Whether each key that a table lists has the index of its slot there.
fn are_listed(indices: &[Option<u32>], keys: &Cells, table: &Keyed) -> bool
    requires alike { length indices.now ≡ length keys.now.cells }
    requires few { length indices.now < 2 ^ 32 }
    ensures { IsTrue result ↔ ((key : List ℕ) → BothTell (Some (joined (get (key_table indices.now keys.now.cells) key))) (get table.now key)) }
{
    for (key, _answer) in table.iter() {
        if !is_index_told(find(indices, keys, key), table.get(key)) {
            return false;
        }
    }
    true
}

// Whether a table lists each key that has a slot.
fn list_all(indices: &[Option<u32>], keys: &Cells, table: &Keyed) -> bool
    requires alike { length indices.now ≡ length keys.now.cells }
    requires few { length indices.now < 2 ^ 32 }
    ensures { IsTrue result ↔ ((key : List ℕ) → get table.now key ≡ None → get (key_table indices.now keys.now.cells) key ≡ None) }
{
    for i in 0..indices.len() {
        if indices[i].is_some() && table.get(keys.cell(i as u32)).is_none() {
            return false;
        }
    }
    true
}
