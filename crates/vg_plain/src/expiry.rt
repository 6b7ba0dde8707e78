//! Expiry on the lists of a link.
ghost use Rattle.std.specs.Prelude.{◌≡◌, ◌≤◌, ◌<◌, ◌+◌, ◌^◌, ℕ, List, length, map, count_by, slice_get, is_some, Some, None, vec_len, if◌then◌else◌};
ghost use Rattle.std.specs.FinMap.{get};
ghost use Rattle.vg_plain.specs.PlainTables.{key_table, joined};
ghost use Rattle.vg_plain.specs.Expiring as expiring;
ghost use Rattle.vg_plain.specs.Expiring.{kept_time, key_goes};

use crate::slots::clear_key;
use vg_vector::Cells;

// Whether there is a time before a bound.
fn is_early(time: Option<u64>, before: u64) -> bool
    ensures { result ≡ expiring.is_early before time }
{
    match time {
        Some(time) => time < before,
        None => false,
    }
}

/// Frees the indices with a time before a bound, clears the slots of the keys in their cells, and answers how many they are.
pub fn expire_places(
    indices: &mut Vec<Option<u32>>,
    keys: &Cells,
    times: &mut Vec<Option<u64>>,
    cells: &Cells,
    before: u64,
) -> u32
    requires slots { vec_len indices.old ≡ length keys.now.cells }
    requires places { vec_len times.old ≡ length cells.now.cells }
    requires few { vec_len times.old < 2 ^ 32 }
    requires few_slots { vec_len indices.old < 2 ^ 32 }
    requires tied { (index time : ℕ) → slice_get times.old.items index ≡ Some (Some time) →
        (key : List ℕ) × (slice_get cells.now.cells index ≡ Some key) × (get (key_table indices.old.items keys.now.cells) key ≡ Some (Some index)) }
    ensures freed { result ≡ count_by (expiring.is_early before) times.old.items }
    ensures times { times.new.items ≡ map (kept_time before) times.old.items }
    ensures slots { vec_len indices.new ≡ vec_len indices.old }
    ensures keys { (key : List ℕ) → get (key_table indices.new.items keys.now.cells) key
        ≡ (if key_goes before times.old.items cells.now.cells key (joined (get (key_table indices.old.items keys.now.cells) key)) then None
        else get (key_table indices.old.items keys.now.cells) key) }
    ensures few { count_by (λ index. is_some index) indices.new.items + result ≤ count_by (λ index. is_some index) indices.old.items }
{
    let mut freed = 0;
    for i in 0..times.len() {
        if is_early(times[i], before) {
            clear_key(indices, keys, cells.cell(i as u32));
            times[i] = None;
            freed += 1;
        }
    }
    freed
}
