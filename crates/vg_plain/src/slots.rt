//! Slots for keys and their indices, and places that are used or free.
ghost use Rattle.std.specs.Prelude.{◌≡◌, ◌≤◌, ◌<◌, ◌^◌, ℕ, length, slice_get, count_by, is_some, Some, None, IfSome, IfNone, IsSome, vec_len};
ghost use Rattle.std.specs.FinMap.{get};
ghost use Rattle.vg_plain.specs.PlainTables.{key_table, without_slots, joined};

use vg_vector::Cells;

/// The index of a key: that in its first slot, or none.
pub fn find(indices: &[Option<u32>], keys: &Cells, key: &[u8]) -> Option<u32>
    requires alike { length indices.now ≡ length keys.now.cells }
    requires few { length indices.now < 2 ^ 32 }
    ensures { result ≡ joined (get (key_table indices.now keys.now.cells) key.now) }
{
    for i in 0..indices.len() {
        if indices[i].is_some() && keys.cell(i as u32) == key {
            return indices[i];
        }
    }
    None
}

/// Clears the slots of a key.
pub fn clear_key(indices: &mut Vec<Option<u32>>, keys: &Cells, key: &[u8])
    requires alike { vec_len indices.old ≡ length keys.now.cells }
    requires few { vec_len indices.old < 2 ^ 32 }
    ensures { indices.new.items ≡ without_slots key.now indices.old.items keys.now.cells }
{
    for i in 0..indices.len() {
        if keys.cell(i as u32) == key {
            indices[i] = None;
        }
    }
}

/// The first place that is free.
pub fn first_free<T>(places: &[Option<T>]) -> Option<usize>
    ensures free { IfSome result (λ i. slice_get places.now i ≡ Some None) }
    ensures first { IfSome result (λ i. (other : ℕ) → other < i → slice_get places.now other ≡ Some None → ⊥) }
    ensures none { IfNone result (count_by (λ place. is_some place) places.now ≡ length places.now) }
{
    let mut i = 0;
    for place in places {
        if place.is_none() {
            return Some(i);
        }
        i += 1;
    }
    None
}
