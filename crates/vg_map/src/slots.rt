//! Steps on the slots of a table. Slot `i` has the `i`-th piece of a block of keys, and an index, or none where it is empty.
ghost use Rattle.std.specs.Prelude.{◌≡◌, ◌+◌, ◌*◌, ◌≤◌, ◌<◌, ◌++◌, length, take, drop, set, None, Some, get_or, IsSome};
ghost use Rattle.std.specs.Bool.{MatchBool};
ghost use Rattle.vg_map.specs.Slots.{slots_of, slot, full_slots};
ghost use Rattle.vg_map.specs.Search.{IsOther, IsEnd, EndsAt, HasGap, ClosesGap};

use crate::hash::Homes;

/// The key of slot `at`.
fn key_at(keys: &[u8], key_len: usize, at: usize) -> &[u8]
    requires { (at + 1) * key_len ≤ length keys.now }
    ensures { result.now ≡ take key_len (drop (at * key_len) keys.now) }
{
    let start = at * key_len;
    &keys[start..start + key_len]
}

/// Whether another key than `key` stands in slot `at`.
fn has_other(keys: &[u8], indices: &[Option<u32>], key: &[u8], at: usize) -> bool
    requires bytes { length keys.now ≡ length indices.now * length key.now }
    requires within { at < length indices.now }
    ensures { MatchBool result (IsOther key.now (slot (slots_of (length key.now) keys.now indices.now) at))
        (IsEnd key.now (slot (slots_of (length key.now) keys.now indices.now) at)) }
{
    indices[at].is_some() && key_at(keys, key.len(), at) != key
}

/// The slot where a search for `key` from slot `from` on ends: that of the key, or the first empty one.
pub fn find(keys: &[u8], indices: &[Option<u32>], key: &[u8], from: usize) -> usize
    requires bytes { length keys.now ≡ length indices.now * length key.now }
    requires room { from + full_slots indices.now < length indices.now }
    ensures { EndsAt (slots_of (length key.now) keys.now indices.now) key.now from result }
{
    let mut at = from;
    while has_other(keys, indices, key, at) {
        at += 1;
    }
    at
}

/// Writes `key` into the block of keys at slot `at`.
pub fn write_key(keys: &mut [u8], key: &[u8], at: usize)
    requires { (at + 1) * length key.now ≤ length keys.old }
    ensures { keys.new ≡ take (at * length key.now) keys.old ++ key.now ++ drop ((at + 1) * length key.now) keys.old }
{
    let start = at * key.len();
    keys[start..start + key.len()].copy_from_slice(key);
}

/// Moves what stands in slot `from` to the slot `to` before it.
fn shift(keys: &mut [u8], indices: &mut [Option<u32>], key_len: usize, from: usize, to: usize)
    requires bytes { length keys.old ≡ length indices.old * key_len }
    requires order { to < from }
    requires within { from < length indices.old }
    requires full { IsSome (get_or indices.old from None) }
    ensures slots { slots_of key_len keys.new indices.new ≡ set (set (slots_of key_len keys.old indices.old) to
        (slot (slots_of key_len keys.old indices.old) from)) from None }
    ensures indices { indices.new ≡ set (set indices.old to (get_or indices.old from None)) from None }
    ensures bytes { length keys.new ≡ length keys.old }
{
    let (front, back) = keys.split_at_mut(from * key_len);
    write_key(front, &back[..key_len], to);
    indices[to] = indices[from];
    indices[from] = None;
}

/// Closes the gap at an emptied slot: moves keys back, so that a search from a key's home meets it without a step over an empty slot.
pub fn close_gap(
    keys: &mut [u8],
    indices: &mut [Option<u32>],
    key_len: usize,
    homes: Homes,
    gap: usize,
)
    requires bytes { length keys.old ≡ length indices.old * key_len }
    requires within { gap < length indices.old }
    requires gap { HasGap homes (slots_of key_len keys.old indices.old) gap (gap + 1) }
    ensures closed { ClosesGap homes (slots_of key_len keys.old indices.old) (slots_of key_len keys.new indices.new) }
    ensures full { full_slots indices.new ≡ full_slots indices.old }
    ensures slots { length indices.new ≡ length indices.old }
    ensures bytes { length keys.new ≡ length keys.old }
{
    let mut gap = gap;
    let mut at = gap + 1;
    while at < indices.len() && indices[at].is_some() {
        if homes.of(key_at(keys, key_len, at)) <= gap {
            shift(keys, indices, key_len, at, gap);
            gap = at;
        }
        at += 1;
    }
}
