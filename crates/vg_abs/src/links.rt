//! Whether a link's tables are lawful.
ghost use Rattle.std.specs.Prelude.{◌≡◌, ◌+◌, nat_le};
ghost use Rattle.std.specs.List.{list_all};
ghost use Rattle.std.specs.FinMap.{get, entries};
ghost use Rattle.vg_abs.specs.LawfulTests as tests;

use crate::object::LinkTable;
use crate::tables::{
    all_there, cells_end, cells_known, count_allocated, count_before, count_between, count_free,
    count_from, none_absent, none_free, times_end,
};
use std::collections::btree_map::Iter;

// Whether a key is told to have this index.
fn has_index(found: Option<Option<u32>>, index: u64) -> bool
    ensures { result ≡ tests.has_index found index }
{
    match found {
        Some(Some(other)) => u64::from(other) == index,
        _ => false,
    }
}

// Whether an index is told to be allocated, with a time no later than this.
fn has_time(found: Option<Option<u64>>, highest: u64) -> bool
    ensures { result ≡ tests.has_time found highest }
{
    match found {
        Some(Some(time)) => time <= highest,
        _ => false,
    }
}

// Whether the cell of an index is told to hold a key.
fn holds_key(link: &LinkTable, index: u64, key: &[u8]) -> bool
    ensures { result ≡ tests.has_key (get link.now.cells index) key.now }
{
    match link.cells.get(index) {
        Some(bytes) => bytes.as_slice() == key,
        None => false,
    }
}

// Whether a key and an index belong together.
fn is_paired(link: &LinkTable, key: &[u8], index: u64) -> bool
    ensures { result ≡ tests.is_paired link.now key.now index }
{
    has_index(link.keys.get(key), index)
        && has_time(link.times.get(index).copied(), link.highest)
        && holds_key(link, index, key)
        && index < link.capacity
}

// Whether a told key is absent, or belongs to its index.
fn is_mapped(link: &LinkTable, key: &[u8], index: Option<u32>) -> bool
    ensures { result ≡ tests.is_mapped link.now key.now index }
{
    match index {
        Some(index) => is_paired(link, key, u64::from(index)),
        None => true,
    }
}

// Whether a told index is free, or belongs to the key in its cell.
fn is_held(link: &LinkTable, index: u64, time: Option<u64>) -> bool
    ensures { result ≡ tests.is_held link.now index time }
{
    match (time, link.cells.get(index)) {
        (None, _) => true,
        (Some(_), None) => false,
        (Some(_), Some(key)) => is_paired(link, key.as_slice(), index),
    }
}

// Whether each of these keys is absent, or belongs to its index.
fn each_tied(link: &LinkTable, mut keys: Iter<'_, Vec<u8>, Option<u32>>) -> bool
    ensures { result ≡ list_all (λ entry. tests.is_mapped link.now entry.0.items entry.1) keys.entry }
{
    keys.all(|(key, index)| is_mapped(link, key, *index))
}

// Whether each told key is absent, or belongs to its index.
fn keys_tied(link: &LinkTable) -> bool
    ensures { result ≡ list_all (λ entry. tests.is_mapped link.now entry.0 entry.1) (entries link.now.keys) }
{
    each_tied(link, link.keys.iter())
}

// Whether each told index is free, or belongs to the key in its cell.
fn indices_tied(link: &LinkTable) -> bool
    ensures { result ≡ list_all (λ entry. tests.is_held link.now entry.0 entry.1) (entries link.now.times) }
{
    link.times
        .iter()
        .all(|(index, time)| is_held(link, *index, *time))
}

// Whether keys and indices are tied, there are as many of the one as of the other, and the highest time is past.
fn is_tied(now: u64, link: &LinkTable) -> bool
    ensures { result ≡ tests.is_tied now link.now }
{
    keys_tied(link)
        && indices_tied(link)
        && link.size == link.count
        && u64::from(link.size) <= link.capacity
        && link.highest <= now
}

/// Whether a full state's link is lawful.
pub fn is_lawful_link(now: u64, link: &LinkTable) -> bool
    ensures { result ≡ tests.is_lawful_link now link.now }
{
    is_tied(now, link)
        && none_absent(&link.keys)
        && none_free(&link.times)
        && link.size as usize == link.keys.len()
        && link.count as usize == link.times.len()
        && all_there(&link.cells, link.capacity)
        && cells_end(&link.cells, link.capacity)
        && link.bounds.is_empty()
}

// Whether one number and another have a sum that is at most a third.
fn sum_fits(before: u32, more: usize, most: u32) -> bool
    ensures { result ≡ nat_le (before + more) most }
{
    before <= most && more <= (most - before) as usize
}

// Whether what is told of an expiry bound fits what is told of times.
fn is_bound(link: &LinkTable, bound: u64, before: u32) -> bool
    ensures { result ≡ tests.is_bound link.now bound before }
{
    count_before(&link.times, bound) <= before as usize
        && sum_fits(before, count_from(&link.times, bound), link.size)
        && (bound <= link.highest || before == link.size)
        && (bound != 0 || before == 0)
}

// Whether what is told of two expiry bounds fits what is told of times between.
fn rises(link: &LinkTable, low: (u64, u32), high: (u64, u32)) -> bool
    ensures { result ≡ tests.rises link.now.times low high }
{
    low.0 > high.0 || sum_fits(low.1, count_between(&link.times, low.0, high.0), high.1)
}

// Whether what is told of each expiry bound fits what is told of times.
fn are_bounds(link: &LinkTable) -> bool
    ensures { result ≡ tests.are_bounds link.now }
{
    link.bounds
        .iter()
        .all(|(bound, before)| is_bound(link, *bound, *before))
}

// Whether one expiry bound rises to each.
fn rises_to_each(link: &LinkTable, low: (u64, u32)) -> bool
    ensures { result ≡ list_all (λ high. tests.rises link.now.times low high) (entries link.now.bounds) }
{
    link.bounds
        .iter()
        .all(|(bound, before)| rises(link, low, (*bound, *before)))
}

// Whether what is told of each two expiry bounds fits what is told of times between.
fn bounds_rise(link: &LinkTable) -> bool
    ensures { result ≡ tests.bounds_rise link.now }
{
    link.bounds
        .iter()
        .all(|(bound, before)| rises_to_each(link, (*bound, *before)))
}

/// Whether a partial state's link is lawful.
pub fn is_lawful_part(now: u64, link: &LinkTable) -> bool
    ensures { result ≡ tests.is_lawful_part now link.now }
{
    is_tied(now, link)
        && times_end(&link.times, link.capacity)
        && cells_end(&link.cells, link.capacity)
        && cells_known(&link.cells, &link.times)
        && count_allocated(&link.times) <= link.size as usize
        && count_free(&link.times) as u64 <= link.capacity.saturating_sub(u64::from(link.size))
        && are_bounds(link)
        && bounds_rise(link)
}
