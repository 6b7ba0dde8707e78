//! What tables tell, as tests.
ghost use Rattle.std.specs.Prelude.{◌≡◌, nat_lt, is_some, is_none};
ghost use Rattle.std.specs.List.{list_all};
ghost use Rattle.std.specs.FinMap.{get};
ghost use Rattle.vg_abs.specs.Answers as answers;
ghost use Rattle.vg_abs.specs.Lawful as lawful;
ghost use Rattle.vg_abs.specs.LawfulTests as tests;

use crate::bytes::Bytes;
use crate::keyed::Keyed;
use crate::numbered::Numbered;
use std::collections::btree_map::Iter;

// Whether each byte is below 256, which it is: the test tells it to who reads the contract.
fn are_small(bytes: &[u8]) -> bool
    ensures { result ≡ list_all (λ byte. nat_lt byte 256) bytes.now }
{
    bytes.iter().all(|byte| u16::from(*byte) < 256)
}

// Whether these are so many bytes.
fn are_bytes(bytes: &[u8], count: u64) -> bool
    ensures { result ≡ tests.are_bytes count bytes.now }
{
    bytes.len() as u64 == count && are_small(bytes)
}

// Whether each key has so many bytes.
fn each_has(mut keys: Iter<'_, Vec<u8>, Option<u32>>, count: u64) -> bool
    ensures { result ≡ list_all (λ entry. tests.are_bytes count entry.0.items) keys.entry }
{
    keys.all(|(key, _)| are_bytes(key, count))
}

/// Whether each told key has so many bytes.
pub fn keys_have(count: u64, keys: &Keyed) -> bool
    ensures { result ≡ tests.keys_have count keys.now }
{
    each_has(keys.iter(), count)
}

/// Whether each told cell has so many bytes.
pub fn cells_have(count: u64, cells: &Numbered<Bytes>) -> bool
    ensures { result ≡ tests.cells_have count cells.now }
{
    cells
        .iter()
        .all(|(_, bytes)| are_bytes(bytes.as_slice(), count))
}

/// Whether no cell is told from a number on.
pub fn cells_end(cells: &Numbered<Bytes>, count: u64) -> bool
    ensures { result ≡ tests.cells_end cells.now count }
{
    cells.iter().all(|(index, _)| *index < count)
}

// Whether a cell is there.
fn is_there(cells: &Numbered<Bytes>, index: u64) -> bool
    ensures { result ≡ is_some (get cells.now index) }
{
    cells.get(index).is_some()
}

/// Whether so many cells are there.
#[tactic(auto, using(crate::proofs::LawfulTables::missing))]
pub fn all_there(cells: &Numbered<Bytes>, count: u64) -> bool
    ensures { result ≡ tests.all_there cells.now count }
{
    for index in 0..count {
        if !is_there(cells, index) {
            return false;
        }
    }
    true
}

// Whether each key has an index.
fn each_mapped(mut keys: Iter<'_, Vec<u8>, Option<u32>>) -> bool
    ensures { result ≡ list_all (λ entry. is_some entry.1) keys.entry }
{
    keys.all(|(_, index)| index.is_some())
}

/// Whether no key is told to be absent.
pub fn none_absent(keys: &Keyed) -> bool
    ensures { result ≡ tests.none_absent keys.now }
{
    each_mapped(keys.iter())
}

/// Whether no index is told to be free.
pub fn none_free(times: &Numbered<Option<u64>>) -> bool
    ensures { result ≡ tests.none_free times.now }
{
    times.iter().all(|(_, time)| time.is_some())
}

/// Whether no index is told from a number on.
pub fn times_end(times: &Numbered<Option<u64>>, count: u64) -> bool
    ensures { result ≡ tests.times_end times.now count }
{
    times.iter().all(|(index, _)| *index < count)
}

/// Whether the index of each told cell is told.
pub fn cells_known(cells: &Numbered<Bytes>, times: &Numbered<Option<u64>>) -> bool
    ensures { result ≡ tests.cells_known cells.now times.now }
{
    cells.iter().all(|(index, _)| times.get(*index).is_some())
}

/// How many indices are told to be allocated.
pub fn count_allocated(times: &Numbered<Option<u64>>) -> usize
    ensures { result ≡ lawful.count_of is_some times.now }
{
    times.iter().filter(|(_, time)| time.is_some()).count()
}

/// How many indices are told to be free.
pub fn count_free(times: &Numbered<Option<u64>>) -> usize
    ensures { result ≡ lawful.count_of is_none times.now }
{
    times.iter().filter(|(_, time)| time.is_none()).count()
}

// Whether an index is allocated with a time before a bound.
fn is_before(bound: u64, time: Option<u64>) -> bool
    ensures { result ≡ answers.is_before bound (Some time) }
{
    time.is_some_and(|time| time < bound)
}

/// How many indices are told to have a time before a bound.
pub fn count_before(times: &Numbered<Option<u64>>, bound: u64) -> usize
    ensures { result ≡ lawful.count_of (λ time. answers.is_before bound (Some time)) times.now }
{
    times
        .iter()
        .filter(|(_, time)| is_before(bound, **time))
        .count()
}

/// How many indices are told to have a time from a bound on.
pub fn count_from(times: &Numbered<Option<u64>>, bound: u64) -> usize
    ensures { result ≡ lawful.count_of (lawful.is_from bound) times.now }
{
    times
        .iter()
        .filter(|(_, time)| time.is_some() && !is_before(bound, **time))
        .count()
}

/// How many indices are told to have a time from one bound on and before another.
pub fn count_between(times: &Numbered<Option<u64>>, low: u64, high: u64) -> usize
    ensures { result ≡ lawful.count_of (lawful.is_between low high) times.now }
{
    times
        .iter()
        .filter(|(_, time)| !is_before(low, **time) && is_before(high, **time))
        .count()
}
