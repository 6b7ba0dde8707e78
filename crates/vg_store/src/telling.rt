//! Whether containers tell what tables tell.
ghost use Rattle.std.specs.Prelude.{◌≡◌, ◌≤◌, ◌<◌, ◌-◌, ◌↔◌, ℕ, List, length, is_some, Some, Option, IsTrue, if◌then◌else◌};
ghost use Rattle.std.specs.FinMap.{get};
ghost use Rattle.vg_abs.specs.Agreement.{BothTell};
ghost use Rattle.vg_abs.specs.Answers.{listed_or_none};
ghost use Rattle.vg_dchain.specs.ChainState.{time_at};
ghost use Rattle.vg_store.specs.RealTables.{indexed};

use crate::chain::RealChain;
use vg_abs::{Keyed, Numbered};
use vg_map::HashMapFixed;

// Whether a time is the one that is told, if one is; what isn't listed is told as free, where all is told.
fn is_time_told(time: Option<u64>, listed: Option<Option<u64>>, full: bool) -> bool
    ensures { IsTrue result ↔ BothTell (Some time) (listed_or_none full listed) }
{
    match listed {
        Some(told) => told == time,
        None => !full || time.is_none(),
    }
}

/// Whether times agree with a table, which tells all where it is full.
pub fn times_told(ages: &RealChain, range: u32, table: &Numbered<Option<u64>>, full: bool) -> bool
    requires { range ≡ ages.now.range }
    ensures { IsTrue result ↔ ((index : ℕ) → index < ages.now.range → BothTell (Some (time_at ages.now.entries index))
        (listed_or_none full (get table.now index))) }
{
    for index in 0..range {
        let listed = table.get(u64::from(index)).copied();
        if !is_time_told(ages.time(index), listed, full) {
            return false;
        }
    }
    true
}

// The index of a key of any length, or none.
fn index_of(keys: &HashMapFixed, key_length: u32, key: &[u8]) -> Option<u32>
    requires length { key_length ≡ keys.now.key_len }
    requires long { (key : List ℕ) (index : ℕ) → get keys.now.indices key ≡ Some index → length key ≡ keys.now.key_len }
    ensures { result ≡ get keys.now.indices key.now }
{
    if key.len() == key_length as usize {
        keys.get(key)
    } else {
        None
    }
}

// Whether an index is the one that is told, if one is.
fn is_index_told(index: Option<u32>, told: Option<Option<u32>>) -> bool
    ensures { IsTrue result ↔ BothTell (Some index) told }
{
    match told {
        Some(told) => told == index,
        None => true,
    }
}

// Whether each key that a table lists has in a map what it lists.
fn are_listed(keys: &HashMapFixed, key_length: u32, table: &Keyed) -> bool
    requires length { key_length ≡ keys.now.key_len }
    requires long { (key : List ℕ) (index : ℕ) → get keys.now.indices key ≡ Some index → length key ≡ keys.now.key_len }
    ensures { IsTrue result ↔ ((key : List ℕ) → BothTell (Some (get keys.now.indices key)) (get table.now key)) }
{
    for (key, _answer) in table.iter() {
        if !is_index_told(index_of(keys, key_length, key), table.get(key)) {
            return false;
        }
    }
    true
}

// How many are left after an answer, where those with an index are taken off.
fn left_after(left: u32, answer: Option<u32>) -> u32
    ensures { result ≡ (if is_some answer then left - 1 else left) }
{
    if answer.is_some() {
        left.saturating_sub(1)
    } else {
        left
    }
}

// Whether a table lists so many keys with an index.
fn lists(table: &Keyed, count: u32) -> bool
    ensures { IsTrue result ↔ (count ≤ indexed table.now) }
{
    let mut left = count;
    for (_key, answer) in table.iter() {
        left = left_after(left, *answer);
    }
    left == 0
}

/// Whether the keys of a map agree with a table, which tells all where it is full: then it lists as many keys with an index as
/// the map has.
pub fn keys_told(keys: &HashMapFixed, key_length: u32, table: &Keyed, full: bool) -> bool
    requires length { key_length ≡ keys.now.key_len }
    requires long { (key : List ℕ) (index : ℕ) → get keys.now.indices key ≡ Some index → length key ≡ keys.now.key_len }
    ensures { IsTrue result ↔ ((key : List ℕ) → BothTell (Some (get keys.now.indices key)) (listed_or_none full (get table.now key))) }
{
    if !are_listed(keys, key_length, table) {
        return false;
    }
    if !full {
        return true;
    }
    lists(table, keys.size())
}
