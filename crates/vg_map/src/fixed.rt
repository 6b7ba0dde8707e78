//! The map.
ghost use Rattle.std.specs.Prelude.{◌≡◌, ◌≤◌, ◌<◌, length, None, IfOk, IsSome};
ghost use Rattle.std.specs.FinMap as map;
ghost use Rattle.vg_map.specs.Map.{empty_map, with_key, without_key};

use crate::hash::Homes;
use crate::slots::{close_gap, find, write_key};
use std::alloc::Global;
use std::marker::Model;
use vg_parts::Memory;

/// A map from keys of `key_len` bytes to indices, with room for `capacity` keys.
///
/// It is an open hash table with linear probing (Knuth, The Art of Computer Programming, volume 3, 6.4). A key stands in the
/// first slot that was empty, from its home on. Erasing moves later keys back, so a search may stop at the first empty slot,
/// however many keys came and went. Homes are the first slots, as many as the least power of two that is at least twice the
/// capacity, so at most half of them are full. As many slots follow as there is room for keys, so no search wraps round.
#[derive(Drop)]
pub struct HashMapFixed {
    /// The keys of all slots, `key_len` bytes each.
    keys: Vec<u8>,
    /// The index of each slot's key, or none where the slot is empty.
    indices: Vec<Option<u32>>,
    homes: Homes,
    key_len: usize,
    capacity: u32,
    size: u32,
}

impl Model for HashMapFixed {
    ghost use Rattle.vg_map.specs.Map.{FixedMap, map_code};
    ghost use Rattle.vg_map.specs.Slots.{slots_of, map_of, IsTable};

    ghost Value = { FixedMap };

    ghost coded = { map_code };

    ghost view = { λ a. record { indices = map_of (slots_of a.key_len a.keys.items a.indices.items); capacity = a.capacity; key_len = a.key_len } };

    ghost invariant = { λ a. IsTable a.homes a.key_len a.capacity a.size a.keys.items a.indices.items };
}

impl HashMapFixed {
    /// An empty map with room for `capacity` keys of `key_len` bytes. It takes all the memory that the map will ever need,
    /// and refuses only for want of it.
    pub fn new(alloc: Global, capacity: u32, key_len: u32) -> Result<HashMapFixed, Memory>
        ensures { IfOk result (λ map. map ≡ empty_map capacity key_len) }
    {
        HashMapFixed::with_seed(alloc, capacity, key_len, 0)
    }

    /// As `new`, with a seed that changes where keys stand, and nothing that a caller is answered. Who knows the seed can
    /// choose keys that all stand in one place, and then a call takes time in the number of keys.
    pub fn with_seed(
        alloc: Global,
        capacity: u32,
        key_len: u32,
        seed: u64,
    ) -> Result<HashMapFixed, Memory>
        ensures { IfOk result (λ map. map ≡ empty_map capacity key_len) }
    {
        let homes = (2 * capacity as usize).next_power_of_two();
        let slots = homes + capacity as usize;
        let bytes = slots.checked_mul(key_len as usize).ok_or(Memory)?;
        let mut keys = Vec::new(alloc);
        keys.resize(bytes, 0)?;
        let mut indices = Vec::new(alloc);
        indices.resize(slots, None)?;
        Ok(HashMapFixed {
            keys,
            indices,
            homes: Homes {
                mask: (homes - 1) as u64,
                seed,
            },
            key_len: key_len as usize,
            capacity,
            size: 0,
        })
    }

    /// How many keys the map has.
    pub fn size(&self) -> u32
        ensures size { result ≡ map.len self.now.indices }
        ensures within { result ≤ self.now.capacity }
    {
        self.size
    }

    /// The index of `key`, or none where the map has no such key.
    pub fn get(&self, key: &[u8]) -> Option<u32>
        requires { length key.now ≡ self.now.key_len }
        ensures { result ≡ map.get self.now.indices key.now }
    {
        let at = find(&self.keys, &self.indices, key, self.homes.of(key));
        self.indices[at]
    }

    /// Adds `key`, which the map doesn't have, with its index.
    pub fn put(&mut self, key: &[u8], index: u32)
        requires key_len { length key.now ≡ self.old.key_len }
        requires room { map.len self.old.indices < self.old.capacity }
        requires absent { map.get self.old.indices key.now ≡ None }
        ensures { self.new ≡ with_key self.old key.now index }
    {
        let at = find(&self.keys, &self.indices, key, self.homes.of(key));
        write_key(&mut self.keys, key, at);
        self.indices[at] = Some(index);
        self.size += 1;
    }

    /// Takes `key` out, which the map has.
    pub fn erase(&mut self, key: &[u8])
        requires key_len { length key.now ≡ self.old.key_len }
        requires present { IsSome (map.get self.old.indices key.now) }
        ensures { self.new ≡ without_key self.old key.now }
    {
        let at = find(&self.keys, &self.indices, key, self.homes.of(key));
        self.indices[at] = None;
        close_gap(
            &mut self.keys,
            &mut self.indices,
            self.key_len,
            self.homes,
            at,
        );
        self.size -= 1;
    }
}

#[cfg(test)]
mod tests;
