//! A table from keys.
ghost use Rattle.std.specs.Prelude.{◌≡◌, ◌==◌, IfOk, OnOk, OnErr};
ghost use Rattle.std.specs.FinMap as map;
ghost use Rattle.std.specs.Prelude as list;

use std::alloc::Global;
use std::collections::BTreeMap;
use std::collections::btree_map::Iter;
use std::marker::Model;
use vg_parts::Memory;

/// A table from the bytes of keys to an index, or to none.
#[derive(Drop)]
pub struct Keyed {
    entries: BTreeMap<Vec<u8>, Option<u32>>,
}

impl Model for Keyed {
    ghost use Rattle.std.specs.Prelude.{map};
    ghost use Rattle.std.specs.FinMap.{from_entries, code};
    ghost use Rattle.std.specs.Coded.{coded_ℕ, coded_list, coded_option};
    ghost use Rattle.vg_abs.specs.Tables.{KeyTable};

    ghost Value = { KeyTable };

    ghost coded = { code (coded_list coded_ℕ) (coded_option coded_ℕ) };

    ghost view = { λ a. from_entries (map (λ entry. (entry.0.items, entry.1)) a.entries.entries) };
}

impl Keyed {
    /// A table without entries.
    pub fn new(alloc: Global) -> Keyed
        ensures { result ≡ map.empty }
    {
        Keyed {
            entries: BTreeMap::new(alloc),
        }
    }

    /// What stands at a key.
    pub fn get(&self, key: &[u8]) -> Option<Option<u32>>
        ensures { result ≡ map.get self.now key.now }
    {
        self.entries.get(key).copied()
    }

    /// The keys with what stands at them, in ascending order.
    pub fn iter(&self) -> Iter<'_, Vec<u8>, Option<u32>>
        ensures { list.map (λ entry. (entry.0.items, entry.1)) result ≡ map.entries self.now }
    {
        self.entries.iter()
    }

    /// How many keys there are.
    pub fn len(&self) -> usize
        ensures { result ≡ map.len self.now }
    {
        self.entries.len()
    }

    /// Whether there are none.
    pub fn is_empty(&self) -> bool
        ensures { result ≡ (map.len self.now == 0) }
    {
        self.len() == 0
    }

    /// Puts an answer at a key, in place of the one that was there.
    pub fn insert(&mut self, alloc: Global, key: &[u8], answer: Option<u32>) -> Result<(), Memory>
        ensures inserted { OnOk result (self.new ≡ map.insert self.old key.now answer) }
        ensures kept { OnErr result (self.new ≡ self.old) }
    {
        let key = Vec::from_slice(alloc, key)?;
        self.entries.insert(key, answer)?;
        Ok(())
    }

    /// Takes out what stands at a key.
    pub fn remove(&mut self, key: &[u8])
        ensures { self.new ≡ map.remove self.old key.now }
    {
        // what counts the entries also says that their keys ascend
        let _count = self.entries.len();
        self.entries.remove(key);
    }

    /// The same table once more.
    pub fn copy(&self) -> Result<Keyed, Memory>
        ensures { IfOk result (λ copied. copied ≡ self.now) }
    {
        Ok(Keyed {
            entries: self.entries.clone()?,
        })
    }
}
