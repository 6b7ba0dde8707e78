//! A table from numbers.
ghost use Rattle.std.specs.Prelude.{◌≡◌, ◌==◌, IfOk, OnOk, OnErr, option_copied};
ghost use Rattle.std.specs.FinMap as map;
ghost use Rattle.std.specs.Ordering.{nat_cmp};

use std::alloc::Global;
use std::collections::BTreeMap;
use std::collections::btree_map::Iter;
use std::marker::Model;
use vg_parts::Memory;

/// A table from numbers to values.
#[derive(Drop)]
pub struct Numbered<V> {
    entries: BTreeMap<u64, V>,
}

impl<V> Model for Numbered<V> {
    ghost use Rattle.std.specs.FinMap as map;
    ghost use Rattle.std.specs.Ordering.{nat_cmp};
    ghost use Rattle.std.specs.Coded.{coded_ℕ};

    ghost Value = { map.FinMap nat_cmp V };

    ghost coded = { map.code coded_ℕ V.code };

    ghost view = { λ a. map.from_entries a.entries.entries };
}

impl<V: Drop> Numbered<V> {
    /// A table without entries.
    pub fn new(alloc: Global) -> Numbered<V>
        ensures { result ≡ map.empty }
    {
        Numbered {
            entries: BTreeMap::new(alloc),
        }
    }

    /// The value at a number.
    pub fn get(&self, number: u64) -> Option<&V>
        ensures { option_copied result ≡ map.get self.now number }
    {
        self.entries.get(&number)
    }

    /// The numbers with their values, in ascending order.
    pub fn iter(&self) -> Iter<'_, u64, V>
        ensures { result ≡ map.entries self.now }
    {
        self.entries.iter()
    }

    /// How many numbers there are.
    pub fn len(&self) -> usize
        ensures { result ≡ map.len self.now }
    {
        self.entries.len()
    }

    /// Whether there are none.
    pub fn is_empty(&self) -> bool
        ensures { result ≡ (map.len self.now == 0) }
    {
        self.len() == 0
    }

    /// Puts a value at a number, in place of the one that was there.
    pub fn insert(&mut self, number: u64, value: V) -> Result<(), Memory>
        ensures inserted { OnOk result (self.new ≡ map.insert self.old number value) }
        ensures kept { OnErr result (self.new ≡ self.old) }
    {
        self.entries.insert(number, value)?;
        Ok(())
    }

    /// Takes out what stands at a number.
    pub fn remove(&mut self, number: u64)
        ensures { self.new ≡ map.remove self.old number }
    {
        // what counts the entries also says that their numbers ascend
        let _count = self.entries.len();
        self.entries.remove(&number);
    }
}

impl<V: Drop + Clone> Numbered<V> {
    /// The same table once more, where clones of its values are equal to them.
    pub fn copy(&self) -> Result<Numbered<V>, Memory>
        ensures { IfOk result (λ copied. ((x y : V) → V.is_clone x y → y ≡ x) → copied ≡ self.now) }
    {
        Ok(Numbered {
            entries: self.entries.clone()?,
        })
    }
}
