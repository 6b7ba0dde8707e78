//! A table of the declarations that are seen at some place, in which a name is found by its hash.
ghost use Rattle.std.specs.Prelude.{◌≡◌, ◌<◌, length, replicate, OnOk, IfOk, Some};
ghost use Rattle.vg_cscope.specs.Names as names;
ghost use Rattle.vg_cscope.specs.Tables as tables;
ghost use Rattle.vg_cscope.specs.Views.{walked};

use crate::names::{Wanted, declared_name, spelling, wanted_name};
use crate::walk::Walk;
use std::alloc::{AllocError, Global};
use vg_core::Name;

/// A declaration that is seen.
#[derive(Clone, Copy)]
pub(crate) struct Entry {
    pub declaration: u32,
    /// The bucket of its name.
    pub bucket: usize,
    /// The height of the last entry below it with the same bucket; 0 for none.
    pub below: usize,
}

/// The declarations that are seen at some place, the last one on top, and linked by their buckets.
#[derive(Drop)]
pub(crate) struct Table {
    pub stack: Vec<Entry>,
    /// For each bucket the height of the last entry with it; 0 for none.
    pub heads: Vec<usize>,
    /// For each node where on the stack it was put last.
    pub places: Vec<usize>,
}

/// A hash of some bytes, below so many.
fn bucket(size: usize, bytes: &[u8]) -> usize
    requires { 0 < size }
    ensures value { result ≡ tables.bucket size bytes.now }
    ensures below { result < size }
{
    let mut hash: u64 = 0;
    for byte in bytes {
        hash = (hash * 31 + u64::from(*byte)) % 4_294_967_296;
    }
    hash as usize % size
}

fn zeros(alloc: Global, count: usize) -> Result<Vec<usize>, AllocError>
    ensures { IfOk result (λ v. v.items ≡ replicate count 0) }
{
    let mut zeros = Vec::new(alloc);
    for _count in 0..count {
        zeros.push(0)?;
    }
    Ok(zeros)
}

impl Table {
    /// The table of a place that sees nothing.
    pub fn new(alloc: Global, walk: &Walk) -> Result<Self, AllocError>
        ensures { IfOk result (λ t. tables.IsTable (walked walk.now) t.stack.items t.heads.items) }
    {
        let count = walk.tree.nodes().len();
        Ok(Table {
            stack: Vec::new(alloc),
            heads: zeros(alloc, count + 1)?,
            places: zeros(alloc, count)?,
        })
    }

    /// The last declaration that is seen.
    fn top(&self) -> Option<u32>
        ensures { result ≡ tables.at self.now.stack.items (length self.now.stack.items) }
    {
        Some(self.stack.last()?.declaration)
    }

    /// Whether a declaration is on the stack.
    fn holds(&self, declaration: u32) -> bool {
        match self.places.get(declaration as usize) {
            Some(place) => match self.stack.get(*place) {
                Some(entry) => entry.declaration == declaration,
                None => false,
            },
            None => false,
        }
    }

    /// Takes the last declaration off.
    fn leave(&mut self)
        ensures { (s : names.Scoped) → tables.IsTable s self.old.stack.items self.old.heads.items → tables.IsTable s self.new.stack.items self.new.heads.items }
    {
        if let Some(entry) = self.stack.pop() {
            if let Some(head) = self.heads.get_mut(entry.bucket) {
                *head = entry.below;
            }
        }
    }

    /// Takes declarations off until one is the last.
    fn leave_until(&mut self, last: Option<u32>)
        ensures { (s : names.Scoped) → tables.IsTable s self.old.stack.items self.old.heads.items → tables.IsTable s self.new.stack.items self.new.heads.items }
    {
        for _entry in 0..self.stack.len() {
            if self.top() == last {
                return;
            }
            self.leave();
        }
    }

    /// The bucket of a declaration's name.
    fn bucket_at(&self, walk: &Walk, declaration: u32) -> usize
        requires { 0 < length self.now.heads.items }
        ensures value { result ≡ tables.bucket_at (walked walk.now) (length self.now.heads.items) declaration }
        ensures below { result < length self.now.heads.items }
    {
        let bytes = match declared_name(walk.kind(declaration)) {
            Some(name) => spelling(walk.text, name),
            None => &[],
        };
        bucket(self.heads.len(), bytes)
    }

    /// Notes where on the stack a declaration stands.
    fn remember(&mut self, declaration: u32, place: usize)
        ensures stack { self.new.stack.items ≡ self.old.stack.items }
        ensures heads { self.new.heads.items ≡ self.old.heads.items }
    {
        if let Some(noted) = self.places.get_mut(declaration as usize) {
            *noted = place;
        }
    }

    /// Puts a declaration on, where it sees the last one.
    fn enter(&mut self, walk: &Walk, declaration: u32) -> Result<(), AllocError>
        requires { tables.IsTable (walked walk.now) self.old.stack.items self.old.heads.items }
        ensures { OnOk result (tables.IsTable (walked walk.now) self.new.stack.items self.new.heads.items) }
    {
        if self.top() != walk.seen_at(declaration) {
            return Ok(());
        }
        let bucket = self.bucket_at(walk, declaration);
        let height = self.stack.len();
        let below = self.heads[bucket];
        self.stack.push(Entry {
            declaration,
            bucket,
            below,
        })?;
        self.heads[bucket] = height + 1;
        self.remember(declaration, height);
        Ok(())
    }

    /// The declarations seen from one on that aren't on the stack, the last one first.
    fn missing(
        &self,
        alloc: Global,
        walk: &Walk,
        seen: Option<u32>,
    ) -> Result<Vec<u32>, AllocError> {
        let mut missing = Vec::new(alloc);
        let mut seen = seen;
        for _node in walk.tree.nodes() {
            match seen {
                Some(declaration) if !self.holds(declaration) => {
                    missing.push(declaration)?;
                    seen = walk.seen_at(declaration);
                }
                _ => return Ok(missing),
            }
        }
        Ok(missing)
    }

    /// Goes to a place, by the last declaration that it sees.
    pub fn move_to(
        &mut self,
        alloc: Global,
        walk: &Walk,
        seen: Option<u32>,
    ) -> Result<(), AllocError>
        requires { tables.IsTable (walked walk.now) self.old.stack.items self.old.heads.items }
        ensures { OnOk result (tables.IsTable (walked walk.now) self.new.stack.items self.new.heads.items) }
    {
        if self.top() == seen {
            return Ok(());
        }
        let missing = self.missing(alloc, walk, seen)?;
        let last = match missing.last() {
            Some(declaration) => walk.seen_at(*declaration),
            None => seen,
        };
        self.leave_until(last);
        for declaration in missing.iter().rev() {
            self.enter(walk, *declaration)?;
        }
        Ok(())
    }

    /// The last declaration on the stack that is looked for, by a name.
    fn nearest(&self, walk: &Walk, wanted: Wanted, name: Name) -> Option<u32>
        requires table { tables.IsTable (walked walk.now) self.now.stack.items self.now.heads.items }
        requires name { tables.wanted_name wanted ≡ Some name }
        ensures { result ≡ tables.nearest (walked walk.now) wanted self.now.stack.items (length self.now.stack.items) }
    {
        let mut height = self.heads[bucket(self.heads.len(), spelling(walk.text, name))];
        while height > 0 {
            let entry = self.stack[height - 1];
            if walk.is_wanted(wanted, walk.kind(entry.declaration)) {
                return Some(entry.declaration);
            }
            height = entry.below;
        }
        None
    }

    /// What a node finds: by the table where that is of its place, and else by walking.
    pub fn found(&self, walk: &Walk, n: u32, wanted: Wanted) -> Option<u32>
        requires { tables.IsTable (walked walk.now) self.now.stack.items self.now.heads.items }
        ensures { result ≡ names.found (walked walk.now) wanted n }
    {
        match wanted_name(wanted) {
            Some(name)
                if self.top() == walk.seen_at(n) && self.stack.len() <= walk.tree.nodes().len() => {
                self.nearest(walk, wanted, name)
            }
            _ => walk.found(wanted, n),
        }
    }
}
