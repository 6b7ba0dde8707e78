// Lists of clauses, one for each literal.

ghost use Rattle.std.specs.Prelude.{◌≡◌, ◌<◌, ℕ, List, [], ◌∷◌, ◌++◌, length, OnOk, OnErr, IfOk, slice_get, slice_index_or, slice_set, Some};
ghost use Rattle.std.specs.List.{swap_remove};
ghost use Rattle.vg_units.specs.Codes.{code};

use crate::codes::code_of;
use std::alloc::{AllocError, Global};
use std::marker::Model;
use vg_cnf::Lit;

/// The clauses of one literal, by their numbers, in no order.
#[derive(Drop)]
struct WatchList {
    clauses: Vec<usize>,
}

impl Model for WatchList {
    ghost Value = { List ℕ };

    ghost view = { λ a. a.clauses.items };
}

/// For each literal the clauses to look at, by their numbers.
#[derive(Drop)]
pub(crate) struct WatchLists {
    lists: Vec<WatchList>,
}

impl Model for WatchLists {
    ghost Value = { List (List ℕ) };

    ghost view = { λ a. a.lists.items };
}

impl WatchLists {
    /// Empty lists, as many as there are places.
    pub fn new(alloc: Global, places: usize) -> Result<Self, AllocError>
        ensures { IfOk result (λ lists. length lists ≡ places) }
    {
        let mut lists = Vec::new(alloc);
        for _place in 0..places {
            lists.push(WatchList {
                clauses: Vec::new(alloc),
            })?;
        }
        Ok(WatchLists { lists })
    }

    /// How many clauses a literal has.
    pub fn count(&self, literal: Lit) -> usize
        requires { code literal < length self.now }
        ensures { result ≡ length (slice_index_or self.now (code literal) []) }
    {
        let list = &self.lists[code_of(literal)];
        list.clauses.len()
    }

    /// One of them.
    pub fn entry(&self, literal: Lit, at: usize) -> usize
        requires literal { code literal < length self.now }
        requires within { at < length (slice_index_or self.now (code literal) []) }
        ensures { result ≡ slice_index_or (slice_index_or self.now (code literal) []) at 0 }
    {
        let list = &self.lists[code_of(literal)];
        list.clauses[at]
    }

    /// Adds a clause to a literal's list.
    pub fn insert(&mut self, literal: Lit, clause: usize) -> Result<(), AllocError>
        requires { code literal < length self.old }
        ensures ok { OnOk result (self.new ≡ slice_set self.old (code literal) (slice_index_or self.old (code literal) [] ++ clause ∷ [])) }
        ensures err { OnErr result (self.new ≡ self.old) }
    {
        let list = &mut self.lists[code_of(literal)];
        list.clauses.push(clause)?;
        Ok(())
    }

    /// Takes the clause that stands somewhere in a literal's list out of it; the last takes its place.
    pub fn remove(&mut self, literal: Lit, at: usize)
        requires literal { code literal < length self.old }
        requires within { at < length (slice_index_or self.old (code literal) []) }
        ensures { self.new ≡ slice_set self.old (code literal) (swap_remove (slice_index_or self.old (code literal) []) at 0) }
    {
        let list = &mut self.lists[code_of(literal)];
        list.clauses.swap_remove(at);
    }
}
