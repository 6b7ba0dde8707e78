// Lists of literals, kept in one block of memory.

ghost use Rattle.std.specs.Prelude.{◌≡◌, ◌<◌, ◌≤◌, ◌++◌, ℤ, [], ◌∷◌, List, length, sum_by, Some, slice_get, slice_range, OnOk, OnErr, IsTrue, ◌↔◌};
ghost use Rattle.vg_cnf.specs.Lists.{start_of};

use crate::literal::Lit;
use std::alloc::{AllocError, Global};
use std::marker::Model;

/// A list of lists of literals, which contracts see as such.
#[derive(Drop)]
pub struct LiteralLists {
    /// The literals of all lists, one list after another.
    literals: Vec<Lit>,
    /// Where each list ends.
    ends: Vec<usize>,
}

/// What refutes clauses, where each list follows from the clauses and the lists before it and the last is empty.
pub type Refutation = LiteralLists;

impl Model for LiteralLists {
    ghost use Rattle.std.specs.Prelude.{ℤ, List, length};
    ghost use Rattle.vg_cnf.specs.Lists.{pieces, Cuts};

    ghost Value = { List (List ℤ) };

    ghost view = { λ a. pieces a.literals.items 0 a.ends.items };

    ghost invariant = { λ a. Cuts (length a.literals.items) 0 a.ends.items };
}

impl LiteralLists {
    /// No lists.
    pub fn new(alloc: Global) -> Self
        ensures { result ≡ [] }
    {
        LiteralLists {
            literals: Vec::new(alloc),
            ends: Vec::new(alloc),
        }
    }

    /// How many lists there are.
    pub fn len(&self) -> usize
        ensures { result ≡ length self.now }
    {
        self.ends.len()
    }

    /// Whether there is none.
    pub fn is_empty(&self) -> bool
        ensures { IsTrue result ↔ (self.now ≡ []) }
    {
        self.len() == 0
    }

    /// How many literals the lists have together.
    pub fn literal_count(&self) -> usize
        ensures { result ≡ sum_by length self.now }
    {
        self.literals.len()
    }

    /// The list at a place, from 0.
    pub fn get(&self, at: usize) -> &[Lit]
        requires { at < length self.now }
        ensures { slice_get self.now at ≡ Some result.now }
    {
        let start = start_at(&self.ends, at);
        let end = self.ends[at];
        part(&self.literals, start, end)
    }

    /// Adds a list at the end.
    pub fn push(&mut self, list: &[Lit]) -> Result<(), AllocError>
        ensures ok { OnOk result (self.new ≡ self.old ++ list.now ∷ []) }
        ensures err { OnErr result (self.new ≡ self.old) }
    {
        self.ends.reserve(1)?;
        self.literals.extend_from_slice(list)?;
        self.ends.push_reserved(self.literals.len());
        Ok(())
    }
}

/// Where the list at a place starts, by the ends of all.
fn start_at(ends: &[usize], at: usize) -> usize
    requires { at ≤ length ends.now }
    ensures { result ≡ start_of 0 ends.now at }
{
    if at == 0 { 0 } else { ends[at - 1] }
}

/// The literals from one place up to another.
fn part(literals: &[Lit], start: usize, end: usize) -> &[Lit]
    requires order { start ≤ end }
    requires within { end ≤ length literals.now }
    ensures { result.now ≡ slice_range literals.now start end }
{
    &literals[start..end]
}
