// Clauses, and of each the two literals that are watched: it is looked at only when one of them becomes false.

ghost use Rattle.std.specs.Prelude.{◌≡◌, ◌≢◌, ◌<◌, ◌≤◌, ◌+◌, ◌^◌, ℕ, ℤ, false, true, List, [], ◌∷◌, ◌++◌, length, OnOk, OnErr, IfOk, slice_index_or};
ghost use Rattle.std.specs.Prelude.{slice_set, unsigned_abs, All};
ghost use Rattle.vg_cnf.specs.Clauses.{holds, IsOver, IsClauseOver};
ghost use Rattle.vg_units.specs.Lists.{IsListedFrom};
ghost use Rattle.vg_units.specs.Watching.{list_of, pair_of, clause_of, IsOneOf, IsMoved, IsLeftOut, IsAdded, IsSame, IsUnwatched};

use crate::lists::WatchLists;
use std::alloc::{AllocError, Global};
use std::marker::Model;
use vg_cnf::{Lit, LiteralLists};

/// The two watched literals of a clause; the same one twice where the clause needs no watching.
#[derive(Clone, Copy)]
pub(crate) struct Pair {
    pub first: Lit,
    pub second: Lit,
}

/// Clauses with their watched literals. Each clause stands in the lists of both; a list may hold other clauses too.
#[derive(Drop)]
pub(crate) struct Watches {
    variables: u32,
    clauses: LiteralLists,
    pairs: Vec<Pair>,
    /// The lists, by the literals' places.
    lists: WatchLists,
}

impl Model for Watches {
    ghost use Rattle.vg_units.specs.Watching.{Watching, IsListed};

    ghost Value = { Watching };

    ghost view = { λ a. record { variables = a.variables; clauses = a.clauses; pairs = a.pairs.items; lists = a.lists } };

    ghost invariant = { λ a. IsListed a.variables a.clauses a.pairs.items a.lists };
}

impl Watches {
    /// No clauses over the variables from 1 up to `variables`.
    pub fn new(alloc: Global, variables: u32) -> Result<Self, AllocError>
        requires { variables < 2 ^ 31 }
        ensures variables { IfOk result (λ w. w.variables ≡ variables) }
        ensures clauses { IfOk result (λ w. w.clauses ≡ []) }
    {
        Ok(Watches {
            variables,
            clauses: LiteralLists::new(alloc),
            pairs: Vec::new(alloc),
            lists: WatchLists::new(alloc, 2 * variables as usize + 2)?,
        })
    }

    /// How many clauses there are.
    pub fn len(&self) -> usize
        ensures count { result ≡ length self.now.clauses }
        ensures over { All (IsClauseOver self.now.variables) self.now.clauses }
    {
        self.clauses.len()
    }

    /// The clause at a place.
    pub fn clause(&self, at: usize) -> &[Lit]
        requires { at < length self.now.clauses }
        ensures clause { result.now ≡ clause_of self.now at }
        ensures over { IsClauseOver self.now.variables result.now }
    {
        self.clauses.get(at)
    }

    /// Its watched literals.
    pub fn pair(&self, at: usize) -> Pair
        requires { at < length self.now.clauses }
        ensures pair { result ≡ pair_of self.now at }
        ensures first { IsOver self.now.variables result.first }
        ensures second { IsOver self.now.variables result.second }
        ensures held_first { holds (clause_of self.now at) result.first ≡ true }
        ensures held_second { holds (clause_of self.now at) result.second ≡ true }
    {
        self.pairs[at]
    }

    /// How many clauses stand in the list of a literal.
    pub fn count(&self, literal: Lit) -> usize
        requires { unsigned_abs literal ≤ self.now.variables }
        ensures count { result ≡ length (list_of self.now literal) }
        ensures listed { (clause : ℕ) → clause < length self.now.clauses → IsOneOf (pair_of self.now clause) literal
            → IsListedFrom (list_of self.now literal) 0 clause }
    {
        self.lists.count(literal)
    }

    /// One of those clauses.
    pub fn entry(&self, literal: Lit, at: usize) -> usize
        requires over { unsigned_abs literal ≤ self.now.variables }
        requires within { at < length (list_of self.now literal) }
        ensures { result ≡ slice_index_or (list_of self.now literal) at 0 }
    {
        self.lists.entry(literal, at)
    }

    /// Adds a clause that is looked at when a literal of the pair becomes false.
    pub fn add(&mut self, clause: &[Lit], pair: &Pair) -> Result<(), AllocError>
        requires over { IsClauseOver self.old.variables clause.now }
        requires first { holds clause.now pair.now.first ≡ true }
        requires second { holds clause.now pair.now.second ≡ true }
        ensures paired { length self.old.pairs ≡ length self.old.clauses }
        ensures ok { OnOk result (IsAdded self.old self.new clause.now pair.now) }
        ensures err { OnErr result (IsSame self.old self.new) }
    {
        let at = self.clauses.len();
        self.pairs.reserve(1)?;
        self.lists.insert(pair.first, at)?;
        self.lists.insert(pair.second, at)?;
        self.clauses.push(clause)?;
        self.pairs.push_reserved(*pair);
        Ok(())
    }

    /// Takes a clause that doesn't watch the literal from its list.
    pub fn leave_out(&mut self, literal: Lit, at: usize)
        requires over { unsigned_abs literal ≤ self.old.variables }
        requires within { at < length (list_of self.old literal) }
        requires unwatched { IsUnwatched self.old literal (slice_index_or (list_of self.old literal) at 0) }
        ensures same { IsSame self.old self.new }
        ensures left_out { IsLeftOut self.old.lists self.new.lists literal at (slice_index_or (list_of self.old literal) at 0) }
    {
        self.lists.remove(literal, at);
    }

    /// Has a clause watch another literal in place of one, in whose list it stands at a place.
    pub fn exchange(
        &mut self,
        literal: Lit,
        at: usize,
        clause: usize,
        pair: &Pair,
    ) -> Result<(), AllocError>
        requires over { unsigned_abs literal ≤ self.old.variables }
        requires within { at < length (list_of self.old literal) }
        requires entry { slice_index_or (list_of self.old literal) at 0 ≡ clause }
        requires clause { clause < length self.old.clauses }
        requires kept { IsOneOf (pair_of self.old clause) pair.now.first }
        requires held { holds (clause_of self.old clause) pair.now.second ≡ true }
        requires first { pair.now.first ≢ literal }
        requires second { pair.now.second ≢ literal }
        ensures ok { OnOk result (IsMoved self.old self.new clause pair.now) }
        ensures paired { length self.old.pairs ≡ length self.old.clauses }
        ensures left_out { OnOk result (IsLeftOut self.old.lists self.new.lists literal at clause) }
        ensures err { OnErr result (IsSame self.old self.new) }
    {
        self.lists.insert(pair.second, clause)?;
        self.pairs[clause] = *pair;
        self.lists.remove(literal, at);
        Ok(())
    }
}
