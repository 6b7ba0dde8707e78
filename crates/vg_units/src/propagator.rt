// Clauses with a trail of true literals that is propagated and taken back.

ghost use Rattle.std.specs.Prelude.{◌≡◌, ◌<◌, ◌≤◌, ◌+◌, ◌*◌, ◌^◌, ℤ, pos, neg_ℤ, true, false, [], ◌∷◌, ◌++◌, length, take, slice_index_or};
ghost use Rattle.std.specs.Prelude.{unsigned_abs, OnOk, OnErr, IfOk, IsOk, IsSome, MatchBool, MatchOption, All};
ghost use Rattle.vg_cnf.specs.Clauses.{holds, IsOver, IsClauseOver};
ghost use Rattle.vg_cnf.specs.Orders.{Reaches, Settled};
ghost use Rattle.vg_cnf.specs.Propagation.{follows as list_follows, propagated};
ghost use Rattle.vg_units.specs.Searching.{Search, IsAtRest, IsSound, IsSameBut, IsEnd, Rests, IsFurther, IsReturned, AssumesAlso, TellsBeside};
ghost use Rattle.vg_units.specs.Levels.{start_in};
ghost use Rattle.vg_units.specs.Propagating.{AreFalse, Grown};
ghost use Rattle.vg_units.specs.Trails.{IsMadeTrue};
ghost use Rattle.vg_units.specs.Watching.{IsAdded, IsSame};

use crate::propagation::{open_beside, propagate};
use crate::trail::Trail;
use crate::watches::{Pair, Watches};
use std::alloc::{AllocError, Global};
use std::marker::Model;
use vg_cnf::Lit;

/// Clauses over numbered variables, and literals that are true: decisions and what unit propagation makes true with them.
#[derive(Drop)]
pub struct Propagator {
    watches: Watches,
    trail: Trail,
    /// The places of the decisions in the trail.
    starts: Vec<usize>,
    /// How many literals of the trail have been propagated.
    head: usize,
}

impl Model for Propagator {
    ghost use Rattle.vg_units.specs.Searching.{Search};
    ghost use Rattle.vg_units.specs.Levels.{IsKept};

    ghost Value = { Search };

    ghost view = { λ a. record {
      variables = a.watches.variables;
      clauses = a.watches.clauses;
      trail = a.trail.literals;
      starts =
          a.starts.items;
      head = a.head;
    } };

    ghost invariant = { λ a. IsKept a.watches a.trail a.starts.items a.head };
}

impl Propagator {
    /// No clauses over the variables from 1 up to `variables`, and no literal true.
    pub fn new(alloc: Global, variables: u32) -> Result<Self, AllocError>
        requires { variables < 2 ^ 31 }
        ensures variables { IfOk result (λ s. s.variables ≡ variables) }
        ensures clauses { IfOk result (λ s. s.clauses ≡ []) }
        ensures at_rest { IfOk result IsAtRest }
    {
        Ok(Propagator {
            watches: Watches::new(alloc, variables)?,
            trail: Trail::new(alloc, variables)?,
            starts: Vec::new(alloc),
            head: 0,
        })
    }

    /// The number of variables.
    pub fn variables(&self) -> u32
        ensures count { result ≡ self.now.variables }
        ensures in_range { result < 2 ^ 31 }
    {
        self.trail.variables()
    }

    /// How many decisions stand.
    pub fn level(&self) -> usize
        ensures { result ≡ length self.now.starts }
    {
        self.starts.len()
    }

    /// Whether a literal is true.
    pub fn is_true(&self, literal: Lit) -> bool
        requires { unsigned_abs literal ≤ self.now.variables }
        ensures { result ≡ holds self.now.trail literal }
    {
        self.trail.is_true(literal)
    }

    /// Whether a literal is false.
    pub fn is_false(&self, literal: Lit) -> bool
        requires { unsigned_abs literal ≤ self.now.variables }
        ensures { result ≡ holds self.now.trail (neg_ℤ literal) }
    {
        self.trail.is_false(literal)
    }

    /// Where the literals begin that were made true at a level or after it.
    pub fn start(&self, level: usize) -> usize
        requires { level < length self.now.starts }
        ensures { result ≡ start_in self.now.starts level }
    {
        self.starts[level]
    }

    /// How many literals are true.
    pub fn true_count(&self) -> usize
        ensures { result ≡ length self.now.trail }
    {
        self.trail.len()
    }

    /// The literal that was made true at a place, from 0.
    pub fn literal(&self, at: usize) -> Lit
        requires { at < length self.now.trail }
        ensures literal { result ≡ slice_index_or self.now.trail at (pos 0) }
        ensures over { IsOver self.now.variables result }
    {
        self.trail.get(at)
    }

    /// The place of the clause that is said to have forced it; `None` for a decision. It is a hint, that a search may follow and has to check.
    pub fn reason(&self, at: usize) -> Option<usize> {
        self.trail.reason(at)
    }

    /// How many clauses there are.
    pub fn clause_count(&self) -> usize
        ensures { result ≡ length self.now.clauses }
    {
        self.watches.len()
    }

    /// The clause at a place.
    pub fn clause(&self, at: usize) -> &[Lit]
        requires { at < length self.now.clauses }
        ensures clause { result.now ≡ slice_index_or self.now.clauses at [] }
        ensures over { IsClauseOver self.now.variables result.now }
    {
        self.watches.clause(at)
    }

    /// Decides that a literal is true, which is neither true nor false.
    pub fn decide(&mut self, literal: Lit) -> Result<(), AllocError>
        requires over { IsOver self.old.variables literal }
        requires not_true { holds self.old.trail literal ≡ false }
        requires not_false { holds self.old.trail (neg_ℤ literal) ≡ false }
        requires propagated { self.old.head ≡ length self.old.trail }
        ensures { OnOk result (self.new ≡ record self.old { trail = self.old.trail ++ literal ∷ []; starts = self.old.starts ++ length self.old.trail ∷ [] }) }
    {
        self.starts.push(self.trail.len())?;
        self.trail.push(literal, None)?;
        Ok(())
    }

    /// Makes true what the clauses force, and answers the place of a clause that became false.
    pub fn propagate(&mut self) -> Result<Option<usize>, AllocError>
        ensures same { IsSameBut self.old self.new }
        ensures sound { IsSound self.new }
        ensures grown { Grown self.old.clauses self.old.trail self.new.trail }
        ensures ends { IfOk result (IsEnd self.old self.new) }
    {
        let conflict = propagate(&mut self.watches, &mut self.trail, self.head)?;
        if conflict.is_none() {
            self.head = self.trail.len();
        }
        Ok(conflict)
    }

    /// Takes back all decisions but the first ones, and what was made true with them.
    pub fn back_to(&mut self, level: usize)
        requires { level < length self.old.starts }
        ensures taken_back { self.new ≡ record self.old {
          trail = take (start_in self.old.starts level) self.old.trail;
          starts =
              take level self.old.starts;
          head = start_in self.old.starts level;
        } }
        ensures sound { IsSound self.new }
        ensures propagated { self.new.head ≡ length self.new.trail }
    {
        let start = self.starts[level];
        self.trail.truncate(start);
        self.starts.truncate(level);
        self.head = start;
    }

    /// Does nothing: its contract says what holds between any two calls.
    pub fn facts(&self)
        ensures bounded { length self.now.trail ≤ 2 * self.now.variables + 2 }
        ensures sound { IsSound self.now }
        ensures over { All (IsClauseOver self.now.variables) self.now.clauses }
        ensures settled { self.now.head ≡ length self.now.trail → All (Settled self.now.trail) self.now.clauses }
    {
        let _len = self.trail.len();
    }

    /// Takes back all decisions.
    pub fn release(&mut self)
        requires { self.old.starts ≡ [] → self.old.head ≡ length self.old.trail }
        ensures same { (self.new.variables ≡ self.old.variables) × (self.new.clauses ≡ self.old.clauses) }
        ensures at_rest { IsAtRest self.new }
    {
        if self.level() > 0 {
            self.back_to(0);
        }
    }

    /// Takes back all decisions but the first ones, if there are more.
    pub fn return_to(&mut self, level: usize)
        ensures returned { IsReturned level self.old self.new }
        ensures taken_back { level < length self.old.starts → self.new ≡ record self.old {
          trail =
              take (start_in self.old.starts level) self.old.trail;
          starts = take level self.old.starts;
          head = start_in self.old.starts level;
        } }
        ensures unchanged { length self.old.starts ≤ level → self.new ≡ self.old }
    {
        if self.level() > level {
            self.back_to(level);
        }
    }

    /// Assumes that the literals of a clause are false, and answers whether unit propagation reaches an empty clause.
    pub fn assume(&mut self, list: &[Lit]) -> Result<bool, AllocError>
        requires at_rest { IsAtRest self.old }
        requires over { IsClauseOver self.old.variables list.now }
        ensures same { IsOk result → (self.new.variables ≡ self.old.variables) × (self.new.clauses ≡ self.old.clauses) }
        ensures releasable { IsOk result → self.new.starts ≡ [] → self.new.head ≡ length self.new.trail }
        ensures answer { IfOk result (λ answer. answer ≡ list_follows self.old.clauses list.now) }
        ensures rests { IfOk result (λ answer. answer ≡ false → Rests self.new list.now) }
    {
        let answer = self.assume_also(list)?;
        self.facts();
        Ok(answer)
    }

    /// Assumes that the literals of a list are false beside what is assumed, and answers whether unit propagation then reaches an empty clause.
    pub fn assume_also(&mut self, list: &[Lit]) -> Result<bool, AllocError>
        requires at_end { self.old.head ≡ length self.old.trail }
        requires over { All (IsOver self.old.variables) list.now }
        ensures further { IsOk result → IsFurther self.old self.new }
        ensures answer { IfOk result (TellsBeside self.old list.now) }
        ensures propagated { IfOk result (λ answer. answer ≡ false → self.new.head ≡ length self.new.trail) }
        ensures assumed { IfOk result (λ answer. answer ≡ false → AssumesAlso self.old self.new list.now) }
    {
        self.facts();
        for literal in list {
            let negation = literal.negated();
            if self.is_true(*literal) {
                return Ok(true);
            }
            if !self.is_true(negation) {
                self.decide(negation)?;
                if self.propagate()?.is_some() {
                    return Ok(true);
                }
            }
        }
        Ok(false)
    }

    /// Whether a clause follows by unit propagation.
    pub fn follows(&mut self, list: &[Lit]) -> Result<bool, AllocError>
        requires at_rest { IsAtRest self.old }
        requires over { IsClauseOver self.old.variables list.now }
        ensures same { IsOk result → (self.new.variables ≡ self.old.variables) × (self.new.clauses ≡ self.old.clauses) }
        ensures at_rest { IsOk result → IsAtRest self.new }
        ensures answer { IfOk result (λ answer. answer ≡ list_follows self.old.clauses list.now) }
    {
        let answer = self.assume(list)?;
        self.release();
        Ok(answer)
    }

    /// Adds a clause, and answers whether unit propagation then reaches no empty clause.
    pub fn add(&mut self, clause: &[Lit]) -> Result<bool, AllocError>
        requires at_rest { IsAtRest self.old }
        requires over { IsClauseOver self.old.variables clause.now }
        ensures variables { self.new.variables ≡ self.old.variables }
        ensures open { IfOk result (λ open_end. open_end ≡ true → IsSome (propagated self.new.clauses)) }
        ensures added { IfOk result (λ open_end. MatchBool open_end (IsAtRest self.new × (self.new.clauses ≡ self.old.clauses ++ clause.now ∷ []))
            (Reaches (self.old.clauses ++ clause.now ∷ []) [])) }
    {
        self.facts();
        let Some(first) = open_literal(clause, &self.trail) else {
            return Ok(false);
        };
        match open_beside(clause, first, &self.trail) {
            Some(second) => {
                self.watches.add(clause, &Pair { first, second })?;
                Ok(true)
            }
            None => {
                let single = Pair {
                    first,
                    second: first,
                };
                add_single(&mut self.watches, &mut self.trail, clause, &single)?;
                Ok(self.propagate()?.is_none())
            }
        }
    }
}

/// A literal of a clause that isn't false.
fn open_literal(clause: &[Lit], trail: &Trail) -> Option<Lit>
    requires { All (IsOver trail.now.variables) clause.now }
    ensures { MatchOption result (AreFalse trail.now.literals clause.now) (λ l. (holds clause.now l ≡ true) × (holds trail.now.literals (neg_ℤ l) ≡ false)) }
{
    for literal in clause {
        if !trail.is_false(*literal) {
            return Some(*literal);
        }
    }
    None
}

/// Adds a clause whose literals are false but for one, which is made true.
fn add_single(
    watches: &mut Watches,
    trail: &mut Trail,
    clause: &[Lit],
    single: &Pair,
) -> Result<(), AllocError>
    requires over { IsClauseOver watches.old.variables clause.now }
    requires literal { IsOver trail.old.variables single.now.first }
    requires first { holds clause.now single.now.first ≡ true }
    requires second { holds clause.now single.now.second ≡ true }
    ensures paired { IsOk result → length watches.old.pairs ≡ length watches.old.clauses }
    ensures ok { OnOk result (IsAdded watches.old watches.new clause.now single.now × IsMadeTrue trail.old trail.new single.now.first) }
    ensures err { OnErr result (IsSame watches.old watches.new × (trail.new ≡ trail.old)) }
{
    let len = trail.len();
    if !trail.is_true(single.first) {
        trail.push(single.first, None)?;
    }
    let added = watches.add(clause, single);
    if added.is_err() {
        trail.truncate(len);
    }
    added
}
