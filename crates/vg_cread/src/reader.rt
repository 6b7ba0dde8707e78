//! A tree that grows along tokens: where a reader stands, and its steps over one token.
ghost use Rattle.std.specs.Prelude.{◌≡◌, ◌+◌, ◌≤◌, ◌<◌, ◌^◌, [], length, slice_get, IfOk, IfErr, OnOk, Option, Some, None, is_some};
ghost use Rattle.vg_core.specs.Syntax.{Syntax, with_node, with_parts};
ghost use Rattle.vg_cread.specs.Places.{State, place_at, end_of, passes};
ghost use Rattle.vg_cread.specs.Kinds.{is_sign, is_word, name_of, begins_base};
ghost use Rattle.vg_cread.specs.Forms.{node, node_with};
ghost use Rattle.vg_cread.specs.Grammar.{sign, word, name};
ghost use Rattle.vg_cread.specs.Reading.{Gives, reads, next, grown};
ghost use Rattle.vg_cread.specs.declared.reader.Stop.TheVariants as stops;

use crate::kinds::{begins_base, is_sign, is_word, name_of};
use std::alloc::{AllocError, AllocFailed, Global};
use std::marker::Model;
use vg_core::{Kind, Name, Parts, Tree};
use vg_ctok::{Keyword, Sign, Token};
use vg_parts::Memory;

/// Tokens, how many constructs may still be nested in one another, and where memory comes from.
#[derive(Clone, Copy)]
pub struct Source<'a> {
    pub alloc: Global,
    pub toks: &'a [Token],
    pub room: u8,
}

impl Source<'_> {
    /// The same within a construct that is counted.
    pub fn deeper(self) -> Self
        requires { 0 < self.room }
        ensures tokens { result.toks.now ≡ self.entry.toks.now }
        ensures room { result.room + 1 ≡ self.entry.room }
    {
        Source {
            room: self.room - 1,
            ..self
        }
    }
}

/// Why reading stops. The reader then stands at the token that is meant.
#[derive(Clone, Copy, Debug, PartialEq, Eq)]
pub enum Stop {
    /// The next token fits nothing that may stand there.
    Wrong,
    /// The next token opens one nesting too many.
    Deep,
    /// Memory ran out.
    Memory,
}

impl From<AllocError> for Stop {
    ghost from_gives = { λ _ e. e ≡ stops.Memory };

    fn from(_e: AllocError) -> Stop {
        Stop::Memory
    }
}

impl<T: Drop> From<AllocFailed<T>> for Stop {
    ghost from_gives = { λ _ e. e ≡ stops.Memory };

    fn from(_e: AllocFailed<T>) -> Stop {
        Stop::Memory
    }
}

impl From<Memory> for Stop {
    ghost from_gives = { λ _ e. e ≡ stops.Memory };

    fn from(_e: Memory) -> Stop {
        Stop::Memory
    }
}

/// How many tokens are read, and the tree that they made.
#[derive(Drop)]
pub struct Reader {
    at: usize,
    tree: Tree,
}

impl Model for Reader {
    ghost use Rattle.vg_cread.specs.Places.{State};

    ghost Value = { State };

    ghost view = { λ r. record { at = r.at; tree = r.tree } };
}

impl Reader {
    /// A reader before the first token.
    pub fn new(alloc: Global) -> Reader
        ensures { result ≡ record { at = 0; tree = record { nodes = []; items = [] } } }
    {
        Reader {
            at: 0,
            tree: Tree::new(alloc),
        }
    }

    /// The tree that the tokens made.
    pub fn into_tree(self) -> Tree
        ensures { result ≡ self.tree }
    {
        let Reader { at: _, tree } = self;
        tree
    }

    /// The next token.
    pub fn next(&self, src: Source<'_>) -> Option<Token>
        ensures { result ≡ next src.entry self.now }
    {
        src.toks.get(self.at).copied()
    }

    /// The place of the next token, or the end of the last one where no more come.
    pub fn place(&self, src: Source<'_>) -> u32
        ensures { result ≡ place_at src.entry.toks.now self.now.at }
    {
        match self.next(src) {
            Some(t) => t.from,
            None => end_of(src.toks),
        }
    }

    /// Whether the next token is this sign.
    pub fn next_is_sign(&self, src: Source<'_>, which: Sign) -> bool
        ensures { result ≡ passes (is_sign which) (next src.entry self.now) }
    {
        match self.next(src) {
            Some(t) => is_sign(t, which),
            None => false,
        }
    }

    /// Whether the next token is this keyword.
    pub fn next_is_word(&self, src: Source<'_>, which: Keyword) -> bool
        ensures { result ≡ passes (is_word which) (next src.entry self.now) }
    {
        match self.next(src) {
            Some(t) => is_word(t, which),
            None => false,
        }
    }

    /// Whether the next token begins the type of a variable.
    pub fn next_is_base(&self, src: Source<'_>) -> bool
        ensures { result ≡ passes begins_base (next src.entry self.now) }
    {
        match self.next(src) {
            Some(t) => begins_base(t),
            None => false,
        }
    }

    /// Goes on behind the next token.
    pub fn step(&mut self, src: Source<'_>)
        requires { self.old.at < length src.toks.now }
        ensures { self.new ≡ record self.old { at = self.old.at + 1 } }
    {
        self.at += 1;
    }

    /// Reads a sign.
    #[tactic(auto, unfolding(crate::specs::Grammar::sign))]
    pub fn sign(&mut self, src: Source<'_>, which: Sign) -> Result<(), Stop>
        ensures { Gives result self.new (reads src.entry (sign which) self.old) }
    {
        if !self.next_is_sign(src, which) {
            return Err(Stop::Wrong);
        }
        self.step(src);
        Ok(())
    }

    /// Reads a keyword.
    #[tactic(auto, unfolding(crate::specs::Grammar::word))]
    pub fn word(&mut self, src: Source<'_>, which: Keyword) -> Result<(), Stop>
        ensures { Gives result self.new (reads src.entry (word which) self.old) }
    {
        if !self.next_is_word(src, which) {
            return Err(Stop::Wrong);
        }
        self.step(src);
        Ok(())
    }

    /// Reads a name.
    #[tactic(auto, unfolding(crate::specs::Grammar::name))]
    pub fn name(&mut self, src: Source<'_>) -> Result<Name, Stop>
        ensures { Gives result self.new (reads src.entry name self.old) }
    {
        let Some(t) = self.next(src) else {
            return Err(Stop::Wrong);
        };
        let Some(name) = name_of(t) else {
            return Err(Stop::Wrong);
        };
        self.step(src);
        Ok(name)
    }

    /// Adds a node, and answers its number.
    pub fn node(&mut self, at: u32, kind: Kind) -> Result<u32, Stop>
        ensures made { IfOk result (λ n. (n, self.new) ≡ grown (node at kind self.old.tree) self.old) }
        ensures memory { IfErr result (λ e. e ≡ stops.Memory) }
    {
        Ok(self.tree.add(at, kind)?)
    }

    /// Adds a list of parts.
    pub fn parts(&mut self, parts: &[u32]) -> Result<Parts, Stop>
        ensures made { IfOk result (λ p. p ≡ record { from = length self.old.tree.items; count = length parts.now }) }
        ensures grown { OnOk result (self.new ≡ record self.old { tree = with_parts self.old.tree parts.now }) }
        ensures memory { IfErr result (λ e. e ≡ stops.Memory) }
    {
        Ok(self.tree.add_parts(parts)?)
    }
}

// The end of the last token, or 0 where there is none.
fn end_of(toks: &[Token]) -> u32
    ensures { result ≡ end_of toks.now }
{
    match toks.last() {
        Some(t) => t.to,
        None => 0,
    }
}
