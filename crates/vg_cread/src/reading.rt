//! Reading a whole text.
ghost use Rattle.std.specs.Prelude.{◌≡◌, ◌⊎◌, ℕ, List, IfOk, IfErr, MatchResult};
ghost use Rattle.vg_core.specs.Syntax.{Syntax, IsOrdered, IsUsedOnce};
ghost use Rattle.vg_ctok.specs.declared.kinds.Token.{Token};
ghost use Rattle.vg_cread.specs.Spelling.{Spells};
ghost use Rattle.vg_cread.specs.Guided.{Guides};
ghost use Rattle.vg_cread.specs.Refusals.{Refuses};
ghost use Rattle.vg_cread.specs.declared.reading.ReadFault.{ReadFault};
ghost use Rattle.vg_cread.specs.declared.reading.ReadFault.TheVariants as faults;

use crate::reader::{Reader, Source, Stop};
use std::alloc::Global;
use thiserror::Error;
use vg_core::Tree;
use vg_ctok::Token;

/// How many statements, blocks and expressions may stand in one another.
pub const MOST_NESTED: u8 = 64;

/// Why tokens were not read as a tree. Places are in bytes from the text's start.
#[derive(Clone, Copy, Debug, PartialEq, Eq, Error)]
pub enum ReadFault {
    /// The first token with which no text of the grammar goes on, or the end of the last one.
    #[error("syntax at {0}")]
    Syntax(u32),
    /// The token that opens one nesting too many.
    #[error("too deep at {0}")]
    Deep(u32),
    /// Memory ran out.
    #[error("out of memory")]
    Memory,
}

/// The tree that the tokens of a text spell, by the grammar of the C profile (C11 6.5, 6.7, 6.8 and 6.9).
///
/// Each node stands behind its parts, and they in the order of the text; the root is the last, and each other node is a part
/// of just one.
///
/// `Syntax` is answered exactly where no tree is spelled: at the first token that the grammar can't go on with, while those
/// before it begin some text that spells a tree; or at the end of the last token where it needs another. `Deep` is answered
/// exactly where a token opens a statement, block or expression that stands in 64 others, before any such token. `Memory` is
/// answered where memory ran out.
pub fn read_unit(alloc: Global, toks: &[Token]) -> Result<Tree, ReadFault>
    ensures tree { IfOk result (λ t. Spells MOST_NESTED toks.now t) }
    ensures ordered { IfOk result (λ t. IsOrdered t) }
    ensures used_once { IfOk result (λ t. IsUsedOnce t) }
    ensures fault { IfErr result (λ e. (e ≡ faults.Memory) ⊎ Refuses toks.now e) }
    ensures only_tree { (tree : Syntax) → Spells MOST_NESTED toks.now tree → MatchResult result (λ t. t ≡ tree) (λ e. e ≡ faults.Memory) }
    ensures only_fault { (e : ReadFault) → Refuses toks.now e → MatchResult result (λ _. ⊥) (λ f. (f ≡ faults.Memory) ⊎ (f ≡ e)) }
{
    let src = Source {
        alloc,
        toks,
        room: MOST_NESTED,
    };
    let mut reader = Reader::new(alloc);
    match reader.unit(src) {
        Ok(_) => Ok(reader.into_tree()),
        Err(Stop::Wrong) => Err(ReadFault::Syntax(reader.place(src))),
        Err(Stop::Deep) => Err(ReadFault::Deep(reader.place(src))),
        Err(Stop::Memory) => Err(ReadFault::Memory),
    }
}

/// Tokens spell one tree at most, whatever room there is.
pub fn one_tree()
    ensures { (toks : List Token) (room left : ℕ) (a b : Syntax) → Spells room toks a → Spells left toks b → a ≡ b }
{}

/// The tests that the grammar's forms have for the reader take no tree away and add none.
pub fn tests_tell_the_sides()
    ensures guides { (toks : List Token) (room : ℕ) (tree : Syntax) → Spells room toks tree → Guides room toks tree }
    ensures spells { (toks : List Token) (room : ℕ) (tree : Syntax) → Guides room toks tree → Spells room toks tree }
{}

/// In a tree that tokens spell each node stands behind its parts, and they in the order of the text; the root is the last
/// node, and each other is a part of just one.
pub fn tree_in_order()
    ensures ordered { (toks : List Token) (room : ℕ) (tree : Syntax) → Spells room toks tree → IsOrdered tree }
    ensures used_once { (toks : List Token) (room : ℕ) (tree : Syntax) → Spells room toks tree → IsUsedOnce tree }
{}
