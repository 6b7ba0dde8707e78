//! Reading a whole text.
ghost use Rattle.std.specs.Prelude.{◌≡◌, ◌<◌, ◌^◌, ◌⊎◌, ℕ, length, IfOk, IfErr, MatchResult};
ghost use Rattle.vg_forms.specs.declared.stops.ReadFault.{ReadFault};
ghost use Rattle.vg_forms.specs.declared.stops.ReadFault.TheVariants as faults;
ghost use Rattle.vg_sgrammar.specs.Written.{Written};
ghost use Rattle.vg_sgrammar.specs.Texts.{Says, SaysTokens, Refuses, RefusesTokens};

use crate::reader::{Reader, Source};
use crate::tree::Tree;
use std::alloc::Global;
use vg_forms::{ReadFault, Stop, Token};
use vg_parts::Memory;
use vg_stok::{TokenKind, tokens};

/// How many statements, blocks and expressions may stand in one another.
pub const MOST_NESTED: u8 = 64;

/// A specification as it is written: its tree, and the number of its step's block.
#[derive(Drop)]
pub struct WrittenSpec {
    pub tree: Tree,
    pub step: u32,
}

// The tree that tokens spell.
fn read_tokens(alloc: Global, toks: &[Token<TokenKind>]) -> Result<WrittenSpec, ReadFault>
    ensures tree { IfOk result (λ w. SaysTokens toks.now w.tree w.step) }
    ensures only_tree { (tree : Written) (step : ℕ) → SaysTokens toks.now tree step
        → MatchResult result (λ w. (w.tree ≡ tree) × (w.step ≡ step)) (λ e. e ≡ faults.Memory) }
    ensures fault { IfErr result (λ e. (e ≡ faults.Memory) ⊎ RefusesTokens toks.now e) }
    ensures only_fault { (e : ReadFault) → RefusesTokens toks.now e → MatchResult result (λ _. ⊥) (λ f. (f ≡ faults.Memory) ⊎ (f ≡ e)) }
{
    let src = Source {
        alloc,
        toks,
        room: MOST_NESTED,
    };
    let mut reader = Reader::new(alloc);
    match reader.specification(src) {
        Ok(step) => Ok(WrittenSpec {
            tree: reader.into_tree(),
            step,
        }),
        Err(Stop::Wrong) => Err(ReadFault::Syntax(reader.place(src))),
        Err(Stop::Deep) => Err(ReadFault::Deep(reader.place(src))),
        Err(Stop::Memory) => Err(ReadFault::Memory),
    }
}

/// The specification that a text of less than 2^31 bytes says, as it is written.
///
/// `Syntax` is answered exactly where the text says none: at the first token that the grammar can't go on with, while those before it
/// begin some text that says one; or at the end of the last token where it needs another. What is no token fits nowhere. `Deep` is
/// answered exactly where a token opens a statement, block or expression that stands in 64 others, before any such token. `Memory` is
/// answered where memory ran out.
pub fn read_written(alloc: Global, text: &[u8]) -> Result<WrittenSpec, ReadFault>
    requires { length text.now < 2 ^ 31 }
    ensures tree { IfOk result (λ w. Says text.now w.tree w.step) }
    ensures only_tree { (tree : Written) (step : ℕ) → Says text.now tree step
        → MatchResult result (λ w. (w.tree ≡ tree) × (w.step ≡ step)) (λ e. e ≡ faults.Memory) }
    ensures fault { IfErr result (λ e. (e ≡ faults.Memory) ⊎ Refuses text.now e) }
    ensures only_fault { (e : ReadFault) → Refuses text.now e → MatchResult result (λ _. ⊥) (λ f. (f ≡ faults.Memory) ⊎ (f ≡ e)) }
{
    match tokens(alloc, text) {
        Ok(toks) => read_tokens(alloc, &toks),
        Err(Memory) => Err(ReadFault::Memory),
    }
}
