//! Cutting a whole text into tokens.
ghost use Rattle.std.specs.Prelude.{◌≡◌, ◌<◌, ◌≤◌, ◌+◌, ◌^◌, ◌++◌, ◌⊎◌, ℕ, List, length, IfOk, IfErr, OnOk, MatchResult};
ghost use Rattle.vg_ctok.specs.Texts.{AreTokens, Refuses, tokens_of, fresh_after, defines_after};
ghost use Rattle.vg_ctok.specs.Reader.{shown, IsNamed, IsNew};
ghost use Rattle.vg_ctok.specs.declared.kinds.Token.{Token};
ghost use Rattle.vg_ctok.specs.declared.kinds.TokFault.{TokFault};
ghost use Rattle.vg_ctok.specs.declared.kinds.TokFault.TheVariants.{Memory};

use crate::directives::slice;
use crate::kinds::{Number, TokFault, Token};
use crate::pieces::{Here, Piece, What, first_piece};
use indexmap::IndexMap;
use std::alloc::{AllocError, Global};

// Adds the token that a piece is, if it is one.
fn add_token(tokens: &mut Vec<Token>, at: u32, piece: Piece) -> Result<(), TokFault>
    requires { at + piece.size < 2 ^ 32 }
    ensures added { OnOk result (tokens.new.items ≡ tokens.old.items ++ tokens_of at piece) }
    ensures failed { IfErr result (λ e. e ≡ Memory) }
{
    if let What::Token(kind) = piece.what {
        tokens.push(Token {
            kind,
            from: at,
            to: at + piece.size as u32,
        })?;
    }
    Ok(())
}

// Adds the name that a piece of a text defines, if it defines one.
fn add_define<'a>(
    defines: &mut IndexMap<&'a [u8], Number>,
    text: &'a [u8],
    piece: Piece,
) -> Result<(), TokFault>
    requires named { IsNamed piece text.now }
    requires new { IsNew (shown defines.old.entries) text.now piece.what }
    ensures added { OnOk result (shown defines.new.entries ≡ defines_after (shown defines.old.entries) text.now piece.what) }
    ensures failed { IfErr result (λ e. e ≡ Memory) }
{
    if let What::Define(define) = piece.what {
        defines.insert(slice(text, define.name), define.number)?;
    }
    Ok(())
}

// Whether only blanks stand before a place on its line, behind a piece.
fn fresh_after(fresh: bool, what: What) -> bool
    ensures { result ≡ fresh_after fresh what }
{
    match what {
        What::LineFeed => true,
        What::Blank => fresh,
        _ => false,
    }
}

/// The tokens of a C text of less than 2^31 bytes, in their order, up to its end.
///
/// Comments, `#include` lines and blanks stand between tokens. A `#define` of a name as a number makes each later token of
/// this name a number. Each name, number and sign is the longest that begins at its place (C11 6.4, paragraph 4).
///
/// A fault is answered exactly where the text has one, for the first: `BadByte`, `BadNumber` and `Directive` with its
/// place. `Memory` is answered where memory ran out.
pub fn tokens(alloc: Global, text: &[u8]) -> Result<Vec<Token>, TokFault>
    requires { length text.now < 2 ^ 31 }
    ensures tokens { IfOk result (λ v. AreTokens text.now v.items) }
    ensures fault { IfErr result (λ e. (e ≡ Memory) ⊎ Refuses text.now e) }
    ensures only_tokens { (ts : List Token) → AreTokens text.now ts → MatchResult result (λ v. v.items ≡ ts) (λ e. e ≡ Memory) }
    ensures first_fault { (e : TokFault) → Refuses text.now e → MatchResult result (λ _. ⊥) (λ f. (f ≡ Memory) ⊎ (f ≡ e)) }
{
    let mut tokens = Vec::new(alloc);
    let mut defines = IndexMap::new(alloc);
    let mut at = 0;
    let mut fresh = true;
    while at < text.len() {
        let (_, rest) = text.split_at(at);
        let here = Here {
            at: at as u32,
            fresh,
            defines: &defines,
        };
        let piece = first_piece(alloc, here, rest)?;
        add_token(&mut tokens, at as u32, piece)?;
        add_define(&mut defines, rest, piece)?;
        fresh = fresh_after(fresh, piece.what);
        at += piece.size;
    }
    Ok(tokens)
}
