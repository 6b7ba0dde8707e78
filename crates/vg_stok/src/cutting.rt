//! Cutting a whole text into tokens.
ghost use Rattle.std.specs.Prelude.{◌≡◌, ◌<◌, ◌+◌, ◌^◌, ◌++◌, length, IfOk, OnOk};
ghost use Rattle.vg_stok.specs.Texts.{token_of, tokens_of};

use crate::kinds::TokenKind;
use crate::pieces::{Piece, What, first_piece};
use std::alloc::Global;
use vg_forms::Token;
use vg_parts::Memory;

// Adds the token that a piece is, if it is one.
fn add_token(tokens: &mut Vec<Token<TokenKind>>, at: u32, piece: Piece) -> Result<(), Memory>
    requires { at + piece.size < 2 ^ 32 }
    ensures { OnOk result (tokens.new.items ≡ tokens.old.items ++ token_of at piece.size piece.what) }
{
    if let What::Token(kind) = piece.what {
        tokens.push(Token {
            kind,
            from: at,
            to: at + piece.size as u32,
        })?;
    }
    Ok(())
}

/// The tokens of a specification text of less than 2^31 bytes, in their order, each with its place.
///
/// Blanks and comments stand between tokens, as in C. Each name, number and sign is the longest that begins at its place. What begins
/// nothing is a token of the kind `Other`, which the grammar has nowhere; so the only refusal is want of memory.
pub fn tokens(alloc: Global, text: &[u8]) -> Result<Vec<Token<TokenKind>>, Memory>
    requires { length text.now < 2 ^ 31 }
    ensures { IfOk result (λ v. v.items ≡ tokens_of text.now) }
{
    let mut tokens = Vec::new(alloc);
    let mut at = 0;
    while at < text.len() {
        let (_, rest) = text.split_at(at);
        let piece = first_piece(rest);
        add_token(&mut tokens, at as u32, piece)?;
        at += piece.size;
    }
    Ok(tokens)
}
