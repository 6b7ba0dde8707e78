//! What a text begins with: a token, or what stands between tokens.
ghost use Rattle.std.specs.Prelude.{◌≡◌, ◌≤◌, length};
ghost use Rattle.vg_stok.specs.Tables.{row_at, signs};
ghost use Rattle.vg_stok.specs.Numbers.{number_of};
ghost use Rattle.vg_stok.specs.Comments.{comment_size};
ghost use Rattle.vg_stok.specs.Pieces.{first_piece, comment_piece, number_kind, name_kind, sign_piece, token_piece};

use crate::bytes::{is_blank, is_digit, is_name_byte, name_len};
use crate::comments::{comment_size, opens_comment};
use crate::kinds::TokenKind;
use crate::numbers::number_of;
use crate::tables::{row_at, row_of, sign_rows, word_rows};

// The most bytes that a name may have.
const LONGEST_NAME: usize = 64;

/// What a piece of a text is.
#[derive(Clone, Copy, Debug, PartialEq, Eq)]
pub enum What {
    /// A blank or a comment.
    Between,
    /// A token.
    Token(TokenKind),
}

/// A piece of a text: what it is, and how many bytes it has.
#[derive(Clone, Copy, Debug, PartialEq, Eq)]
pub struct Piece {
    pub size: usize,
    pub what: What,
}

// A comment, or the opening of one without end.
fn comment_piece(text: &[u8]) -> Piece
    ensures { result ≡ comment_piece text.now (comment_size text.now) }
{
    match comment_size(text) {
        Some(size) => Piece {
            size,
            what: What::Between,
        },
        None => Piece {
            size: text.len(),
            what: What::Token(TokenKind::Other),
        },
    }
}

// What a word is that begins with a digit.
fn number_kind(word: &[u8]) -> TokenKind
    ensures { result ≡ number_kind (number_of word.now) }
{
    match number_of(word) {
        Some(value) => TokenKind::Number(value),
        None => TokenKind::Other,
    }
}

// What a word is that begins with no digit.
fn name_kind(word: &[u8]) -> TokenKind
    ensures { result ≡ name_kind word.now }
{
    if word.len() > LONGEST_NAME {
        return TokenKind::Other;
    }
    match row_of(word_rows(), word) {
        Some(word) => TokenKind::Word(word),
        None => TokenKind::Name,
    }
}

// A sign, the longest that a text begins with.
fn sign_piece(text: &[u8]) -> Piece
    ensures { result ≡ sign_piece (row_at signs text.now) }
{
    match row_at(sign_rows(), text) {
        Some((size, sign)) => Piece {
            size,
            what: What::Token(TokenKind::Sign(sign)),
        },
        None => Piece {
            size: 1,
            what: What::Token(TokenKind::Other),
        },
    }
}

// A number, a name or a sign, by its first byte.
#[tactic(auto, unfolding(crate::specs::Pieces::token_piece))]
fn token_piece(b: u8, text: &[u8]) -> Piece
    ensures { result ≡ token_piece b text.now }
{
    let (word, _) = text.split_at(name_len(text));
    if is_digit(b) {
        return Piece {
            size: word.len(),
            what: What::Token(number_kind(word)),
        };
    }
    if is_name_byte(b) {
        return Piece {
            size: word.len(),
            what: What::Token(name_kind(word)),
        };
    }
    sign_piece(text)
}

/// What a text begins with.
#[tactic(auto, unfolding(crate::specs::Pieces::first_piece))]
pub fn first_piece(text: &[u8]) -> Piece
    requires { 1 ≤ length text.now }
    ensures { result ≡ first_piece text.now }
{
    let b = text[0];
    if is_blank(b) {
        return Piece {
            size: 1,
            what: What::Between,
        };
    }
    if opens_comment(text) {
        return comment_piece(text);
    }
    token_piece(b, text)
}
