//! What a text begins with at a place: a token, or what stands between tokens.
ghost use Rattle.std.specs.Prelude.{◌≡◌, ◌≤◌, ◌<◌, ◌+◌, ◌^◌, ◌==◌, ◌&&◌, length, IfSome};
ghost use Rattle.vg_ctok.specs.Tables.{keywords, signs, row_of, row_at};
ghost use Rattle.vg_ctok.specs.Numbers.{number_before};
ghost use Rattle.vg_ctok.specs.Comments.{comment_size};
ghost use Rattle.vg_ctok.specs.Pieces.{first_piece, comment_piece, number_piece, name_kind, name_piece, sign_piece, token_piece, define_piece};
ghost use Rattle.vg_ctok.specs.Pieces.{directive_piece, is_taken};
ghost use Rattle.vg_ctok.specs.Reader.{place, Gives};

use crate::bytes::{is_digit, is_name_byte, is_space, line_len, name_len};
use crate::comments::{blanked, comment_size, opens_comment};
use crate::directives::{define_of, is_include, slice};
use crate::kinds::{Number, TokFault, TokenKind};
use crate::numbers::number_before;
use crate::tables::{keyword_rows, row_at, row_of, sign_rows};
use indexmap::IndexMap;
use std::alloc::Global;

// The most bytes that a name may have.
const LONGEST_NAME: usize = 64;

/// Two places in a line, or in a text from a place on.
#[derive(Clone, Copy, Debug, PartialEq, Eq)]
pub struct Span {
    pub from: usize,
    pub to: usize,
}

/// A name, by its place in the line of its `#define`, and the number that it stands for.
#[derive(Clone, Copy, Debug, PartialEq, Eq)]
pub struct Define {
    pub name: Span,
    pub number: Number,
}

/// What a piece of a text is.
#[derive(Clone, Copy, Debug, PartialEq, Eq)]
pub enum What {
    /// The end of a line.
    LineFeed,
    /// Any other blank.
    Blank,
    /// A whole comment; the line feed behind one of `//` isn't in it.
    Comment,
    /// An `#include`, to the end of its line.
    Include,
    /// A `#define`, to the end of its line.
    Define(Define),
    /// A token.
    Token(TokenKind),
}

/// A piece of a text: what it is, and how many bytes it has.
#[derive(Clone, Copy, Debug, PartialEq, Eq)]
pub struct Piece {
    pub size: usize,
    pub what: What,
}

/// A place in a text: how many bytes stand before it, whether those of its line are all blank, and what they define.
#[derive(Clone, Copy)]
pub struct Here<'a, 'b> {
    pub at: u32,
    pub fresh: bool,
    pub defines: &'b IndexMap<&'a [u8], Number>,
}

// The number that a name was defined as.
fn defined(here: Here<'_, '_>, name: &[u8]) -> Option<Number>
    ensures { result ≡ row_of (place here.entry).defines name.now }
{
    here.defines.get(name).copied()
}

// A comment.
fn comment_piece(here: Here<'_, '_>, text: &[u8]) -> Result<Piece, TokFault>
    ensures { result ≡ comment_piece (place here.entry) (comment_size text.now) }
{
    match comment_size(text) {
        Some(size) => Ok(Piece {
            size,
            what: What::Comment,
        }),
        None => Err(TokFault::BadByte(here.at)),
    }
}

// A word that begins with a digit, before the next byte of its text.
fn number_piece(here: Here<'_, '_>, word: &[u8], next: Option<u8>) -> Result<Piece, TokFault>
    ensures { result ≡ number_piece (place here.entry) (length word.now) (number_before word.now next) }
{
    match number_before(word, next) {
        Some(number) => Ok(Piece {
            size: word.len(),
            what: What::Token(TokenKind::Number(number)),
        }),
        None => Err(TokFault::BadNumber(here.at)),
    }
}

// What a word is that begins with no digit.
fn name_kind(here: Here<'_, '_>, word: &[u8]) -> TokenKind
    ensures { result ≡ name_kind (row_of keywords word.now) (row_of (place here.entry).defines word.now) }
{
    if let Some(keyword) = row_of(keyword_rows(), word) {
        return TokenKind::Keyword(keyword);
    }
    match defined(here, word) {
        Some(number) => TokenKind::Number(number),
        None => TokenKind::Name,
    }
}

// A word that begins with no digit.
fn name_piece(here: Here<'_, '_>, word: &[u8]) -> Result<Piece, TokFault>
    ensures { result ≡ name_piece (place here.entry) word.now }
{
    if word.len() > LONGEST_NAME {
        return Err(TokFault::BadByte(here.at));
    }
    Ok(Piece {
        size: word.len(),
        what: What::Token(name_kind(here, word)),
    })
}

// A sign, the longest that a text begins with.
fn sign_piece(here: Here<'_, '_>, text: &[u8]) -> Result<Piece, TokFault>
    ensures { result ≡ sign_piece (place here.entry) (row_at signs text.now) }
{
    match row_at(sign_rows(), text) {
        Some((size, sign)) => Ok(Piece {
            size,
            what: What::Token(TokenKind::Sign(sign)),
        }),
        None => Err(TokFault::BadByte(here.at)),
    }
}

// Whether a name is a keyword or defined already.
fn is_taken(here: Here<'_, '_>, name: &[u8]) -> bool
    ensures { result ≡ is_taken (place here.entry) name.now }
{
    row_of(keyword_rows(), name).is_some() || defined(here, name).is_some()
}

// A line that begins with `#` and is no #include, with what it defines.
fn define_piece(here: Here<'_, '_>, line: &[u8], define: Option<Define>) -> Result<Piece, TokFault>
    requires start { here.at + length line.now < 2 ^ 32 }
    requires within { IfSome define (λ d. (d.name.from ≤ d.name.to) × (d.name.to ≤ length line.now)) }
    ensures { result ≡ define_piece (place here.entry) line.now define }
{
    let Some(define) = define else {
        return Err(TokFault::Directive(here.at));
    };
    if is_taken(here, slice(line, define.name)) {
        return Err(TokFault::Directive(here.at));
    }
    if define.name.to - define.name.from > LONGEST_NAME {
        return Err(TokFault::BadByte(here.at + define.name.from as u32));
    }
    Ok(Piece {
        size: line.len(),
        what: What::Define(define),
    })
}

// A line that begins with `#`.
fn directive_piece(alloc: Global, here: Here<'_, '_>, line: &[u8]) -> Result<Piece, TokFault>
    requires some { 1 ≤ length line.now }
    requires start { here.at + length line.now < 2 ^ 32 }
    ensures { Gives result (directive_piece (place here.entry) line.now) }
{
    let shown = blanked(alloc, line)?;
    if is_include(&shown) {
        return Ok(Piece {
            size: line.len(),
            what: What::Include,
        });
    }
    define_piece(here, line, define_of(&shown))
}

// Whether a byte begins a directive here.
fn begins_directive(here: Here<'_, '_>, b: u8) -> bool
    ensures { result ≡ (b == 35 && (place here.entry).fresh) }
{
    b == b'#' && here.fresh
}

// A number, a name or a sign, by its first byte.
#[tactic(auto, unfolding(crate::specs::Pieces::token_piece))]
fn token_piece(here: Here<'_, '_>, b: u8, text: &[u8]) -> Result<Piece, TokFault>
    ensures { result ≡ token_piece (place here.entry) b text.now }
{
    let (word, _) = text.split_at(name_len(text));
    if is_digit(b) {
        return number_piece(here, word, text.get(word.len()).copied());
    }
    if is_name_byte(b) {
        return name_piece(here, word);
    }
    sign_piece(here, text)
}

/// What a text begins with that goes on from here. Fails where nothing begins there, and where memory ran out.
#[tactic(auto, unfolding(crate::specs::Pieces::first_piece))]
pub fn first_piece(alloc: Global, here: Here<'_, '_>, text: &[u8]) -> Result<Piece, TokFault>
    requires some { 1 ≤ length text.now }
    requires start { here.at + length text.now < 2 ^ 32 }
    ensures { Gives result (first_piece (place here.entry) text.now) }
{
    let b = text[0];
    if b == b'\n' {
        return Ok(Piece {
            size: 1,
            what: What::LineFeed,
        });
    }
    if is_space(b) {
        return Ok(Piece {
            size: 1,
            what: What::Blank,
        });
    }
    if opens_comment(text) {
        return comment_piece(here, text);
    }
    if begins_directive(here, b) {
        let (line, _) = text.split_at(line_len(text));
        return directive_piece(alloc, here, line);
    }
    token_piece(here, b, text)
}
