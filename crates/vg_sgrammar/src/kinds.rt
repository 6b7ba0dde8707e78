//! What tokens are in the grammar.
ghost use Rattle.std.specs.Prelude.{◌≡◌};
ghost use Rattle.vg_sgrammar.specs.Kinds.{is_sign, is_word, name_of, number_of, binary_of, binary_sign, frame_word_of, frame_word, width_of};
ghost use Rattle.vg_sgrammar.specs.Kinds.{width_word, field_type_of, field_word, expression_word, begins_expression, statement_word};
ghost use Rattle.vg_sgrammar.specs.Kinds.{begins_statement, declaration_word, begins_declaration};

use crate::tree::Name;
use vg_forms::Token;
use vg_stok::{Sign, TokenKind, Word};
use vg_stree::{FieldType, FrameWord, Operator, Width};

/// Whether a token is this sign.
pub fn is_sign(t: Token<TokenKind>, sign: Sign) -> bool
    ensures { result ≡ is_sign sign t }
{
    match t.kind {
        TokenKind::Sign(found) => found as u8 == sign as u8,
        _ => false,
    }
}

/// Whether a token is this word.
pub fn is_word(t: Token<TokenKind>, word: Word) -> bool
    ensures { result ≡ is_word word t }
{
    match t.kind {
        TokenKind::Word(found) => found as u8 == word as u8,
        _ => false,
    }
}

/// The name that a token is.
pub fn name_of(t: Token<TokenKind>) -> Option<Name>
    ensures { result ≡ name_of t }
{
    match t.kind {
        TokenKind::Name => Some(Name {
            from: t.from,
            to: t.to,
        }),
        _ => None,
    }
}

/// The number that a token is.
pub fn number_of(t: Token<TokenKind>) -> Option<u64>
    ensures { result ≡ number_of t }
{
    match t.kind {
        TokenKind::Number(number) => Some(number),
        _ => None,
    }
}

// The operator that a sign is between two operands, with its rank.
fn binary_sign(sign: Sign) -> Option<(u8, Operator)>
    ensures { result ≡ binary_sign sign }
{
    match sign {
        Sign::Star => Some((1, Operator::Multiply)),
        Sign::Slash => Some((1, Operator::Divide)),
        Sign::Percent => Some((1, Operator::Remainder)),
        Sign::Plus => Some((2, Operator::Add)),
        Sign::Minus => Some((2, Operator::Subtract)),
        Sign::ShiftLeft => Some((3, Operator::ShiftLeft)),
        Sign::ShiftRight => Some((3, Operator::ShiftRight)),
        Sign::Less => Some((4, Operator::Less)),
        Sign::Greater => Some((4, Operator::Greater)),
        Sign::LessEqual => Some((4, Operator::LessEqual)),
        Sign::GreaterEqual => Some((4, Operator::GreaterEqual)),
        Sign::EqualEqual => Some((5, Operator::Equal)),
        Sign::NotEqual => Some((5, Operator::NotEqual)),
        Sign::And => Some((6, Operator::BitAnd)),
        Sign::Xor => Some((7, Operator::BitXor)),
        Sign::Or => Some((8, Operator::BitOr)),
        Sign::AndAnd => Some((9, Operator::AndThen)),
        Sign::OrOr => Some((10, Operator::OrElse)),
        _ => None,
    }
}

/// The operator of a rank that a token is between two operands.
pub fn binary_of(t: Token<TokenKind>, rank: u8) -> Option<Operator>
    ensures { result ≡ binary_of rank t }
{
    match t.kind {
        TokenKind::Sign(sign) => {
            let (found, operator) = binary_sign(sign)?;
            if found == rank { Some(operator) } else { None }
        }
        _ => None,
    }
}

// The bytes of a frame that a word reads as one number.
fn frame_word(word: Word) -> Option<FrameWord>
    ensures { result ≡ frame_word word }
{
    match word {
        Word::U8 => Some(FrameWord::U8),
        Word::Be16 => Some(FrameWord::Be16),
        Word::Be32 => Some(FrameWord::Be32),
        Word::Be48 => Some(FrameWord::Be48),
        Word::Be64 => Some(FrameWord::Be64),
        _ => None,
    }
}

/// The bytes of a frame that a token reads as one number.
pub fn frame_word_of(t: Token<TokenKind>) -> Option<FrameWord>
    ensures { result ≡ frame_word_of t }
{
    match t.kind {
        TokenKind::Word(word) => frame_word(word),
        _ => None,
    }
}

// The width that a word names.
fn width_word(word: Word) -> Option<Width>
    ensures { result ≡ width_word word }
{
    match word {
        Word::U8 => Some(Width::Bits8),
        Word::U16 => Some(Width::Bits16),
        Word::U32 => Some(Width::Bits32),
        Word::U64 => Some(Width::Bits64),
        _ => None,
    }
}

/// The width that a token names.
pub fn width_of(t: Token<TokenKind>) -> Option<Width>
    ensures { result ≡ width_of t }
{
    match t.kind {
        TokenKind::Word(word) => width_word(word),
        _ => None,
    }
}

// The type of a field that a word names.
fn field_word(word: Word) -> Option<FieldType>
    ensures { result ≡ field_word word }
{
    match word {
        Word::U8 => Some(FieldType::Number(Width::Bits8)),
        Word::U16 => Some(FieldType::Number(Width::Bits16)),
        Word::U32 => Some(FieldType::Number(Width::Bits32)),
        Word::U64 => Some(FieldType::Number(Width::Bits64)),
        Word::B1 => Some(FieldType::Bytes(1)),
        Word::B2 => Some(FieldType::Bytes(2)),
        Word::B3 => Some(FieldType::Bytes(3)),
        Word::B4 => Some(FieldType::Bytes(4)),
        Word::B5 => Some(FieldType::Bytes(5)),
        Word::B6 => Some(FieldType::Bytes(6)),
        Word::B7 => Some(FieldType::Bytes(7)),
        Word::B8 => Some(FieldType::Bytes(8)),
        _ => None,
    }
}

/// The type of a field that a token names.
pub fn field_type_of(t: Token<TokenKind>) -> Option<FieldType>
    ensures { result ≡ field_type_of t }
{
    match t.kind {
        TokenKind::Word(word) => field_word(word),
        _ => None,
    }
}

// Whether a word begins an expression.
fn expression_word(word: Word) -> bool
    ensures { result ≡ expression_word word }
{
    match word {
        Word::Frame | Word::Cell | Word::Has | Word::Length | Word::Port | Word::Now => true,
        _ => false,
    }
}

/// Whether a token begins an expression.
pub fn begins_expression(t: Token<TokenKind>) -> bool
    ensures { result ≡ begins_expression t }
{
    match t.kind {
        TokenKind::Name | TokenKind::Number(_) => true,
        TokenKind::Word(word) => expression_word(word),
        TokenKind::Sign(_) => is_sign(t, Sign::LeftParen) || is_sign(t, Sign::Not),
        TokenKind::Other => false,
    }
}

// Whether a word begins a statement.
fn statement_word(word: Word) -> bool
    ensures { result ≡ statement_word word }
{
    match word {
        Word::Let
        | Word::Drop
        | Word::Flood
        | Word::Send
        | Word::If
        | Word::Frame
        | Word::Expire
        | Word::Find
        | Word::Add
        | Word::Touch
        | Word::Remove
        | Word::Lookup => true,
        _ => false,
    }
}

/// Whether a token begins a statement.
pub fn begins_statement(t: Token<TokenKind>) -> bool
    ensures { result ≡ begins_statement t }
{
    match t.kind {
        TokenKind::Name => true,
        TokenKind::Word(word) => statement_word(word),
        _ => false,
    }
}

// Whether a word begins a declaration.
fn declaration_word(word: Word) -> bool
    ensures { result ≡ declaration_word word }
{
    match word {
        Word::Ports
        | Word::Config
        | Word::Premise
        | Word::Struct
        | Word::Link
        | Word::Vector
        | Word::Prefix
        | Word::Rule
        | Word::Define => true,
        _ => false,
    }
}

/// Whether a token begins a declaration.
pub fn begins_declaration(t: Token<TokenKind>) -> bool
    ensures { result ≡ begins_declaration t }
{
    match t.kind {
        TokenKind::Word(word) => declaration_word(word),
        _ => false,
    }
}
