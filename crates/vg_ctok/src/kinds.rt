//! What tokens are: their kinds, their places, and why a text has none.
ghost use Rattle.std.specs.Prelude.{◌≡◌};
ghost use Rattle.vg_ctok.specs.declared.kinds.TokFault.TheVariants.{Memory};

use std::alloc::{AllocError, AllocFailed};
use thiserror::Error;

/// A token: what it is, and the bytes of the text that spell it, from `from` up to but not with `to`.
#[derive(Clone, Copy, Debug, PartialEq, Eq)]
pub struct Token {
    pub kind: TokenKind,
    pub from: u32,
    pub to: u32,
}

/// What a token is.
#[derive(Clone, Copy, Debug, PartialEq, Eq)]
pub enum TokenKind {
    /// A name that is no keyword and that no `#define` before it defines.
    Name,
    /// A word that the language keeps for itself.
    Keyword(Keyword),
    /// An operator or a separator.
    Sign(Sign),
    /// A number, or a name that a `#define` before it defines as one.
    Number(Number),
}

/// A number's value, and the type that C11 6.4.4.1 gives it.
#[derive(Clone, Copy, Debug, PartialEq, Eq)]
pub struct Number {
    pub value: u64,
    pub of: NumberType,
}

/// The types of numbers. `int` has 32 bits.
#[derive(Clone, Copy, Debug, PartialEq, Eq)]
pub enum NumberType {
    /// `int`
    Int,
    /// `uint32_t`
    Uint32,
    /// `int64_t`
    Int64,
    /// `uint64_t`
    Uint64,
}

/// The keywords, each spelled as in C (`Map` to `Prefix` are `map_t` to `prefix_t`, `Int8` is `int8_t`).
#[derive(Clone, Copy, Debug, PartialEq, Eq)]
pub enum Keyword {
    If,
    Else,
    For,
    Return,
    Struct,
    Extern,
    Const,
    Static,
    Inline,
    Void,
    Sizeof,
    Int,
    Unsigned,
    Int8,
    Int16,
    Int32,
    Int64,
    Uint8,
    Uint16,
    Uint32,
    Uint64,
    Map,
    Chain,
    Vector,
    Prefix,
    /// `__attribute__`
    Attribute,
}

/// The signs. `Assign` is `=`, and a name that ends in `Assign` is an operator before `=`, as `PlusAssign` is `+=`.
#[derive(Clone, Copy, Debug, PartialEq, Eq)]
pub enum Sign {
    ShiftLeftAssign,
    ShiftRightAssign,
    Arrow,
    PlusPlus,
    MinusMinus,
    ShiftLeft,
    ShiftRight,
    LessEqual,
    GreaterEqual,
    EqualEqual,
    NotEqual,
    AndAnd,
    OrOr,
    PlusAssign,
    MinusAssign,
    StarAssign,
    SlashAssign,
    PercentAssign,
    AndAssign,
    OrAssign,
    XorAssign,
    Plus,
    Minus,
    Star,
    Slash,
    Percent,
    And,
    Or,
    Xor,
    Tilde,
    Not,
    Less,
    Greater,
    Assign,
    Question,
    Colon,
    Semicolon,
    Comma,
    Dot,
    LeftParen,
    RightParen,
    LeftBrace,
    RightBrace,
    LeftBracket,
    RightBracket,
}

/// Why a text was not cut into tokens. Places are in bytes from the text's start.
#[derive(Clone, Copy, Debug, PartialEq, Eq, Error)]
pub enum TokFault {
    /// A byte that begins nothing, or the start of a comment without end or of a name of more than 64 bytes.
    #[error("bad byte at {0}")]
    BadByte(u32),
    /// The start of a word that begins with a digit and is no number, or one too large for every type of its form.
    #[error("bad number at {0}")]
    BadNumber(u32),
    /// The `#` of a line that is neither an `#include` nor a `#define` of a new name as a number.
    #[error("directive at {0}")]
    Directive(u32),
    /// Memory ran out.
    #[error("out of memory")]
    Memory,
}

impl From<AllocError> for TokFault {
    ghost from_gives = { λ _ e. e ≡ Memory };

    fn from(_e: AllocError) -> TokFault {
        TokFault::Memory
    }
}

impl<T: Drop> From<AllocFailed<T>> for TokFault {
    ghost from_gives = { λ _ e. e ≡ Memory };

    fn from(_e: AllocFailed<T>) -> TokFault {
        TokFault::Memory
    }
}
