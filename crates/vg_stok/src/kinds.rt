//! What tokens are.

/// What a token is.
#[derive(Clone, Copy, Debug, PartialEq, Eq)]
pub enum TokenKind {
    /// A name that is no word of the language.
    Name,
    /// A word that the language keeps for itself.
    Word(Word),
    /// An operator or a separator.
    Sign(Sign),
    /// A number.
    Number(u64),
    /// What is no token of the language: a word that begins with a digit and is no number, a name of more than 64 bytes, a comment
    /// without end, or a byte that begins nothing. No text of the grammar has it.
    Other,
}

/// The words that the language keeps for itself, each spelled in lower case (`Be16` is `be16`).
#[derive(Clone, Copy, Debug, PartialEq, Eq)]
pub enum Word {
    Ports,
    Config,
    Premise,
    Struct,
    Link,
    Vector,
    Prefix,
    Rule,
    Define,
    Step,
    Let,
    Drop,
    Flood,
    Send,
    If,
    Else,
    Frame,
    Expire,
    Before,
    Find,
    As,
    Add,
    Touch,
    Remove,
    Lookup,
    Cell,
    Length,
    Port,
    Now,
    Has,
    U8,
    U16,
    U32,
    U64,
    Be16,
    Be32,
    Be48,
    Be64,
    B1,
    B2,
    B3,
    B4,
    B5,
    B6,
    B7,
    B8,
}

/// The signs. `Range` is `..`, and `Assign` is `=`.
#[derive(Clone, Copy, Debug, PartialEq, Eq)]
pub enum Sign {
    Range,
    ShiftLeft,
    ShiftRight,
    LessEqual,
    GreaterEqual,
    EqualEqual,
    NotEqual,
    AndAnd,
    OrOr,
    Plus,
    Minus,
    Star,
    Slash,
    Percent,
    And,
    Or,
    Xor,
    Not,
    Less,
    Greater,
    Assign,
    Question,
    Colon,
    Semicolon,
    Comma,
    Dot,
    LeftParen,
    RightParen,
    LeftBrace,
    RightBrace,
    LeftBracket,
    RightBracket,
}
