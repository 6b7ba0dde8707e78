//! The tables of keywords, signs and suffixes, and looking words up in them.
ghost use Rattle.std.specs.Prelude.{◌≡◌, map};
ghost use Rattle.vg_ctok.specs.Tables.{keywords, signs, suffixes, row_of, row_at};

use crate::kinds::{Keyword, Sign};

/// The suffix of a number, by what it says of the number's type.
#[derive(Clone, Copy, Debug, PartialEq, Eq)]
pub enum Suffix {
    /// None.
    Plain,
    /// `u`
    Unsigned,
    /// `l` or `ll`
    Long,
    /// Both.
    UnsignedLong,
}

/// The keywords.
pub fn keyword_rows() -> &'static [(&'static str, Keyword)]
    ensures { map (λ e. (e.0.now, e.1)) result.now ≡ keywords }
{
    &[
        ("if", Keyword::If),
        ("else", Keyword::Else),
        ("for", Keyword::For),
        ("return", Keyword::Return),
        ("struct", Keyword::Struct),
        ("extern", Keyword::Extern),
        ("const", Keyword::Const),
        ("static", Keyword::Static),
        ("inline", Keyword::Inline),
        ("void", Keyword::Void),
        ("sizeof", Keyword::Sizeof),
        ("int", Keyword::Int),
        ("unsigned", Keyword::Unsigned),
        ("int8_t", Keyword::Int8),
        ("int16_t", Keyword::Int16),
        ("int32_t", Keyword::Int32),
        ("int64_t", Keyword::Int64),
        ("uint8_t", Keyword::Uint8),
        ("uint16_t", Keyword::Uint16),
        ("uint32_t", Keyword::Uint32),
        ("uint64_t", Keyword::Uint64),
        ("map_t", Keyword::Map),
        ("chain_t", Keyword::Chain),
        ("vector_t", Keyword::Vector),
        ("prefix_t", Keyword::Prefix),
        ("__attribute__", Keyword::Attribute),
    ]
}

/// The signs, the longest first.
pub fn sign_rows() -> &'static [(&'static str, Sign)]
    ensures { map (λ e. (e.0.now, e.1)) result.now ≡ signs }
{
    &[
        ("<<=", Sign::ShiftLeftAssign),
        (">>=", Sign::ShiftRightAssign),
        ("->", Sign::Arrow),
        ("++", Sign::PlusPlus),
        ("--", Sign::MinusMinus),
        ("<<", Sign::ShiftLeft),
        (">>", Sign::ShiftRight),
        ("<=", Sign::LessEqual),
        (">=", Sign::GreaterEqual),
        ("==", Sign::EqualEqual),
        ("!=", Sign::NotEqual),
        ("&&", Sign::AndAnd),
        ("||", Sign::OrOr),
        ("+=", Sign::PlusAssign),
        ("-=", Sign::MinusAssign),
        ("*=", Sign::StarAssign),
        ("/=", Sign::SlashAssign),
        ("%=", Sign::PercentAssign),
        ("&=", Sign::AndAssign),
        ("|=", Sign::OrAssign),
        ("^=", Sign::XorAssign),
        ("+", Sign::Plus),
        ("-", Sign::Minus),
        ("*", Sign::Star),
        ("/", Sign::Slash),
        ("%", Sign::Percent),
        ("&", Sign::And),
        ("|", Sign::Or),
        ("^", Sign::Xor),
        ("~", Sign::Tilde),
        ("!", Sign::Not),
        ("<", Sign::Less),
        (">", Sign::Greater),
        ("=", Sign::Assign),
        ("?", Sign::Question),
        (":", Sign::Colon),
        (";", Sign::Semicolon),
        (",", Sign::Comma),
        (".", Sign::Dot),
        ("(", Sign::LeftParen),
        (")", Sign::RightParen),
        ("{", Sign::LeftBrace),
        ("}", Sign::RightBrace),
        ("[", Sign::LeftBracket),
        ("]", Sign::RightBracket),
    ]
}

/// The suffixes of numbers.
pub fn suffix_rows() -> &'static [(&'static str, Suffix)]
    ensures { map (λ e. (e.0.now, e.1)) result.now ≡ suffixes }
{
    &[
        ("", Suffix::Plain),
        ("u", Suffix::Unsigned),
        ("U", Suffix::Unsigned),
        ("l", Suffix::Long),
        ("L", Suffix::Long),
        ("ll", Suffix::Long),
        ("LL", Suffix::Long),
        ("ul", Suffix::UnsignedLong),
        ("uL", Suffix::UnsignedLong),
        ("ull", Suffix::UnsignedLong),
        ("uLL", Suffix::UnsignedLong),
        ("Ul", Suffix::UnsignedLong),
        ("UL", Suffix::UnsignedLong),
        ("Ull", Suffix::UnsignedLong),
        ("ULL", Suffix::UnsignedLong),
        ("lu", Suffix::UnsignedLong),
        ("lU", Suffix::UnsignedLong),
        ("Lu", Suffix::UnsignedLong),
        ("LU", Suffix::UnsignedLong),
        ("llu", Suffix::UnsignedLong),
        ("llU", Suffix::UnsignedLong),
        ("LLu", Suffix::UnsignedLong),
        ("LLU", Suffix::UnsignedLong),
    ]
}

/// What a table says of a word.
pub fn row_of<K: Copy>(rows: &[(&str, K)], word: &[u8]) -> Option<K>
    ensures { result ≡ row_of (map (λ e. (e.0.now, e.1)) rows.now) word.now }
{
    for row in rows {
        if row.0.as_bytes() == word {
            return Some(row.1);
        }
    }
    None
}

/// The first row of a table whose bytes a text begins with: their number, and what the row says.
pub fn row_at<K: Copy>(rows: &[(&str, K)], text: &[u8]) -> Option<(usize, K)>
    ensures { result ≡ row_at (map (λ e. (e.0.now, e.1)) rows.now) text.now }
{
    for row in rows {
        if text.starts_with(row.0.as_bytes()) {
            return Some((row.0.len(), row.1));
        }
    }
    None
}
