//! The tables of words and signs, and looking words up in them.
ghost use Rattle.std.specs.Prelude.{◌≡◌, map};
ghost use Rattle.vg_stok.specs.Tables.{words, signs, row_of, row_at};

use crate::kinds::{Sign, Word};

/// The words that the language keeps for itself.
pub fn word_rows() -> &'static [(&'static str, Word)]
    ensures { map (λ e. (e.0.now, e.1)) result.now ≡ words }
{
    &[
        ("ports", Word::Ports),
        ("config", Word::Config),
        ("premise", Word::Premise),
        ("struct", Word::Struct),
        ("link", Word::Link),
        ("vector", Word::Vector),
        ("prefix", Word::Prefix),
        ("rule", Word::Rule),
        ("define", Word::Define),
        ("step", Word::Step),
        ("let", Word::Let),
        ("drop", Word::Drop),
        ("flood", Word::Flood),
        ("send", Word::Send),
        ("if", Word::If),
        ("else", Word::Else),
        ("frame", Word::Frame),
        ("expire", Word::Expire),
        ("before", Word::Before),
        ("find", Word::Find),
        ("as", Word::As),
        ("add", Word::Add),
        ("touch", Word::Touch),
        ("remove", Word::Remove),
        ("lookup", Word::Lookup),
        ("cell", Word::Cell),
        ("length", Word::Length),
        ("port", Word::Port),
        ("now", Word::Now),
        ("has", Word::Has),
        ("u8", Word::U8),
        ("u16", Word::U16),
        ("u32", Word::U32),
        ("u64", Word::U64),
        ("be16", Word::Be16),
        ("be32", Word::Be32),
        ("be48", Word::Be48),
        ("be64", Word::Be64),
        ("b1", Word::B1),
        ("b2", Word::B2),
        ("b3", Word::B3),
        ("b4", Word::B4),
        ("b5", Word::B5),
        ("b6", Word::B6),
        ("b7", Word::B7),
        ("b8", Word::B8),
    ]
}

/// The signs, the longest first.
pub fn sign_rows() -> &'static [(&'static str, Sign)]
    ensures { map (λ e. (e.0.now, e.1)) result.now ≡ signs }
{
    &[
        ("..", Sign::Range),
        ("<<", Sign::ShiftLeft),
        (">>", Sign::ShiftRight),
        ("<=", Sign::LessEqual),
        (">=", Sign::GreaterEqual),
        ("==", Sign::EqualEqual),
        ("!=", Sign::NotEqual),
        ("&&", Sign::AndAnd),
        ("||", Sign::OrOr),
        ("+", Sign::Plus),
        ("-", Sign::Minus),
        ("*", Sign::Star),
        ("/", Sign::Slash),
        ("%", Sign::Percent),
        ("&", Sign::And),
        ("|", Sign::Or),
        ("^", Sign::Xor),
        ("!", Sign::Not),
        ("<", Sign::Less),
        (">", Sign::Greater),
        ("=", Sign::Assign),
        ("?", Sign::Question),
        (":", Sign::Colon),
        (";", Sign::Semicolon),
        (",", Sign::Comma),
        (".", Sign::Dot),
        ("(", Sign::LeftParen),
        (")", Sign::RightParen),
        ("{", Sign::LeftBrace),
        ("}", Sign::RightBrace),
        ("[", Sign::LeftBracket),
        ("]", Sign::RightBracket),
    ]
}

/// What a table says of a word.
pub fn row_of<K: Copy>(rows: &[(&str, K)], word: &[u8]) -> Option<K>
    ensures { result ≡ row_of (map (λ e. (e.0.now, e.1)) rows.now) word.now }
{
    for row in rows {
        if row.0.as_bytes() == word {
            return Some(row.1);
        }
    }
    None
}

/// The first row of a table whose bytes a text begins with: their number, and what the row says.
pub fn row_at<K: Copy>(rows: &[(&str, K)], text: &[u8]) -> Option<(usize, K)>
    ensures { result ≡ row_at (map (λ e. (e.0.now, e.1)) rows.now) text.now }
{
    for row in rows {
        if text.starts_with(row.0.as_bytes()) {
            return Some((row.0.len(), row.1));
        }
    }
    None
}
