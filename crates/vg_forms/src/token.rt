//! Tokens of any kind.

/// A token: what it is, and the bytes of the text that spell it, from `from` up to but not with `to`.
#[derive(Clone, Copy, Debug, PartialEq, Eq)]
pub struct Token<K> {
    pub kind: K,
    pub from: u32,
    pub to: u32,
}
