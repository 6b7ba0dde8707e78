//! Comments: where they end.
ghost use Rattle.std.specs.Prelude.{◌≡◌, ◌≤◌, drop, codes, length};
ghost use Rattle.vg_stok.specs.Bytes.{begins};
ghost use Rattle.vg_stok.specs.Comments.{close_from, opens_comment, comment_size};

use crate::bytes::line_len;

// The place behind the first `*/` from a place on.
fn close_from(text: &[u8], from: usize) -> Option<usize>
    requires { from ≤ length text.now }
    ensures { result ≡ close_from from (drop from text.now) }
{
    for at in from..text.len() {
        let (_, rest) = text.split_at(at);
        if closes_comment(rest) {
            return Some(at + 2);
        }
    }
    None
}

// Whether a text begins with the end of a comment.
fn closes_comment(text: &[u8]) -> bool
    ensures { result ≡ begins text.now (codes "*/") }
{
    text.starts_with(b"*/")
}

/// Whether a text begins with the opening of a comment.
pub fn opens_comment(text: &[u8]) -> bool
    ensures { result ≡ opens_comment text.now }
{
    text.starts_with(b"//") || text.starts_with(b"/*")
}

/// The size of the comment that a text begins with, where one begins there and ends.
pub fn comment_size(text: &[u8]) -> Option<usize>
    ensures { result ≡ comment_size text.now }
{
    if text.starts_with(b"//") {
        return Some(line_len(text));
    }
    if !text.starts_with(b"/*") {
        return None;
    }
    close_from(text, 2)
}
