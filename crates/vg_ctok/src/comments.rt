//! Comments: where they end, and a line without them.
ghost use Rattle.std.specs.Prelude.{◌≡◌, ◌≤◌, drop, codes, length, IfOk};
ghost use Rattle.vg_ctok.specs.Bytes.{begins};
ghost use Rattle.vg_ctok.specs.Comments.{close_from, opens_comment, comment_size, covered, blanked};

use crate::bytes::line_len;
use std::alloc::{AllocError, Global};

// The place behind the first `*/` from a place on.
fn close_from(text: &[u8], from: usize) -> Option<usize>
    requires { from ≤ length text.now }
    ensures { result ≡ close_from from (drop from text.now) }
{
    for at in from..text.len() {
        let (_, rest) = text.split_at(at);
        if closes_comment(rest) {
            return Some(at + 2);
        }
    }
    None
}

// Whether a text begins with the end of a comment.
fn closes_comment(text: &[u8]) -> bool
    ensures { result ≡ begins text.now (codes "*/") }
{
    text.starts_with(b"*/")
}

/// Whether a text begins with the opening of a comment.
pub fn opens_comment(text: &[u8]) -> bool
    ensures { result ≡ opens_comment text.now }
{
    text.starts_with(b"//") || text.starts_with(b"/*")
}

/// The size of the comment that a text begins with, where one begins there and ends.
pub fn comment_size(text: &[u8]) -> Option<usize>
    ensures { result ≡ comment_size text.now }
{
    if text.starts_with(b"//") {
        return Some(line_len(text));
    }
    if !text.starts_with(b"/*") {
        return None;
    }
    close_from(text, 2)
}

// How many bytes from here on are of a comment, of which so many are known to be left.
fn covered(left: usize, text: &[u8]) -> usize
    ensures { result ≡ covered left text.now }
{
    if left > 0 {
        return left;
    }
    match comment_size(text) {
        Some(size) => size,
        None => 0,
    }
}

/// A line with spaces in place of its comments, byte for byte. From a comment that does not end on the line, it stays as it is.
pub fn blanked(alloc: Global, line: &[u8]) -> Result<Vec<u8>, AllocError>
    ensures line { IfOk result (λ v. v.items ≡ blanked 0 line.now) }
    ensures size { IfOk result (λ v. length v.items ≡ length line.now) }
{
    let mut shown = Vec::new(alloc);
    let mut left = 0;
    for at in 0..line.len() {
        let (_, rest) = line.split_at(at);
        let size = covered(left, rest);
        if size > 0 {
            shown.push(b' ')?;
            left = size - 1;
        } else if opens_comment(rest) {
            shown.extend_from_slice(rest)?;
            return Ok(shown);
        } else {
            shown.push(rest[0])?;
            left = 0;
        }
    }
    Ok(shown)
}
