//! Cutting a text into words.
ghost use Rattle.std.specs.Prelude.{◌≡◌, ◌<◌, ◌≤◌, ◌+◌, ◌^◌, length, drop, slice_index, IsTrue, IfOk};
ghost use Rattle.vg_small.specs.Words.{IsCut};
ghost use Rattle.vg_small.specs.Joining.{joins_next, word_len};
ghost use Rattle.vg_small.specs.Reader.{placed};

use crate::bytes::{is_blank_byte, join};
use std::alloc::{AllocError, Global};

/// A word, and the place of its first byte.
#[derive(Clone, Copy)]
pub struct Word<'a> {
    pub at: u32,
    pub text: &'a [u8],
}

// Whether a word goes on after this byte of it.
fn goes_on(text: &[u8], at: usize) -> bool
    requires { at < length text.now }
    ensures joined { result ≡ joins_next (slice_index text.now at) (drop (at + 1) text.now) }
    ensures within { IsTrue result → at + 1 < length text.now }
{
    at + 1 < text.len() && join(text[at], text[at + 1])
}

// Where the word ends that begins at `from`.
fn word_end(text: &[u8], from: usize) -> usize
    requires { from < length text.now }
    ensures end { result ≡ from + word_len (drop from text.now) }
    ensures after { from < result }
    ensures within { result ≤ length text.now }
{
    let mut at = from;
    while goes_on(text, at) {
        at += 1;
    }
    at + 1
}

/// All words of a text, each as long as it can be.
pub fn cut(alloc: Global, text: &[u8]) -> Result<Vec<Word<'_>>, AllocError>
    requires { length text.now < 2 ^ 31 }
    ensures { IfOk result (λ v. IsCut text.now (placed v.items)) }
{
    let mut words = Vec::new(alloc);
    let mut at = 0;
    while at < text.len() {
        if is_blank_byte(text[at]) {
            at += 1;
        } else {
            let end = word_end(text, at);
            words.push(Word {
                at: at as u32,
                text: &text[at..end],
            })?;
            at = end;
        }
    }
    Ok(words)
}
