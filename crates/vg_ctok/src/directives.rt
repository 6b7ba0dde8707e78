//! Directives: what a line that begins with `#` says, after its comments have become blanks.
ghost use Rattle.std.specs.Prelude.{◌≡◌, ◌≤◌, length, IfSome};
ghost use Rattle.vg_ctok.specs.Directives.{slice, dark_from, word_from, is_include, defines_name, define_of};

use crate::bytes::{dark_len, is_name, name_len, space_len};
use crate::numbers::number_of;
use crate::pieces::{Define, Span};

/// The bytes of a line between two places.
pub fn slice(line: &[u8], span: Span) -> &[u8]
    requires order { span.from ≤ span.to }
    requires within { span.to ≤ length line.now }
    ensures { result.now ≡ slice line.now span }
{
    let (_, rest) = line.split_at(span.from);
    let (word, _) = rest.split_at(span.to - span.from);
    word
}

// The first place from `at` on that is no blank, or the line's end.
fn dark_from(line: &[u8], at: usize) -> usize
    requires { at ≤ length line.now }
    ensures place { result ≡ dark_from line.now at }
    ensures within { result ≤ length line.now }
{
    let (_, rest) = line.split_at(at);
    at + space_len(rest)
}

// The first word from `at` on.
fn word_from(line: &[u8], at: usize) -> Span
    requires { at ≤ length line.now }
    ensures word { result ≡ word_from line.now at }
    ensures order { result.from ≤ result.to }
    ensures within { result.to ≤ length line.now }
{
    let from = dark_from(line, at);
    let (_, rest) = line.split_at(from);
    Span {
        from,
        to: from + dark_len(rest),
    }
}

/// Whether a line that begins with `#` is an `#include`.
pub fn is_include(line: &[u8]) -> bool
    requires { 1 ≤ length line.now }
    ensures { result ≡ is_include line.now }
{
    let (_, rest) = line.split_at(dark_from(line, 1));
    let (word, _) = rest.split_at(name_len(rest));
    word == b"include".as_slice()
}

// Whether words of a line, of which no fourth follows, are `define`, a name and something more.
fn defines_name(line: &[u8], word: &[u8], name: &[u8], end: usize) -> bool
    requires { end ≤ length line.now }
    ensures { result ≡ defines_name line.now word.now name.now end }
{
    word == b"define".as_slice() && is_name(name) && dark_from(line, end) == line.len()
}

/// The name and the number that a line which begins with `#` defines, if it is such a line.
#[tactic(auto, unfolding(crate::specs::Directives::define_of))]
pub fn define_of(line: &[u8]) -> Option<Define>
    requires { 1 ≤ length line.now }
    ensures define { result ≡ define_of line.now }
    ensures order { IfSome result (λ d. d.name.from ≤ d.name.to) }
    ensures within { IfSome result (λ d. d.name.to ≤ length line.now) }
{
    let word = word_from(line, 1);
    let name = word_from(line, word.to);
    let number = word_from(line, name.to);
    if !defines_name(line, slice(line, word), slice(line, name), number.to) {
        return None;
    }
    let number = number_of(slice(line, number))?;
    Some(Define { name, number })
}
