//! Which bytes stand in names, numbers and blanks, and how far a text goes on with them.
ghost use Rattle.std.specs.Prelude.{◌≡◌, ◌≤◌, length};
ghost use Rattle.std.specs.List.{prefix_len};
ghost use Rattle.vg_ctok.specs.Bytes.{is_digit, is_name_byte, is_space, is_dark, is_in_line, is_name};

/// Whether a byte is a decimal digit.
pub fn is_digit(b: u8) -> bool
    ensures { result ≡ is_digit b }
{
    b'0' <= b && b <= b'9'
}

/// Whether a byte may stand in a name or a number: C's letters, digits and the underscore (C11 6.4.2.1).
pub fn is_name_byte(b: u8) -> bool
    ensures { result ≡ is_name_byte b }
{
    b'a' <= b && b <= b'z' || b'A' <= b && b <= b'Z' || is_digit(b) || b == b'_'
}

/// Whether a byte is a blank inside a line.
pub fn is_space(b: u8) -> bool
    ensures { result ≡ is_space b }
{
    b == b' ' || b == b'\t' || b == b'\r'
}

/// Whether a word is a name: bytes of names, of which the first is no digit.
pub fn is_name(word: &[u8]) -> bool
    ensures { result ≡ is_name word.now }
{
    match word {
        [] => false,
        [first, ..] => !is_digit(*first) && name_len(word) == word.len(),
    }
}

/// How many name bytes a text begins with.
#[tactic(auto, using(crate::proofs::Lens::prefix_within))]
pub fn name_len(text: &[u8]) -> usize
    ensures len { result ≡ prefix_len is_name_byte text.now }
    ensures within { result ≤ length text.now }
{
    text.iter().take_while(|b| is_name_byte(**b)).count()
}

/// How many blanks of one line a text begins with.
#[tactic(auto, using(crate::proofs::Lens::prefix_within))]
pub fn space_len(text: &[u8]) -> usize
    ensures len { result ≡ prefix_len is_space text.now }
    ensures within { result ≤ length text.now }
{
    text.iter().take_while(|b| is_space(**b)).count()
}

/// How many bytes other than blanks a line begins with.
#[tactic(auto, using(crate::proofs::Lens::prefix_within))]
pub fn dark_len(text: &[u8]) -> usize
    ensures len { result ≡ prefix_len is_dark text.now }
    ensures within { result ≤ length text.now }
{
    text.iter().take_while(|b| !is_space(**b)).count()
}

/// How many bytes a text's first line has.
#[tactic(auto, using(crate::proofs::Lens::prefix_within))]
pub fn line_len(text: &[u8]) -> usize
    ensures len { result ≡ prefix_len is_in_line text.now }
    ensures within { result ≤ length text.now }
{
    text.iter().take_while(|b| **b != b'\n').count()
}
