//! Which bytes stand in names, numbers and blanks, and how far a text goes on with them.
ghost use Rattle.std.specs.Prelude.{◌≡◌, ◌≤◌, length};
ghost use Rattle.std.specs.List.{prefix_len};
ghost use Rattle.vg_stok.specs.Bytes.{is_digit, is_name_byte, is_blank, is_in_line};

/// Whether a byte is a decimal digit.
pub fn is_digit(b: u8) -> bool
    ensures { result ≡ is_digit b }
{
    b'0' <= b && b <= b'9'
}

/// Whether a byte may stand in a name or a number.
pub fn is_name_byte(b: u8) -> bool
    ensures { result ≡ is_name_byte b }
{
    b'a' <= b && b <= b'z' || b'A' <= b && b <= b'Z' || is_digit(b) || b == b'_'
}

/// Whether a byte is a blank.
pub fn is_blank(b: u8) -> bool
    ensures { result ≡ is_blank b }
{
    b == b' ' || b == b'\t' || b == b'\r' || b == b'\n'
}

/// How many name bytes a text begins with.
#[tactic(auto, using(crate::proofs::Sizes::prefix_within))]
pub fn name_len(text: &[u8]) -> usize
    ensures len { result ≡ prefix_len is_name_byte text.now }
    ensures within { result ≤ length text.now }
{
    text.iter().take_while(|b| is_name_byte(**b)).count()
}

/// How many bytes a text's first line has.
#[tactic(auto, using(crate::proofs::Sizes::prefix_within))]
pub fn line_len(text: &[u8]) -> usize
    ensures len { result ≡ prefix_len is_in_line text.now }
    ensures within { result ≤ length text.now }
{
    text.iter().take_while(|b| **b != b'\n').count()
}
