//! Which bytes are blank, and which meet in one word.
ghost use Rattle.std.specs.Prelude.{◌≡◌};
ghost use Rattle.vg_small.specs.Words.{is_blank, is_name_byte};
ghost use Rattle.vg_small.specs.Joining.{joins};

/// Whether a byte is in no word: a space, a tab, a carriage return or a line feed.
pub fn is_blank_byte(b: u8) -> bool
    ensures { result ≡ is_blank b }
{
    b == b' ' || b == b'\t' || b == b'\r' || b == b'\n'
}

// Whether a byte may stand in a name: C's letters, digits and underscore (C11 6.4.2.1).
fn is_in_names(b: u8) -> bool
    ensures { result ≡ is_name_byte b }
{
    b'a' <= b && b <= b'z' || b'A' <= b && b <= b'Z' || b'0' <= b && b <= b'9' || b == b'_'
}

/// Whether two bytes that stand side by side are in one word.
pub fn join(b: u8, next: u8) -> bool
    ensures { result ≡ joins b next }
{
    is_in_names(next) && is_in_names(b) || next == b'=' && b == b'='
}
