//! Numbers in words.
ghost use Rattle.std.specs.Prelude.{◌≡◌};
ghost use Rattle.vg_small.specs.Reader.{number_of, number_on};

/// The number that a word is: decimal digits with no leading zero, below 2^16.
pub fn number_in(word: &[u8]) -> Option<u16>
    ensures { result ≡ number_of word.now }
{
    match word {
        [] => None,
        [b'0', _, ..] => None,
        _ => number_from(word),
    }
}

// The number of a row of digits, below 2^16.
fn number_from(word: &[u8]) -> Option<u16>
    ensures { result ≡ number_on 0 word.now }
{
    let mut value: u32 = 0;
    for b in word {
        if *b < b'0' || *b > b'9' {
            return None;
        }
        value = value * 10 + u32::from(*b - b'0');
        if value >= 65536 {
            return None;
        }
    }
    Some(value as u16)
}
