//! Numbers: the values of words.
ghost use Rattle.std.specs.Prelude.{◌≡◌, ◌<◌, ◌≤◌, length};
ghost use Rattle.std.specs.List.{prefix_len};
ghost use Rattle.vg_stok.specs.Numbers.{digit_of, is_digit_in, value_on, base_of, digits_of, leads_with_zero, is_number, held, number_of};

// The value of a digit, up to 15; of any other byte 16.
fn digit_of(b: u8) -> u8
    ensures { result ≡ digit_of b }
{
    match b {
        b'0'..=b'9' => b - b'0',
        b'a'..=b'f' => b - b'a' + 10,
        b'A'..=b'F' => b - b'A' + 10,
        _ => 16,
    }
}

// How many digits of a base a text begins with.
fn digit_len(base: u8, text: &[u8]) -> usize
    ensures { result ≡ prefix_len (is_digit_in base) text.now }
{
    text.iter().take_while(|b| digit_of(**b) < base).count()
}

// The value of digits, unless it is 2^64 or more.
fn value_of(base: u8, digits: &[u8]) -> Option<u64>
    requires { 0 < base }
    ensures { result ≡ held (value_on base 0 digits.now) }
{
    let mut value: u64 = 0;
    for b in digits {
        let shifted = value.checked_mul(u64::from(base))?;
        value = shifted.checked_add(u64::from(digit_of(*b)))?;
    }
    Some(value)
}

// The base of a number by its first bytes.
fn base_of(word: &[u8]) -> u8
    ensures base { result ≡ base_of word.now }
    ensures some { 0 < result }
{
    if word.starts_with(b"0x") { 16 } else { 10 }
}

// The digits of a number.
fn digits_of(word: &[u8]) -> &[u8]
    ensures { result.now ≡ digits_of word.now }
{
    if !word.starts_with(b"0x") {
        return word;
    }
    let (_, rest) = word.split_at(2);
    rest
}

// Whether a decimal word has a zero before other digits.
fn leads_with_zero(word: &[u8]) -> bool
    ensures { result ≡ leads_with_zero word.now }
{
    base_of(word) == 10 && word.starts_with(b"0") && word.len() > 1
}

// Whether a word is digits, one at least, without a leading zero.
fn is_number(word: &[u8]) -> bool
    ensures { result ≡ is_number word.now }
{
    let digits = digits_of(word);
    digits.len() > 0 && digit_len(base_of(word), digits) == digits.len() && !leads_with_zero(word)
}

/// The number that a word is: decimal digits without a leading zero, or hexadecimal digits behind `0x`, of a value below 2^64.
pub fn number_of(word: &[u8]) -> Option<u64>
    ensures { result ≡ number_of word.now }
{
    if !is_number(word) {
        return None;
    }
    value_of(base_of(word), digits_of(word))
}
