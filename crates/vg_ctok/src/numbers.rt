//! Numbers: the values and types of words (C11 6.4.4.1).
ghost use Rattle.std.specs.Prelude.{◌≡◌, ◌<◌, ◌≤◌, ◌^◌, length, nat_lt, if◌then◌else◌};
ghost use Rattle.std.specs.List.{prefix_len};
ghost use Rattle.vg_ctok.specs.Numbers.{digit_of, is_digit_in, value_on, base_of, behind_base, types_of, limit_of, first_typed, typed, number_of};
ghost use Rattle.vg_ctok.specs.Numbers.{is_exponent, is_plus_or_minus, takes_sign, number_before};

use crate::bytes::is_digit;
use crate::kinds::{Number, NumberType};
use crate::tables::{Suffix, row_of, suffix_rows};

// The value of a digit, up to 15; of any other byte 16.
fn digit_of(b: u8) -> u8
    ensures { result ≡ digit_of b }
{
    match b {
        b'0'..=b'9' => b - b'0',
        b'a'..=b'f' => b - b'a' + 10,
        b'A'..=b'F' => b - b'A' + 10,
        _ => 16,
    }
}

// How many digits of a base a text begins with.
#[tactic(auto, using(crate::proofs::Lens::prefix_within))]
fn digit_len(base: u8, text: &[u8]) -> usize
    ensures len { result ≡ prefix_len (is_digit_in base) text.now }
    ensures within { result ≤ length text.now }
{
    text.iter().take_while(|b| digit_of(**b) < base).count()
}

// The value of digits, unless it is 2^64 or more.
fn value_of(base: u8, digits: &[u8]) -> Option<u64>
    requires { 0 < base }
    ensures { result ≡ (if nat_lt (value_on base 0 digits.now) (2 ^ 64) then Some (value_on base 0 digits.now) else None) }
{
    let mut value: u64 = 0;
    for b in digits {
        let shifted = value.checked_mul(u64::from(base))?;
        value = shifted.checked_add(u64::from(digit_of(*b)))?;
    }
    Some(value)
}

// The base of a number by its first bytes.
fn base_of(word: &[u8]) -> u8
    ensures { result ≡ base_of word.now }
{
    if word.starts_with(b"0x") || word.starts_with(b"0X") {
        16
    } else if word.starts_with(b"0") {
        8
    } else {
        10
    }
}

// The types that a number may have, the first that holds its value before the others.
fn types_of(base: u8, suffix: Suffix) -> &'static [NumberType]
    ensures { result.now ≡ types_of base suffix }
{
    let decimal = base == 10;
    match suffix {
        Suffix::Plain if decimal => &[NumberType::Int, NumberType::Int64],
        Suffix::Plain => &[
            NumberType::Int,
            NumberType::Uint32,
            NumberType::Int64,
            NumberType::Uint64,
        ],
        Suffix::Unsigned => &[NumberType::Uint32, NumberType::Uint64],
        Suffix::Long if decimal => &[NumberType::Int64],
        Suffix::Long => &[NumberType::Int64, NumberType::Uint64],
        Suffix::UnsignedLong => &[NumberType::Uint64],
    }
}

// Whether a type holds a value.
fn holds(of: NumberType, value: u64) -> bool
    ensures { result ≡ nat_lt value (limit_of of) }
{
    match of {
        NumberType::Int => value < 1 << 31,
        NumberType::Uint32 => value < 1 << 32,
        NumberType::Int64 => value < 1 << 63,
        NumberType::Uint64 => true,
    }
}

// A value with the first of these types that holds it.
fn first_typed(types: &[NumberType], value: u64) -> Option<Number>
    ensures { result ≡ first_typed types.now value }
{
    for of in types {
        if holds(*of, value) {
            return Some(Number { value, of: *of });
        }
    }
    None
}

// What stands behind the sign of base 16; in the other bases that is the whole word.
fn behind_base(word: &[u8]) -> &[u8]
    ensures { result.now ≡ behind_base word.now }
{
    if base_of(word) != 16 {
        return word;
    }
    let (_, rest) = word.split_at(2);
    rest
}

// The number that digits of a base and a suffix spell.
fn typed(base: u8, digits: &[u8], suffix: Option<Suffix>) -> Option<Number>
    requires { 0 < base }
    ensures { result ≡ typed base digits.now suffix }
{
    let suffix = suffix?;
    if digits.is_empty() {
        return None;
    }
    match value_of(base, digits) {
        Some(value) => first_typed(types_of(base, suffix), value),
        None => None,
    }
}

/// The number that a word is: the sign of a base, digits of that base, and a suffix.
pub fn number_of(word: &[u8]) -> Option<Number>
    ensures { result ≡ number_of word.now }
{
    let base = base_of(word);
    let rest = behind_base(word);
    let (digits, suffix) = rest.split_at(digit_len(base, rest));
    typed(base, digits, row_of(suffix_rows(), suffix))
}

// Whether a byte is an exponent's letter.
fn is_exponent(b: u8) -> bool
    ensures { result ≡ is_exponent b }
{
    b == b'e' || b == b'E' || b == b'p' || b == b'P'
}

// Whether the last byte of a word and the next byte of its text are an exponent's letter and its sign.
fn takes_sign(last: Option<u8>, next: Option<u8>) -> bool
    ensures { result ≡ takes_sign last next }
{
    match (last, next) {
        (Some(last), Some(next)) => is_exponent(last) && (next == b'+' || next == b'-'),
        _ => false,
    }
}

/// The number that a word is before the next byte of its text. `0xe` before `+` is none: C reads both as one preprocessing
/// number (C11 6.4.8).
pub fn number_before(word: &[u8], next: Option<u8>) -> Option<Number>
    ensures { result ≡ number_before word.now next }
{
    if takes_sign(word.last().copied(), next) {
        return None;
    }
    number_of(word)
}
