//! Numbers in words.
ghost use Rattle.std.specs.Prelude.{◌≡◌, ◌≤◌, map, IfOk};
ghost use Rattle.vg_conf.specs.Numbers as numbers;

use crate::pieces::cut;
use std::alloc::Global;
use vg_parts::Memory;

// The value of a digit, and 16 where a byte is none.
fn digit_of(byte: u8) -> u8
    ensures value { result ≡ numbers.digit_of byte }
    ensures small { result ≤ 16 }
{
    match byte {
        b'0'..=b'9' => byte - b'0',
        b'a'..=b'f' => byte - b'a' + 10,
        b'A'..=b'F' => byte - b'A' + 10,
        _ => 16,
    }
}

// A number with a digit more, where that is one of the base and the number stays below 2 ^ 64.
fn with_digit(base: u8, so_far: Option<u64>, byte: u8) -> Option<u64>
    ensures { result ≡ numbers.with_digit base so_far byte }
{
    let number = so_far?;
    let digit = digit_of(byte);
    if digit >= base {
        return None;
    }
    let higher = number.checked_mul(u64::from(base))?;
    higher.checked_add(u64::from(digit))
}

// The number of a row of digits.
fn number_of(base: u8, digits: &[u8]) -> Option<u64>
    ensures { result ≡ numbers.number_of base digits.now }
{
    let mut number = Some(0);
    for byte in digits {
        number = with_digit(base, number, *byte);
    }
    number
}

/// The number that a word writes in decimal, without leading zeros.
pub fn decimal_in(word: &[u8]) -> Option<u64>
    ensures { result ≡ numbers.decimal_in word.now }
{
    match word {
        [] => None,
        [b'0', _, ..] => None,
        _ => number_of(10, word),
    }
}

// The number that a word writes in hexadecimal, behind `0x`.
fn hexadecimal_in(word: &[u8]) -> Option<u64>
    ensures { result ≡ numbers.hexadecimal_in word.now }
{
    match word {
        [b'0', b'x', digits @ ..] if !digits.is_empty() => number_of(16, digits),
        _ => None,
    }
}

// An address with a part more.
fn with_part(address: Option<u32>, part: &[u8]) -> Option<u32>
    ensures { result ≡ numbers.with_part address part.now }
{
    let before = address?;
    let byte = decimal_in(part)?;
    if byte >= 256 {
        return None;
    }
    let higher = before.checked_mul(256)?;
    higher.checked_add(byte as u32)
}

// An IPv4 address, by its four parts.
fn address_by(parts: &[&[u8]]) -> Option<u32>
    ensures { result ≡ numbers.address_by (map (λ part. part.now) parts.now) }
{
    if parts.len() != 4 {
        return None;
    }
    let mut address = Some(0);
    for part in parts {
        address = with_part(address, part);
    }
    address
}

/// The IPv4 address that a word writes: four decimal numbers below 256 with dots between.
pub fn address_in(alloc: Global, word: &[u8]) -> Result<Option<u32>, Memory>
    ensures { IfOk result (λ found. found ≡ numbers.address_in word.now) }
{
    let parts = cut(alloc, b'.', word)?;
    Ok(address_by(&parts))
}

/// The number that a word writes, in any of the three forms.
pub fn number_in(alloc: Global, word: &[u8]) -> Result<Option<u64>, Memory>
    ensures { IfOk result (λ found. found ≡ numbers.number_in word.now) }
{
    if let Some(number) = decimal_in(word) {
        return Ok(Some(number));
    }
    if let Some(number) = hexadecimal_in(word) {
        return Ok(Some(number));
    }
    Ok(address_in(alloc, word)?.map(u64::from))
}
