//! Numbers in words.
ghost use Rattle.std.specs.Prelude.{◌≡◌, ◌≢◌, ◌≤◌, ◌↔◌, ◌⊎◌, ℕ, ◌<◌, ◌^◌, IsTrue, IfSome, IfNone, decimal, length, slice_index};
ghost use Rattle.vg_command.specs.Reading.{BeginsAmiss};

// Whether a word begins with a plus sign, or with a zero and goes on: `parse` reads both.
fn begins_amiss(word: &[u8]) -> bool
    ensures { IsTrue result ↔ BeginsAmiss word.now }
{
    matches!(word, [b'+', ..] | [b'0', _, ..])
}

/// The number below 2^64 that a word writes: in decimal digits, without leading zeros.
pub fn number_in(word: &str) -> Option<u64>
    ensures written { IfSome result (λ n. word.now ≡ decimal n) }
    ensures below { IfSome result (λ n. n < 2 ^ 64) }
    ensures none { IfNone result ((n : ℕ) → n < 2 ^ 64 → word.now ≢ decimal n) }
{
    if begins_amiss(word.as_bytes()) {
        return None;
    }
    match word.parse::<u64>() {
        Ok(n) => Some(n),
        Err(_) => None,
    }
}

/// The number of 1 to `most` that a word writes.
pub fn count_in(word: &str, most: u32) -> Option<u32>
    ensures written { IfSome result (λ n. word.now ≡ decimal n) }
    ensures least { IfSome result (λ n. 1 ≤ n) }
    ensures most { IfSome result (λ n. n ≤ most) }
    ensures none { IfNone result ((n : ℕ) → 1 ≤ n → n ≤ most → word.now ≢ decimal n) }
{
    let n = number_in(word)?;
    if 1 <= n && n <= u64::from(most) {
        Some(n as u32)
    } else {
        None
    }
}
