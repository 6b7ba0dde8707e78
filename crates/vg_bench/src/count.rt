//! Reading the word that says how often.
ghost use Rattle.std.specs.Prelude.{◌≤◌, IfSome};

/// The highest count.
pub const MAX_COUNT: u32 = 1_000_000_000;

/// The count that a word spells in decimal, without a sign and without leading zeros. None where it spells none, or one
/// above `MAX_COUNT`.
pub fn count_of(word: &str) -> Option<u32>
    ensures { IfSome result (λ count. count ≤ MAX_COUNT) }
{
    let is_plain = match word.as_bytes() {
        [b'0'] => true,
        [first, ..] => b'1' <= *first && *first <= b'9',
        [] => false,
    };
    if !is_plain {
        return None;
    }
    let count = word.parse::<u32>().ok()?;
    if count > MAX_COUNT {
        return None;
    }
    Some(count)
}

#[cfg(test)]
mod tests {
    use super::*;
    use std::test::Fail;

    #[test]
    fn plain_decimal_numbers_only(rt: HostRuntime) -> Result<(), Fail> {
        assert_eq!(rt; count_of("0"), Some(0));
        assert_eq!(rt; count_of("10"), Some(10));
        assert_eq!(rt; count_of("1000000000"), Some(1_000_000_000));
        for word in [
            "",
            "+1",
            "-1",
            "01",
            "00",
            " 1",
            "1 ",
            "1e6",
            "1_000",
            "1000000001",
            "4294967296",
        ] {
            assert_eq!(rt; count_of(word), None, "for {word}");
        }
        Ok(())
    }
}
