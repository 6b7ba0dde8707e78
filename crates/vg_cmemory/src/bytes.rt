//! Bytes and words.
ghost use Rattle.std.specs.Prelude.{◌≡◌, ◌≤◌, ◌<◌, ◌+◌, ◌-◌, ◌*◌, ◌^◌, IfSome, Some, map, length, slice_set};
ghost use Rattle.vg_cmemory.specs.Access.{set, set_word, word_of, put, bytes_of_word};

// A byte before the word of the bytes behind it, so many with it.
#[tactic(auto, using(crate::proofs::Rows::joined_below, crate::proofs::Rows::fits_word, crate::proofs::Rows::fits_rest))]
fn joined(byte: u8, rest: u64, size: u32) -> u64
    requires some { 0 < size }
    requires at_most_a_word { size ≤ 8 }
    requires below { rest < 256 ^ (size - 1) }
    ensures value { result ≡ byte + 256 * rest }
    ensures below { result < 256 ^ size }
{
    byte as u64 + 256 * rest
}

/// The word of some bytes, the lowest first, where all are set.
pub fn word_of(bytes: &[Option<u8>]) -> Option<u64>
    requires at_most_a_word { length bytes.now ≤ 8 }
    ensures value { result ≡ set_word bytes.now }
    ensures below { IfSome result (λ word. word < 256 ^ length bytes.now) }
{
    match bytes {
        [] => Some(0),
        [first, rest @ ..] => {
            let byte = (*first)?;
            let word = word_of(rest)?;
            Some(joined(byte, word, rest.len() as u32 + 1))
        }
    }
}

/// The word of some bytes of the frame.
pub fn word_in_frame(bytes: &[u8]) -> u64
    requires at_most_a_word { length bytes.now ≤ 8 }
    ensures value { result ≡ word_of (map set bytes.now) }
    ensures below { result < 256 ^ length bytes.now }
{
    match bytes {
        [] => 0,
        [first, rest @ ..] => joined(*first, word_in_frame(rest), rest.len() as u32 + 1),
    }
}

#[tactic(auto, using(crate::proofs::Rows::bytes_next))]
/// Writes the low bytes of a word to as many places from one on, the lowest first. Places past the end are left out.
pub fn put(bytes: &mut Vec<Option<u8>>, at: u64, size: u32, word: u64)
    requires { at + size < 2 ^ 64 }
    ensures value { bytes.new.items ≡ put bytes.old.items at (map set (bytes_of_word size word)) }
    ensures length { length bytes.new.items ≡ length bytes.old.items }
{
    if size == 0 {
        return;
    }
    put_byte(bytes, at, (word % 256) as u8);
    put(bytes, at + 1, size - 1, word / 256)
}

/// The same in the frame.
#[tactic(auto, using(crate::proofs::Rows::bytes_next))]
pub fn put_in_frame(frame: &mut [u8], at: u64, size: u32, word: u64)
    requires { at + size < 2 ^ 64 }
    ensures value { frame.new ≡ put frame.old at (bytes_of_word size word) }
{
    if size == 0 {
        return;
    }
    put_byte_in_frame(frame, at, (word % 256) as u8);
    put_in_frame(frame, at + 1, size - 1, word / 256)
}

fn put_byte(bytes: &mut Vec<Option<u8>>, at: u64, byte: u8)
    ensures value { bytes.new.items ≡ slice_set bytes.old.items at (Some byte) }
    ensures length { length bytes.new.items ≡ length bytes.old.items }
{
    if at < bytes.len() as u64 {
        bytes[at as usize] = Some(byte);
    }
}

fn put_byte_in_frame(frame: &mut [u8], at: u64, byte: u8)
    ensures { frame.new ≡ slice_set frame.old at byte }
{
    if at < frame.len() as u64 {
        frame[at as usize] = byte;
    }
}
