//! The words of a frame, read and written as numbers.
ghost use Rattle.std.specs.Prelude.{◌≡◌, ◌+◌, ◌<◌, ◌≤◌, ◌^◌, length, reverse, slice_get, slice_set, unwrap_or};
ghost use Rattle.vg_abs.specs.Fields.{number_from_high, low_bytes};
ghost use Rattle.vg_smean.specs.FrameWords as words;

use vg_stree::FrameWord;

// The byte at a place; 0 past the end.
fn byte_at(frame: &[u8], place: u64) -> u64
    ensures byte { result ≡ unwrap_or (slice_get frame.now place) 0 }
    ensures small { result < 2 ^ 8 }
{
    u64::from(frame.get(place as usize).copied().unwrap_or(0))
}

// The number of two bytes.
fn pair_at(frame: &[u8], place: u64) -> u64
    requires { place + 1 < 2 ^ 64 }
    ensures number { result ≡ number_from_high (words.bytes_from frame.now place 2) }
    ensures small { result < 2 ^ 16 }
{
    byte_at(frame, place) * 256 + byte_at(frame, place + 1)
}

// The number of four bytes.
fn four_at(frame: &[u8], place: u64) -> u64
    requires { place + 3 < 2 ^ 64 }
    ensures number { result ≡ number_from_high (words.bytes_from frame.now place 4) }
    ensures small { result < 2 ^ 32 }
{
    pair_at(frame, place) * 65_536 + pair_at(frame, place + 2)
}

// The word at a place within the frame.
fn word_inside(frame: &[u8], word: FrameWord, place: u64) -> u64
    requires { place + 7 < 2 ^ 64 }
    ensures { result ≡ words.word_at frame.now word place }
{
    match word {
        FrameWord::U8 => byte_at(frame, place),
        FrameWord::Be16 => pair_at(frame, place),
        FrameWord::Be32 => four_at(frame, place),
        FrameWord::Be48 => pair_at(frame, place) * 4_294_967_296 + four_at(frame, place + 2),
        FrameWord::Be64 => four_at(frame, place) * 4_294_967_296 + four_at(frame, place + 4),
    }
}

/// The word at a place of a frame, as a number, the highest byte first. Bytes past the frame's end read as 0.
#[tactic(auto, using(crate::proofs::WordLaws::past_end))]
pub fn word_at(frame: &[u8], word: FrameWord, place: u64) -> u64
    ensures { result ≡ words.word_at frame.now word place }
{
    if place < frame.len() as u64 {
        word_inside(frame, word, place)
    } else {
        0
    }
}

// Writes a byte, where there is one at the place.
#[tactic(auto, using(crate::proofs::WordLaws::none_set))]
fn set_byte(frame: &mut [u8], place: u64, byte: u8)
    ensures { frame.new ≡ slice_set frame.old place byte }
{
    if place < frame.len() as u64 {
        frame[place as usize] = byte;
    }
}

// Writes so many low bytes of a number from a place on, the highest first, as far as the frame goes.
#[tactic(auto, using(crate::proofs::WordLaws::none_written, crate::proofs::WordLaws::one_written))]
fn set_bytes(frame: &mut [u8], place: u64, count: u8, number: u64)
    requires { place + count < 2 ^ 64 }
    ensures { frame.new ≡ words.with_bytes_from frame.old place (reverse (low_bytes count number)) }
{
    if count > 0 {
        set_bytes(frame, place, count - 1, number / 256);
        set_byte(frame, place + u64::from(count - 1), (number % 256) as u8);
    }
}

// How many bytes a word has.
fn word_bytes(word: FrameWord) -> u8
    ensures bytes { result ≡ words.word_bytes word }
    ensures few { result ≤ 8 }
{
    match word {
        FrameWord::U8 => 1,
        FrameWord::Be16 => 2,
        FrameWord::Be32 => 4,
        FrameWord::Be48 => 6,
        FrameWord::Be64 => 8,
    }
}

/// Writes a number into the word at a place of a frame, modulo the word's size, the highest byte first. Bytes past the frame's end aren't written.
#[tactic(auto, using(crate::proofs::WordLaws::nothing_past_end))]
pub fn set_word(frame: &mut [u8], word: FrameWord, place: u64, number: u64)
    ensures { frame.new ≡ words.with_word frame.old word place number }
{
    if place < frame.len() as u64 {
        set_bytes(frame, place, word_bytes(word), number);
    }
}
