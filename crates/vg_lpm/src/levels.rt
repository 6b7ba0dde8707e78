//! The levels of a table while it is built.
ghost use Rattle.std.specs.Prelude.{◌≡◌, ◌+◌, ◌*◌, ◌/◌, ◌%◌, ◌^◌, ◌<◌, ◌≤◌, ℕ, All, IfOk, length, vec_len, slice_index};
ghost use Rattle.vg_lpm.specs.Table.{link, AreLinks};
ghost use Rattle.vg_lpm.specs.Building.{Fills, Opens};

use crate::entry::{Entry, entry_of, link_to};
use vg_parts::Memory;

/// How many entries a block has.
pub const BLOCK: usize = 256;

/// The words of the three levels.
#[derive(Drop)]
pub struct Levels {
    /// For the upper 16 bits of an address.
    pub first: Vec<u32>,
    /// Blocks for the next 8 bits.
    pub second: Vec<u32>,
    /// Blocks for the last 8 bits.
    pub third: Vec<u32>,
}

/// Puts a word into the entries whose index has the same bits as `place`, all but the lowest `free`.
pub fn fill(entries: &mut Vec<u32>, place: usize, free: u32, word: u32)
    requires free { free ≤ 16 }
    requires within { place / 2 ^ free * 2 ^ free + 2 ^ free ≤ vec_len entries.old }
    ensures { Fills entries.old.items entries.new.items place free word }
{
    let start = place >> free << free;
    for i in start..start + (1 << free) {
        entries[i] = word;
    }
}

/// Makes an entry a link, if it isn't one: to a new block that holds its word everywhere. Answers the block.
pub fn open(upper: &mut Vec<u32>, at: usize, lower: &mut Vec<u32>) -> Result<u32, Memory>
    requires within { at < vec_len upper.old }
    requires links { AreLinks upper.old.items lower.old.items }
    requires room { vec_len lower.old < 2 ^ 30 }
    ensures { IfOk result (Opens upper.old.items lower.old.items upper.new.items lower.new.items at) }
{
    let word = upper[at];
    match entry_of(word) {
        Entry::Link(block) => Ok(block),
        Entry::Leaf(_) => {
            let block = (lower.len() / BLOCK) as u32;
            let Ok(()) = lower.resize(lower.len() + BLOCK, word) else {
                return Err(Memory);
            };
            upper[at] = link_to(block);
            Ok(block)
        }
    }
}
