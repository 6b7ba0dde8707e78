//! Inserting a route into a table.
ghost use Rattle.std.specs.Prelude.{◌≡◌, ◌+◌, ◌*◌, ◌/◌, ◌%◌, ◌^◌, ◌<◌, ◌≤◌, ℕ, IfOk, OnOk, vec_len};
ghost use Rattle.vg_lpm.specs.Table.{walk, IsTable};
ghost use Rattle.vg_lpm.specs.Building.{taken};

use crate::entry::leaf_with;
use crate::levels::{BLOCK, Levels, fill, open};
use vg_parts::Memory;
use vg_stree::Route;

// The place of an entry: the lowest 8 bits choose it within its block.
fn place(block: u32, bits: u32) -> usize
    ensures { result ≡ block * 256 + bits % 256 }
{
    block as usize * BLOCK + bits as usize % BLOCK
}

/// Makes each address that the route matches lead to its value, and leaves all others.
pub fn insert(levels: &mut Levels, route: &Route) -> Result<(), Memory>
    requires length { route.now.len ≤ 32 }
    requires table { IsTable levels.old.first.items levels.old.second.items levels.old.third.items }
    requires second_room { vec_len levels.old.second < 2 ^ 30 }
    requires third_room { vec_len levels.old.third < 2 ^ 30 }
    ensures table { OnOk result (IsTable levels.new.first.items levels.new.second.items levels.new.third.items) }
    ensures second_room { OnOk result (vec_len levels.new.second ≤ vec_len levels.old.second + 256) }
    ensures third_room { OnOk result (vec_len levels.new.third ≤ vec_len levels.old.third + 256) }
    ensures taken { OnOk result ((address : ℕ) → address < 2 ^ 32 →
        walk levels.new.first.items levels.new.second.items levels.new.third.items address
        ≡ taken route.now address (walk levels.old.first.items levels.old.second.items levels.old.third.items address)) }
{
    let word = leaf_with(route.value);
    let len = u32::from(route.len);
    let at = (route.address >> 16) as usize;
    if len <= 16 {
        fill(&mut levels.first, at, 16 - len, word);
        return Ok(());
    }
    let block = open(&mut levels.first, at, &mut levels.second)?;
    let at = place(block, route.address >> 8);
    if len <= 24 {
        fill(&mut levels.second, at, 24 - len, word);
        return Ok(());
    }
    let block = open(&mut levels.second, at, &mut levels.third)?;
    fill(
        &mut levels.third,
        place(block, route.address),
        32 - len,
        word,
    );
    Ok(())
}
