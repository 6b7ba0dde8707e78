//! Building a table from a list of routes.
ghost use Rattle.std.specs.Prelude.{◌≡◌, ◌+◌, ◌*◌, ◌^◌, ◌<◌, ◌≤◌, ℕ, All, IfOk, OnOk, length, vec_len};
ghost use Rattle.vg_lpm.specs.Table.{walk, IsTable, IsTableOf};
ghost use Rattle.vg_lpm.specs.Building.{passed};

use crate::inserting::insert;
use crate::levels::Levels;
use std::alloc::Global;
use vg_parts::Memory;
use vg_stree::Route;

// How many values 16 bits have.
const ENTRIES: usize = 1 << 16;

// How many lengths a prefix may have: 0 to 32.
const LENGTHS: u8 = 33;

// A table without routes.
fn blank(alloc: Global) -> Result<Levels, Memory>
    ensures table { IfOk result (λ levels. IsTable levels.first.items levels.second.items levels.third.items) }
    ensures second { IfOk result (λ levels. vec_len levels.second ≡ 0) }
    ensures third { IfOk result (λ levels. vec_len levels.third ≡ 0) }
    ensures empty { IfOk result (λ levels. (address : ℕ) → walk levels.first.items levels.second.items levels.third.items address ≡ 0) }
{
    let mut first = Vec::new(alloc);
    let Ok(()) = first.resize(ENTRIES, 0) else {
        return Err(Memory);
    };
    Ok(Levels {
        first,
        second: Vec::new(alloc),
        third: Vec::new(alloc),
    })
}

// Inserts the routes of one length, in order, so that the later of two equal ones replaces the earlier.
fn insert_all(levels: &mut Levels, routes: &[Route], len: u8) -> Result<(), Memory>
    requires count { length routes.now ≤ 2 ^ 16 }
    requires length { len ≤ 32 }
    requires table { IsTable levels.old.first.items levels.old.second.items levels.old.third.items }
    requires second_room { vec_len levels.old.second ≤ 2 ^ 24 * len }
    requires third_room { vec_len levels.old.third ≤ 2 ^ 24 * len }
    ensures table { OnOk result (IsTable levels.new.first.items levels.new.second.items levels.new.third.items) }
    ensures second_room { OnOk result (vec_len levels.new.second ≤ 2 ^ 24 * (len + 1)) }
    ensures third_room { OnOk result (vec_len levels.new.third ≤ 2 ^ 24 * (len + 1)) }
    ensures passed { OnOk result ((address : ℕ) → address < 2 ^ 32 →
        walk levels.new.first.items levels.new.second.items levels.new.third.items address
        ≡ passed len routes.now address (walk levels.old.first.items levels.old.second.items levels.old.third.items address)) }
{
    for route in routes {
        if route.len == len {
            insert(levels, route)?;
        }
    }
    Ok(())
}

/// The table of a list of routes. It is built with one pass for each length, so that a longer prefix comes after a shorter.
pub fn built(alloc: Global, routes: &[Route]) -> Result<Levels, Memory>
    requires count { length routes.now ≤ 2 ^ 16 }
    requires lengths { All (λ route. route.len ≤ 32) routes.now }
    ensures { IfOk result (λ levels. IsTableOf routes.now levels.first.items levels.second.items levels.third.items) }
{
    let mut levels = blank(alloc)?;
    for len in 0..LENGTHS {
        insert_all(&mut levels, routes, len)?;
    }
    Ok(levels)
}
