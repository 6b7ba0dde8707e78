//! What calls need.
ghost use Rattle.std.specs.Prelude.{◌≡◌, ◌<◌, Some, false, length, nat_lt, nat_le};
ghost use Rattle.vg_abs.specs.Library.{IsMap, IsChain};
ghost use Rattle.vg_abs.specs.Rows.{IsAllocated, IsAbsent, IsPresent, is_met};
ghost use Rattle.vg_crows.specs.Rows.{decided};
ghost use Rattle.vg_crows.specs.Record.{Record, so_far};
ghost use Rattle.vg_crows.specs.Views.{IsUntouched, NamesChain, NamesMap, is_untold};

use crate::answer::Stop;
use crate::request::Handle;
use vg_abs::Lib;
use vg_core::Reason;

/// What a need comes to that is met or not.
///
/// `Before`: it isn't, with the number of the call's row.
pub fn decided(row: u8, met: bool) -> Result<(), Stop>
    ensures { result ≡ decided row (Some met) }
{
    if met {
        Ok(())
    } else {
        Err(Stop::Wrong(Reason::Before(row)))
    }
}

/// An index must be below a count.
///
/// `Before`: it isn't, with the number of the call's row.
pub fn needs_below(row: u8, index: u32, count: u64) -> Result<(), Stop>
    ensures { result ≡ decided row (Some (nat_lt index count)) }
{
    decided(row, u64::from(index) < count)
}

/// A time must be no earlier than the highest that was told.
///
/// `Before`: it is, with the number of the call's row.
pub fn needs_no_earlier(row: u8, highest: u64, time: u64) -> Result<(), Stop>
    ensures { result ≡ decided row (Some (nat_le highest time)) }
{
    decided(row, highest <= time)
}

/// Fewer of something must be there than may be.
///
/// `Before`: there aren't, with the number of the call's row.
pub fn needs_fewer(row: u8, count: usize, most: usize) -> Result<(), Stop>
    ensures { result ≡ decided row (Some (nat_lt count most)) }
{
    decided(row, count < most)
}

/// An index must be allocated.
///
/// `Before`: it is free, with the number of the call's row. `Untold`: that isn't told.
pub fn needs_allocated<L: Lib>(lib: &mut L, row: u8, chain: Handle, index: u32) -> Result<(), Stop>
    requires told { (L.library lib.old).missed ≡ false }
    requires chain { NamesChain (L.library lib.old) chain }
    requires inside { index < chain.count }
    ensures value { (book : Record) → result ≡ decided row (is_met (L.library lib.old).state (so_far book) (IsAllocated chain.number index)) }
    ensures untouched { IsUntouched (L.library lib.old) (L.library lib.new) }
    ensures missed { (L.library lib.new).missed ≡ is_untold result }
{
    let is_allocated = lib.chain_is(chain.number, index);
    if lib.missed() {
        return Err(Stop::Untold);
    }
    decided(row, is_allocated)
}

/// A key must be present.
///
/// `Before`: it is absent, with the number of the call's row. `Untold`: that isn't told.
pub fn needs_present<L: Lib>(lib: &mut L, row: u8, map: Handle, key: &[u8]) -> Result<(), Stop>
    requires told { (L.library lib.old).missed ≡ false }
    requires map { NamesMap (L.library lib.old) map }
    requires key { length key.now ≡ map.key_length }
    ensures value { (book : Record) → result ≡ decided row (is_met (L.library lib.old).state (so_far book) (IsPresent map.number key.now)) }
    ensures untouched { IsUntouched (L.library lib.old) (L.library lib.new) }
    ensures missed { (L.library lib.new).missed ≡ is_untold result }
{
    let found = lib.map_get(map.number, key);
    if lib.missed() {
        return Err(Stop::Untold);
    }
    decided(row, found.is_some())
}

/// A key must be absent.
///
/// `Before`: it is present, with the number of the call's row. `Untold`: that isn't told.
pub fn needs_absent<L: Lib>(lib: &mut L, row: u8, map: Handle, key: &[u8]) -> Result<(), Stop>
    requires told { (L.library lib.old).missed ≡ false }
    requires map { NamesMap (L.library lib.old) map }
    requires key { length key.now ≡ map.key_length }
    ensures value { (book : Record) → result ≡ decided row (is_met (L.library lib.old).state (so_far book) (IsAbsent map.number key.now)) }
    ensures untouched { IsUntouched (L.library lib.old) (L.library lib.new) }
    ensures missed { (L.library lib.new).missed ≡ is_untold result }
{
    let found = lib.map_get(map.number, key);
    if lib.missed() {
        return Err(Stop::Untold);
    }
    let is_present = found.is_some();
    decided(row, !is_present)
}
