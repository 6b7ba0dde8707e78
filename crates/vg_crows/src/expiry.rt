//! `expire_items`.
ghost use Rattle.std.specs.Prelude.{◌≡◌, ◌+◌, ◌==◌, ◌&&◌, false, List, ℕ, IfOk, Some};
ghost use Rattle.std.specs.List.{list_any};
ghost use Rattle.vg_cmemory.specs.State as memory;
ghost use Rattle.vg_abs.specs.Rows as library;
ghost use Rattle.vg_abs.specs.Library.{Library};
ghost use Rattle.vg_crows.specs.Rows.{decided, meets_numbers, perform};
ghost use Rattle.vg_crows.specs.Record.{so_far};
ghost use Rattle.vg_crows.specs.declared.request.Request.TheVariants as requests;
ghost use Rattle.vg_crows.specs.Views.{IsTiedUnlessChanged, NamesMap, SameLent, StopsWith, beside, gives, is_untold};

use crate::answer::{Answer, Stop};
use crate::book::Book;
use crate::needs::decided;
use crate::request::Handle;
use vg_abs::Lib;

fn needs_one_link(map: Handle, chain: Handle, vector: Handle) -> Result<(), Stop>
    ensures { result ≡ decided 12 (Some ((chain.number == map.number + 1) && (vector.number == map.number + 2))) }
{
    let map = map.number as u32;
    decided(
        12,
        chain.number as u32 == map + 1 && vector.number as u32 == map + 2,
    )
}

fn expire_needs(book: &Book, map: Handle, chain: Handle, vector: Handle) -> Result<(), Stop>
    ensures value { (own : memory.State) (l : Library) (before : ℕ) → result ≡ meets_numbers (beside own l book.now)
        (library.ExpireItems map.number chain.number vector.number before) }
    ensures told { is_untold result ≡ false }
{
    let is_changed = book.is_changed(map.number);
    let is_lent = book.is_any_lent(vector.number);
    needs_one_link(map, chain, vector)?;
    decided(12, !is_changed)?;
    decided(12, !is_lent)
}

/// `expire_items`. A link that wasn't changed is as it came, which gives an expiry what it needs.
pub fn expire_items<L: Lib>(
    book: &mut Book,
    lib: &mut L,
    map: Handle,
    chain: Handle,
    vector: Handle,
    before: u64,
) -> Result<Answer, Stop>
    requires told { (L.library lib.old).missed ≡ false }
    requires map { NamesMap (L.library lib.old) map }
    requires lent { SameLent (L.library lib.old) book.old }
    requires tied { IsTiedUnlessChanged (L.library lib.old) book.old map.number }
    ensures value { (choices : List ℕ) (own : memory.State)
        → gives result (beside own (L.library lib.new) book.new) ≡ perform choices (beside own (L.library lib.old) book.old)
        (requests.ExpireItems map chain vector before) }
    ensures stops { StopsWith result (L.library lib.old) (L.library lib.new) book.old book.new }
    ensures lent { SameLent (L.library lib.new) book.new }
    ensures choices { (L.library lib.new).choices ≡ (L.library lib.old).choices }
    ensures missed { (L.library lib.new).missed ≡ is_untold result }
{
    expire_needs(book, map, chain, vector)?;
    let count = lib.expire(map.number, before);
    if lib.missed() {
        return Err(Stop::Untold);
    }
    book.mark(map.number);
    Ok(Answer::Word(count as u64))
}
