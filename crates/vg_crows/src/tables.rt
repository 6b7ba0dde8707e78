//! Calls that ask alone.
ghost use Rattle.std.specs.Prelude.{◌≡◌, false, List, ℕ, OnErr, Ok};
ghost use Rattle.vg_cmemory.specs.State as memory;
ghost use Rattle.vg_abs.specs.Library.{IsTable};
ghost use Rattle.vg_crows.specs.Rows.{perform};
ghost use Rattle.vg_crows.specs.declared.request.Request.TheVariants as requests;
ghost use Rattle.vg_crows.specs.Record.{Record};
ghost use Rattle.vg_crows.specs.Views.{CellsAreThere, NamesMap, SameLent, beside, gives, is_untold, seen};

use crate::answer::{Answer, Stop};
use crate::book::Book;
use crate::request::Handle;
use crate::stored::answer_stored;
use vg_abs::Lib;
use vg_cmemory::{FrameMemory, Pointer};

/// `map_size`
pub fn map_size<L: Lib>(lib: &L, map: Handle) -> Answer
    requires told { (L.library lib.now).missed ≡ false }
    requires map { NamesMap (L.library lib.now) map }
    ensures { (choices : List ℕ) (own : memory.State) (book : Record)
        → gives (Ok result) (beside own (L.library lib.now) book) ≡ perform choices (beside own (L.library lib.now) book) (requests.MapSize map) }
{
    Answer::Word(lib.map_size(map.number) as u64)
}

/// `prefix_lookup`
pub fn prefix_lookup<L: Lib>(
    memory: &mut FrameMemory,
    frame: &mut [u8],
    book: &mut Book,
    lib: &mut L,
    table: Handle,
    address: u32,
    value: Pointer,
) -> Result<Answer, Stop>
    requires told { (L.library lib.old).missed ≡ false }
    requires table { IsTable (L.library lib.old) table.number }
    requires lent { SameLent (L.library lib.old) book.old }
    requires cells { CellsAreThere (L.library lib.old) book.old }
    ensures value { (choices : List ℕ) → gives result (seen memory.new frame.new (L.library lib.new) book.new)
        ≡ perform choices (seen memory.old frame.old (L.library lib.old) book.old) (requests.PrefixLookup table address value) }
    ensures lent { SameLent (L.library lib.new) book.new }
    ensures choices { (L.library lib.new).choices ≡ (L.library lib.old).choices }
    ensures missed { (L.library lib.new).missed ≡ is_untold result }
    ensures stops { OnErr result (seen memory.new frame.new (L.library lib.new) book.new ≡ seen memory.old frame.old (L.library lib.old) book.old) }
{
    let found = lib.lookup(table.number, address);
    if lib.missed() {
        return Err(Stop::Untold);
    }
    answer_stored(memory, frame, book, lib, value, 2, widened(found))
}

// The same number in 32 bits.
fn widened(found: Option<u16>) -> Option<u32>
    ensures { result ≡ found }
{
    match found {
        Some(value) => Some(value as u32),
        None => None,
    }
}
