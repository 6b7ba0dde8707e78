//! Calls with a key, which stands in memory.
ghost use Rattle.std.specs.Prelude.{◌≡◌, ◌<◌, ◌≤◌, ◌^◌, [], false, OnErr, length, List, ℕ};
ghost use Rattle.vg_abs.specs.State.{link_of_map};
ghost use Rattle.vg_crows.specs.State.{or_wrong};
ghost use Rattle.vg_crows.specs.Access as accesses;
ghost use Rattle.vg_crows.specs.Views.{CellsAreThere, NamesMap, SameLent, StopsWith, beside, gives, is_untold, seen, with_value};
ghost use Rattle.vg_crows.specs.Rows.{meets_numbers, perform};
ghost use Rattle.vg_abs.specs.Rows as library;
ghost use Rattle.vg_cmemory.specs.State as memory;
ghost use Rattle.vg_crows.specs.Record.{Record};
ghost use Rattle.vg_crows.specs.declared.request.Request.TheVariants as requests;

use crate::access::read;
use crate::answer::{Answer, Stop};
use crate::book::Book;
use crate::needs::{needs_absent, needs_below, needs_present};
use crate::request::Handle;
use crate::stored::answer_stored;
use vg_abs::Lib;
use vg_cmemory::{FrameMemory, Pointer};

/// `map_get`
pub fn map_get<L: Lib>(
    memory: &mut FrameMemory,
    frame: &mut [u8],
    book: &mut Book,
    lib: &mut L,
    map: Handle,
    key: Pointer,
    index: Pointer,
) -> Result<Answer, Stop>
    requires told { (L.library lib.old).missed ≡ false }
    requires map { NamesMap (L.library lib.old) map }
    requires lent { SameLent (L.library lib.old) book.old }
    requires cells { CellsAreThere (L.library lib.old) book.old }
    ensures value { (choices : List ℕ) → gives result (seen memory.new frame.new (L.library lib.new) book.new)
        ≡ perform choices (seen memory.old frame.old (L.library lib.old) book.old) (requests.MapGet map key index) }
    ensures lent { SameLent (L.library lib.new) book.new }
    ensures choices { (L.library lib.new).choices ≡ (L.library lib.old).choices }
    ensures missed { (L.library lib.new).missed ≡ is_untold result }
    ensures stops { OnErr result (seen memory.new frame.new (L.library lib.new) book.new ≡ seen memory.old frame.old (L.library lib.old) book.old) }
{
    let mut room = [0; 64];
    let bytes = &mut room[..map.key_length as usize];
    read_key(memory, frame, book, lib, map, key, bytes)?;
    let found = lib.map_get(map.number, bytes);
    if lib.missed() {
        return Err(Stop::Untold);
    }
    answer_stored(memory, frame, book, lib, index, 4, found)
}

/// `map_erase`
pub fn map_erase<L: Lib>(
    memory: &FrameMemory,
    frame: &[u8],
    book: &mut Book,
    lib: &mut L,
    map: Handle,
    key: Pointer,
) -> Result<Answer, Stop>
    requires told { (L.library lib.old).missed ≡ false }
    requires map { NamesMap (L.library lib.old) map }
    requires lent { SameLent (L.library lib.old) book.old }
    requires cells { CellsAreThere (L.library lib.old) book.old }
    ensures value { (choices : List ℕ) → gives result (seen memory.now frame.now (L.library lib.new) book.new)
        ≡ perform choices (seen memory.now frame.now (L.library lib.old) book.old) (requests.MapErase map key) }
    ensures stops { StopsWith result (L.library lib.old) (L.library lib.new) book.old book.new }
    ensures lent { SameLent (L.library lib.new) book.new }
    ensures choices { (L.library lib.new).choices ≡ (L.library lib.old).choices }
    ensures missed { (L.library lib.new).missed ≡ is_untold result }
{
    let mut room = [0; 64];
    let bytes = &mut room[..map.key_length as usize];
    read_key(memory, frame, book, lib, map, key, bytes)?;
    needs_present(lib, 6, map, bytes)?;
    lib.map_erase(map.number, bytes);
    book.mark(map.number);
    Ok(Answer::Nothing)
}

fn put_needs<L: Lib>(lib: &L, map: Handle, index: u32) -> Result<(), Stop>
    requires told { (L.library lib.now).missed ≡ false }
    requires map { NamesMap (L.library lib.now) map }
    ensures value { (own : memory.State) (book : Record)
        → result ≡ meets_numbers (beside own (L.library lib.now) book) (library.MapPut map.number [] index) }
    ensures told { is_untold result ≡ false }
{
    needs_below(5, lib.map_size(map.number), map.count)?;
    needs_below(5, index, map.count)
}

/// `map_put`
pub fn map_put<L: Lib>(
    memory: &FrameMemory,
    frame: &[u8],
    book: &mut Book,
    lib: &mut L,
    map: Handle,
    key: Pointer,
    index: u32,
) -> Result<Answer, Stop>
    requires told { (L.library lib.old).missed ≡ false }
    requires map { NamesMap (L.library lib.old) map }
    requires lent { SameLent (L.library lib.old) book.old }
    requires cells { CellsAreThere (L.library lib.old) book.old }
    ensures value { (choices : List ℕ) → gives result (seen memory.now frame.now (L.library lib.new) book.new)
        ≡ perform choices (seen memory.now frame.now (L.library lib.old) book.old) (requests.MapPut map key index) }
    ensures stops { StopsWith result (L.library lib.old) (L.library lib.new) book.old book.new }
    ensures lent { SameLent (L.library lib.new) book.new }
    ensures choices { (L.library lib.new).choices ≡ (L.library lib.old).choices }
    ensures missed { (L.library lib.new).missed ≡ is_untold result }
{
    put_needs(lib, map, index)?;
    let mut room = [0; 64];
    let bytes = &mut room[..map.key_length as usize];
    read_key(memory, frame, book, lib, map, key, bytes)?;
    needs_absent(lib, 5, map, bytes)?;
    lib.map_put(map.number, bytes, index);
    book.mark(map.number);
    Ok(Answer::Nothing)
}

// The bytes of a key.
fn read_key<L: Lib>(
    memory: &FrameMemory,
    frame: &[u8],
    book: &Book,
    lib: &L,
    map: Handle,
    key: Pointer,
    into: &mut [u8],
) -> Result<(), Stop>
    requires map { NamesMap (L.library lib.now) map }
    requires as_many { length into.old ≡ map.key_length }
    requires told { (L.library lib.now).missed ≡ false }
    requires lent { SameLent (L.library lib.now) book.now }
    requires cells { CellsAreThere (L.library lib.now) book.now }
    ensures value { with_value result into.new ≡ or_wrong (accesses.bytes_behind
        (seen memory.now frame.now (L.library lib.now) book.now) key (link_of_map (L.library lib.now).state map.number).key_length) }
    ensures length { length into.new ≡ length into.old }
{
    match read(memory, frame, book, lib, key, into) {
        Ok(()) => Ok(()),
        Err(reason) => Err(Stop::Wrong(reason)),
    }
}
