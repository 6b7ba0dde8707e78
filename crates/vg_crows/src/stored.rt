//! Answers that are stored through a pointer.
ghost use Rattle.std.specs.Prelude.{◌≡◌, ◌≤◌, ◌<◌, false, Some, None, OnErr};
ghost use Rattle.vg_crows.specs.Rows.{answered, may_write, target};
ghost use Rattle.vg_crows.specs.Views.{CellsAreThere, SameLent, seen, gives, yes_of, is_untold};

use crate::access::against_write;
use crate::answer::{Answer, Stop};
use crate::book::Book;
use crate::storing::store;
use vg_abs::Lib;
use vg_cmemory::{FrameMemory, Pointer};
use vg_core::Reason;

/// What comes of the store of an answer.
pub(crate) fn yes(stored: Result<(), Reason>) -> Result<Answer, Stop>
    ensures { result ≡ yes_of stored }
{
    match stored {
        Ok(()) => Ok(Answer::Word(1)),
        Err(reason) => Err(Stop::Wrong(reason)),
    }
}

/// Whether an answer of so many bytes may be stored.
pub(crate) fn may_store<L: Lib>(
    memory: &FrameMemory,
    frame: &[u8],
    book: &Book,
    lib: &L,
    place: Pointer,
    size: u32,
) -> Result<(), Stop>
    requires some { 0 < size }
    requires told { (L.library lib.now).missed ≡ false }
    requires lent { SameLent (L.library lib.now) book.now }
    requires cells { CellsAreThere (L.library lib.now) book.now }
    ensures { result ≡ may_write (seen memory.now frame.now (L.library lib.now) book.now) place size }
{
    match against_write(memory, frame, book, lib, place, None, size, size) {
        Ok(()) => Ok(()),
        Err(reason) => Err(Stop::Wrong(reason)),
    }
}

/// What a question answers: 1 where it has something, which is stored in so many bytes, and else 0.
pub fn answer_stored<L: Lib>(
    memory: &mut FrameMemory,
    frame: &mut [u8],
    book: &mut Book,
    lib: &mut L,
    place: Pointer,
    size: u32,
    found: Option<u32>,
) -> Result<Answer, Stop>
    requires some { 0 < size }
    requires at_most_a_word { size ≤ 8 }
    requires told { (L.library lib.old).missed ≡ false }
    requires lent { SameLent (L.library lib.old) book.old }
    requires cells { CellsAreThere (L.library lib.old) book.old }
    ensures value { gives result (seen memory.new frame.new (L.library lib.new) book.new)
        ≡ answered (seen memory.old frame.old (L.library lib.old) book.old) (target place size) found }
    ensures lent { SameLent (L.library lib.new) book.new }
    ensures choices { (L.library lib.new).choices ≡ (L.library lib.old).choices }
    ensures missed { (L.library lib.new).missed ≡ false }
    ensures told { is_untold result ≡ false }
    ensures stops { OnErr result (seen memory.new frame.new (L.library lib.new) book.new ≡ seen memory.old frame.old (L.library lib.old) book.old) }
{
    let Some(value) = found else {
        return Ok(Answer::Word(0));
    };
    let stored = store(
        memory,
        frame,
        book,
        lib,
        place,
        None,
        size,
        size,
        value as u64,
    );
    yes(stored)
}
