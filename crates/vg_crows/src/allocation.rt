//! `chain_allocate`.
ghost use Rattle.std.specs.Prelude.{◌≡◌, ◌≤◌, ◌<◌, ◌-◌, false, true, List, ℕ, OnErr, IfOk, Ok, None, length};
ghost use Rattle.vg_cmemory.specs.State as memory;
ghost use Rattle.vg_abs.specs.Rows as library;
ghost use Rattle.vg_abs.specs.Library.{Meets};
ghost use Rattle.vg_crows.specs.Rows.{may_write, meets_numbers, perform, after_place, target, choice_of, done};
ghost use Rattle.vg_crows.specs.Record.{Record};
ghost use Rattle.vg_crows.specs.declared.request.Request.TheVariants as requests;
ghost use Rattle.vg_crows.specs.Views.{CellsAreThere, Guides, NamesChain, SameLent, StopsWithState, beside, gives, is_untold, seen};

use crate::answer::{Answer, Stop};
use crate::book::Book;
use crate::needs::{needs_fewer, needs_no_earlier};
use crate::request::Handle;
use crate::stored::{may_store, yes};
use crate::storing::store;
use vg_abs::Lib;
use vg_cmemory::{FrameMemory, Pointer};

const MOST_HANDED: usize = 64;

fn allocate_needs<L: Lib>(book: &Book, lib: &L, chain: Handle, time: u64) -> Result<(), Stop>
    requires told { (L.library lib.now).missed ≡ false }
    requires chain { NamesChain (L.library lib.now) chain }
    ensures value { (own : memory.State) → result ≡ meets_numbers (beside own (L.library lib.now) book.now) (library.ChainAllocate chain.number time) }
    ensures told { is_untold result ≡ false }
    ensures few { IfOk result (λ _. length book.now.handed < 64) }
{
    needs_no_earlier(8, lib.chain_highest(chain.number), time)?;
    needs_fewer(8, book.handed_count(), MOST_HANDED)
}

fn is_used_up<L: Lib>(lib: &L, chain: Handle) -> bool
    requires told { (L.library lib.now).missed ≡ false }
    requires chain { NamesChain (L.library lib.now) chain }
    ensures { result ≡ library.is_used_up (L.library lib.now).state chain.number }
{
    u64::from(lib.chain_count(chain.number)) == chain.count
}

// The next index, which is one that can be handed out.
fn take_choice<L: Lib>(book: &mut Book, lib: &mut L, chain: Handle, time: u64) -> Result<u32, Stop>
    requires told { (L.library lib.old).missed ≡ false }
    requires chain { NamesChain (L.library lib.old) chain }
    requires lent { SameLent (L.library lib.old) book.old }
    requires needs { Meets (L.library lib.old) (library.ChainAllocate chain.number time) }
    requires few { length book.old.handed < 64 }
    requires free { library.is_used_up (L.library lib.old).state chain.number ≡ false }
    ensures value { (choices : List ℕ) (own : memory.State) → Guides (L.library lib.new) book.new choices
        → result ≡ choice_of choices (beside own (L.library lib.old) book.old) (library.ChainAllocate chain.number time) }
    ensures left { (own : memory.State) → IfOk result (λ choice. beside own (L.library lib.new) book.new
        ≡ done (beside own (L.library lib.old) book.old) (library.ChainAllocate chain.number time) choice) }
    ensures guides { (choices : List ℕ) → Guides (L.library lib.new) book.new choices → Guides (L.library lib.old) book.old choices }
    ensures lent { SameLent (L.library lib.new) book.new }
    ensures missed { (L.library lib.new).missed ≡ is_untold result }
    ensures stops { StopsWithState result (L.library lib.old) (L.library lib.new) book.old book.new }
{
    let handed = lib.chain_allocate(chain.number, time);
    if lib.missed() {
        return Err(Stop::Untold);
    }
    let Some(choice) = handed else {
        return Err(Stop::Untold);
    };
    book.mark(chain.number - 1);
    book.hand(chain.number, choice);
    Ok(choice)
}

// A choice, and its store in a place that was tested.
fn hand_out<L: Lib>(
    memory: &mut FrameMemory,
    frame: &mut [u8],
    book: &mut Book,
    lib: &mut L,
    chain: Handle,
    index: Pointer,
    time: u64,
) -> Result<Answer, Stop>
    requires told { (L.library lib.old).missed ≡ false }
    requires chain { NamesChain (L.library lib.old) chain }
    requires lent { SameLent (L.library lib.old) book.old }
    requires cells { CellsAreThere (L.library lib.old) book.old }
    requires needs { Meets (L.library lib.old) (library.ChainAllocate chain.number time) }
    requires few { length book.old.handed < 64 }
    requires free { library.is_used_up (L.library lib.old).state chain.number ≡ false }
    requires writable { may_write (seen memory.old frame.old (L.library lib.old) book.old) index 4 ≡ Ok tt }
    ensures value { (choices : List ℕ) → Guides (L.library lib.new) book.new choices
        → gives result (seen memory.new frame.new (L.library lib.new) book.new)
        ≡ after_place choices (seen memory.old frame.old (L.library lib.old) book.old) (library.ChainAllocate chain.number time) (target index 4) }
    ensures guides { (choices : List ℕ) → Guides (L.library lib.new) book.new choices → Guides (L.library lib.old) book.old choices }
    ensures lent { SameLent (L.library lib.new) book.new }
    ensures missed { (L.library lib.new).missed ≡ is_untold result }
    ensures stops { OnErr result (seen memory.new frame.new (L.library lib.new) book.new ≡ seen memory.old frame.old (L.library lib.old) book.old) }
{
    let choice = take_choice(book, lib, chain, time)?;
    let stored = store(memory, frame, book, lib, index, None, 4, 4, choice as u64);
    yes(stored)
}

/// `chain_allocate`
pub fn chain_allocate<L: Lib>(
    memory: &mut FrameMemory,
    frame: &mut [u8],
    book: &mut Book,
    lib: &mut L,
    chain: Handle,
    index: Pointer,
    time: u64,
) -> Result<Answer, Stop>
    requires told { (L.library lib.old).missed ≡ false }
    requires chain { NamesChain (L.library lib.old) chain }
    requires lent { SameLent (L.library lib.old) book.old }
    requires cells { CellsAreThere (L.library lib.old) book.old }
    ensures value { (choices : List ℕ) → Guides (L.library lib.new) book.new choices
        → gives result (seen memory.new frame.new (L.library lib.new) book.new)
        ≡ perform choices (seen memory.old frame.old (L.library lib.old) book.old) (requests.ChainAllocate chain index time) }
    ensures guides { (choices : List ℕ) → Guides (L.library lib.new) book.new choices → Guides (L.library lib.old) book.old choices }
    ensures lent { SameLent (L.library lib.new) book.new }
    ensures missed { (L.library lib.new).missed ≡ is_untold result }
    ensures stops { OnErr result (seen memory.new frame.new (L.library lib.new) book.new ≡ seen memory.old frame.old (L.library lib.old) book.old) }
{
    allocate_needs(book, lib, chain, time)?;
    if is_used_up(lib, chain) {
        return Ok(Answer::Word(0));
    }
    may_store(memory, frame, book, lib, index, 4)?;
    hand_out(memory, frame, book, lib, chain, index, time)
}
