//! Calls on chains.
ghost use Rattle.std.specs.Prelude.{◌≡◌, false, List, ℕ};
ghost use Rattle.vg_cmemory.specs.State as memory;
ghost use Rattle.vg_crows.specs.Rows.{perform, meets_numbers};
ghost use Rattle.vg_abs.specs.Rows as library;
ghost use Rattle.vg_crows.specs.Record.{Record};
ghost use Rattle.vg_crows.specs.declared.request.Request.TheVariants as requests;
ghost use Rattle.vg_crows.specs.Views.{bit, IsUntouched, NamesChain, StopsWith, SameLent, beside, gives, is_untold};

use crate::answer::{Answer, Stop};
use crate::book::Book;
use crate::needs::{needs_allocated, needs_below, needs_no_earlier};
use crate::request::Handle;
use vg_abs::Lib;

fn free_needs<L: Lib>(lib: &mut L, chain: Handle, index: u32) -> Result<(), Stop>
    requires told { (L.library lib.old).missed ≡ false }
    requires chain { NamesChain (L.library lib.old) chain }
    ensures value { (own : memory.State) (book : Record)
        → result ≡ meets_numbers (beside own (L.library lib.old) book) (library.ChainFree chain.number index) }
    ensures untouched { IsUntouched (L.library lib.old) (L.library lib.new) }
    ensures missed { (L.library lib.new).missed ≡ is_untold result }
{
    needs_below(11, index, chain.count)?;
    needs_allocated(lib, 11, chain, index)
}

/// `chain_free`
pub fn chain_free<L: Lib>(
    book: &mut Book,
    lib: &mut L,
    chain: Handle,
    index: u32,
) -> Result<Answer, Stop>
    requires told { (L.library lib.old).missed ≡ false }
    requires chain { NamesChain (L.library lib.old) chain }
    requires lent { SameLent (L.library lib.old) book.old }
    ensures value { (choices : List ℕ) (own : memory.State)
        → gives result (beside own (L.library lib.new) book.new) ≡ perform choices (beside own (L.library lib.old) book.old)
        (requests.ChainFree chain index) }
    ensures stops { StopsWith result (L.library lib.old) (L.library lib.new) book.old book.new }
    ensures lent { SameLent (L.library lib.new) book.new }
    ensures choices { (L.library lib.new).choices ≡ (L.library lib.old).choices }
    ensures missed { (L.library lib.new).missed ≡ is_untold result }
{
    free_needs(lib, chain, index)?;
    lib.chain_free(chain.number, index);
    book.mark(chain.number - 1);
    Ok(Answer::Nothing)
}

fn rejuvenate_needs<L: Lib>(lib: &mut L, chain: Handle, index: u32, time: u64) -> Result<(), Stop>
    requires told { (L.library lib.old).missed ≡ false }
    requires chain { NamesChain (L.library lib.old) chain }
    ensures value { (own : memory.State) (book : Record)
        → result ≡ meets_numbers (beside own (L.library lib.old) book) (library.ChainRejuvenate chain.number index time) }
    ensures untouched { IsUntouched (L.library lib.old) (L.library lib.new) }
    ensures missed { (L.library lib.new).missed ≡ is_untold result }
{
    let highest = lib.chain_highest(chain.number);
    needs_below(10, index, chain.count)?;
    needs_allocated(lib, 10, chain, index)?;
    needs_no_earlier(10, highest, time)
}

/// `chain_rejuvenate`
pub fn chain_rejuvenate<L: Lib>(
    book: &mut Book,
    lib: &mut L,
    chain: Handle,
    index: u32,
    time: u64,
) -> Result<Answer, Stop>
    requires told { (L.library lib.old).missed ≡ false }
    requires chain { NamesChain (L.library lib.old) chain }
    requires lent { SameLent (L.library lib.old) book.old }
    ensures value { (choices : List ℕ) (own : memory.State)
        → gives result (beside own (L.library lib.new) book.new) ≡ perform choices (beside own (L.library lib.old) book.old)
        (requests.ChainRejuvenate chain index time) }
    ensures stops { StopsWith result (L.library lib.old) (L.library lib.new) book.old book.new }
    ensures lent { SameLent (L.library lib.new) book.new }
    ensures choices { (L.library lib.new).choices ≡ (L.library lib.old).choices }
    ensures missed { (L.library lib.new).missed ≡ is_untold result }
{
    rejuvenate_needs(lib, chain, index, time)?;
    lib.chain_rejuvenate(chain.number, index, time);
    book.mark(chain.number - 1);
    Ok(Answer::Nothing)
}

fn bit(holds: bool) -> u64
    ensures { result ≡ bit holds }
{
    if holds { 1 } else { 0 }
}

/// `chain_is_allocated`
pub fn chain_is_allocated<L: Lib>(
    book: &Book,
    lib: &mut L,
    chain: Handle,
    index: u32,
) -> Result<Answer, Stop>
    requires told { (L.library lib.old).missed ≡ false }
    requires chain { NamesChain (L.library lib.old) chain }
    requires lent { SameLent (L.library lib.old) book.now }
    ensures value { (choices : List ℕ) (own : memory.State)
        → gives result (beside own (L.library lib.new) book.now) ≡ perform choices (beside own (L.library lib.old) book.now)
        (requests.ChainIsAllocated chain index) }
    ensures untouched { IsUntouched (L.library lib.old) (L.library lib.new) }
    ensures lent { SameLent (L.library lib.new) book.now }
    ensures missed { (L.library lib.new).missed ≡ is_untold result }
{
    needs_below(9, index, chain.count)?;
    let is_allocated = lib.chain_is(chain.number, index);
    if lib.missed() {
        return Err(Stop::Untold);
    }
    Ok(Answer::Word(bit(is_allocated)))
}
