//! Slots whose every access is counted: the measure for bounds on the accesses of a call.
ghost use Rattle.std.specs.Prelude.{◌≡◌, ◌<◌, ◌+◌, ℕ, List, length, slice_index, slice_set};

use std::marker::Model;
use std::sync::ledger::{Blank, Book, Ledger, Share};

/// How many steps were taken. It takes no bytes and costs nothing at run time: only contracts see
/// the number, so it can't overflow. `L` names the ledger that keeps it.
#[derive(Drop)]
pub struct Steps<L: Ledger> {
    book: Book<L>,
    share: Share<L>,
}

impl<L: Ledger> Model for Steps<L> {
    ghost Value = { ℕ };

    ghost view = { λ s. s.book.total };

    ghost invariant = { λ s. 0 < s.share.parts };
}

impl<L: Ledger> Steps<L> {
    /// No steps yet, in a ledger that no other counter has. A function generic over `L` takes the
    /// blank, and its caller passes `Brand` for `L` and `Blank::new(1)`.
    pub fn new(blank: Blank) -> Steps<L>
        requires name { blank.name ≡ L.name }
        requires parts { blank.parts ≡ L.parts }
        requires backed { 0 < blank.parts }
        ensures { result ≡ 0 }
    {
        let (book, share) = blank.open::<L>();
        Steps { book, share }
    }

    /// One step more.
    pub fn tick(&mut self)
        ensures { self.new ≡ self.old + 1 }
    {
        self.book.add(&mut self.share, 1);
    }
}

/// A list of numbers of fixed length. `get` and `set` are the only ways to a slot, and each ticks
/// once.
#[derive(Drop)]
pub struct Slots {
    items: Vec<u32>,
}

impl Model for Slots {
    ghost Value = { List ℕ };

    ghost view = { λ s. s.items.items };
}

impl Slots {
    /// Slots that hold these numbers.
    pub fn new(items: Vec<u32>) -> Slots
        ensures { result ≡ items.items }
    {
        Slots { items }
    }

    /// What the slot holds.
    pub fn get<L: Ledger>(&self, i: u32, steps: &mut Steps<L>) -> u32
        requires { i < length self.now }
        ensures value { result ≡ slice_index self.now i }
        ensures counted { steps.new ≡ steps.old + 1 }
    {
        steps.tick();
        self.items[i as usize]
    }

    /// Puts a number into the slot. Every other slot stays.
    pub fn set<L: Ledger>(&mut self, i: u32, value: u32, steps: &mut Steps<L>)
        requires { i < length self.old }
        ensures stored { self.new ≡ slice_set self.old i value }
        ensures counted { steps.new ≡ steps.old + 1 }
    {
        steps.tick();
        self.items[i as usize] = value;
    }
}

#[cfg(test)]
mod tests {
    use super::*;
    use std::marker::Brand;
    use std::test::Fail;

    // What stood in slot 1, and what stands there and in slot 2 after a change of slot 1.
    fn changed<L: Ledger>(slots: &mut Slots, blank: Blank) -> (u32, u32, u32)
        requires name { blank.name ≡ L.name }
        requires parts { blank.parts ≡ L.parts }
        requires backed { 0 < blank.parts }
        requires three { length slots.old ≡ 3 }
    {
        let mut steps = Steps::<L>::new(blank);
        let before = slots.get(1, &mut steps);
        slots.set(1, 9, &mut steps);
        (before, slots.get(1, &mut steps), slots.get(2, &mut steps))
    }

    #[test]
    fn a_slot_holds_what_was_put(rt: HostRuntime) -> Result<(), Fail> {
        let mut slots = Slots::new(Vec::from_slice(rt.alloc(), &[4, 5, 6])?);
        let seen = changed::<Brand>(&mut slots, Blank::new(1));
        assert_eq!(rt; seen, (5, 9, 6));
        Ok(())
    }
}
