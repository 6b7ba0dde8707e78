//! Terms whose bits are wires to bits of other terms, rebuilt in one way.

ghost use Rattle.std.specs.Prelude.{◌≡◌, ◌<◌, ◌≤◌, ◌+◌, ◌-◌, ◌*◌, ℕ, Bool, [], ◌∷◌, length, slice_index_or, IsTrue};
ghost use Rattle.std.specs.Int.{bit_at};
ghost use Rattle.vg_bits.specs.Words.{bit};
ghost use Rattle.vg_term.specs.Terms.{AreTerms, Stands, width_at};
ghost use Rattle.vg_term.specs.Folding.{Folds};
ghost use Rattle.vg_term.specs.declared.node.Op.TheVariants as ops;
ghost use Rattle.vg_term.specs.declared.wire.Wire.TheVariants as kinds;
ghost use Rattle.vg_term.specs.Wiring.{AllStand, BuildsWires, Follows, IsRun};
ghost use Rattle.vg_term.specs.Spending.{IsFull, Spends};

use crate::node::{Op, TermId};
use crate::stops::TermStop;
use crate::terms::Terms;
use vg_bits::Word;

/// Where a bit comes from.
#[derive(Clone, Copy, PartialEq, Eq, Debug)]
pub(crate) enum Wire {
    /// It is the same under each assignment.
    Fixed(bool),
    /// It is the bit at this place of a term, counted from the least significant.
    Bit { term: TermId, at: u8 },
}

// Whether a wire may stand `places` above the first of a run.
fn follows(first: Wire, wire: Wire, places: u8) -> bool
    requires { places ≤ 64 }
    ensures { IsTrue result → Follows first wire places }
{
    match (first, wire) {
        (Wire::Fixed(_), Wire::Fixed(_)) => true,
        (
            Wire::Bit { term, at },
            Wire::Bit {
                term: other,
                at: place,
            },
        ) => { term.0 == other.0 && u16::from(place) == u16::from(at) + u16::from(places) }
        _ => false,
    }
}

// Where the longest run from this place ends.
pub(crate) fn run_end(wires: &[Wire], from: u8, width: u8) -> u8
    requires within { from < width }
    requires most { width ≤ 64 }
    requires long { width ≤ length wires.now }
    ensures end { result ≤ width }
    ensures run { IsRun wires.now from result }
{
    let first = wires[from as usize];
    let mut to = from + 1;
    while to < width && follows(first, wires[to as usize], to - from) {
        to += 1;
    }
    to
}

// The word of a run of fixed wires.
fn fixed_word(wires: &[Wire], from: u8, to: u8) -> Word
    requires some { from < to }
    requires most { to ≤ 64 }
    requires long { to ≤ length wires.now }
    ensures width { from + result.width ≡ to }
    ensures bits { (k : ℕ) (d : Wire) (holds : Bool) → from + k < to → slice_index_or wires.now (from + k) d ≡ kinds.Fixed holds
        → bit_at result.value k ≡ bit holds }
{
    let mut word = Word::from_bool(is_set(wires[from as usize]));
    let mut at = from + 1;
    while at < to {
        let wire = wires[at as usize];
        word = vg_bits::concat(Word::from_bool(is_set(wire)), word);
        at += 1;
    }
    word
}

// Whether a wire is fixed to 1.
fn is_set(wire: Wire) -> bool
    ensures { (holds : Bool) → wire ≡ kinds.Fixed holds → result ≡ holds }
{
    match wire {
        Wire::Fixed(holds) => holds,
        Wire::Bit { .. } => false,
    }
}

impl Terms {
    /// A term of these wires. It is the same term for the same wires, as long as cuts are left.
    #[cycle(cutting)]
    pub(crate) fn rebuild(
        &mut self,
        wires: &[Wire],
        width: u8,
        cuts: &mut u8,
    ) -> Result<TermId, TermStop>
        requires some { 0 < width }
        requires most { width ≤ 64 }
        requires long { width ≤ length wires.now }
        requires stand { AllStand self.old wires.now width }
        ensures builds { BuildsWires self.old self.new wires.now 0 width result }
        ensures spends { Spends self.old self.new cuts.old cuts.new (2 * width) }
        ensures full { IsFull self.new result }
    {
        let mut end = run_end(wires, 0, width);
        let mut low = self.piece(wires, 0, end, cuts)?;
        while end < width {
            let next = run_end(wires, end, width);
            let high = self.piece(wires, end, next, cuts)?;
            low = self.joined(high, low)?;
            end = next;
        }
        Ok(low)
    }

    /// The term of a run of wires.
    #[cycle(cutting)]
    pub(crate) fn piece(
        &mut self,
        wires: &[Wire],
        from: u8,
        to: u8,
        cuts: &mut u8,
    ) -> Result<TermId, TermStop>
        requires run { IsRun wires.now from to }
        requires most { to ≤ 64 }
        requires long { to ≤ length wires.now }
        requires stand { AllStand self.old wires.now to }
        ensures builds { BuildsWires self.old self.new wires.now from (to - from) result }
        ensures spends { Spends self.old self.new cuts.old cuts.new 1 }
        ensures full { IsFull self.new result }
    {
        let first = wires[from as usize];
        match first {
            Wire::Fixed(_) => self.make(Op::Const(fixed_word(wires, from, to)), &[]),
            Wire::Bit { term, at } => {
                let width = to - from;
                if width == self.width(term) {
                    return Ok(term);
                }
                self.cut_from(term, at, width, cuts)
            }
        }
    }

    // One term above another: as an extension where the upper one is 0.
    fn joined(&mut self, high: TermId, low: TermId) -> Result<TermId, TermStop>
        requires high { Stands self.old high }
        requires low { Stands self.old low }
        requires fits { width_at self.old high + width_at self.old low ≤ 64 }
        ensures folds { Folds self.old self.new ops.Concat (high ∷ low ∷ []) result }
        ensures made { AreTerms self.new }
        ensures few { length self.new ≤ length self.old + 1 }
        ensures full { IsFull self.new result }
    {
        if let Some(word) = self.constant(high) {
            if word.value == 0 {
                let width = self.width(high) + self.width(low);
                return self.make(Op::Zext(width), &[low]);
            }
        }
        self.make(Op::Concat, &[high, low])
    }
}
