//! Loops that typing could count.
ghost use Rattle.std.specs.Prelude.{◌≡◌, List, take, slice_get, IsTrue};
ghost use Rattle.vg_cbounds.specs.Bounds as bounds;
ghost use Rattle.vg_cbounds.specs.Bounds.{known, is_number, AreLoopsCounted};
ghost use Rattle.vg_cmean.specs.Meaning.{step_of};
ghost use Rattle.vg_cmean.specs.Typings as typings;
ghost use Rattle.vg_ctyper.specs.Types as types;
ghost use Rattle.vg_ctyper.specs.StatementRules.{step_number};

use vg_cint::{converted, less};
use vg_cmean::typings::{constant_at, kind_at};
use vg_core::{CType, Integer, Kind, Note, Unit, erase};

const UNSIGNED_64: Integer = Integer {
    bits: 64,
    signed: false,
};

// The note on a node before another.
#[tactic(auto, using(crate::proofs::Countable::note_before, crate::proofs::Countable::no_note))]
fn note_before(unit: &Unit, n: u32, p: u32) -> Option<Note>
    ensures { result ≡ slice_get (take n unit.now.notes) p }
{
    if n <= p {
        return None;
    }
    unit.notes().get(p as usize).copied()
}

fn as_integer(of: CType) -> Option<Integer>
    ensures { result ≡ types.as_integer of }
{
    match of {
        CType::Int { bits, signed } => Some(Integer { bits, signed }),
        _ => None,
    }
}

// The number that a word of a type is, where it is at least 0 and below 2^32.
fn number(of: Integer, word: u64) -> Option<u64>
    ensures { result ≡ types.number (record { of = of; word = word }) }
{
    if less(of, word, 0) {
        return None;
    }
    let value = converted(UNSIGNED_64, of, word);
    if value < 1 << 32 { Some(value) } else { None }
}

// The number that a constant expression before a node is.
fn number_at(unit: &Unit, n: u32, p: u32) -> Option<u64>
    ensures { result ≡ types.number_at (known unit.now n) p }
{
    let note = note_before(unit, n, p)?;
    let of = as_integer(note.of?)?;
    let word = note.constant?;
    number(of, word)
}

// Whether a loop's step is a number, and its word is that number.
fn is_step(unit: &Unit, n: u32, step: Option<u32>) -> bool
    ensures { result ≡ is_number (step_number (known unit.now n) step) (step_of unit.now step) }
{
    match step {
        None => true,
        Some(step) => match number_at(unit, n, step) {
            Some(number) => number == constant_at(unit, step),
            None => false,
        },
    }
}

// Whether a node is no loop, or one that typing could count.
#[tactic(auto, using(crate::proofs::Countable::counted_is))]
fn is_counted(unit: &Unit, n: u32) -> bool
    ensures { result ≡ bounds.is_counted unit.now n (typings.kind_at unit.now n) }
{
    match kind_at(unit, n) {
        Kind::For {
            start,
            bound,
            step,
            ..
        } => {
            let first = number_at(unit, n, start).is_some();
            let last = number_at(unit, n, bound).is_some();
            let stepped = is_step(unit, n, step);
            first && last && stepped
        }
        _ => true,
    }
}

/// Whether typing could count each loop of a text.
pub fn loops_are_counted(unit: &Unit) -> bool
    ensures counted { IsTrue result → AreLoopsCounted unit.now }
    ensures only_counted { AreLoopsCounted unit.now → IsTrue result }
{
    for n in 0..erase(unit).nodes().len() as u32 {
        if !is_counted(unit, n) {
            return false;
        }
    }
    true
}
