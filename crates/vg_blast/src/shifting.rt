// Shifts by a word, in steps of powers of two.

ghost use Rattle.std.specs.Prelude.{◌≡◌, ◌<◌, ◌≤◌, ◌*◌, ◌+◌, ◌/◌, ◌%◌, ◌^◌, ◌++◌, length, drop, replicate, All, IfOk, not, nat_eq, if◌then◌else◌};
ghost use Rattle.vg_cnf.specs.Clauses.{IsOver};
ghost use Rattle.vg_blast.specs.Circuits.{MakesBit, MakesWord, truth, number};
ghost use Rattle.vg_blast.specs.Shifting.{AreSteps, ShiftsRight};

use crate::comparing::choice;
use crate::gates::Gates;
use crate::wiring::{copied, moved_left, moved_right, repeated};
use std::alloc::{AllocError, Global};
use vg_cnf::Lit;

/// How many bits the numbers below a width need.
fn steps(width: usize) -> usize
    requires { width ≤ 64 }
    ensures { AreSteps width result }
{
    for steps in 0..6 {
        if width <= 1 << steps {
            return steps;
        }
    }
    6
}

/// Whether one of the literals is true.
fn any(gates: &mut Gates, literals: &[Lit]) -> Result<Lit, AllocError>
    requires { All (IsOver gates.old.variables) literals.now }
    ensures { IfOk result (λ out. MakesBit gates.old gates.new (12 * length literals.now) out (λ v. not (nat_eq (number v literals.now) 0))) }
{
    let mut some = gates.falsity();
    for at in 0..literals.len() {
        some = gates.or(some, literals[at])?;
    }
    Ok(some)
}

/// A power of two.
#[tactic(auto, using(std::proofs::lemmas::Nat::one_shl))]
fn power(exponent: usize) -> usize
    requires { exponent < 64 }
    ensures { result ≡ 2 ^ exponent }
{
    1 << exponent
}

/// A word, by so many places to the left where a literal is true.
fn step_left(
    alloc: Global,
    gates: &mut Gates,
    moved: &[Lit],
    by: Lit,
    distance: usize,
) -> Result<Vec<Lit>, AllocError>
    requires within { distance ≤ length moved.now }
    requires over { All (IsOver gates.old.variables) moved.now × IsOver gates.old.variables by }
    ensures { IfOk result (λ out. MakesWord gates.old gates.new (36 * length moved.now) out.items (length moved.now)
        (λ v. if truth v by then (number v moved.now * 2 ^ distance) % 2 ^ length moved.now else number v moved.now)) }
{
    let further = moved_left(alloc, moved, gates.falsity(), distance)?;
    choice(alloc, gates, by, &further, moved)
}

/// A word, by so many places to the right where a literal is true, with a literal from the left.
fn step_right(
    alloc: Global,
    gates: &mut Gates,
    moved: &[Lit],
    by: Lit,
    fill: Lit,
    distance: usize,
) -> Result<Vec<Lit>, AllocError>
    requires within { distance ≤ length moved.now }
    requires over { All (IsOver gates.old.variables) moved.now × IsOver gates.old.variables by × IsOver gates.old.variables fill }
    ensures { IfOk result (λ out. MakesWord gates.old gates.new (36 * length moved.now) out.items (length moved.now)
        (λ v. if truth v by then number v (drop distance moved.now ++ replicate distance fill) else number v moved.now)) }
{
    let further = moved_right(alloc, moved, fill, distance)?;
    choice(alloc, gates, by, &further, moved)
}

/// A word, or a literal in each of its bits where one of the others is true.
fn unless_past(
    alloc: Global,
    gates: &mut Gates,
    moved: &[Lit],
    far: &[Lit],
    fill: Lit,
) -> Result<Vec<Lit>, AllocError>
    requires { All (IsOver gates.old.variables) moved.now × All (IsOver gates.old.variables) far.now × IsOver gates.old.variables fill }
    ensures { IfOk result (λ out. MakesWord gates.old gates.new (12 * length far.now + 36 * length moved.now) out.items (length moved.now)
        (λ v. if nat_eq (number v far.now) 0 then number v moved.now else number v (replicate (length moved.now) fill))) }
{
    let past = any(gates, far)?;
    let filled = repeated(alloc, fill, moved.len())?;
    choice(alloc, gates, past.negated(), moved, &filled)
}

/// To the left, with zeros from the right; 0 from the width on.
pub(crate) fn shifted_left(
    alloc: Global,
    gates: &mut Gates,
    a: &[Lit],
    by: &[Lit],
) -> Result<Vec<Lit>, AllocError>
    requires same { length a.now ≡ length by.now }
    requires at_most_64 { length a.now ≤ 64 }
    requires over { All (IsOver gates.old.variables) a.now × All (IsOver gates.old.variables) by.now }
    ensures { IfOk result (λ out. MakesWord gates.old gates.new (36 * length a.now * (length a.now + 2)) out.items (length a.now)
        (λ v. (number v a.now * 2 ^ number v by.now) % 2 ^ length a.now)) }
{
    let steps = steps(a.len());
    let mut moved = copied(alloc, a)?;
    for step in 0..steps {
        moved = step_left(alloc, gates, &moved, by[step], power(step))?;
    }
    let (_, far) = by.split_at(steps);
    let falsity = gates.falsity();
    unless_past(alloc, gates, &moved, far, falsity)
}

/// To the right, with a literal from the left; that literal in every bit from the width on.
pub(crate) fn shifted_right(
    alloc: Global,
    gates: &mut Gates,
    a: &[Lit],
    by: &[Lit],
    fill: Lit,
) -> Result<Vec<Lit>, AllocError>
    requires same { length a.now ≡ length by.now }
    requires at_most_64 { length a.now ≤ 64 }
    requires over { All (IsOver gates.old.variables) a.now × All (IsOver gates.old.variables) by.now × IsOver gates.old.variables fill }
    ensures { IfOk result (λ out. ShiftsRight gates.old gates.new (36 * length a.now * (length a.now + 2)) out.items fill a.now (λ v. number v by.now)) }
{
    let steps = steps(a.len());
    let mut moved = copied(alloc, a)?;
    for step in 0..steps {
        moved = step_right(alloc, gates, &moved, by[step], fill, power(step))?;
    }
    let (_, far) = by.split_at(steps);
    unless_past(alloc, gates, &moved, far, fill)
}
