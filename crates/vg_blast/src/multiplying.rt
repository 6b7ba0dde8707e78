// Products and quotients.

ghost use Rattle.std.specs.Prelude.{◌≡◌, ◌<◌, ◌≤◌, ◌*◌, ◌+◌, ◌%◌, ◌^◌, length, All, IfOk, if◌then◌else◌};
ghost use Rattle.vg_cnf.specs.Clauses.{IsOver};
ghost use Rattle.vg_blast.specs.Circuits.{MakesWord, number, truth};
ghost use Rattle.vg_blast.specs.Dividing.{DividesStep, Divides};

use crate::adding::{difference, sum};
use crate::comparing::choice;
use crate::gates::Gates;
use crate::wiring::{extended, front, joined, moved_left, repeated};
use std::alloc::{AllocError, Global};
use vg_cnf::Lit;

/// A word to the left by so many places, or 0 where a literal is false.
fn row(
    alloc: Global,
    gates: &mut Gates,
    b: &[Lit],
    bit: Lit,
    by: usize,
) -> Result<Vec<Lit>, AllocError>
    requires within { by ≤ length b.now }
    requires over { All (IsOver gates.old.variables) b.now × IsOver gates.old.variables bit }
    ensures { IfOk result (λ out. MakesWord gates.old gates.new (36 * length b.now) out.items (length b.now)
        (λ v. if truth v bit then (number v b.now * 2 ^ by) % 2 ^ length b.now else 0)) }
{
    let falsity = gates.falsity();
    let moved = moved_left(alloc, b, falsity, by)?;
    let nothing = repeated(alloc, falsity, b.len())?;
    choice(alloc, gates, bit, &moved, &nothing)
}

/// The product, modulo 2 to the width: the second word to the left by each place where the first has a bit, summed.
pub(crate) fn product(
    alloc: Global,
    gates: &mut Gates,
    a: &[Lit],
    b: &[Lit],
) -> Result<Vec<Lit>, AllocError>
    requires same { length a.now ≡ length b.now }
    requires over { All (IsOver gates.old.variables) a.now × All (IsOver gates.old.variables) b.now }
    ensures { IfOk result (λ out. MakesWord gates.old gates.new (108 * length a.now * length a.now) out.items (length a.now)
        (λ v. (number v a.now * number v b.now) % 2 ^ length a.now)) }
{
    let mut product = repeated(alloc, gates.falsity(), a.len())?;
    for at in 0..a.len() {
        let row = row(alloc, gates, b, a[at], at)?;
        product = sum(alloc, gates, &product, &row)?;
    }
    Ok(product)
}

/// One more bit of a quotient: the remainder so far takes the next bit of the dividend from the right, and the divisor is taken from it where it fits.
fn divide_step(
    alloc: Global,
    gates: &mut Gates,
    remainder: &[Lit],
    next: Lit,
    divisor: &[Lit],
) -> Result<(Lit, Vec<Lit>), AllocError>
    requires same { length remainder.now ≡ length divisor.now }
    requires over { All (IsOver gates.old.variables) remainder.now × IsOver gates.old.variables next × All (IsOver gates.old.variables) divisor.now }
    ensures { IfOk result (λ r. DividesStep gates.old gates.new r.0 r.1.items remainder.now next divisor.now) }
{
    let falsity = gates.falsity();
    let longer = joined(alloc, &[next], remainder)?;
    let wider = extended(alloc, divisor, falsity, 1)?;
    let (rest, borrowed) = difference(alloc, gates, &longer, &wider)?;
    let kept = front(alloc, &longer, remainder.len())?;
    let taken = front(alloc, &rest, remainder.len())?;
    let left = choice(alloc, gates, borrowed, &kept, &taken)?;
    Ok((borrowed.negated(), left))
}

/// The unsigned quotient and the remainder. Where the divisor is 0 they are all ones and the dividend, since 0 fits each time.
pub(crate) fn divided(
    alloc: Global,
    gates: &mut Gates,
    a: &[Lit],
    b: &[Lit],
) -> Result<(Vec<Lit>, Vec<Lit>), AllocError>
    requires same { length a.now ≡ length b.now }
    requires over { All (IsOver gates.old.variables) a.now × All (IsOver gates.old.variables) b.now }
    ensures { IfOk result (λ r. Divides gates.old gates.new (180 * length a.now * length a.now) r.0.items r.1.items a.now b.now (length a.now)) }
{
    let falsity = gates.falsity();
    let mut quotient = Vec::new(alloc);
    let mut remainder = repeated(alloc, falsity, a.len())?;
    for done in 0..a.len() {
        let next = a[a.len() - 1 - done];
        let (fits, left) = divide_step(alloc, gates, &remainder, next, b)?;
        quotient.insert(0, fits)?;
        remainder = left;
    }
    Ok((quotient, remainder))
}
