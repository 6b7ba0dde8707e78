// Comparisons and choices.

ghost use Rattle.std.specs.Prelude.{◌≡◌, ◌*◌, length, All, IfOk, nat_lt, nat_eq, if◌then◌else◌};
ghost use Rattle.vg_cnf.specs.Clauses.{IsOver};
ghost use Rattle.vg_blast.specs.Circuits.{MakesBit, MakesWord, truth, number};

use crate::adding::borrow_bit;
use crate::gates::Gates;
use std::alloc::{AllocError, Global};
use vg_cnf::Lit;

/// Whether the first is less, both read without sign.
pub(crate) fn less(gates: &mut Gates, a: &[Lit], b: &[Lit]) -> Result<Lit, AllocError>
    requires same { length a.now ≡ length b.now }
    requires over { All (IsOver gates.old.variables) a.now × All (IsOver gates.old.variables) b.now }
    ensures { IfOk result (λ out. MakesBit gates.old gates.new (48 * length a.now) out (λ v. nat_lt (number v a.now) (number v b.now))) }
{
    let width = a.len();
    let mut borrowed = gates.falsity();
    for at in 0..width {
        borrowed = borrow_bit(gates, a[at], b[at], borrowed)?;
    }
    Ok(borrowed)
}

/// Whether the two are equal.
pub(crate) fn equal(gates: &mut Gates, a: &[Lit], b: &[Lit]) -> Result<Lit, AllocError>
    requires same { length a.now ≡ length b.now }
    requires over { All (IsOver gates.old.variables) a.now × All (IsOver gates.old.variables) b.now }
    ensures { IfOk result (λ out. MakesBit gates.old gates.new (24 * length a.now) out (λ v. nat_eq (number v a.now) (number v b.now))) }
{
    let mut same = gates.truth();
    for at in 0..a.len() {
        let one = gates.xor(a[at], b[at])?;
        same = gates.and(same, one.negated())?;
    }
    Ok(same)
}

/// The second word where the condition is true, and else the third.
pub(crate) fn choice(
    alloc: Global,
    gates: &mut Gates,
    condition: Lit,
    a: &[Lit],
    b: &[Lit],
) -> Result<Vec<Lit>, AllocError>
    requires same { length a.now ≡ length b.now }
    requires over { IsOver gates.old.variables condition × All (IsOver gates.old.variables) a.now × All (IsOver gates.old.variables) b.now }
    ensures { IfOk result (λ out. MakesWord gates.old gates.new (36 * length a.now) out.items (length a.now)
        (λ v. if truth v condition then number v a.now else number v b.now)) }
{
    let mut out = Vec::new(alloc);
    for at in 0..a.len() {
        let bit = gates.choice(condition, a[at], b[at])?;
        out.push(bit)?;
    }
    Ok(out)
}
