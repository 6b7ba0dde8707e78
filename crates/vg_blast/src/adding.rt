// Sums and differences, with the carry or the borrow from each bit to the next.

ghost use Rattle.std.specs.Prelude.{◌≡◌, ◌+◌, ◌*◌, ◌%◌, ◌^◌, length, All, IfOk};
ghost use Rattle.vg_cnf.specs.Clauses.{IsOver};
ghost use Rattle.vg_blast.specs.Circuits.{MakesBit, MakesWord, truth, number};
ghost use Rattle.vg_blast.specs.Adding.{AddsBits, TakesBits, MakesDifference, borrow};

use crate::gates::Gates;
use std::alloc::{AllocError, Global};
use vg_cnf::Lit;

/// A bit of a sum, and the carry to the next.
fn add_bits(gates: &mut Gates, a: Lit, b: Lit, carry: Lit) -> Result<(Lit, Lit), AllocError>
    requires { IsOver gates.old.variables a × IsOver gates.old.variables b × IsOver gates.old.variables carry }
    ensures { IfOk result (λ r. AddsBits gates.old gates.new r.0 r.1 a b carry) }
{
    let one = gates.xor(a, b)?;
    let sum = gates.xor(one, carry)?;
    let next = gates.majority(a, b, carry)?;
    Ok((sum, next))
}

/// The sum, modulo 2 to the width.
pub(crate) fn sum(
    alloc: Global,
    gates: &mut Gates,
    a: &[Lit],
    b: &[Lit],
) -> Result<Vec<Lit>, AllocError>
    requires same { length a.now ≡ length b.now }
    requires over { All (IsOver gates.old.variables) a.now × All (IsOver gates.old.variables) b.now }
    ensures { IfOk result (λ out. MakesWord gates.old gates.new (72 * length a.now) out.items (length a.now)
        (λ v. (number v a.now + number v b.now) % 2 ^ length a.now)) }
{
    let mut out = Vec::new(alloc);
    let mut carry = gates.falsity();
    for at in 0..a.len() {
        let (bit, next) = add_bits(gates, a[at], b[at], carry)?;
        out.push(bit)?;
        carry = next;
    }
    Ok(out)
}

/// Whether a bit less another and a borrow needs a borrow from the next.
pub(crate) fn borrow_bit(
    gates: &mut Gates,
    a: Lit,
    b: Lit,
    borrowed: Lit,
) -> Result<Lit, AllocError>
    requires { IsOver gates.old.variables a × IsOver gates.old.variables b × IsOver gates.old.variables borrowed }
    ensures { IfOk result (λ out. MakesBit gates.old gates.new 48 out (λ v. borrow (truth v a) (truth v b) (truth v borrowed))) }
{
    let one = gates.xor(a, b)?;
    gates.choice(one, b, borrowed)
}

/// A bit of a difference, and the borrow from the next.
fn take_bits(gates: &mut Gates, a: Lit, b: Lit, borrowed: Lit) -> Result<(Lit, Lit), AllocError>
    requires { IsOver gates.old.variables a × IsOver gates.old.variables b × IsOver gates.old.variables borrowed }
    ensures { IfOk result (λ r. TakesBits gates.old gates.new r.0 r.1 a b borrowed) }
{
    let one = gates.xor(a, b)?;
    let bit = gates.xor(one, borrowed)?;
    let next = borrow_bit(gates, a, b, borrowed)?;
    Ok((bit, next))
}

/// The difference, modulo 2 to the width, and whether it needs a borrow from above.
pub(crate) fn difference(
    alloc: Global,
    gates: &mut Gates,
    a: &[Lit],
    b: &[Lit],
) -> Result<(Vec<Lit>, Lit), AllocError>
    requires same { length a.now ≡ length b.now }
    requires over { All (IsOver gates.old.variables) a.now × All (IsOver gates.old.variables) b.now }
    ensures { IfOk result (λ r. MakesDifference gates.old gates.new r.0.items r.1 a.now b.now) }
{
    let mut out = Vec::new(alloc);
    let mut borrowed = gates.falsity();
    for at in 0..a.len() {
        let (bit, next) = take_bits(gates, a[at], b[at], borrowed)?;
        out.push(bit)?;
        borrowed = next;
    }
    Ok((out, borrowed))
}
