// Each operation on words as a circuit.

ghost use Rattle.std.specs.Prelude.{◌≡◌, ◌≢◌, ◌<◌, ◌≤◌, ◌+◌, ◌-◌, ◌*◌, ◌∷◌, [], length, int_lt, All, IfOk};
ghost use Rattle.vg_bits.specs.Words as words;
ghost use Rattle.vg_term.specs.declared.node.Op.TheVariants as ops;
ghost use Rattle.vg_term.specs.Operations.{FitsNone, FitsOne, FitsTwo, FitsThree, width_none, width_one, width_two, value_none, value_one, value_two};
ghost use Rattle.vg_term.specs.Operations.{value_three};
ghost use Rattle.vg_cnf.specs.Clauses.{IsOver};
ghost use Rattle.vg_blast.specs.Circuits.{MakesBit, MakesWord, number, bits_by};
ghost use Rattle.vg_blast.specs.Cost.{operation_cost};

use crate::adding::{difference, sum};
use crate::bitwise::{Bitwise, bit_by_bit};
use crate::comparing::{choice, equal, less};
use crate::gates::Gates;
use crate::multiplying::{divided, product};
use crate::shifting::{shifted_left, shifted_right};
use crate::wiring::{constant, copied, extended, joined, negated, part, top_turned};
use std::alloc::{AllocError, Global};
use vg_cnf::Lit;
use vg_term::Op;

/// The literals of an operation of no parts.
pub(crate) fn without_parts(
    alloc: Global,
    gates: &mut Gates,
    op: Op,
) -> Result<Vec<Lit>, AllocError>
    requires { FitsNone op }
    ensures { IfOk result (λ out. MakesWord gates.old gates.new 0 out.items (width_none op) (λ v. value_none op)) }
{
    let _ = gates.truth();
    match op {
        Op::Const(word) => constant(alloc, word),
        _ => unreachable!(),
    }
}

/// The literals of an operation of one part.
pub(crate) fn of_one(
    alloc: Global,
    gates: &mut Gates,
    op: Op,
    a: &[Lit],
) -> Result<Vec<Lit>, AllocError>
    requires fits { FitsOne op (length a.now) }
    requires some { 0 < length a.now }
    requires over { All (IsOver gates.old.variables) a.now }
    ensures { IfOk result (λ out. MakesWord gates.old gates.new 0 out.items (width_one op (length a.now)) (λ v. value_one op (bits_by v a.now))) }
{
    let falsity = gates.falsity();
    match op {
        Op::Not => negated(alloc, a),
        Op::Extract { from, width } => part(alloc, a, from as usize, width as usize),
        Op::Zext(width) => extended(alloc, a, falsity, width as usize - a.len()),
        Op::Sext(width) => extended(alloc, a, a[a.len() - 1], width as usize - a.len()),
        _ => unreachable!(),
    }
}

/// One literal as a word.
fn flag(alloc: Global, literal: Lit) -> Result<Vec<Lit>, AllocError>
    ensures { IfOk result (λ out. out.items ≡ literal ∷ []) }
{
    copied(alloc, &[literal])
}

/// The difference, modulo 2 to the width.
fn subtracted(
    alloc: Global,
    gates: &mut Gates,
    a: &[Lit],
    b: &[Lit],
) -> Result<Vec<Lit>, AllocError>
    requires same { length a.now ≡ length b.now }
    requires over { All (IsOver gates.old.variables) a.now × All (IsOver gates.old.variables) b.now }
    ensures { IfOk result (λ out. MakesWord gates.old gates.new (72 * length a.now) out.items (length a.now)
        (λ v. words.sub (length a.now) (number v a.now) (number v b.now))) }
{
    let (out, _borrowed) = difference(alloc, gates, a, b)?;
    Ok(out)
}

/// The unsigned quotient; all ones where the divisor is 0.
fn quotient(alloc: Global, gates: &mut Gates, a: &[Lit], b: &[Lit]) -> Result<Vec<Lit>, AllocError>
    requires same { length a.now ≡ length b.now }
    requires over { All (IsOver gates.old.variables) a.now × All (IsOver gates.old.variables) b.now }
    ensures { IfOk result (λ out. MakesWord gates.old gates.new (180 * length a.now * length a.now) out.items (length a.now)
        (λ v. words.udiv (length a.now) (number v a.now) (number v b.now))) }
{
    let (out, _remainder) = divided(alloc, gates, a, b)?;
    Ok(out)
}

/// The unsigned remainder; the dividend where the divisor is 0.
fn remainder(alloc: Global, gates: &mut Gates, a: &[Lit], b: &[Lit]) -> Result<Vec<Lit>, AllocError>
    requires same { length a.now ≡ length b.now }
    requires over { All (IsOver gates.old.variables) a.now × All (IsOver gates.old.variables) b.now }
    ensures { IfOk result (λ out. MakesWord gates.old gates.new (180 * length a.now * length a.now) out.items (length a.now)
        (λ v. words.urem (number v a.now) (number v b.now))) }
{
    let (_quotient, out) = divided(alloc, gates, a, b)?;
    Ok(out)
}

/// To the right with zeros from the left.
fn logical_right(
    alloc: Global,
    gates: &mut Gates,
    a: &[Lit],
    by: &[Lit],
) -> Result<Vec<Lit>, AllocError>
    requires same { length a.now ≡ length by.now }
    requires at_most_64 { length a.now ≤ 64 }
    requires over { All (IsOver gates.old.variables) a.now × All (IsOver gates.old.variables) by.now }
    ensures { IfOk result (λ out. MakesWord gates.old gates.new (36 * length a.now * (length a.now + 2)) out.items (length a.now)
        (λ v. words.lshr (number v a.now) (number v by.now))) }
{
    let falsity = gates.falsity();
    shifted_right(alloc, gates, a, by, falsity)
}

/// To the right with the sign from the left.
fn arithmetic_right(
    alloc: Global,
    gates: &mut Gates,
    a: &[Lit],
    by: &[Lit],
) -> Result<Vec<Lit>, AllocError>
    requires same { length a.now ≡ length by.now }
    requires some { 0 < length a.now }
    requires at_most_64 { length a.now ≤ 64 }
    requires over { All (IsOver gates.old.variables) a.now × All (IsOver gates.old.variables) by.now }
    ensures { IfOk result (λ out. MakesWord gates.old gates.new (36 * length a.now * (length a.now + 2)) out.items (length a.now)
        (λ v. words.ashr (length a.now) (number v a.now) (number v by.now))) }
{
    let sign = a[a.len() - 1];
    shifted_right(alloc, gates, a, by, sign)
}

/// Whether the first is less, both read in two's complement: with the signs turned it is less without sign.
fn less_signed(alloc: Global, gates: &mut Gates, a: &[Lit], b: &[Lit]) -> Result<Lit, AllocError>
    requires same { length a.now ≡ length b.now }
    requires some { 0 < length a.now }
    requires over { All (IsOver gates.old.variables) a.now × All (IsOver gates.old.variables) b.now }
    ensures { IfOk result (λ out. MakesBit gates.old gates.new (48 * length a.now) out (λ v. int_lt (words.signed (length a.now) (number v a.now))
        (words.signed (length a.now) (number v b.now)))) }
{
    let left = top_turned(alloc, a)?;
    let right = top_turned(alloc, b)?;
    less(gates, &left, &right)
}

/// The literals of an operation of two parts.
pub(crate) fn of_two(
    alloc: Global,
    gates: &mut Gates,
    op: Op,
    a: &[Lit],
    b: &[Lit],
) -> Result<Vec<Lit>, AllocError>
    requires fits { FitsTwo op (length a.now) (length b.now) }
    requires some { 0 < length a.now }
    requires at_most_64 { length a.now ≤ 64 }
    requires over { All (IsOver gates.old.variables) a.now × All (IsOver gates.old.variables) b.now }
    ensures { IfOk result (λ out. MakesWord gates.old gates.new (operation_cost op (length a.now) - 130) out.items
        (width_two op (length a.now) (length b.now)) (λ v. value_two op (bits_by v a.now) (bits_by v b.now))) }
{
    match op {
        Op::Concat => {
            let _ = gates.truth();
            joined(alloc, b, a)
        }
        Op::Eq => {
            let equal = equal(gates, a, b)?;
            flag(alloc, equal)
        }
        Op::Ult => {
            let less = less(gates, a, b)?;
            flag(alloc, less)
        }
        Op::Slt => {
            let less = less_signed(alloc, gates, a, b)?;
            flag(alloc, less)
        }
        _ => of_two_alike(alloc, gates, op, a, b),
    }
}

/// The literals of an operation of two parts whose answer is as wide as they are.
fn of_two_alike(
    alloc: Global,
    gates: &mut Gates,
    op: Op,
    a: &[Lit],
    b: &[Lit],
) -> Result<Vec<Lit>, AllocError>
    requires fits { FitsTwo op (length a.now) (length b.now) }
    requires alike { (op ≢ ops.Concat) × (op ≢ ops.Eq) × (op ≢ ops.Ult) × (op ≢ ops.Slt) }
    requires some { 0 < length a.now }
    requires at_most_64 { length a.now ≤ 64 }
    requires over { All (IsOver gates.old.variables) a.now × All (IsOver gates.old.variables) b.now }
    ensures { IfOk result (λ out. MakesWord gates.old gates.new (operation_cost op (length a.now) - 130) out.items (length a.now)
        (λ v. value_two op (bits_by v a.now) (bits_by v b.now))) }
{
    match op {
        Op::Add => sum(alloc, gates, a, b),
        Op::Sub => subtracted(alloc, gates, a, b),
        Op::Mul => product(alloc, gates, a, b),
        Op::Udiv => quotient(alloc, gates, a, b),
        Op::Urem => remainder(alloc, gates, a, b),
        Op::And => bit_by_bit(alloc, gates, Bitwise::And, a, b),
        Op::Or => bit_by_bit(alloc, gates, Bitwise::Or, a, b),
        Op::Xor => bit_by_bit(alloc, gates, Bitwise::Xor, a, b),
        Op::Shl => shifted_left(alloc, gates, a, b),
        Op::Lshr => logical_right(alloc, gates, a, b),
        Op::Ashr => arithmetic_right(alloc, gates, a, b),
        _ => unreachable!(),
    }
}

/// The literals of the choice between two words.
pub(crate) fn of_three(
    alloc: Global,
    gates: &mut Gates,
    op: Op,
    condition: &[Lit],
    a: &[Lit],
    b: &[Lit],
) -> Result<Vec<Lit>, AllocError>
    requires fits { FitsThree op (length condition.now) (length a.now) (length b.now) }
    requires some { 0 < length a.now }
    requires over { All (IsOver gates.old.variables) condition.now × All (IsOver gates.old.variables) a.now × All (IsOver gates.old.variables) b.now }
    ensures { IfOk result (λ out. MakesWord gates.old gates.new (operation_cost op (length a.now) - 130) out.items (length a.now)
        (λ v. value_three op (bits_by v condition.now) (bits_by v a.now) (bits_by v b.now))) }
{
    match op {
        Op::Ite => choice(alloc, gates, condition[0], a, b),
        _ => unreachable!(),
    }
}
