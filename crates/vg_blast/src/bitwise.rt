// Operations that work on each bit by itself.

ghost use Rattle.std.specs.Prelude.{◌≡◌, ◌+◌, ◌*◌, length, All, IfOk};
ghost use Rattle.vg_cnf.specs.Clauses.{IsOver};
ghost use Rattle.vg_blast.specs.Circuits.{MakesBit, MakesWord, truth, number, differ};
ghost use Rattle.vg_blast.specs.Bitwise.{bit_by, number_by};

use crate::gates::Gates;
use std::alloc::{AllocError, Global};
use vg_cnf::Lit;

/// What is done to each bit of two words.
#[derive(Clone, Copy, PartialEq, Eq, Debug)]
pub(crate) enum Bitwise {
    /// Whether both have it.
    And,
    /// Whether either has it.
    Or,
    /// Whether just one has it.
    Xor,
}

/// One bit of the answer.
fn bit(gates: &mut Gates, op: Bitwise, a: Lit, b: Lit) -> Result<Lit, AllocError>
    requires { IsOver gates.old.variables a × IsOver gates.old.variables b }
    ensures { IfOk result (λ out. MakesBit gates.old gates.new 12 out (λ v. bit_by op (truth v a) (truth v b))) }
{
    match op {
        Bitwise::And => gates.and(a, b),
        Bitwise::Or => gates.or(a, b),
        Bitwise::Xor => gates.xor(a, b),
    }
}

/// An operation on each bit of two words.
pub(crate) fn bit_by_bit(
    alloc: Global,
    gates: &mut Gates,
    op: Bitwise,
    a: &[Lit],
    b: &[Lit],
) -> Result<Vec<Lit>, AllocError>
    requires same { length a.now ≡ length b.now }
    requires over { All (IsOver gates.old.variables) a.now × All (IsOver gates.old.variables) b.now }
    ensures { IfOk result (λ out. MakesWord gates.old gates.new (12 * length a.now) out.items (length a.now)
        (λ v. number_by op (number v a.now) (number v b.now))) }
{
    let mut out = Vec::new(alloc);
    for at in 0..a.len() {
        let literal = bit(gates, op, a[at], b[at])?;
        out.push(literal)?;
    }
    Ok(out)
}
