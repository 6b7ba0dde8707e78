// Words made of literals that stand, without a gate.

ghost use Rattle.std.specs.Prelude.{◌≡◌, ◌<◌, ◌≤◌, ◌+◌, ◌-◌, ◌++◌, ◌∷◌, [], map, length, take, drop, replicate, get_or, neg_ℤ, pos, IfOk, nat_eq, ◌/◌};
ghost use Rattle.std.specs.Prelude.{◌%◌, ◌^◌};
ghost use Rattle.vg_blast.specs.Circuits.{IsConstant, IsKnown};

use crate::gate::truth;
use std::alloc::{AllocError, Global};
use vg_bits::Word;
use vg_cnf::Lit;

/// The literal with this truth in each model.
fn known(holds: bool) -> Lit
    ensures { IsKnown result holds }
{
    if holds { truth() } else { truth().negated() }
}

/// Whether a word has a bit.
#[tactic(auto, using(std::proofs::lemmas::Nat::Bits::shr_and_one))]
fn bit_of(word: Word, at: u8) -> bool
    requires { at < 64 }
    ensures { result ≡ nat_eq (word.value / 2 ^ at % 2) 1 }
{
    word.value >> at & 1 == 1
}

/// The literals of a word's bits, the least significant first.
pub(crate) fn constant(alloc: Global, word: Word) -> Result<Vec<Lit>, AllocError>
    ensures { IfOk result (λ out. IsConstant out.items word.width word.value) }
{
    let mut out = Vec::new(alloc);
    for at in 0..word.width {
        out.push(known(bit_of(word, at)))?;
    }
    Ok(out)
}

/// Each literal's negation.
pub(crate) fn negated(alloc: Global, a: &[Lit]) -> Result<Vec<Lit>, AllocError>
    ensures { IfOk result (λ out. out.items ≡ map neg_ℤ a.now) }
{
    let mut out = Vec::new(alloc);
    for literal in a {
        out.push(literal.negated())?;
    }
    Ok(out)
}

/// The same literals.
pub(crate) fn copied(alloc: Global, a: &[Lit]) -> Result<Vec<Lit>, AllocError>
    ensures { IfOk result (λ out. out.items ≡ a.now) }
{
    a.to_vec(alloc)
}

/// A literal so many times.
pub(crate) fn repeated(alloc: Global, literal: Lit, times: usize) -> Result<Vec<Lit>, AllocError>
    ensures { IfOk result (λ out. out.items ≡ replicate times literal) }
{
    vec![in alloc; literal; times]
}

/// One word above another.
pub(crate) fn joined(alloc: Global, low: &[Lit], high: &[Lit]) -> Result<Vec<Lit>, AllocError>
    ensures { IfOk result (λ out. out.items ≡ low.now ++ high.now) }
{
    let mut out = copied(alloc, low)?;
    out.extend_from_slice(high)?;
    Ok(out)
}

/// The lowest literals.
pub(crate) fn front(alloc: Global, a: &[Lit], width: usize) -> Result<Vec<Lit>, AllocError>
    requires { width ≤ length a.now }
    ensures { IfOk result (λ out. out.items ≡ take width a.now) }
{
    let (low, _) = a.split_at(width);
    copied(alloc, low)
}

/// The literals from one place up to another.
pub(crate) fn part(
    alloc: Global,
    a: &[Lit],
    from: usize,
    width: usize,
) -> Result<Vec<Lit>, AllocError>
    requires { from + width ≤ length a.now }
    ensures { IfOk result (λ out. out.items ≡ take width (drop from a.now)) }
{
    let (_, rest) = a.split_at(from);
    let (part, _) = rest.split_at(width);
    copied(alloc, part)
}

/// A word with a literal repeated above it.
pub(crate) fn extended(
    alloc: Global,
    a: &[Lit],
    fill: Lit,
    more: usize,
) -> Result<Vec<Lit>, AllocError>
    ensures { IfOk result (λ out. out.items ≡ a.now ++ replicate more fill) }
{
    let high = repeated(alloc, fill, more)?;
    joined(alloc, a, &high)
}

/// A word to the left by so many places, with a literal from the right.
pub(crate) fn moved_left(
    alloc: Global,
    a: &[Lit],
    fill: Lit,
    by: usize,
) -> Result<Vec<Lit>, AllocError>
    requires { by ≤ length a.now }
    ensures { IfOk result (λ out. out.items ≡ replicate by fill ++ take (length a.now - by) a.now) }
{
    let low = repeated(alloc, fill, by)?;
    let (high, _) = a.split_at(a.len() - by);
    joined(alloc, &low, high)
}

/// A word to the right by so many places, with a literal from the left.
pub(crate) fn moved_right(
    alloc: Global,
    a: &[Lit],
    fill: Lit,
    by: usize,
) -> Result<Vec<Lit>, AllocError>
    requires { by ≤ length a.now }
    ensures { IfOk result (λ out. out.items ≡ drop by a.now ++ replicate by fill) }
{
    let (_, low) = a.split_at(by);
    extended(alloc, low, fill, by)
}

/// A word with its highest bit turned.
pub(crate) fn top_turned(alloc: Global, a: &[Lit]) -> Result<Vec<Lit>, AllocError>
    requires { 0 < length a.now }
    ensures { IfOk result (λ out. out.items ≡ take (length a.now - 1) a.now ++ neg_ℤ (get_or a.now (length a.now - 1) (pos 1)) ∷ []) }
{
    let last = a.len() - 1;
    let (low, _) = a.split_at(last);
    let mut out = copied(alloc, low)?;
    out.push(a[last].negated())?;
    Ok(out)
}
