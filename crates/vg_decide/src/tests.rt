//! Questions on words of 8 bits whose answers are worked by hand.

ghost use Rattle.std.specs.Prelude.{◌≡◌, All, IsTrue};
ghost use Rattle.vg_term.specs.Terms.{Stands, width_at};
ghost use Rattle.vg_term.specs.Operations.{FitsTwo};

use super::*;
use std::alloc::Global;
use std::rt::HostRuntime;
use std::test::Fail;
use vg_bits::Word;
use vg_term::{Op, TermId, Terms};

// One part of a question: an operation on two words of 8 bits, of which each is x, y, or a number.
#[derive(Clone, Copy)]
enum Operand {
    X,
    Y,
    Number(u8),
}

use Operand::{Number, X, Y};

// `a op b == c`, or `a < b` for the operation `Ult`.
#[derive(Clone, Copy)]
struct Claim {
    op: Op,
    a: Operand,
    b: Operand,
    c: Operand,
}

// Whether an operation takes two parts of these widths.
fn fits(op: Op, a: u8, b: u8) -> bool
    ensures { IsTrue result → FitsTwo op a b }
{
    match op {
        Op::Add | Op::Mul | Op::And | Op::Eq | Op::Ult => a == b,
        _ => false,
    }
}

fn two(terms: &mut Terms, op: Op, a: TermId, b: TermId) -> Result<TermId, Fail> {
    if a.0 >= terms.len() || b.0 >= terms.len() || !fits(op, terms.width(a), terms.width(b)) {
        return Err(Fail::from("the parts don't fit"));
    }
    Ok(terms.make(op, &[a, b])?)
}

fn operand_term(terms: &mut Terms, x: TermId, y: TermId, operand: Operand) -> Result<TermId, Fail> {
    match operand {
        X => Ok(x),
        Y => Ok(y),
        Number(value) => Ok(terms.make(Op::Const(Word::new(8, u64::from(value))), &[])?),
    }
}

fn fact(terms: &mut Terms, x: TermId, y: TermId, claim: Claim) -> Result<TermId, Fail> {
    let a = operand_term(terms, x, y, claim.a)?;
    let b = operand_term(terms, x, y, claim.b)?;
    let left = two(terms, claim.op, a, b)?;
    if claim.op == Op::Ult {
        return Ok(left);
    }
    let c = operand_term(terms, x, y, claim.c)?;
    two(terms, Op::Eq, left, c)
}

// Whether each fact is one bit wide.
fn are_flags(terms: &Terms, facts: &[TermId]) -> bool
    ensures stand { IsTrue result → All (Stands terms.now) facts.now }
    ensures flags { IsTrue result → All (λ fact. width_at terms.now fact ≡ 1) facts.now }
{
    facts
        .iter()
        .all(|fact| fact.0 < terms.len() && terms.width(*fact) == 1)
}

// What is decided of claims: the word for x where they are possible, `refuted`, or `spent`.
fn decided(alloc: Global, claims: &[Claim], limit: u32) -> Result<Result<u64, &'static str>, Fail> {
    let mut terms = Terms::new(alloc)?;
    let x = terms.var(8)?;
    let y = terms.var(8)?;
    let mut facts = Vec::new(alloc);
    for claim in claims {
        facts.push(fact(&mut terms, x, y, *claim)?)?;
    }
    if !are_flags(&terms, &facts) {
        return Err(Fail::from("a fact isn't one bit wide"));
    }
    match decide(alloc, &mut terms, &facts, limit)? {
        Decision::Possible(assign) => Ok(Ok(assign.words.first().ok_or("no word for x")?.value)),
        Decision::Refuted(_) => Ok(Err("refuted")),
        Decision::Spent(_) => Ok(Err("spent")),
    }
}

fn less(a: Operand, b: Operand) -> Claim {
    Claim {
        op: Op::Ult,
        a,
        b,
        c: Number(0),
    }
}

fn equal(op: Op, a: Operand, b: Operand, c: Operand) -> Claim {
    Claim { op, a, b, c }
}

#[test]
fn questions_on_words(rt: HostRuntime) -> Result<(), Fail> {
    let alloc = rt.alloc();
    let next_is_none = [equal(Op::Add, X, Number(1), Number(0))];
    let between = [less(X, Number(3)), less(Number(1), X)];
    let beyond = [less(X, Number(3)), less(Number(2), X)];
    let twice_is_odd = [
        equal(Op::Add, X, X, Y),
        equal(Op::And, Y, Number(1), Number(1)),
    ];
    // 143 is 11 * 13, and no other word below 12 times one below 14.
    let factors = [
        equal(Op::Mul, X, Y, Number(143)),
        less(X, Number(12)),
        less(Y, Number(14)),
    ];
    assert_eq!(rt; decided(alloc, &next_is_none, 100)?, Ok(255));
    assert_eq!(rt; decided(alloc, &between, 100)?, Ok(2));
    assert_eq!(rt; decided(alloc, &beyond, 100)?, Err("refuted"));
    assert_eq!(rt; decided(alloc, &twice_is_odd, 100)?, Err("refuted"));
    assert_eq!(rt; decided(alloc, &factors, 10_000)?, Ok(11));
    assert_eq!(rt; decided(alloc, &factors, 0)?, Err("spent"));
    Ok(())
}
