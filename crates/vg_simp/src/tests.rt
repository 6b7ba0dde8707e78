//! That rules are used: what they keep is proved.

ghost use Rattle.std.specs.Prelude.{IsTrue};
ghost use Rattle.vg_term.specs.Operations.{FitsOne, FitsTwo};

use crate::simplifying::simplify;
use std::alloc::Global;
use std::rt::HostRuntime;
use std::test::Fail;
use vg_bits::Word;
use vg_term::{Op, TermId, Terms};

// Whether an operation takes two parts of these widths.
fn fits_two(op: Op, a: u8, b: u8) -> bool
    ensures { IsTrue result → FitsTwo op a b }
{
    match op {
        Op::Add | Op::Sub | Op::Mul | Op::And | Op::Or => a == b,
        Op::Eq | Op::Ult | Op::Slt => a == b,
        _ => false,
    }
}

// Whether an operation takes one part of this width.
fn fits_one(op: Op, a: u8) -> bool
    ensures { IsTrue result → FitsOne op a }
{
    match op {
        Op::Not => true,
        Op::Extract { from, width } => 0 < width
            && u16::from(from) + u16::from(width) <= u16::from(a),
        Op::Zext(width) => a <= width && width <= 64,
        _ => false,
    }
}

fn two(terms: &mut Terms, op: Op, a: TermId, b: TermId) -> Result<TermId, Fail> {
    if a.0 >= terms.len() || b.0 >= terms.len() {
        return Err(Fail::from("a part doesn't stand"));
    }
    let left = terms.width(a);
    let right = terms.width(b);
    if !fits_two(op, left, right) {
        return Err(Fail::from("the parts don't fit"));
    }
    Ok(terms.build(op, &[a, b])?)
}

fn one(terms: &mut Terms, op: Op, a: TermId) -> Result<TermId, Fail> {
    if a.0 >= terms.len() {
        return Err(Fail::from("the part doesn't stand"));
    }
    let width = terms.width(a);
    if !fits_one(op, width) {
        return Err(Fail::from("the part doesn't fit"));
    }
    Ok(terms.build(op, &[a])?)
}

fn word(terms: &mut Terms, width: u8, value: u64) -> Result<TermId, Fail> {
    if width == 0 || width > 64 {
        return Err(Fail::from("no width"));
    }
    Ok(terms.build(Op::Const(Word::from_low_bits(width, value)), &[])?)
}

// The term under one fact.
fn under(alloc: Global, terms: &mut Terms, term: TermId, fact: TermId) -> Result<TermId, Fail> {
    if term.0 >= terms.len() || fact.0 >= terms.len() {
        return Err(Fail::from("a term doesn't stand"));
    }
    if terms.width(fact) != 1 {
        return Err(Fail::from("no fact"));
    }
    Ok(simplify(alloc, terms, term, &[fact])?)
}

// Whether the term is this word.
fn is_word(terms: &Terms, term: TermId, value: u64) -> bool {
    if term.0 >= terms.len() {
        return false;
    }
    match terms.constant(term) {
        Some(word) => word.value == value,
        None => false,
    }
}

// A word of 32 bits below 256 is its own lower byte extended.
fn whole(alloc: Global) -> Result<bool, Fail> {
    let mut terms = Terms::new(alloc)?;
    let x = terms.var(32)?;
    let limit = word(&mut terms, 32, 256)?;
    let fact = two(&mut terms, Op::Ult, x, limit)?;
    let byte = one(&mut terms, Op::Extract { from: 0, width: 8 }, x)?;
    let wide = one(&mut terms, Op::Zext(32), byte)?;
    let simple = under(alloc, &mut terms, wide, fact)?;
    Ok(simple == x && wide != x)
}

#[test]
fn an_extended_lower_part(rt: HostRuntime) -> Result<(), Fail> {
    let holds = whole(rt.alloc())?;
    assert!(rt; holds);
    Ok(())
}

// Where x is y and y is 5, the sum of both is 10.
fn replaced(alloc: Global) -> Result<bool, Fail> {
    let mut terms = Terms::new(alloc)?;
    let x = terms.var(16)?;
    let y = terms.var(16)?;
    let five = word(&mut terms, 16, 5)?;
    let first = two(&mut terms, Op::Eq, x, y)?;
    let second = two(&mut terms, Op::Eq, y, five)?;
    let fact = two(&mut terms, Op::And, first, second)?;
    let sum = two(&mut terms, Op::Add, x, y)?;
    let simple = under(alloc, &mut terms, sum, fact)?;
    Ok(is_word(&terms, simple, 10))
}

#[test]
fn equal_terms_are_replaced(rt: HostRuntime) -> Result<(), Fail> {
    let holds = replaced(rt.alloc())?;
    assert!(rt; holds);
    Ok(())
}

// Where x is below 10, x + 5 is below 15, and not below 5.
fn compared(alloc: Global) -> Result<bool, Fail> {
    let mut terms = Terms::new(alloc)?;
    let x = terms.var(16)?;
    let ten = word(&mut terms, 16, 10)?;
    let five = word(&mut terms, 16, 5)?;
    let fifteen = word(&mut terms, 16, 15)?;
    let fact = two(&mut terms, Op::Ult, x, ten)?;
    let sum = two(&mut terms, Op::Add, x, five)?;
    let below = two(&mut terms, Op::Ult, sum, fifteen)?;
    let small = two(&mut terms, Op::Ult, sum, five)?;
    let first = under(alloc, &mut terms, below, fact)?;
    let second = under(alloc, &mut terms, small, fact)?;
    Ok(is_word(&terms, first, 1) && is_word(&terms, second, 0))
}

#[test]
fn bounds_decide_comparisons(rt: HostRuntime) -> Result<(), Fail> {
    let holds = compared(rt.alloc())?;
    assert!(rt; holds);
    Ok(())
}

// A word that isn't below 7, nor above it, is 7.
fn narrowed(alloc: Global) -> Result<bool, Fail> {
    let mut terms = Terms::new(alloc)?;
    let x = terms.var(16)?;
    let seven = word(&mut terms, 16, 7)?;
    let below = two(&mut terms, Op::Ult, x, seven)?;
    let above = two(&mut terms, Op::Ult, seven, x)?;
    let either = two(&mut terms, Op::Or, below, above)?;
    let fact = one(&mut terms, Op::Not, either)?;
    let simple = under(alloc, &mut terms, x, fact)?;
    Ok(is_word(&terms, simple, 7))
}

#[test]
fn bounds_that_leave_one_number(rt: HostRuntime) -> Result<(), Fail> {
    let holds = narrowed(rt.alloc())?;
    assert!(rt; holds);
    Ok(())
}

// Where x is from 20 to 999, the extension of x + 5 or x - 20 is that of x and a constant of its width.
fn extended(alloc: Global) -> Result<bool, Fail> {
    let mut terms = Terms::new(alloc)?;
    let x = terms.var(16)?;
    let least = word(&mut terms, 16, 20)?;
    let most = word(&mut terms, 16, 1000)?;
    let five = word(&mut terms, 16, 5)?;
    let below = two(&mut terms, Op::Ult, x, most)?;
    let short = two(&mut terms, Op::Ult, x, least)?;
    let long = one(&mut terms, Op::Not, short)?;
    let fact = two(&mut terms, Op::And, below, long)?;
    let more = two(&mut terms, Op::Add, x, five)?;
    let less = two(&mut terms, Op::Sub, x, least)?;
    let wide_more = one(&mut terms, Op::Zext(32), more)?;
    let wide_less = one(&mut terms, Op::Zext(32), less)?;
    let wide = one(&mut terms, Op::Zext(32), x)?;
    let up = word(&mut terms, 32, 5)?;
    let down = word(&mut terms, 32, 4_294_967_276)?;
    let first = two(&mut terms, Op::Add, wide, up)?;
    let second = two(&mut terms, Op::Add, wide, down)?;
    let simple_more = under(alloc, &mut terms, wide_more, fact)?;
    let simple_less = under(alloc, &mut terms, wide_less, fact)?;
    Ok(simple_more == first && simple_less == second)
}

#[test]
fn sums_that_do_not_wrap(rt: HostRuntime) -> Result<(), Fail> {
    let holds = extended(rt.alloc())?;
    assert!(rt; holds);
    Ok(())
}

// Where x + 8 is at most y, and doesn't wrap, x + 7 is below y, and y is not x.
fn apart(alloc: Global) -> Result<bool, Fail> {
    let mut terms = Terms::new(alloc)?;
    let x = terms.var(32)?;
    let y = terms.var(32)?;
    let most = word(&mut terms, 32, 4096)?;
    let eight = word(&mut terms, 32, 8)?;
    let seven = word(&mut terms, 32, 7)?;
    let small = two(&mut terms, Op::Ult, x, most)?;
    let end = two(&mut terms, Op::Add, x, eight)?;
    let last = two(&mut terms, Op::Add, x, seven)?;
    let past = two(&mut terms, Op::Ult, y, end)?;
    let within = one(&mut terms, Op::Not, past)?;
    let fact = two(&mut terms, Op::And, small, within)?;
    let inside = two(&mut terms, Op::Ult, last, y)?;
    let same = two(&mut terms, Op::Eq, x, y)?;
    let first = under(alloc, &mut terms, inside, fact)?;
    let second = under(alloc, &mut terms, same, fact)?;
    Ok(is_word(&terms, first, 1) && is_word(&terms, second, 0))
}

#[test]
fn differences_decide_comparisons(rt: HostRuntime) -> Result<(), Fail> {
    let holds = apart(rt.alloc())?;
    assert!(rt; holds);
    Ok(())
}

// The term of an operation that isn't folded.
fn made(terms: &mut Terms, op: Op, a: TermId, b: TermId) -> Result<TermId, Fail> {
    if a.0 >= terms.len() || b.0 >= terms.len() {
        return Err(Fail::from("a part doesn't stand"));
    }
    let left = terms.width(a);
    let right = terms.width(b);
    if !fits_two(op, left, right) {
        return Err(Fail::from("the parts don't fit"));
    }
    Ok(terms.make(op, &[a, b])?)
}

// The sum of 3 and 5 is the constant 8, even where 3 is 5.
fn closed(alloc: Global) -> Result<bool, Fail> {
    let mut terms = Terms::new(alloc)?;
    let three = word(&mut terms, 8, 3)?;
    let five = word(&mut terms, 8, 5)?;
    let sum = made(&mut terms, Op::Add, three, five)?;
    let fact = made(&mut terms, Op::Eq, three, five)?;
    let simple = under(alloc, &mut terms, sum, fact)?;
    Ok(is_word(&terms, simple, 8) && !is_word(&terms, sum, 8))
}

#[test]
fn a_term_without_variables(rt: HostRuntime) -> Result<(), Fail> {
    let holds = closed(rt.alloc())?;
    assert!(rt; holds);
    Ok(())
}
