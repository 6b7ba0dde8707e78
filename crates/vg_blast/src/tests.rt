//! What no clause says: small operations and facts worked by hand.

ghost use Rattle.vg_term.specs.Operations.{FitsTwo};

use crate::assigning::assignment;
use crate::blasting::{Blasted, blast};
use crate::gates::Gates;
use crate::operation::of_two;
use crate::wiring::constant;
use std::alloc::{AllocError, Global};
use std::rt::HostRuntime;
use std::test::Fail;
use vg_bits::Word;
use vg_cnf::{Clauses, Values};
use vg_term::{Op, TermId, Terms};

// The operations on two parts that make facts here.
#[derive(Clone, Copy, PartialEq, Eq, Debug)]
enum Pair {
    And,
    Or,
}

// Whether the circuit of an operation on known words is the known answer, without a gate.
fn answers(alloc: Global, op: Op, a: Word, b: Word, expected: Word) -> Result<bool, AllocError>
    requires { FitsTwo op a.width b.width }
{
    let mut gates = Gates::new(alloc)?;
    let left = constant(alloc, a)?;
    let right = constant(alloc, b)?;
    let out = of_two(alloc, &mut gates, op, &left, &right)?;
    let wanted = constant(alloc, expected)?;
    Ok(out.as_slice() == wanted.as_slice() && gates.literal_count() == 1)
}

#[test]
fn division_by_zero(rt: HostRuntime) -> Result<(), Fail> {
    let first = answers(
        rt.alloc(),
        Op::Udiv,
        Word::new(4, 7),
        Word::new(4, 0),
        Word::new(4, 15),
    )?;
    let second = answers(
        rt.alloc(),
        Op::Urem,
        Word::new(4, 7),
        Word::new(4, 0),
        Word::new(4, 7),
    )?;
    assert!(rt; first && second);
    Ok(())
}

#[test]
fn sums_and_products(rt: HostRuntime) -> Result<(), Fail> {
    let first = answers(
        rt.alloc(),
        Op::Sub,
        Word::new(4, 3),
        Word::new(4, 7),
        Word::new(4, 12),
    )?;
    let second = answers(
        rt.alloc(),
        Op::Mul,
        Word::new(4, 7),
        Word::new(4, 7),
        Word::new(4, 1),
    )?;
    assert!(rt; first && second);
    Ok(())
}

#[test]
fn shifts_by_the_width(rt: HostRuntime) -> Result<(), Fail> {
    let first = answers(
        rt.alloc(),
        Op::Shl,
        Word::new(4, 9),
        Word::new(4, 4),
        Word::new(4, 0),
    )?;
    let second = answers(
        rt.alloc(),
        Op::Ashr,
        Word::new(4, 9),
        Word::new(4, 4),
        Word::new(4, 15),
    )?;
    assert!(rt; first && second);
    Ok(())
}

#[test]
fn comparisons_at_the_edges(rt: HostRuntime) -> Result<(), Fail> {
    let first = answers(
        rt.alloc(),
        Op::Slt,
        Word::new(4, 8),
        Word::new(4, 7),
        Word::new(1, 1),
    )?;
    let second = answers(
        rt.alloc(),
        Op::Ult,
        Word::new(4, 8),
        Word::new(4, 7),
        Word::new(1, 0),
    )?;
    assert!(rt; first && second);
    Ok(())
}

// The term of `not` on a flag, never folded.
fn not(terms: &mut Terms, flag: TermId) -> Result<TermId, Fail> {
    if flag.0 >= terms.len() {
        return Err(Fail::from("the part doesn't stand"));
    }
    Ok(terms.make(Op::Not, &[flag])?)
}

// The term of an operation on two parts of one width, never folded.
fn two(terms: &mut Terms, op: Pair, a: TermId, b: TermId) -> Result<TermId, Fail> {
    if a.0 >= terms.len() || b.0 >= terms.len() || terms.width(a) != terms.width(b) {
        return Err(Fail::from("the parts don't fit"));
    }
    let made = match op {
        Pair::And => terms.make(Op::And, &[a, b])?,
        Pair::Or => terms.make(Op::Or, &[a, b])?,
    };
    Ok(made)
}

// What `blast` answers for one fact.
fn blasted(alloc: Global, terms: &Terms, fact: TermId) -> Result<Blasted, Fail> {
    if fact.0 >= terms.len() || terms.width(fact) != 1 {
        return Err(Fail::from("no fact"));
    }
    Ok(blast(alloc, terms, &[fact])?)
}

// Whether the last clause has just these literals, which are different.
fn ends_with(clauses: &Clauses, numbers: &[i32]) -> bool {
    let count = clauses.len();
    if count == 0 {
        return false;
    }
    let last = clauses.get(count - 1);
    for number in numbers {
        if !last.iter().any(|literal| literal.number() == *number) {
            return false;
        }
    }
    last.len() == numbers.len()
}

#[test]
fn no_facts(rt: HostRuntime) -> Result<(), Fail> {
    let mut terms = Terms::new(rt.alloc())?;
    let _ = terms.var(8)?;
    let blasted = blast(rt.alloc(), &terms, &[])?;
    assert_eq!(rt; blasted.clauses.variables(), 1);
    assert!(rt; ends_with(&blasted.clauses, &[1]));
    assert_eq!(rt; blasted.clauses.len(), 1);
    assert_eq!(rt; blasted.bits.len(), 0);
    Ok(())
}

#[test]
fn a_variable_as_a_fact(rt: HostRuntime) -> Result<(), Fail> {
    let mut terms = Terms::new(rt.alloc())?;
    let fact = terms.var(1)?;
    let blasted = blast(rt.alloc(), &terms, &[fact])?;
    // The first variable is always true, and the second is the fact's only bit.
    assert_eq!(rt; blasted.clauses.variables(), 2);
    assert_eq!(rt; blasted.bits.len(), 1);
    let mut values = Values::all_false(rt.alloc(), 2)?;
    values.set(1, true);
    assert!(rt; !blasted.clauses.is_satisfied_by(&values));
    values.set(2, true);
    assert!(rt; blasted.clauses.is_satisfied_by(&values));
    let assign = assignment(rt.alloc(), &terms, &blasted, &values)?;
    assert_eq!(rt; assign.words.len(), 1);
    assert_eq!(rt; assign.words[0].value, 1);
    Ok(())
}

// Where x and y are the variables 2 and 3, not both x and not y are true: not x, or y.
#[test]
fn a_negated_conjunction_is_one_clause(rt: HostRuntime) -> Result<(), Fail> {
    let mut terms = Terms::new(rt.alloc())?;
    let x = terms.var(1)?;
    let y = terms.var(1)?;
    let unlike = not(&mut terms, y)?;
    let both = two(&mut terms, Pair::And, x, unlike)?;
    let fact = not(&mut terms, both)?;
    let blasted = blasted(rt.alloc(), &terms, fact)?;
    assert!(rt; ends_with(&blasted.clauses, &[-2, 3]));
    Ok(())
}

// Where x, y and z are the variables 2 to 4: x, or not both y and z, is x or not y or not z.
#[test]
fn a_negated_conjunction_in_a_disjunction(rt: HostRuntime) -> Result<(), Fail> {
    let mut terms = Terms::new(rt.alloc())?;
    let x = terms.var(1)?;
    let y = terms.var(1)?;
    let z = terms.var(1)?;
    let both = two(&mut terms, Pair::And, y, z)?;
    let none = not(&mut terms, both)?;
    let fact = two(&mut terms, Pair::Or, x, none)?;
    let blasted = blasted(rt.alloc(), &terms, fact)?;
    assert!(rt; ends_with(&blasted.clauses, &[2, -3, -4]));
    Ok(())
}
