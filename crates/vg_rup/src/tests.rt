ghost use Rattle.std.specs.Prelude.{◌<◌, ◌^◌, IsTrue, All};
ghost use Rattle.vg_cnf.specs.Clauses.{IsOver};

use super::*;
use std::alloc::{AllocError, Global};
use std::test::Fail;
use vg_cnf::{Clauses, Lit, Refutation, is_clause};

type Lists<'a> = &'a [&'a [i32]];

// Each of two variables or its negation, which no values make true.
const FOUR: Lists<'static> = &[&[1, 2], &[1, -2], &[-1, 2], &[-1, -2]];

// The literals with these numbers, none of which is 0.
fn literals(alloc: Global, numbers: &[i32]) -> Result<Vec<Lit>, AllocError> {
    let mut list = Vec::new(alloc);
    for number in numbers {
        if let Some(literal) = Lit::new(*number) {
            list.push(literal)?;
        }
    }
    Ok(list)
}

fn is_over(list: &[Lit], variables: u32) -> bool
    ensures { IsTrue result → All (IsOver variables) list.now }
{
    list.iter().all(|literal| literal.variable() <= variables)
}

// Adds a list that is a clause over the variables.
fn add(clauses: &mut Clauses, list: &[Lit]) -> Result<(), AllocError> {
    let variables = clauses.variables();
    if is_clause(list) {
        if is_over(list, variables) {
            clauses.push(list)?;
        }
    }
    Ok(())
}

// What the checker says of these steps and the clauses among these lists.
fn check(
    alloc: Global,
    variables: u32,
    clauses: Lists<'_>,
    steps: Lists<'_>,
) -> Result<Result<(), RupFault>, AllocError>
    requires { variables < 2 ^ 31 }
{
    let mut given = Clauses::new(alloc, variables);
    for numbers in clauses {
        let list = literals(alloc, numbers)?;
        add(&mut given, &list)?;
    }
    let mut proof = Refutation::new(alloc);
    for numbers in steps {
        let list = literals(alloc, numbers)?;
        proof.push(&list)?;
    }
    Ok(check_refutation(alloc, &given, &proof))
}

#[test]
fn four_clauses(rt: HostRuntime) -> Result<(), Fail> {
    let says = |steps: Lists<'_>| check(rt.alloc(), 2, FOUR, steps);
    assert_eq!(rt; says(&[&[1], &[]])?, Ok(()));
    assert_eq!(rt; says(&[&[]])?, Err(RupFault::NotUnit(1)));
    assert_eq!(rt; says(&[&[1]])?, Err(RupFault::NoEmpty));
    assert_eq!(rt; says(&[])?, Err(RupFault::NoEmpty));
    assert_eq!(rt; says(&[&[1, 1], &[], &[2]])?, Err(RupFault::NoEmpty));
    Ok(())
}

// No list with a literal and its negation follows, wherever it stands.
#[test]
fn tautologies(rt: HostRuntime) -> Result<(), Fail> {
    let says = |steps: Lists<'_>| check(rt.alloc(), 2, FOUR, steps);
    assert_eq!(rt; says(&[&[1], &[2, -2], &[]])?, Err(RupFault::NotUnit(2)));
    assert_eq!(rt; says(&[&[1], &[], &[1, 2, -1]])?, Err(RupFault::NotUnit(3)));
    Ok(())
}

#[test]
fn an_empty_clause_given(rt: HostRuntime) -> Result<(), Fail> {
    let says = |steps: Lists<'_>| check(rt.alloc(), 1, &[&[1], &[]], steps);
    assert_eq!(rt; says(&[&[]])?, Ok(()));
    assert_eq!(rt; says(&[])?, Err(RupFault::NoEmpty));
    Ok(())
}

// Steps over variables that no clause names, up to the last that there is.
#[test]
fn far_variables(rt: HostRuntime) -> Result<(), Fail> {
    let says = |steps: Lists<'_>| check(rt.alloc(), 2, FOUR, steps);
    let far = i32::MAX;
    assert_eq!(rt; says(&[&[1, far], &[1], &[]])?, Ok(()));
    assert_eq!(rt;
        says(&[&[1, far], &[1, -far], &[]])?,
        Err(RupFault::NotUnit(3))
    );
    assert_eq!(rt; says(&[&[far]])?, Err(RupFault::NotUnit(1)));
    Ok(())
}

// Three pigeons in two holes: variables 1 and 2, 3 and 4, 5 and 6 are the holes of each.
#[test]
fn pigeons(rt: HostRuntime) -> Result<(), Fail> {
    let clauses: Lists<'_> = &[
        &[1, 2],
        &[3, 4],
        &[5, 6],
        &[-1, -3],
        &[-1, -5],
        &[-3, -5],
        &[-2, -4],
        &[-2, -6],
        &[-4, -6],
    ];
    let says = |steps: Lists<'_>| check(rt.alloc(), 6, clauses, steps);
    assert_eq!(rt; says(&[&[1], &[]])?, Ok(()));
    assert_eq!(rt; says(&[&[]])?, Err(RupFault::NotUnit(1)));
    assert_eq!(rt; says(&[&[-1], &[]])?, Ok(()));
    assert_eq!(rt; says(&[&[1, 3], &[7], &[]])?, Err(RupFault::NotUnit(2)));
    Ok(())
}

// Rivest's clauses and the refutation of Knuth (The Art of Computer Programming 7.2.2.2, "Certificates of unsatisfiability").
#[test]
fn rivest(rt: HostRuntime) -> Result<(), Fail> {
    let clauses: Lists<'_> = &[
        &[1, 2, -3],
        &[2, 3, -4],
        &[3, 4, 1],
        &[4, -1, 2],
        &[-1, -2, 3],
        &[-2, -3, 4],
        &[-3, -4, -1],
        &[-4, 1, -2],
    ];
    let says = |steps: Lists<'_>| check(rt.alloc(), 4, clauses, steps);
    assert_eq!(rt; says(&[&[1, 2], &[1], &[2], &[]])?, Ok(()));
    assert_eq!(rt; says(&[&[1, 2], &[1], &[]])?, Err(RupFault::NotUnit(3)));
    assert_eq!(rt;
        says(&[&[1, 2], &[3], &[1], &[2], &[]])?,
        Err(RupFault::NotUnit(2))
    );
    assert_eq!(rt; says(&[&[1, 2], &[1], &[2]])?, Err(RupFault::NoEmpty));
    Ok(())
}
