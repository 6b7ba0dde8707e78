ghost use Rattle.std.specs.Prelude.{◌<◌, ◌^◌, IsTrue, All};
ghost use Rattle.vg_cnf.specs.Clauses.{IsOver};

use super::*;
use std::alloc::{AllocError, Global};
use std::test::Fail;
use vg_cnf::{Clauses, Lit, is_clause};

type Lists<'a> = &'a [&'a [i32]];

fn is_over(list: &[Lit], variables: u32) -> bool
    ensures { IsTrue result → All (IsOver variables) list.now }
{
    list.iter().all(|literal| literal.variable() <= variables)
}

// Adds the clause with these numbers.
fn add(alloc: Global, clauses: &mut Clauses, numbers: &[i32]) -> Result<(), AllocError> {
    let mut list = Vec::new(alloc);
    for number in numbers {
        if let Some(literal) = Lit::new(*number) {
            list.push(literal)?;
        }
    }
    let variables = clauses.variables();
    if is_clause(&list) {
        if is_over(&list, variables) {
            clauses.push(&list)?;
        }
    }
    Ok(())
}

// How the solver ends: with a model, refuted in so many steps, or spent after so many clauses.
fn ends(
    alloc: Global,
    variables: u32,
    lists: Lists<'_>,
    limit: u32,
) -> Result<(char, usize), AllocError>
    requires { variables < 2 ^ 31 }
{
    let mut clauses = Clauses::new(alloc, variables);
    for numbers in lists {
        add(alloc, &mut clauses, numbers)?;
    }
    match solve(alloc, &clauses, limit) {
        Ok(Answer::Model(_)) => Ok(('m', 0)),
        Ok(Answer::Refuted(steps)) => Ok(('r', steps.len())),
        Ok(Answer::Spent(steps)) => Ok(('s', steps.len())),
        Err(_) => Err(AllocError),
    }
}

const FOUR: Lists<'static> = &[&[1, 2], &[1, -2], &[-1, 2], &[-1, -2]];

// Three pigeons in two holes: variables 1 and 2, 3 and 4, 5 and 6 are the holes of each.
const PIGEONS: Lists<'static> = &[
    &[1, 2],
    &[3, 4],
    &[5, 6],
    &[-1, -3],
    &[-1, -5],
    &[-3, -5],
    &[-2, -4],
    &[-2, -6],
    &[-4, -6],
];

#[test]
fn each_answer(rt: HostRuntime) -> Result<(), Fail> {
    assert_eq!(rt; ends(rt.alloc(), 2, FOUR, 100)?, ('r', 2));
    assert_eq!(rt; ends(rt.alloc(), 2, FOUR, 0)?, ('s', 0));
    assert_eq!(rt; ends(rt.alloc(), 2, &[&[1, 2], &[-1]], 9)?, ('m', 0));
    assert_eq!(rt; ends(rt.alloc(), 1, &[&[1], &[-1]], 9)?, ('r', 1));
    let (answer, _) = ends(rt.alloc(), 6, PIGEONS, 729)?;
    assert_eq!(rt; answer, 'r');
    Ok(())
}
