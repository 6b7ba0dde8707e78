//! The solver and the checker on made clauses, whose answers are known.

ghost use Rattle.std.specs.Prelude.{IsTrue, All};
ghost use Rattle.vg_cnf.specs.Clauses.{IsOver};

use std::alloc::{AllocError, Global};
use std::rt::HostRuntime;
use std::test::Fail;
use vg_cnf::{Clauses, Lit, is_clause};
use vg_rup::check_refutation;
use vg_sat::{Answer, solve};

// What minisat answers on the random clauses of the seeds 1 to 20: bench/random_answers.sh prints it.
const RANDOM: &str = "ussususssssssssuussu";

fn is_over(list: &[Lit], variables: u32) -> bool
    ensures { IsTrue result → All (IsOver variables) list.now }
{
    list.iter().all(|literal| literal.variable() <= variables)
}

// Adds the clause with these numbers.
fn add(alloc: Global, clauses: &mut Clauses, numbers: &[i32]) -> Result<(), AllocError> {
    let mut list = Vec::new(alloc);
    for number in numbers {
        if let Some(literal) = Lit::new(*number) {
            list.push(literal)?;
        }
    }
    let variables = clauses.variables();
    if is_clause(&list) {
        if is_over(&list, variables) {
            clauses.push(&list)?;
        }
    }
    Ok(())
}

// Whether the clauses are satisfiable (s) or not (u); what is answered is checked.
fn answer(alloc: Global, clauses: &Clauses) -> Result<char, AllocError> {
    let Ok(answer) = solve(alloc, clauses, 10_000) else {
        return Err(AllocError);
    };
    match answer {
        Answer::Model(values) => {
            if values.len() == clauses.variables() as usize {
                if clauses.is_satisfied_by(&values) {
                    return Ok('s');
                }
            }
            Ok('x')
        }
        Answer::Refuted(steps) => match check_refutation(alloc, clauses, &steps) {
            Ok(()) => Ok('u'),
            Err(_) => Ok('x'),
        },
        Answer::Spent(_) => Ok('x'),
    }
}

// The number of the variable that a pigeon sits in a hole, of so many.
fn seat(holes: i32, pigeon: i32, hole: i32) -> i32 {
    pigeon
        .wrapping_mul(holes)
        .wrapping_add(hole)
        .wrapping_add(1)
}

// Each of the pigeons sits in one of the holes.
fn seat_each(
    alloc: Global,
    clauses: &mut Clauses,
    pigeons: i32,
    holes: i32,
) -> Result<(), AllocError> {
    for pigeon in 0..pigeons {
        let mut seats = Vec::new(alloc);
        for hole in 0..holes {
            seats.push(seat(holes, pigeon, hole))?;
        }
        add(alloc, clauses, &seats)?;
    }
    Ok(())
}

// No two of the pigeons sit in one hole.
fn keep_apart(
    alloc: Global,
    clauses: &mut Clauses,
    pigeons: i32,
    holes: i32,
) -> Result<(), AllocError> {
    for hole in 0..holes {
        for pigeon in 0..pigeons {
            for other in 0..pigeon {
                let pair = [
                    seat(holes, pigeon, hole).wrapping_neg(),
                    seat(holes, other, hole).wrapping_neg(),
                ];
                add(alloc, clauses, &pair)?;
            }
        }
    }
    Ok(())
}

#[test]
fn pigeons_in_holes(rt: HostRuntime) -> Result<(), Fail> {
    let alloc = rt.alloc();
    for holes in 1..7 {
        for (pigeons, expected) in [(holes, 's'), (holes + 1, 'u')] {
            let mut clauses = Clauses::new(alloc, 42);
            seat_each(alloc, &mut clauses, pigeons, holes)?;
            keep_apart(alloc, &mut clauses, pigeons, holes)?;
            assert_eq!(rt; answer(alloc, &clauses)?, expected);
        }
    }
    Ok(())
}

// An even number of the three is true.
fn even(alloc: Global, clauses: &mut Clauses, a: i32, b: i32, c: i32) -> Result<(), AllocError> {
    add(alloc, clauses, &[a.wrapping_neg(), b, c])?;
    add(alloc, clauses, &[a, b.wrapping_neg(), c])?;
    add(alloc, clauses, &[a, b, c.wrapping_neg()])?;
    add(
        alloc,
        clauses,
        &[a.wrapping_neg(), b.wrapping_neg(), c.wrapping_neg()],
    )
}

// The parity of the variables 1 to 8, taken from the first on as 20 and from the last on as 40.
fn parities(alloc: Global) -> Result<Clauses, AllocError> {
    let mut clauses = Clauses::new(alloc, 40);
    even(alloc, &mut clauses, 1, 2, 12)?;
    even(alloc, &mut clauses, 8, 7, 32)?;
    for (item, from, to) in [
        (3, 12, 13),
        (4, 13, 14),
        (5, 14, 15),
        (6, 15, 16),
        (7, 16, 17),
        (8, 17, 20),
    ] {
        even(alloc, &mut clauses, item, from, to)?;
    }
    for (item, from, to) in [
        (6, 32, 33),
        (5, 33, 34),
        (4, 34, 35),
        (3, 35, 36),
        (2, 36, 37),
        (1, 37, 40),
    ] {
        even(alloc, &mut clauses, item, from, to)?;
    }
    Ok(clauses)
}

#[test]
fn parity_chains(rt: HostRuntime) -> Result<(), Fail> {
    let alloc = rt.alloc();
    let mut clauses = parities(alloc)?;
    add(alloc, &mut clauses, &[20])?;
    assert_eq!(rt; answer(alloc, &clauses)?, 's');
    add(alloc, &mut clauses, &[-40])?;
    assert_eq!(rt; answer(alloc, &clauses)?, 'u');
    Ok(())
}

// The next number of the generator of Park and Miller.
fn next(state: u64) -> u64 {
    state.wrapping_mul(16807) % 2_147_483_647
}

// Three different variables, each below 40, from a state on, and the state after them.
fn three(start: u64) -> ([u64; 3], u64) {
    let mut state = next(start);
    let first = state % 40;
    let mut second = first;
    let mut third = first;
    // Equal ones are drawn again, which 50 draws are enough for.
    for _draw in 0..50 {
        if second == first {
            state = next(state);
            second = state % 40;
        }
    }
    for _draw in 0..50 {
        if third == first || third == second {
            state = next(state);
            third = state % 40;
        }
    }
    ([first, second, third], state)
}

// 170 clauses of three of 40 variables.
fn random(alloc: Global, seed: u64) -> Result<Clauses, AllocError> {
    let mut clauses = Clauses::new(alloc, 40);
    let mut state = seed.wrapping_mul(1_000_003);
    for _clause in 0..170 {
        let (variables, after) = three(state);
        state = after;
        let mut numbers = [0, 0, 0];
        for (number, variable) in numbers.iter_mut().zip(variables) {
            state = next(state);
            let positive = (variable % 40) as i32 + 1;
            *number = if state % 2 == 1 { positive } else { -positive };
        }
        add(alloc, &mut clauses, &numbers)?;
    }
    Ok(clauses)
}

#[test]
fn random_clauses(rt: HostRuntime) -> Result<(), Fail> {
    let alloc = rt.alloc();
    let mut seed: u64 = 1;
    for expected in RANDOM.chars() {
        let clauses = random(alloc, seed)?;
        assert_eq!(rt; answer(alloc, &clauses)?, expected);
        seed = seed.wrapping_add(1);
    }
    Ok(())
}
