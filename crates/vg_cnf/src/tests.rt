ghost use Rattle.std.specs.Prelude.{◌≡◌, IfOk};

use super::*;
use std::alloc::{AllocError, Global};
use std::test::Fail;

// (1 2) (1 -2) (-1 2): true where both variables are, and nowhere else.
fn three(alloc: Global) -> Result<Clauses, AllocError>
    ensures { IfOk result (λ clauses. clauses.variables ≡ 2) }
{
    let one = Lit::of_variable(1);
    let two = Lit::of_variable(2);
    let mut clauses = Clauses::new(alloc, 2);
    clauses.push(&[one, two])?;
    clauses.push(&[one, two.negated()])?;
    clauses.push(&[one.negated(), two])?;
    Ok(clauses)
}

// Whether the two values make the clauses true.
fn are_true(alloc: Global, clauses: &Clauses, first: bool, second: bool) -> Result<bool, AllocError>
    requires { clauses.now.variables ≡ 2 }
{
    let mut values = Values::all_false(alloc, 2)?;
    values.set(1, first);
    values.set(2, second);
    Ok(clauses.is_satisfied_by(&values))
}

#[test]
fn models(rt: HostRuntime) -> Result<(), Fail> {
    let mut clauses = three(rt.alloc())?;
    assert_eq!(rt; clauses.len(), 3);
    assert_eq!(rt; clauses.literal_count(), 6);
    for (first, second) in [(false, false), (false, true), (true, false), (true, true)] {
        assert_eq!(rt;
            are_true(rt.alloc(), &clauses, first, second)?,
            first && second
        );
    }
    let last = [Lit::of_variable(1).negated(), Lit::of_variable(2).negated()];
    clauses.push(&last)?;
    assert!(rt; clauses.get(3) == last.as_slice());
    for (first, second) in [(false, false), (false, true), (true, false), (true, true)] {
        assert!(rt; !are_true(rt.alloc(), &clauses, first, second)?);
    }
    let new = clauses.add_variable();
    assert_eq!(rt; new.number(), 3);
    assert_eq!(rt; clauses.variables(), 3);
    Ok(())
}

#[test]
fn literals(rt: HostRuntime) -> Result<(), Fail> {
    assert!(rt; Lit::new(0).is_none() && Lit::new(i32::MIN).is_none());
    let Some(least) = Lit::new(-i32::MAX) else {
        return Ok(());
    };
    assert_eq!(rt; least.variable(), 2147483647);
    assert!(rt; !least.is_positive() && least.negated().is_positive());
    assert!(rt; is_clause(&[least, least]) && !is_clause(&[least, least.negated()]));
    let mut steps = Refutation::new(rt.alloc());
    steps.push(&[least, least.negated()])?;
    steps.push(&[])?;
    assert_eq!(rt;
        (steps.len(), steps.get(0).len(), steps.get(1).len()),
        (2, 2, 0)
    );
    Ok(())
}
