//! `solve FILE LIMIT [PROOF]` and `check FILE PROOF`: the solver and the checker on texts.

use crate::dimacs::{Unread, read, read_steps};
use crate::stop::Stop;
use std::alloc::{AllocError, Global};
use vg_cnf::{Clauses, Lit, Refutation, Values};
use vg_rup::{RupFault, check_refutation};
use vg_sat::{Answer, solve};

/// What is printed of an answer, and the proof that is written of a refutation.
#[derive(Drop)]
pub struct Solved {
    pub report: String,
    pub proof: Option<String>,
}

/// Solves the clauses that a text spells. A refutation is checked, or where a proof is wanted, written out.
pub fn solve_text(
    alloc: Global,
    text: &str,
    limit: u32,
    wants_proof: bool,
) -> Result<Solved, Stop> {
    let clauses = clauses_of(alloc, text)?;
    let Ok(answer) = solve(alloc, &clauses, limit) else {
        return Err(Stop::Memory);
    };
    match answer {
        Answer::Model(values) => Ok(plain(model_text(alloc, &values)?)),
        Answer::Spent(steps) => Ok(plain(format!(in alloc; "s UNKNOWN {}\n", steps.len())?)),
        Answer::Refuted(steps) => {
            if wants_proof {
                return Ok(Solved {
                    report: format!(in alloc; "s UNSATISFIABLE {}\n", steps.len())?,
                    proof: Some(steps_text(alloc, &steps)?),
                });
            }
            Ok(plain(verdict(alloc, &clauses, &steps)?))
        }
    }
}

/// Checks the proof that a text spells.
pub fn check_text(alloc: Global, text: &str, proof: &str) -> Result<String, Stop> {
    let clauses = clauses_of(alloc, text)?;
    let steps = match read_steps(alloc, proof) {
        Ok(steps) => steps,
        Err(Unread::Line(line)) => return Err(Stop::Proof(line)),
        Err(Unread::Memory) => return Err(Stop::Memory),
    };
    verdict(alloc, &clauses, &steps)
}

/// A report without a proof.
fn plain(report: String) -> Solved {
    Solved {
        report,
        proof: None,
    }
}

/// The clauses that a text spells.
fn clauses_of(alloc: Global, text: &str) -> Result<Clauses, Stop> {
    match read(alloc, text) {
        Ok(clauses) => Ok(clauses),
        Err(Unread::Line(line)) => Err(Stop::Clauses(line)),
        Err(Unread::Memory) => Err(Stop::Memory),
    }
}

/// What the checker says of a refutation.
fn verdict(alloc: Global, clauses: &Clauses, steps: &Refutation) -> Result<String, Stop> {
    match check_refutation(alloc, clauses, steps) {
        Ok(()) => Ok(format!(in alloc; "s UNSATISFIABLE {} checked\n", steps.len())?),
        Err(RupFault::Memory) => Err(Stop::Memory),
        Err(RupFault::NotUnit(step)) => Ok(format!(in alloc; "step {} does not follow\n", step)?),
        Err(RupFault::NoEmpty) => Ok(format!(in alloc; "no empty clause\n")?),
    }
}

/// A model, one literal for each variable.
fn model_text(alloc: Global, values: &Values) -> Result<String, AllocError> {
    let mut text = format!(in alloc; "s SATISFIABLE\nv")?;
    for before in 0..values.len() {
        if before < 2_147_483_647 {
            let literal = Lit::of_variable(before as u32 + 1);
            let is_true = values.makes_literal_true(literal);
            let shown = if is_true { literal } else { literal.negated() };
            let word = format!(in alloc; " {}", shown.number())?;
            text.push_str(word.as_str())?;
        }
    }
    text.push_str(" 0\n")?;
    Ok(text)
}

/// The steps of a refutation, one a line, each ended by 0.
fn steps_text(alloc: Global, steps: &Refutation) -> Result<String, AllocError> {
    let mut text = String::new(alloc);
    for at in 0..steps.len() {
        for literal in steps.get(at) {
            let word = format!(in alloc; "{} ", literal.number())?;
            text.push_str(word.as_str())?;
        }
        text.push_str("0\n")?;
    }
    Ok(text)
}

#[cfg(test)]
mod tests {
    use super::*;
    use std::test::Fail;

    const FOUR: &str = "c all four\np cnf 2 5\n1 2 0\n1 -2 0\n-1 2 0\n-1 -2 2 0 -1 -2 -2 0\n";

    #[test]
    fn four_clauses(rt: HostRuntime) -> Result<(), Fail> {
        let alloc = rt.alloc();
        let solved = solve_text(alloc, FOUR, 100, false).expect(&rt, "room");
        assert_eq!(rt; solved.report.as_str(), "s UNSATISFIABLE 2 checked\n");
        let checked = check_text(alloc, FOUR, "1 0\n0\n").expect(&rt, "room");
        assert_eq!(rt; checked.as_str(), "s UNSATISFIABLE 2 checked\n");
        let unchecked = check_text(alloc, FOUR, "0\n").expect(&rt, "room");
        assert_eq!(rt; unchecked.as_str(), "step 1 does not follow\n");
        let model = solve_text(alloc, "p cnf 2 2\n-1 0 1 2 0\n", 9, false).expect(&rt, "room");
        assert_eq!(rt; model.report.as_str(), "s SATISFIABLE\nv -1 2 0\n");
        Ok(())
    }

    // In which line a text of clauses is malformed.
    #[test]
    fn malformed_clauses(rt: HostRuntime) -> Result<(), Fail> {
        let alloc = rt.alloc();
        for (text, line) in [
            ("", 1),
            ("c no head\nc at all\n", 2),
            ("p dnf 2 1\n1 0\n", 1),
            ("c clauses first\n1 0\np cnf 2 1\n", 2),
            ("p cnf 2 1\np cnf 2 1\n1 0\n", 2),
            ("p cnf 2 2\n1 x 0\n2 0\n", 2),
            ("p cnf 2 3\n1 0\n2 -3 0\n1 0\n", 3),
            ("p cnf 2 2\n1 0\nc one too few\n", 3),
            ("p cnf 2 1\n1 0\n2 0\nc one too many\n", 4),
            ("p cnf 2 1\n1\n2\n", 3),
        ] {
            let solved = solve_text(alloc, text, 9, false).err();
            assert_eq!(rt; solved, Some(Stop::Clauses(line)), "for {text}");
            let checked = check_text(alloc, text, "0\n").err();
            assert_eq!(rt; checked, Some(Stop::Clauses(line)), "for {text}");
        }
        let printed = format!(in alloc; "{}", Stop::Clauses(12))?;
        assert_eq!(rt; printed.as_str(), "clauses line 12");
        Ok(())
    }

    // In which line a proof is malformed; where both texts are, the clauses' line is told.
    #[test]
    fn malformed_proofs(rt: HostRuntime) -> Result<(), Fail> {
        let alloc = rt.alloc();
        for (proof, line) in [
            ("1\n0\n", 1),
            ("1 0\n\n0\n", 2),
            ("1 0\nd 1 0\n0\n", 2),
            ("1 0\n0 0\n", 2),
        ] {
            let checked = check_text(alloc, FOUR, proof).err();
            assert_eq!(rt; checked, Some(Stop::Proof(line)), "for {proof}");
        }
        let both = check_text(alloc, "p cnf 1 1\n", "1\n").err();
        assert_eq!(rt; both, Some(Stop::Clauses(1)));
        let printed = format!(in alloc; "{}", Stop::Proof(3))?;
        assert_eq!(rt; printed.as_str(), "proof line 3");
        Ok(())
    }
}
