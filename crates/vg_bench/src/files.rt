//! The runs `solve` and `check` on files.
use crate::count::count_of;
use crate::solving::{check_text, solve_text};
use crate::stop::Stop;
use std::fs::{self, Files};
use std::io;

/// Solves the clauses of a file and prints the answer. Where a third word names a file, a refutation is written there and not checked.
pub fn run_solve(rt: &(impl Files + AllocGlobal + Print), words: &[String]) -> Result<(), Stop> {
    match words {
        [file, limit] => solve_file(rt, file.as_str(), limit.as_str(), None),
        [file, limit, proof] => solve_file(rt, file.as_str(), limit.as_str(), Some(proof.as_str())),
        _ => Err(Stop::Usage),
    }
}

fn solve_file(
    rt: &(impl Files + AllocGlobal + Print),
    file: &str,
    limit: &str,
    proof: Option<&str>,
) -> Result<(), Stop> {
    let limit = count_of(limit).ok_or(Stop::Usage)?;
    let text = text_of(rt, file)?;
    let solved = solve_text(rt.alloc(), text.as_str(), limit, proof.is_some())?;
    if let (Some(name), Some(steps)) = (proof, &solved.proof) {
        if fs::write(rt, name, steps.as_str()).is_err() {
            return Err(Stop::Write);
        }
    }
    print!(rt; "{}", solved.report.as_str()).map_err(|_| Stop::Print)
}

/// Checks the refutation in a file of the clauses in another, and prints what is found.
pub fn run_check(rt: &(impl Files + AllocGlobal + Print), words: &[String]) -> Result<(), Stop> {
    let [file, proof] = words else {
        return Err(Stop::Usage);
    };
    let text = text_of(rt, file.as_str())?;
    let steps = text_of(rt, proof.as_str())?;
    let report = check_text(rt.alloc(), text.as_str(), steps.as_str())?;
    print!(rt; "{}", report.as_str()).map_err(|_| Stop::Print)
}

/// The text of a file.
fn text_of(rt: &(impl Files + AllocGlobal), name: &str) -> Result<String, Stop> {
    match fs::read_to_string(rt, name) {
        Ok(text) => Ok(text),
        Err(error) if error.kind() == io::ErrorKind::OutOfMemory => Err(Stop::Memory),
        Err(_) => Err(Stop::Read),
    }
}
