//! Clauses in the DIMACS CNF format: comments begin with `c`, one line `p cnf VARIABLES CLAUSES` comes first, and each clause
//! ends with 0.
ghost use Rattle.std.specs.Prelude.{◌≡◌, ◌<◌, ◌^◌, IfOk, IsTrue, All};
ghost use Rattle.vg_cnf.specs.Clauses.{IsOver};

use std::alloc::{AllocError, Global};
use vg_cnf::{Clauses, Lit, LiteralLists, is_clause};

/// Why a text wasn't read.
#[derive(Clone, Copy, Debug, PartialEq, Eq)]
pub enum Unread {
    /// This line, counted from 1, is malformed.
    Line(usize),
    /// Memory ran out.
    Memory,
}

impl From<AllocError> for Unread {
    fn from(_: AllocError) -> Unread {
        Unread::Memory
    }
}

/// What was read of a text after its head.
#[derive(Drop)]
struct Reading {
    clauses: Clauses,
    // How many lists of literals the head says there are, and how many have ended.
    promised: u64,
    ended: u64,
    // The literals of the list that hasn't ended, each once.
    open: Vec<Lit>,
}

/// The clauses that a text spells. A list with a literal and its negation is left out, and a repeated literal counts once.
/// The last line is the malformed one where the text ends without a head, within a list, or after another number of lists than
/// the head says, those that are left out among them; of a text without lines it is line 1.
pub fn read(alloc: Global, text: &str) -> Result<Clauses, Unread> {
    let mut reading: Option<Reading> = None;
    let mut at: usize = 0;
    for line in text.lines() {
        at = at.saturating_add(1);
        if line.starts_with('c') {
            continue;
        }
        match &mut reading {
            None => reading = Some(head(alloc, line).ok_or(Unread::Line(at))?),
            Some(reading) => {
                if !read_line(reading, line)? {
                    return Err(Unread::Line(at));
                }
            }
        }
    }
    if let Some(reading) = reading {
        if reading.open.is_empty() && reading.ended == reading.promised {
            return Ok(reading.clauses);
        }
    }
    Err(Unread::Line(if at == 0 { 1 } else { at }))
}

/// No clauses over as many variables as the head says.
fn head(alloc: Global, line: &str) -> Option<Reading> {
    let mut words = line.split_ascii_whitespace();
    if words.next() != Some("p") || words.next() != Some("cnf") {
        return None;
    }
    let variables = words.next()?.parse::<u32>().ok()?;
    let promised = words.next()?.parse::<u64>().ok()?;
    if words.next().is_some() || variables > 2_147_483_647 {
        return None;
    }
    Some(Reading {
        clauses: Clauses::new(alloc, variables),
        promised,
        ended: 0,
        open: Vec::new(alloc),
    })
}

/// Reads the literals of a line, and answers whether it is well formed.
fn read_line(reading: &mut Reading, line: &str) -> Result<bool, AllocError> {
    for word in line.split_ascii_whitespace() {
        let Ok(number) = word.parse::<i32>() else {
            return Ok(false);
        };
        match Lit::new(number) {
            Some(literal) if literal.variable() <= reading.clauses.variables() => {
                if !reading.open.contains(&literal) {
                    reading.open.push(literal)?;
                }
            }
            None if number == 0 => {
                add(&mut reading.clauses, &reading.open)?;
                reading.open.clear();
                reading.ended = reading.ended.saturating_add(1);
            }
            _ => return Ok(false),
        }
    }
    Ok(true)
}

/// Whether the literals are of the variables from 1 up to a number.
fn is_over(list: &[Lit], variables: u32) -> bool
    ensures { IsTrue result → All (IsOver variables) list.now }
{
    list.iter().all(|literal| literal.variable() <= variables)
}

/// Adds a list, if it is a clause over the variables.
fn add(clauses: &mut Clauses, list: &[Lit]) -> Result<(), AllocError> {
    let variables = clauses.variables();
    if is_clause(list) {
        if is_over(list, variables) {
            clauses.push(list)?;
        }
    }
    Ok(())
}

/// The steps of a proof, one a line, each ended by 0.
pub fn read_steps(alloc: Global, text: &str) -> Result<LiteralLists, Unread> {
    let mut steps = LiteralLists::new(alloc);
    let mut at: usize = 0;
    for line in text.lines() {
        at = at.saturating_add(1);
        let step = step_of(alloc, line)?.ok_or(Unread::Line(at))?;
        steps.push(&step)?;
    }
    Ok(steps)
}

/// The literals of a line that ends with 0.
fn step_of(alloc: Global, line: &str) -> Result<Option<Vec<Lit>>, AllocError> {
    let mut step = Vec::new(alloc);
    let mut has_ended = false;
    for word in line.split_ascii_whitespace() {
        let Ok(number) = word.parse::<i32>() else {
            return Ok(None);
        };
        match Lit::new(number) {
            Some(literal) if !has_ended => step.push(literal)?,
            None if number == 0 && !has_ended => has_ended = true,
            _ => return Ok(None),
        }
    }
    Ok(if has_ended { Some(step) } else { None })
}

#[cfg(test)]
mod tests {
    use super::*;
    use std::test::Fail;

    // (1 or not 1) is left out, and counts; (2 or 2) is one literal; the last list is the empty clause.
    #[test]
    fn lists_as_clauses(rt: HostRuntime) -> Result<(), Fail> {
        let text = "c three\np cnf 2 3\n1 -1 0 2\nc within\n2 0\n0\n";
        let clauses = read(rt.alloc(), text).ok().ok_or("unread")?;
        assert_eq!(rt; (clauses.variables(), clauses.len()), (2, 2));
        assert_eq!(rt; clauses.literal_count(), 1);
        Ok(())
    }
}
