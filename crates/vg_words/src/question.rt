//! Questions: variables, `var NAME WIDTH`, terms that have names, `let NAME TERM`, and facts, in any order, with a tab between.
ghost use Rattle.std.specs.Prelude.{◌≡◌, All, IsTrue};
ghost use Rattle.vg_term.specs.Terms.{Stands, width_at};

use crate::operations::Way;
use crate::reading::Reading;
use crate::stop::Stop;
use std::alloc::{AllocError, Global};
use std::fmt::Write;
use vg_decide::{Decision, decide};
use vg_term::{Assign, TermId, Terms};

// More clauses are learned for none of the questions.
const LIMIT: u32 = 100_000;

// Whether each fact stands and is of one bit.
fn are_facts(terms: &Terms, facts: &[TermId]) -> bool
    ensures stand { IsTrue result → All (Stands terms.now) facts.now }
    ensures flags { IsTrue result → All (λ fact. width_at terms.now fact ≡ 1) facts.now }
{
    facts
        .iter()
        .all(|fact| fact.0 < terms.len() && terms.width(*fact) == 1)
}

// `possible`, and what each variable may be, in the order in which they were named.
fn shown(alloc: Global, variables: &[&str], assign: &Assign) -> Result<String, AllocError> {
    let mut text = String::from_str(alloc, "possible")?;
    for (name, word) in variables.iter().zip(assign.words.iter()) {
        let value = word.value;
        text.push_str(format!(in alloc; " {name}={value}")?.as_str())?;
    }
    Ok(text)
}

// Reads an item of a question, and answers the term that it is where it is a fact.
fn item<'a>(
    alloc: Global,
    reading: &mut Reading<'a>,
    way: Way,
    item: &'a str,
) -> Result<Option<TermId>, Stop> {
    if let Some(rest) = item.strip_prefix("var ") {
        let (name, width) = rest.split_once(' ').ok_or(Stop::Word)?;
        reading.variable(name, width)?;
        return Ok(None);
    }
    if let Some(rest) = item.strip_prefix("let ") {
        let (name, text) = rest.split_once(' ').ok_or(Stop::Word)?;
        let term = reading.term(alloc, way, text)?;
        reading.name(name, term)?;
        return Ok(None);
    }
    Ok(Some(reading.term(alloc, way, item)?))
}

/// What is decided of a question: `possible` with an assignment, `refuted`, or `spent`.
pub fn answer(alloc: Global, way: Way, question: &str) -> Result<String, Stop> {
    let mut reading = Reading::new(alloc)?;
    let mut facts = Vec::new(alloc);
    for text in question.split('\t') {
        if let Some(fact) = item(alloc, &mut reading, way, text)? {
            facts.push(fact)?;
        }
    }
    let Reading {
        mut terms,
        variables,
        ..
    } = reading;
    if !are_facts(&terms, &facts) {
        return Err(Stop::Fact);
    }
    match decide(alloc, &mut terms, &facts, LIMIT)? {
        Decision::Possible(assign) => Ok(shown(alloc, &variables, &assign)?),
        Decision::Refuted(_) => Ok(String::from_str(alloc, "refuted")?),
        Decision::Spent(_) => Ok(String::from_str(alloc, "spent")?),
    }
}

/// Whether this is what a row asks for. `possible` asks for no value, and `possible x=7` for that of the variable that is named first.
pub fn is_wanted(found: &str, wanted: &str) -> bool {
    match found.strip_prefix(wanted) {
        Some(rest) => rest.is_empty() || rest.starts_with(' '),
        None => false,
    }
}
