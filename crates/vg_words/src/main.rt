//! A table of questions on machine words, each with its answer, worked by hand. It is read from the input, a question a line: what it says in words, the
//! answer, and the question, with a tab between. Each is decided, with terms that are made as they stand and with terms that are folded; the questions that
//! are decided otherwise are written, and how many there are.
#![tactic(auto)]

mod operations;
mod question;
mod reading;
mod stop;

use crate::operations::Way;
use crate::question::{answer, is_wanted};
use std::alloc::{AllocError, Global};
use std::fmt::Write;
use std::io;

// How a row is answered otherwise than it says, or nothing.
fn difference(alloc: Global, way: Way, row: &str) -> Result<Option<String>, AllocError> {
    let Some((wanted, question)) = row.split_once('\t') else {
        return Ok(Some(format!(in alloc; "no answer")?));
    };
    match answer(alloc, way, question) {
        Ok(found) if is_wanted(found.as_str(), wanted) => Ok(None),
        Ok(found) => Ok(Some(format!(in alloc; "{found}, wanted {wanted}")?)),
        Err(stop) => Ok(Some(format!(in alloc; "{stop}")?)),
    }
}

fn main(rt: HostRuntime) -> io::Result<()> {
    let mut count = 0u32;
    for line in rt.lines(rt.alloc()) {
        let line = line?;
        count = count.wrapping_add(1);
        let (label, row) = line
            .as_str()
            .split_once('\t')
            .unwrap_or((line.as_str(), ""));
        for way in [Way::Make, Way::Build] {
            if let Some(difference) = difference(rt.alloc(), way, row)? {
                println!(rt; "{label}: {difference}")?;
            }
        }
    }
    println!(rt; "{count} questions")?;
    Ok(())
}
