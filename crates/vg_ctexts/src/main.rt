//! A table of C texts with what comes of each. It is read from the input, a text a line; each text is run, and the lines whose run differs are written,
//! and how many lines there are.
#![tactic(auto)]

mod row;
mod running;
#[cfg(test)]
mod tests;

use std::alloc::{AllocError, Global};
use std::fmt::Write;
use std::io;

// What is wrong with a line of the table, or nothing.
fn difference(alloc: Global, line: &str) -> Result<Option<String>, AllocError> {
    let Some(row) = row::read_row(line) else {
        return Ok(Some(format!(in alloc; "no row")?));
    };
    let Some(mut frame) = row::bytes(alloc, row.frame)? else {
        return Ok(Some(format!(in alloc; "no frame")?));
    };
    let (found, at) = running::run_marked(alloc, row.before, row.body, &mut frame)?;
    let wanted = row::wanted(alloc, row.wanted, at)?;
    if !row::is_wanted(found.as_str(), wanted.as_str()) {
        return Ok(Some(format!(in alloc; "{found}, wanted {wanted}")?));
    }
    if row.after.is_empty() {
        return Ok(None);
    }
    let shown = row::hexadecimal(alloc, &frame)?;
    if shown.as_str() != row.after {
        let after = row.after;
        return Ok(Some(format!(in alloc; "frame {shown}, wanted {after}")?));
    }
    Ok(None)
}

fn main(rt: HostRuntime) -> io::Result<()> {
    let mut count = 0u32;
    for line in rt.lines(rt.alloc()) {
        let line = line?;
        count = count.wrapping_add(1);
        if let Some(difference) = difference(rt.alloc(), line.as_str())? {
            println!(rt; "line {count}: {difference}")?;
        }
    }
    println!(rt; "{count} texts")?;
    Ok(())
}
