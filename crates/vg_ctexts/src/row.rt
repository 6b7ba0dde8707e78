//! Rows of the table: what should come of a text, the frame, what stands before `nf_process`, its body, and the frame afterwards where that is told,
//! with a tab between. Frames are in hexadecimal. Where a run should go wrong, `@` stands in the text at the place.

use std::alloc::{AllocError, Global};

/// A row of the table.
#[derive(Clone, Copy)]
pub struct Row<'a> {
    pub wanted: &'a str,
    pub frame: &'a str,
    pub before: &'a str,
    pub body: &'a str,
    pub after: &'a str,
}

/// The row of a line.
pub fn read_row(line: &str) -> Option<Row> {
    let (wanted, rest) = line.split_once('\t')?;
    let (frame, rest) = rest.split_once('\t')?;
    let (before, rest) = rest.split_once('\t')?;
    let (body, after) = rest.split_once('\t')?;
    Some(Row {
        wanted,
        frame,
        before,
        body,
        after,
    })
}

fn digit(byte: u8) -> Option<u8> {
    match byte {
        b'0'..=b'9' => Some(byte - b'0'),
        b'a'..=b'f' => Some(byte - b'a' + 10),
        _ => None,
    }
}

// The byte that two digits spell.
fn byte(high: u8, low: u8) -> Option<u8> {
    Some((digit(high)? << 4) | digit(low)?)
}

/// The bytes that hexadecimal digits spell.
pub fn bytes(alloc: Global, digits: &str) -> Result<Option<Vec<u8>>, AllocError> {
    let mut bytes = Vec::new(alloc);
    for pair in digits.as_bytes().chunks(2) {
        let [high, low] = pair else {
            return Ok(None);
        };
        let Some(byte) = byte(*high, *low) else {
            return Ok(None);
        };
        bytes.push(byte)?;
    }
    Ok(Some(bytes))
}

/// The digits of some bytes.
pub fn hexadecimal(alloc: Global, bytes: &[u8]) -> Result<String, AllocError> {
    let mut digits = String::new(alloc);
    for byte in bytes {
        digits.push_str(format!(in alloc; "{byte:02x}")?.as_str())?;
    }
    Ok(digits)
}

/// What a row asks for, with the place where a run should go wrong.
pub fn wanted(alloc: Global, wanted: &str, at: usize) -> Result<String, AllocError> {
    match wanted.strip_prefix("wrong ") {
        Some(reason) => Ok(format!(in alloc; "wrong {at} {reason}")?),
        None => Ok(format!(in alloc; "{wanted}")?),
    }
}

/// Whether this is what a row asks for. `ret 0` asks for the value alone.
pub fn is_wanted(found: &str, wanted: &str) -> bool {
    match found.strip_prefix(wanted) {
        Some(rest) => rest.is_empty() || rest.starts_with(" steps "),
        None => false,
    }
}
