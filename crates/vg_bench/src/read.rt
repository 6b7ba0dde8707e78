//! `read FILE`: a C text to its tokens and its tree. `type FILE`: a C text to its typed unit.
ghost use Rattle.std.specs.Prelude.{◌<◌, ◌≤◌, ◌^◌, IfOk, length, vec_len};

use crate::stop::Stop;
use std::alloc::Global;
use std::rt::Files as System;
use vg_base::{HostFiles, LoadFault, load};
use vg_cfront::{CFault, read_c};
use vg_cread::{ReadFault, read_unit};
use vg_ctok::{TokFault, tokens};

// How many bytes a C text may have.
const LIMIT: u64 = 1_048_576;

// Reads a text, and says how many tokens and nodes it has, or why it is refused.
fn report(alloc: Global, text: &[u8]) -> Result<String, Stop>
    requires { length text.now < 2 ^ 31 }
{
    let toks = match tokens(alloc, text) {
        Ok(toks) => toks,
        Err(TokFault::Memory) => return Err(Stop::Memory),
        Err(fault) => return Ok(format!(in alloc; "{fault}")?),
    };
    match read_unit(alloc, &toks) {
        Ok(tree) => Ok(format!(in alloc; "tokens {} nodes {}", toks.len(), tree.nodes().len())?),
        Err(ReadFault::Memory) => Err(Stop::Memory),
        Err(fault) => Ok(format!(in alloc; "{fault}")?),
    }
}

// Types a text, and says how many nodes it has, or why it is refused.
fn typed(alloc: Global, text: &[u8]) -> Result<String, Stop>
    requires { length text.now < 2 ^ 31 }
{
    match read_c(alloc, text) {
        Ok(unit) => Ok(format!(in alloc; "typed nodes {}", unit.notes().len())?),
        Err(CFault::Memory) => Err(Stop::Memory),
        Err(fault) => Ok(format!(in alloc; "{fault}")?),
    }
}

/// The text in the file that the word names.
pub fn text_in<R: System>(alloc: Global, rt: &R, name: &String) -> Result<Vec<u8>, Stop>
    ensures { IfOk result (λ text. vec_len text ≤ 1048576) }
{
    let mut files = HostFiles::new(alloc, rt);
    match load(alloc, &mut files, name.as_str(), LIMIT) {
        Ok(text) => Ok(text),
        Err(LoadFault::Read) => Err(Stop::Read),
        Err(LoadFault::TooLong) => Err(Stop::Long),
        Err(LoadFault::Memory) => Err(Stop::Memory),
    }
}

/// Reads the file that the word names, and prints what it is on one line.
pub fn run_read(rt: &(impl System + AllocGlobal + Print), words: &[String]) -> Result<(), Stop> {
    let alloc = rt.alloc();
    let [name] = words else {
        return Err(Stop::Usage);
    };
    let text = text_in(alloc, rt, name)?;
    let line = report(alloc, &text)?;
    println!(rt; "{line}").map_err(|_| Stop::Print)
}

/// Types the file that the word names, and prints what it is on one line.
pub fn run_type(rt: &(impl System + AllocGlobal + Print), words: &[String]) -> Result<(), Stop> {
    let alloc = rt.alloc();
    let [name] = words else {
        return Err(Stop::Usage);
    };
    let text = text_in(alloc, rt, name)?;
    let line = typed(alloc, &text)?;
    println!(rt; "{line}").map_err(|_| Stop::Print)
}

#[cfg(test)]
mod tests {
    use super::*;
    use std::test::Fail;

    // What is reported of a text of C.
    fn reported(alloc: Global, text: &str) -> Result<String, Stop> {
        if text.len() >= 4096 {
            return Err(Stop::Long);
        }
        report(alloc, text.as_bytes())
    }

    #[test]
    fn counts_and_refusals(rt: HostRuntime) -> Result<(), Fail> {
        let alloc = rt.alloc();
        // Tokens: int f ( void ) { return 0 ; } and nodes: 0, return, block, function, unit.
        let counts = reported(alloc, "int f(void) { return 0; }")
            .ok()
            .ok_or("no line")?;
        assert!(rt; counts.as_str() == "tokens 10 nodes 5");
        let syntax = reported(alloc, "int f(").ok().ok_or("no line")?;
        assert!(rt; syntax.as_str() == "syntax at 6");
        let byte = reported(alloc, "int @").ok().ok_or("no line")?;
        assert!(rt; byte.as_str() == "bad byte at 4");
        // Two nodes more than above, the parameters.
        let good = b"int nf_process(uint16_t port, uint64_t now) { return 0; }";
        let unit = typed(alloc, good).ok().ok_or("no line")?;
        assert!(rt; unit.as_str() == "typed nodes 7");
        let undeclared = b"int nf_process(uint16_t port, uint64_t now) { return x; }";
        let rule = typed(alloc, undeclared).ok().ok_or("no line")?;
        assert!(rt; rule.as_str() == "type 1 at 53");
        Ok(())
    }
}
