//! A verifier and a runner for network functions.
#![tactic(auto)]

use std::env::Env;
use std::process::ExitCode;
use std::{env, io};
use vg_base::{HostFiles, HostSink};
use vg_top::{Stop, refuse, run};

// The words of the command line, without the program's name.
fn words(rt: &(impl Env + AllocGlobal)) -> io::Result<Vec<String>> {
    let mut words = Vec::new(rt.alloc());
    for word in env::args(rt)?.skip(1) {
        words.push(word)?;
    }
    Ok(words)
}

fn main(rt: HostRuntime) -> ExitCode {
    let alloc = rt.alloc();
    let mut files = HostFiles::new(alloc, &rt);
    let mut out = HostSink::new(&rt);
    let status = match words(&rt) {
        Ok(words) => run(alloc, words.as_slice(), &mut files, &mut out),
        Err(error) if error.kind() == io::ErrorKind::OutOfMemory => refuse(&mut out, Stop::Memory),
        // Words that aren't text are the words of no command.
        Err(_) => run(alloc, &[], &mut files, &mut out),
    };
    ExitCode::from(status.0)
}
