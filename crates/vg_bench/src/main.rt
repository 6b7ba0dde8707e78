//! A bench: runs one layer of the program on made input, to be timed from outside.
#![tactic(auto)]

mod containers;
mod count;
mod dimacs;
mod files;
mod keys;
mod read;
mod running;
mod solving;
mod stop;
#[cfg(test)]
mod tests;

use crate::stop::Stop;
use std::env::Env;
use std::fs::Files;
use std::process::ExitCode;
use std::{env, io};

// The words of the command line, without the program's name.
fn words(rt: &(impl Env + AllocGlobal)) -> io::Result<Vec<String>> {
    let mut words = Vec::new(rt.alloc());
    for word in env::args(rt)?.skip(1) {
        words.push(word)?;
    }
    Ok(words)
}

// Runs the layer that the first word names, with the words after it.
fn run(rt: &(impl Env + Files + AllocGlobal + Print)) -> Result<(), Stop> {
    let words = match words(rt) {
        Ok(words) => words,
        Err(error) if error.kind() == io::ErrorKind::OutOfMemory => return Err(Stop::Memory),
        // Words that aren't text are no command.
        Err(_) => return Err(Stop::Usage),
    };
    match words.as_slice() {
        [layer, rest @ ..] if layer.as_str() == "containers" => containers::run(rt, rest),
        [layer, rest @ ..] if layer.as_str() == "read" => read::run_read(rt, rest),
        [layer, rest @ ..] if layer.as_str() == "type" => read::run_type(rt, rest),
        [layer, rest @ ..] if layer.as_str() == "run" => running::run_frames(rt, rest),
        [run, rest @ ..] if run.as_str() == "solve" => files::run_solve(rt, rest),
        [run, rest @ ..] if run.as_str() == "check" => files::run_check(rt, rest),
        _ => Err(Stop::Usage),
    }
}

fn main(rt: HostRuntime) -> ExitCode {
    let Err(stop) = run(&rt) else {
        return ExitCode::SUCCESS;
    };
    match println!(&rt; "{stop}") {
        Ok(()) => ExitCode::from(stop.status()),
        Err(_) => ExitCode::from(Stop::Print.status()),
    }
}
