//! The commands, and the words that spell them.
ghost use Rattle.std.specs.Prelude.{IfSome, IfNone};
ghost use Rattle.vg_command.specs.Commands.{words_in, Spells, SpellsNone};
ghost use Rattle.vg_command.specs.View.{command_of};

use crate::forms::{bench_in, check_in, replay_in, rerun_in, run_in, show_in, try_in, verify_in};

/// The files of a command that handles captures, by their names. There are as many captures in as out, one for each port.
#[derive(Clone, Copy)]
pub struct FileNames<'a> {
    /// The C text.
    pub c: &'a str,
    /// The specification.
    pub spec: &'a str,
    /// The configuration; `-` stands for one without text.
    pub conf: &'a str,
    /// The log: a line for each frame.
    pub log: &'a str,
    /// The captures that come in, by port; `-` stands for a port at which nothing comes in.
    pub ins: &'a [String],
    /// The captures that go out, by port.
    pub outs: &'a [String],
}

/// What the words of a command line ask for.
#[derive(Clone, Copy)]
pub enum Command<'a> {
    /// Verify, and replay captures.
    Run(FileNames<'a>),
    /// Verify with at most `limit` learned clauses a question, and write a certificate.
    Verify {
        c: &'a str,
        spec: &'a str,
        certificate: &'a str,
        limit: u32,
    },
    /// Check a certificate.
    Check {
        c: &'a str,
        spec: &'a str,
        certificate: &'a str,
    },
    /// Check a certificate, and replay captures.
    Replay {
        certificate: &'a str,
        files: FileNames<'a>,
    },
    /// Run a function that isn't verified, and compare each frame.
    Try(FileNames<'a>),
    /// Run a stored wrong run.
    Rerun {
        c: &'a str,
        spec: &'a str,
        file: &'a str,
    },
    /// Write a text of a shipped function.
    Show {
        name: &'a str,
        part: &'a str,
    },
    /// Make `count` frames from a seed, and replay them through a shipped function.
    Bench {
        name: &'a str,
        seed: u64,
        count: u32,
    },
}

/// The command that the words of a command line spell, or nothing where they spell none.
///
/// The first word names the command, and the next ones are as here:
///
/// - `run C SPEC CONF LOG IN.. OUT..`, and `try` with the same words
/// - `replay C SPEC CERT CONF LOG IN.. OUT..`
/// - `verify C SPEC CERT LIMIT`
/// - `check C SPEC CERT`
/// - `rerun C SPEC FILE`
/// - `show NAME PART`
/// - `bench NAME SEED COUNT`
///
/// There are 1 to 16 IN words and as many OUT words. CONF and IN alone may be `-`. A file that is written is named by no
/// other word, byte for byte. Numbers are decimal, without leading zeros: LIMIT is 1 to 10,000,000, SEED below 2^64,
/// COUNT 1 to 1,000,000.
pub fn command_in(words: &[String]) -> Option<Command<'_>>
    ensures command { IfSome result (λ command. Spells (words_in words.now) (command_of command)) }
    ensures none { IfNone result (SpellsNone (words_in words.now)) }
{
    let [first, rest @ ..] = words else {
        return None;
    };
    match first.as_str() {
        "run" => run_in(rest),
        "verify" => verify_in(rest),
        "check" => check_in(rest),
        "replay" => replay_in(rest),
        "try" => try_in(rest),
        "rerun" => rerun_in(rest),
        "show" => show_in(rest),
        "bench" => bench_in(rest),
        _ => None,
    }
}
