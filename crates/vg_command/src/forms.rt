//! The forms of the commands: what the words after a command's name spell.
ghost use Rattle.std.specs.Prelude.{◌∷◌, codes, IfSome, IfNone};
ghost use Rattle.vg_command.specs.Commands.{words_in, Spells, SpellsNone};
ghost use Rattle.vg_command.specs.View.{command_of};

use crate::command::Command;
use crate::names::{are_names, files_in, is_name, is_neither, is_no_output};
use crate::numbers::{count_in, number_in};
use crate::shipped::{is_part, is_shipped};

// The most learned clauses that may be allowed for a question.
const MOST_CLAUSES: u32 = 10_000_000;

// The most frames that may be made.
const MOST_FRAMES: u32 = 1_000_000;

/// What the words after `run` spell: `C SPEC CONF LOG IN.. OUT..`.
pub fn run_in(words: &[String]) -> Option<Command<'_>>
    ensures command { IfSome result (λ command. Spells (codes "run" ∷ words_in words.now) (command_of command)) }
    ensures none { IfNone result (SpellsNone (codes "run" ∷ words_in words.now)) }
{
    let [c, spec, rest @ ..] = words else {
        return None;
    };
    let files = files_in(c.as_str(), spec.as_str(), rest)?;
    Some(Command::Run(files))
}

/// What the words after `verify` spell: `C SPEC CERT LIMIT`.
pub fn verify_in(words: &[String]) -> Option<Command<'_>>
    ensures command { IfSome result (λ command. Spells (codes "verify" ∷ words_in words.now) (command_of command)) }
    ensures none { IfNone result (SpellsNone (codes "verify" ∷ words_in words.now)) }
{
    let [c, spec, certificate, limit] = words else {
        return None;
    };
    let (c, spec, certificate) = (c.as_str(), spec.as_str(), certificate.as_str());
    if !are_names(c, spec, certificate) || !is_neither(certificate, c, spec) {
        return None;
    }
    let limit = count_in(limit.as_str(), MOST_CLAUSES)?;
    Some(Command::Verify {
        c,
        spec,
        certificate,
        limit,
    })
}

/// What the words after `check` spell: `C SPEC CERT`.
pub fn check_in(words: &[String]) -> Option<Command<'_>>
    ensures command { IfSome result (λ command. Spells (codes "check" ∷ words_in words.now) (command_of command)) }
    ensures none { IfNone result (SpellsNone (codes "check" ∷ words_in words.now)) }
{
    let [c, spec, certificate] = words else {
        return None;
    };
    let (c, spec, certificate) = (c.as_str(), spec.as_str(), certificate.as_str());
    if are_names(c, spec, certificate) {
        Some(Command::Check {
            c,
            spec,
            certificate,
        })
    } else {
        None
    }
}

/// What the words after `replay` spell: `C SPEC CERT CONF LOG IN.. OUT..`.
pub fn replay_in(words: &[String]) -> Option<Command<'_>>
    ensures command { IfSome result (λ command. Spells (codes "replay" ∷ words_in words.now) (command_of command)) }
    ensures none { IfNone result (SpellsNone (codes "replay" ∷ words_in words.now)) }
{
    let [c, spec, certificate, rest @ ..] = words else {
        return None;
    };
    let certificate = certificate.as_str();
    let files = files_in(c.as_str(), spec.as_str(), rest)?;
    if is_name(certificate) && is_no_output(certificate, &files) {
        Some(Command::Replay { certificate, files })
    } else {
        None
    }
}

/// What the words after `try` spell: `C SPEC CONF LOG IN.. OUT..`.
pub fn try_in(words: &[String]) -> Option<Command<'_>>
    ensures command { IfSome result (λ command. Spells (codes "try" ∷ words_in words.now) (command_of command)) }
    ensures none { IfNone result (SpellsNone (codes "try" ∷ words_in words.now)) }
{
    let [c, spec, rest @ ..] = words else {
        return None;
    };
    let files = files_in(c.as_str(), spec.as_str(), rest)?;
    Some(Command::Try(files))
}

/// What the words after `rerun` spell: `C SPEC FILE`.
pub fn rerun_in(words: &[String]) -> Option<Command<'_>>
    ensures command { IfSome result (λ command. Spells (codes "rerun" ∷ words_in words.now) (command_of command)) }
    ensures none { IfNone result (SpellsNone (codes "rerun" ∷ words_in words.now)) }
{
    let [c, spec, file] = words else {
        return None;
    };
    let (c, spec, file) = (c.as_str(), spec.as_str(), file.as_str());
    if are_names(c, spec, file) {
        Some(Command::Rerun { c, spec, file })
    } else {
        None
    }
}

/// What the words after `show` spell: `NAME PART`.
pub fn show_in(words: &[String]) -> Option<Command<'_>>
    ensures command { IfSome result (λ command. Spells (codes "show" ∷ words_in words.now) (command_of command)) }
    ensures none { IfNone result (SpellsNone (codes "show" ∷ words_in words.now)) }
{
    let [name, part] = words else {
        return None;
    };
    let (name, part) = (name.as_str(), part.as_str());
    if is_shipped(name) && is_part(part) {
        Some(Command::Show { name, part })
    } else {
        None
    }
}

/// What the words after `bench` spell: `NAME SEED COUNT`.
pub fn bench_in(words: &[String]) -> Option<Command<'_>>
    ensures command { IfSome result (λ command. Spells (codes "bench" ∷ words_in words.now) (command_of command)) }
    ensures none { IfNone result (SpellsNone (codes "bench" ∷ words_in words.now)) }
{
    let [name, seed, count] = words else {
        return None;
    };
    let name = name.as_str();
    if !is_shipped(name) {
        return None;
    }
    let seed = number_in(seed.as_str())?;
    let count = count_in(count.as_str(), MOST_FRAMES)?;
    Some(Command::Bench { name, seed, count })
}
