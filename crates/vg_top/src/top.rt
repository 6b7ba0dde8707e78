//! The top call.
ghost use Rattle.std.specs.Prelude.{◌≡◌, ◌≤◌, ◌+◌, ◌*◌, ◌⊎◌, ℕ, IsTrue, IfOk, IfErr};
ghost use Rattle.vg_base.specs.Files.{SameHeld, SameIds};
ghost use Rattle.vg_command.specs.Commands.{words_in, AreFiles};
ghost use Rattle.vg_command.specs.View.{files_of};
ghost use Rattle.vg_top.specs.Runs.{IsRun, RefusesWords};
ghost use Rattle.vg_top.specs.Endings.{Ending, ComesTo};
ghost use Rattle.vg_top.specs.Exits.{number_of};
ghost use Rattle.vg_top.specs.Statuses.{status_of, status_at, IsFaultOrMemory};
ghost use Rattle.vg_top.specs.Lines.{refusal_text};
ghost use Rattle.vg_top.specs.Effects.{Unwritten, BeganReplay, RunsOn, Prints, Answers};
ghost use Rattle.vg_top.specs.Running.{Runs};

use crate::agreement::{most_steps, path_count};
use crate::exit::Exit;
use crate::handler::SmallHandler;
use crate::lines::{refusal_text, report_text};
use crate::report::Report;
use crate::setup::{Functions, read_functions};
use crate::stop::{Stop, Unbuilt, stop_of};
use std::alloc::Global;
use vg_base::{Files, MAX_OPEN, Sink, say_all};
use vg_command::{Command, FileNames, MOST_PORTS, command_in};
use vg_replay::replay;

/// The exit status of a run.
#[derive(Clone, Copy, Debug, PartialEq, Eq)]
pub struct Status(pub u8);

// The files of a run without a configuration, which is the one command that is built.
fn built_run(words: &[String]) -> Result<FileNames<'_>, Stop>
    ensures run { IfOk result (λ names. IsRun (words_in words.now) (files_of names)) }
    ensures refused { IfErr result (RefusesWords (words_in words.now)) }
{
    match command_in(words) {
        None => Err(Stop::Usage),
        Some(Command::Run(names)) => {
            if names.conf == "-" {
                Ok(names)
            } else {
                Err(Stop::NotBuilt(Unbuilt::Words))
            }
        }
        Some(_) => Err(Stop::NotBuilt(Unbuilt::Words)),
    }
}

// Reads, verifies and replays.
fn run_files<F: Files>(alloc: Global, files: &mut F, names: &FileNames<'_>) -> Result<Report, Stop>
    requires room { (F.disk files.old).open_count + (2 * MOST_PORTS + 1) ≤ MAX_OPEN }
    requires allowed { AreFiles (files_of names.now) }
    ensures { Runs (F.disk files.old) (F.disk files.new) (files_of names.now) result }
{
    let functions = read_functions(alloc, files, names)?;
    let Functions { c, spec } = functions;
    let paths = path_count(&c, &spec);
    let steps = most_steps(&c, spec.ports);
    let ports = spec.ports;
    let handler = SmallHandler { function: c, ports };
    match replay(alloc, handler, files, names.log, names.ins, names.outs) {
        Ok(totals) => Ok(Report {
            paths,
            steps,
            totals,
        }),
        Err(stop) => Err(stop_of(stop)),
    }
}

// Prints a text, and answers the status of this way to end.
fn print<O: Sink>(out: &mut O, text: &str, exit: Exit) -> Status
    ensures prints { Prints (O.flow out.old) (O.flow out.new) text.now (number_of exit) result.0 }
    ensures tells { (O.flow out.new).tells_made ≡ (O.flow out.old).tells_made }
{
    match say_all(out, text.as_bytes()) {
        Ok(()) => Status(exit.number()),
        Err(_) => Status(Exit::Write.number()),
    }
}

/// Prints why a run stopped, and answers its status.
pub fn refuse<O: Sink>(out: &mut O, stop: Stop) -> Status
    ensures prints { Prints (O.flow out.old) (O.flow out.new) (refusal_text stop) (status_of stop) result.0 }
    ensures tells { (O.flow out.new).tells_made ≡ (O.flow out.old).tells_made }
{
    print(out, refusal_text(stop).as_str(), stop.exit())
}

/// Does what the words of a command line say, and prints how it ended.
///
/// The words are `run C SPEC - LOG IN.. OUT..`, with an IN and an OUT for each of 1 to 16 ports. The C function in the file C is verified against the
/// specification in SPEC, each of at most 1,048,576 bytes. Then the frames of the captures IN are handled one by one, in the order of their times, then of
/// their ports, then of their places; a frame's time is the latest of a record so far in its capture. Each frame is written where the specification sends
/// it, into the captures OUT, and LOG gets the C function's line. The first `-` is a configuration without text, and `-` for an IN is a port at which
/// nothing comes in. A name that is written equals no other name of the line, byte for byte; two names of one file aren't noticed.
///
/// The status is 0 where all was done; 1 where the function does something else than its specification, with a run that shows it; 2 where the words are
/// those of no command, or name captures of another number of ports than the specification declares; 5 where a capture is refused, at its header, and then
/// nothing was created, or at a record, and then the outputs are those of the frames up to the port's last good one; 6 where a file couldn't be read; 7
/// where an output couldn't be written, or the text couldn't be printed whole; 8 where memory ran out, before any output was created; 11 where a text is
/// too long, or there are more than 4,294,967,295 frames, and then the outputs are those of so many first ones; and 12 where the command isn't built, or a
/// text is of a form that isn't, or the C function sends to a port that the specification doesn't declare. One line says which. Nothing is created before
/// both texts and the headers of all captures were found good. There must be room for 33 more open files: the captures in and out of 16 ports, and the log.
pub fn run<F: Files, O: Sink>(alloc: Global, words: &[String], files: &mut F, out: &mut O) -> Status
    requires { (F.disk files.old).open_count + (2 * MOST_PORTS + 1) ≤ MAX_OPEN }
    ensures answers { Answers (words_in words.now) (F.disk files.old) (F.disk files.new) (O.flow out.old) (O.flow out.new) result.0 }

    // What the words and the files come to is answered, but for a fault or want of memory.
    ensures exactly { IsTrue (F.disk files.old).tells_held →
        (ending : Ending) → ComesTo (F.disk files.old) (words_in words.now) ending →
        (result.0 ≡ status_at ending) ⊎ IsFaultOrMemory result.0 }

    // Whatever the status: each output is untouched or a prefix of the correct one, and what can be read stays.
    ensures outputs { Unwritten (F.disk files.old) (F.disk files.new)
        ⊎ RunsOn (words_in words.now) (BeganReplay (F.disk files.old) (F.disk files.new)) }
    ensures held { SameHeld (F.disk files.old) (F.disk files.new) }
    ensures ids { SameIds (F.disk files.old) (F.disk files.new) }
    ensures tells { (O.flow out.new).tells_made ≡ (O.flow out.old).tells_made }
{
    let names = match built_run(words) {
        Ok(names) => names,
        Err(stop) => return refuse(out, stop),
    };
    match run_files(alloc, files, &names) {
        Ok(report) => print(out, report_text(report).as_str(), Exit::Done),
        Err(stop) => refuse(out, stop),
    }
}
