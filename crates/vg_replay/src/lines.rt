//! The lines of the log.
ghost use Rattle.std.specs.Prelude.{ℕ, List, ◌≡◌, ◌≤◌, ◌+◌, ◌*◌, ◌++◌, length};
ghost use Rattle.std.specs.List.{flat_map};
ghost use Rattle.vg_replay.specs.Outputs.{line_of, verdict_text, handed_text};
ghost use Rattle.vg_replay.specs.View.{view};

use crate::handled::{Handed, HandledFrame};
use arrayvec::ArrayString;
use itoa::Buffer;
use vg_core::Verdict;

// A verdict, as the log has it.
fn verdict_text(verdict: Verdict) -> ArrayString<60>
    ensures bytes { result.bytes ≡ verdict_text verdict }
    ensures short { length result.bytes ≤ 50 }
{
    let mut text = ArrayString::new();
    match verdict {
        Verdict::Drop => text.push_str("drop"),
        Verdict::Send(port) => {
            let mut digits = Buffer::new();
            text.push_str("to ");
            text.push_str(digits.format(port));
        }
        Verdict::Flood => text.push_str("flood"),
    }
    text
}

// Adds an index that was handed out to the line.
fn push_index(line: &mut ArrayString<2000>, i: Handed)
    requires room { length line.old.bytes ≤ 1950 }
    ensures bytes { line.new.bytes ≡ line.old.bytes ++ handed_text i }
    ensures short { length line.new.bytes ≤ length line.old.bytes + 26 }
{
    let mut digits = Buffer::new();
    line.push_str(" new ");
    line.push_str(digits.format(i.chain));
    line.push_str(":");
    line.push_str(digits.format(i.index));
}

// Adds the indices that were handed out to the line.
fn push_handed(line: &mut ArrayString<2000>, handed: &[Handed])
    requires short { length line.old.bytes ≤ 200 }
    requires few { length handed.now ≤ 64 }
    ensures bytes { line.new.bytes ≡ line.old.bytes ++ flat_map handed_text handed.now }
    ensures short { length line.new.bytes ≤ 1900 }
{
    for i in handed {
        push_index(line, *i);
    }
}

/// The line of the log on the frame of this number.
#[tactic(auto, unfolding(crate::specs::Outputs::line_of))]
pub fn log_line(number: u32, frame: &HandledFrame<'_>) -> ArrayString<2000>
    ensures { (came : List ℕ) → result.bytes ≡ line_of number (view frame.now came) }
{
    let mut line = ArrayString::new();
    let mut digits = Buffer::new();
    line.push_str(digits.format(number));
    line.push_str(" in ");
    line.push_str(digits.format(frame.head.port));
    line.push_str(" ");
    line.push_str(verdict_text(frame.outcome.verdict).as_str());
    line.push_str(" steps ");
    line.push_str(digits.format(frame.outcome.steps));
    push_handed(&mut line, frame.outcome.handed.as_slice());
    line.push_str("\n");
    line
}
