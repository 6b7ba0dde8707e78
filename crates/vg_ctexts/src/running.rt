//! Runs of texts, told as lines.

use std::alloc::{AllocError, Global};
use vg_cfront::read_c;
use vg_cmean::{Done, Machine, has_externs};
use vg_core::{Reason, Unit};

/// The head of `nf_process` in each text.
pub const HEAD: &str = "int nf_process(uint16_t port, uint64_t now) {";

/// The port of every run, and its time.
pub const PORT: u16 = 3;

pub const NOW: u64 = 5_000_000_000;

/// The typed text, or why there is none.
pub fn unit_of(alloc: Global, text: &str) -> Result<Result<Unit, String>, AllocError> {
    if text.len() >= 65536 {
        return Ok(Err(format!(in alloc; "too long")?));
    }
    match read_c(alloc, text.as_bytes()) {
        Ok(unit) => Ok(Ok(unit)),
        Err(fault) => Ok(Err(format!(in alloc; "{fault}")?)),
    }
}

fn shown_reason(alloc: Global, reason: Reason) -> Result<String, AllocError> {
    let name = match reason {
        Reason::Overflow => "overflow",
        Reason::DivZero => "div-zero",
        Reason::Shift => "shift",
        Reason::Unset => "unset",
        Reason::OutOfObject => "out-of-object",
        Reason::Dead => "dead",
        Reason::Misaligned => "misaligned",
        Reason::Before(row) => return format!(in alloc; "before {row}"),
        _ => "judged",
    };
    format!(in alloc; "{name}")
}

/// What came of a run, as text.
pub fn shown(alloc: Global, done: Done) -> Result<String, AllocError> {
    match done {
        Done::Ret { value, steps, left } => {
            format!(in alloc; "ret {value} steps {steps} left {left}")
        }
        Done::Wrong { at, reason } => {
            let reason = shown_reason(alloc, reason)?;
            format!(in alloc; "wrong {at} {reason}")
        }
    }
}

// At most how many steps `nf_process` takes, as typing says it. It is the last node but the whole text's.
fn bound_of(unit: &Unit) -> u32 {
    let notes = unit.notes();
    if notes.len() < 2 {
        return 0;
    }
    notes[notes.len() - 2].steps
}

fn takes_more(done: Done, bound: u32) -> bool {
    match done {
        Done::Ret { steps, .. } => steps > bound,
        Done::Wrong { .. } => false,
    }
}

/// What comes of a frame, as text, or why the text isn't run.
pub fn run(alloc: Global, text: &str, frame: &mut [u8]) -> Result<String, AllocError> {
    let unit = match unit_of(alloc, text)? {
        Ok(unit) => unit,
        Err(refusal) => return Ok(refusal),
    };
    if frame.len() > 262144 || has_externs(&unit) {
        return format!(in alloc; "not run");
    }
    let Ok(mut machine) = Machine::new(alloc, &unit) else {
        return format!(in alloc; "no memory");
    };
    let done = machine.frame(&unit, PORT, frame, NOW);
    if takes_more(done, bound_of(&unit)) {
        return format!(in alloc; "more steps than typing allows");
    }
    shown(alloc, done)
}

/// What comes of a body of `nf_process` on a frame, and the place of `@` in the text, which is left out there.
pub fn run_marked(
    alloc: Global,
    before: &str,
    body: &str,
    frame: &mut [u8],
) -> Result<(String, usize), AllocError> {
    let marked = format!(in alloc; "{before}{HEAD}{body}}}")?;
    let (front, back) = marked
        .as_str()
        .split_once('@')
        .unwrap_or((marked.as_str(), ""));
    let text = format!(in alloc; "{front}{back}")?;
    let found = run(alloc, text.as_str(), frame)?;
    Ok((found, front.len()))
}
