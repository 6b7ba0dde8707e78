//! `run FILE CAPTURE`: a C text that names nothing of a library, on the frames of a capture.
ghost use Rattle.std.specs.Prelude.{◌≡◌, ◌<◌, ◌≤◌, ◌+◌, ◌^◌, false, length, vec_len};
ghost use Rattle.vg_cmean.specs.Runs.{IsMadeFor, has_extern};
ghost use Rattle.vg_pcap.specs.Merge.{AreReadable};

use crate::read::text_in;
use crate::stop::Stop;
use std::alloc::Global;
use std::rt::Files as System;
use vg_base::{Files, HostFiles};
use vg_cfront::{CFault, read_c};
use vg_cmean::{Done, Machine, has_externs};
use vg_core::Unit;
use vg_pcap::{CaptureFault, Merge, MergeFault};

// How many frames there were, and how many steps they took together.
#[derive(Clone, Copy, Default)]
struct Counts {
    frames: u64,
    steps: u64,
}

// Why frames aren't run on.
enum End {
    // This was the last frame.
    Last,
    // The run on a frame went wrong, at this place of the text.
    Wrong(u32),
    Stop(Stop),
}

fn fault_of(e: MergeFault) -> Stop {
    match e.fault {
        CaptureFault::Refused(_) => Stop::Capture,
        CaptureFault::Read => Stop::Read,
        CaptureFault::Memory => Stop::Memory,
    }
}

// Runs the next frame, and answers its steps.
fn next<F: Files>(
    files: &mut F,
    merge: &mut Merge,
    machine: &mut Machine,
    unit: &Unit,
) -> Result<u32, End>
    requires readable { AreReadable (F.disk files.old) merge.old }
    requires made_for { IsMadeFor machine.old unit.now }
    requires no_externs { has_extern unit.now.tree.nodes ≡ false }
    ensures readable { AreReadable (F.disk files.new) merge.new }
    ensures made_for { IsMadeFor machine.new unit.now }
{
    let Some(port) = merge.next_port() else {
        return Err(End::Last);
    };
    let time = merge.time(port);
    let done = machine.frame(unit, port, merge.frame_mut(port), time);
    if let Err(fault) = merge.advance(files, port) {
        return Err(End::Stop(fault_of(fault)));
    }
    match done {
        Done::Ret { steps, .. } => Ok(steps),
        Done::Wrong { at, .. } => Err(End::Wrong(at)),
    }
}

// Runs all frames, or the first 4,294,967,295.
fn run_all<F: Files>(
    files: &mut F,
    merge: &mut Merge,
    machine: &mut Machine,
    unit: &Unit,
) -> (Counts, End)
    requires readable { AreReadable (F.disk files.old) merge.old }
    requires made_for { IsMadeFor machine.old unit.now }
    requires no_externs { has_extern unit.now.tree.nodes ≡ false }
    ensures readable { AreReadable (F.disk files.new) merge.new }
{
    let mut counts = Counts::default();
    for frame in 0..u32::MAX {
        match next(files, merge, machine, unit) {
            Ok(steps) => {
                counts.frames = u64::from(frame) + 1;
                counts.steps = counts.steps.wrapping_add(u64::from(steps));
            }
            Err(end) => return (counts, end),
        }
    }
    (counts, End::Last)
}

// Runs a text on the frames of a capture, and says what came of it.
fn line_of<R: System>(
    alloc: Global,
    rt: &R,
    unit: &Unit,
    machine: &mut Machine,
    capture: &String,
) -> Result<String, Stop>
    requires made_for { IsMadeFor machine.old unit.now }
    requires no_externs { has_extern unit.now.tree.nodes ≡ false }
{
    let mut files = HostFiles::new(alloc, rt);
    let Ok(name) = capture.clone() else {
        return Err(Stop::Memory);
    };
    let mut merge = match Merge::start(alloc, &mut files, &[name]) {
        Ok(merge) => merge,
        Err(fault) => return Err(fault_of(fault)),
    };
    if let Err(fault) = merge.fill(&mut files) {
        return Err(fault_of(fault));
    }
    let (counts, end) = run_all(&mut files, &mut merge, machine, unit);
    let _ = merge.close(&mut files);
    let Counts { frames, steps } = counts;
    match end {
        End::Last => Ok(format!(in alloc; "frames {frames} steps {steps}")?),
        End::Wrong(at) => Ok(format!(in alloc; "frames {frames} wrong at byte {at}")?),
        End::Stop(stop) => Err(stop),
    }
}

/// Runs the text in the file that the first word names on the frames of the capture that the second one names, and prints what came of it on one line.
pub fn run_frames(rt: &(impl System + AllocGlobal + Print), words: &[String]) -> Result<(), Stop> {
    let alloc = rt.alloc();
    let [text, capture] = words else {
        return Err(Stop::Usage);
    };
    let text = text_in(alloc, rt, text)?;
    let unit = match read_c(alloc, &text) {
        Ok(unit) => unit,
        Err(CFault::Memory) => return Err(Stop::Memory),
        Err(_) => return Err(Stop::Text),
    };
    if has_externs(&unit) {
        return Err(Stop::Text);
    }
    let mut machine = Machine::new(alloc, &unit)?;
    let line = line_of(alloc, rt, &unit, &mut machine, capture)?;
    println!(rt; "{line}").map_err(|_| Stop::Print)
}
