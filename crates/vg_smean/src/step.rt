//! The step of a specification.
ghost use Rattle.std.specs.Prelude.{◌≡◌, true, length, IfOk, OnErr};
ghost use Rattle.vg_smean.specs.Places as places;
ghost use Rattle.vg_smean.specs.Places.{place_of, Comes};
ghost use Rattle.vg_smean.specs.Outcomes.{StepsTo, IsLawfulBy};
ghost use Rattle.vg_smean.specs.Step as steps;

use crate::running::{Flow, Place, Run};
use crate::statements::all;
use crate::stops::{SpecStop, Stop};
use std::alloc::Global;
use vg_abs::LibState;
use vg_core::Verdict;
use vg_parts::Memory;
use vg_stree::{Config, Spec};

// How many statements there are.
fn statement_count(spec: &Spec) -> Result<u32, Memory>
    ensures { IfOk result (λ count. count ≡ length spec.now.code.statements) }
{
    match u32::try_from(spec.code().statements().len()) {
        Ok(count) => Ok(count),
        Err(_) => Err(Memory),
    }
}

// What the statements of the step come to, from a place on.
#[tactic(auto, using(crate::proofs::StepLaws::all_known))]
fn run_through(alloc: Global, run: &Run<'_>, place: &mut Place<'_>) -> Result<Flow, Stop>
    requires { (place_of place.old).state.full ≡ true }
    ensures { Comes result (place_of place.new) (places.outcome_of run.now.spec.now run.now.numbers.now run.now.port run.now.time (place_of place.old)) }
{
    let known = statement_count(run.spec)?;
    all(
        alloc,
        run,
        place,
        known,
        run.spec.code().items(run.spec.step()),
    )
}

/// What the step of a specification does with a frame that came in at a port at a time, where these indices are to be handed out, in order: its
/// verdict is answered, and state and frame are as it leaves them. The state is full and lawful. `Choice` where an index is asked for and none is left, the
/// next isn't below the capacity or isn't free, or where one is left at the end. After any refusal state and frame are as before.
pub fn spec_step(
    alloc: Global,
    spec: &Spec,
    config: &Config,
    state: &mut LibState,
    port: u16,
    frame: &mut Vec<u8>,
    now: u64,
    choices: &[u32],
) -> Result<Verdict, SpecStop>
    requires full { state.old.full ≡ true }
    requires lawful { IsLawfulBy spec.now config.now.numbers now state.old }
    ensures step { StepsTo result state.new frame.new.items (steps.step spec.now config.now.numbers state.old port frame.old.items now choices.now) }
    ensures state { OnErr result (state.new ≡ state.old) }
    ensures frame { OnErr result (frame.new.items ≡ frame.old.items) }
{
    let run = Run {
        spec,
        numbers: config.numbers(),
        port,
        time: now,
    };
    let mut place = Place {
        state: state.copy(alloc)?,
        frame: Vec::from_slice(alloc, frame)?,
        choices,
        names: Vec::new(alloc),
    };
    let flow = match run_through(alloc, &run, &mut place) {
        Ok(flow) => flow,
        Err(Stop::Choice) => return Err(SpecStop::Choice),
        Err(Stop::Memory) => return Err(SpecStop::Memory),
        Err(Stop::Untold) => unreachable!(),
    };
    if !place.choices.is_empty() {
        return Err(SpecStop::Choice);
    }
    *state = place.state;
    *frame = place.frame;
    match flow {
        Flow::Goes => Ok(Verdict::Drop),
        Flow::Ends(verdict) => Ok(verdict),
    }
}
