//! Where a step has come to, and the statements that have no blocks.
ghost use Rattle.std.specs.Prelude.{◌≡◌, true, OnOk, slice_get};
ghost use Rattle.vg_smean.specs.Places as places;
ghost use Rattle.vg_smean.specs.Places.{place_of, Comes};
ghost use Rattle.vg_smean.specs.Scenes.{scene_of};
ghost use Rattle.vg_smean.specs.Step as steps;
ghost use Rattle.vg_smean.specs.Values.{value_of};
ghost use Rattle.vg_stree.specs.declared.code.SStmt.TheVariants as SStmt;

use crate::effects;
use crate::keys::with_field_in_cell;
use crate::stops::Stop;
use crate::telling::{cell_at, cell_count, is_cell_told, is_map, time_of};
use crate::values::{Scene, value};
use crate::words::set_word;
use std::alloc::Global;
use vg_abs::LibState;
use vg_core::Verdict;
use vg_stree::{FrameWord, Spec};

/// What stays through a step: the specification, the configuration's numbers, the port at which the frame came in, and the time.
#[derive(Clone, Copy)]
pub struct Run<'a> {
    pub spec: &'a Spec,
    pub numbers: &'a [u64],
    pub port: u16,
    pub time: u64,
}

/// Where a step has come to: the state and the frame as they are, the indices that are still to be handed out, and the names in scope.
#[derive(Drop)]
pub struct Place<'a> {
    pub state: LibState,
    pub frame: Vec<u8>,
    pub choices: &'a [u32],
    pub names: Vec<u64>,
}

/// The field of a vector's cell that is stored into.
#[derive(Clone, Copy)]
pub struct Target {
    pub vector: u16,
    pub index: u32,
    pub field: u16,
}

/// What a statement, or several, come to.
#[derive(Clone, Copy, Debug, PartialEq, Eq)]
pub enum Flow {
    /// The step goes on behind them.
    Goes,
    /// The step has ended with a verdict.
    Ends(Verdict),
}

/// The value of an expression; that it isn't told ends the step.
pub fn told(run: &Run<'_>, place: &Place<'_>, expression: u32) -> Result<u64, Stop>
    ensures { places.Tells result (value_of run.now.spec.now (steps.scene_at run.now.spec.now run.now.numbers.now run.now.port run.now.time
        (place_of place.now)) expression) }
{
    let scene = Scene {
        numbers: run.numbers,
        port: run.port,
        time: run.time,
        state: &place.state,
        frame: &place.frame,
        names: &place.names,
    };
    match value(run.spec, &scene, expression) {
        Some(value) => Ok(value),
        None => Err(Stop::Untold),
    }
}

/// `let name = value;`
pub fn let_name(run: &Run<'_>, place: &mut Place<'_>, expression: u32) -> Result<Flow, Stop>
    ensures comes { Comes result (place_of place.new) (steps.valued run.now.spec.now run.now.numbers.now run.now.port run.now.time (place_of place.old)
        expression (λ v. steps.Goes (steps.named v (place_of place.old)))) }
    ensures full { OnOk result ((place_of place.new).state.full ≡ (place_of place.old).state.full) }
{
    let value = told(run, place, expression)?;
    place.names.push(value)?;
    Ok(Flow::Goes)
}

/// `send port;`
pub fn send(run: &Run<'_>, place: &mut Place<'_>, expression: u32) -> Result<Flow, Stop>
    ensures comes { Comes result (place_of place.new) (steps.valued run.now.spec.now run.now.numbers.now run.now.port run.now.time (place_of place.old)
        expression (λ v. steps.Ends (steps.sent run.now.spec.now run.now.numbers.now run.now.port run.now.time v) (place_of place.old))) }
    ensures full { OnOk result ((place_of place.new).state.full ≡ (place_of place.old).state.full) }
{
    let port = told(run, place, expression)?;
    if port < u64::from(run.spec.shape().ports()) {
        Ok(Flow::Ends(Verdict::Send(port as u16)))
    } else {
        Ok(Flow::Ends(Verdict::Drop))
    }
}

/// `frame.word[at] = value;`
pub fn set_frame(
    run: &Run<'_>,
    place: &mut Place<'_>,
    word: FrameWord,
    at: u32,
    expression: u32,
) -> Result<Flow, Stop>
    ensures comes { Comes result (place_of place.new) (steps.statement_by run.now.spec.now run.now.numbers.now run.now.port run.now.time
        (steps.nothing_known run.now.spec.now run.now.numbers.now run.now.port run.now.time) (SStmt.SetFrame word at expression) (place_of place.old)) }
    ensures full { OnOk result ((place_of place.new).state.full ≡ (place_of place.old).state.full) }
{
    let at = told(run, place, at)?;
    let value = told(run, place, expression)?;
    set_word(&mut place.frame, word, at, value);
    Ok(Flow::Goes)
}

/// `vector[index].field = value;`
pub fn set_cell(
    alloc: Global,
    run: &Run<'_>,
    place: &mut Place<'_>,
    target: Target,
    expression: u32,
) -> Result<Flow, Stop>
    ensures comes { Comes result (place_of place.new) (steps.statement_by run.now.spec.now run.now.numbers.now run.now.port run.now.time
        (steps.nothing_known run.now.spec.now run.now.numbers.now run.now.port run.now.time)
        (SStmt.SetCell target.vector target.index target.field expression) (place_of place.old)) }
    ensures full { OnOk result ((place_of place.new).state.full ≡ (place_of place.old).state.full) }
{
    let index = told(run, place, target.index)?;
    let value = told(run, place, expression)?;
    if index >= cell_count(&place.state, target.vector) {
        return Ok(Flow::Goes);
    }
    let Some(bytes) = cell_at(&place.state, target.vector, index) else {
        return Err(Stop::Untold);
    };
    let made = with_field_in_cell(alloc, run.spec, target.vector, target.field, value, bytes)?;
    effects::store(alloc, &mut place.state, target.vector, index, made)?;
    Ok(Flow::Goes)
}

/// `expire link before bound;`
pub fn expire_before(
    alloc: Global,
    run: &Run<'_>,
    place: &mut Place<'_>,
    link: u16,
    expression: u32,
) -> Result<Flow, Stop>
    requires { (place_of place.old).state.full ≡ true }
    ensures comes { Comes result (place_of place.new) (steps.statement_by run.now.spec.now run.now.numbers.now run.now.port run.now.time
        (steps.nothing_known run.now.spec.now run.now.numbers.now run.now.port run.now.time) (SStmt.Expire link expression) (place_of place.old)) }
    ensures full { OnOk result ((place_of place.new).state.full ≡ (place_of place.old).state.full) }
{
    let bound = told(run, place, expression)?;
    if is_map(&place.state, link) {
        effects::expire(alloc, &mut place.state, link, bound)?;
    }
    Ok(Flow::Goes)
}

/// `touch link index;`
pub fn touch(
    alloc: Global,
    run: &Run<'_>,
    place: &mut Place<'_>,
    link: u16,
    expression: u32,
) -> Result<Flow, Stop>
    ensures comes { Comes result (place_of place.new) (steps.statement_by run.now.spec.now run.now.numbers.now run.now.port run.now.time
        (steps.nothing_known run.now.spec.now run.now.numbers.now run.now.port run.now.time) (SStmt.Touch link expression) (place_of place.old)) }
    ensures full { OnOk result ((place_of place.new).state.full ≡ (place_of place.old).state.full) }
{
    let index = told(run, place, expression)?;
    match time_of(&place.state, link, index) {
        Some(Some(_)) => effects::touch(alloc, &mut place.state, link, index, run.time)?,
        Some(None) => {}
        None => return Err(Stop::Untold),
    }
    Ok(Flow::Goes)
}

/// `remove link index;`
pub fn remove(
    alloc: Global,
    run: &Run<'_>,
    place: &mut Place<'_>,
    link: u16,
    expression: u32,
) -> Result<Flow, Stop>
    requires { (place_of place.old).state.full ≡ true }
    ensures comes { Comes result (place_of place.new) (steps.statement_by run.now.spec.now run.now.numbers.now run.now.port run.now.time
        (steps.nothing_known run.now.spec.now run.now.numbers.now run.now.port run.now.time) (SStmt.Remove link expression) (place_of place.old)) }
    ensures full { OnOk result ((place_of place.new).state.full ≡ (place_of place.old).state.full) }
{
    let index = told(run, place, expression)?;
    match time_of(&place.state, link, index) {
        Some(Some(_)) => {
            if !is_cell_told(&place.state, link, index) {
                return Err(Stop::Untold);
            }
            effects::remove(alloc, &mut place.state, link, index);
        }
        Some(None) => {}
        None => return Err(Stop::Untold),
    }
    Ok(Flow::Goes)
}
