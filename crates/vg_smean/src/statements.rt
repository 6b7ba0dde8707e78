//! The statements of a step, one after another.
ghost use Rattle.std.specs.Prelude.{◌≡◌, true, Some, None, OnOk, slice_get, if◌then◌else◌};
ghost use Rattle.vg_abs.specs.State.{link_of_map};
ghost use Rattle.vg_stree.specs.declared.code.SStmt.TheVariants as SStmt;
ghost use Rattle.vg_smean.specs.Places as places;
ghost use Rattle.vg_smean.specs.Places.{place_of, Comes};
ghost use Rattle.vg_smean.specs.Step as steps;

use crate::effects;
use crate::keys::key_told;
use crate::running::{
    Flow, Place, Run, Target, expire_before, let_name, remove, send, set_cell, set_frame, told,
    touch,
};
use crate::stops::Stop;
use crate::telling::{index_of, is_used_up, match_in, may_hand_out};
use crate::values::Scene;
use std::alloc::Global;
use vg_core::Verdict;
use vg_stree::{Parts, SStmt, Spec};

// The statement with a number.
fn statement_at(spec: &Spec, number: u32) -> Option<SStmt>
    ensures { result ≡ slice_get spec.now.code.statements number }
{
    spec.code().statements().get(number as usize).copied()
}

// The bytes of a key; that one of its values isn't told ends the step.
fn key_at(
    alloc: Global,
    run: &Run<'_>,
    place: &Place<'_>,
    link: u16,
    key: Parts,
) -> Result<Vec<u8>, Stop>
    ensures { places.TellsBytes result (steps.key_of run.now.spec.now (steps.scene_at run.now.spec.now run.now.numbers.now run.now.port run.now.time
        (place_of place.now)) link key) }
{
    let scene = Scene {
        numbers: run.numbers,
        port: run.port,
        time: run.time,
        state: &place.state,
        frame: &place.frame,
        names: &place.names,
    };
    match key_told(alloc, run.spec, &scene, link, key)? {
        Some(bytes) => Ok(bytes),
        None => Err(Stop::Untold),
    }
}

// A number of 32 bits that may be there, as one of 64.
fn wide(number: Option<u32>) -> Option<u64>
    ensures { result ≡ number }
{
    match number {
        Some(number) => Some(u64::from(number)),
        None => None,
    }
}

// A number of 16 bits that may be there, as one of 64.
fn widened(number: Option<u16>) -> Option<u64>
    ensures { result ≡ number }
{
    match number {
        Some(number) => Some(u64::from(number)),
        None => None,
    }
}

/// What the statements of a list do, one after another, where those before a number are known.
#[cycle(statements)]
pub fn all(
    alloc: Global,
    run: &Run<'_>,
    place: &mut Place<'_>,
    known: u32,
    items: &[u32],
) -> Result<Flow, Stop>
    requires { (place_of place.old).state.full ≡ true }
    ensures comes { Comes result (place_of place.new) (steps.all_by run.now.spec.now run.now.numbers.now run.now.port run.now.time
        (steps.statements_before run.now.spec.now run.now.numbers.now run.now.port run.now.time known) items.now (place_of place.old)) }
    ensures full { OnOk result ((place_of place.new).state.full ≡ true) }
{
    for item in items {
        let flow = statement(alloc, run, place, known, *item)?;
        if flow != Flow::Goes {
            return Ok(flow);
        }
    }
    Ok(Flow::Goes)
}

// A block with a new name where there is a value for it, and otherwise the other block.
#[cycle(statements)]
fn either(
    alloc: Global,
    run: &Run<'_>,
    place: &mut Place<'_>,
    known: u32,
    blocks: (Parts, Parts),
    value: Option<u64>,
) -> Result<Flow, Stop>
    requires { (place_of place.old).state.full ≡ true }
    ensures comes { Comes result (place_of place.new) (steps.either_by run.now.spec.now run.now.numbers.now run.now.port run.now.time
        (steps.statements_before run.now.spec.now run.now.numbers.now run.now.port run.now.time known) blocks.0 blocks.1 (place_of place.old) value) }
    ensures full { OnOk result ((place_of place.new).state.full ≡ true) }
{
    let names = Vec::from_slice(alloc, &place.names)?;
    let block = match value {
        Some(value) => {
            place.names.push(value)?;
            blocks.0
        }
        None => blocks.1,
    };
    let flow = all(alloc, run, place, known, run.spec.code().items(block))?;
    if flow == Flow::Goes {
        place.names = names;
    }
    Ok(flow)
}

// A statement that stands before a number; any other does nothing.
#[tactic(auto, using(crate::proofs::StatementLaws::here, crate::proofs::StatementLaws::missing, crate::proofs::StatementLaws::past))]
#[cycle(statements)]
fn statement(
    alloc: Global,
    run: &Run<'_>,
    place: &mut Place<'_>,
    before: u32,
    number: u32,
) -> Result<Flow, Stop>
    requires { (place_of place.old).state.full ≡ true }
    ensures comes { Comes result (place_of place.new) (steps.statements_before run.now.spec.now run.now.numbers.now run.now.port run.now.time before number
        (place_of place.old)) }
    ensures full { OnOk result ((place_of place.new).state.full ≡ true) }
{
    if number >= before {
        return Ok(Flow::Goes);
    }
    match statement_at(run.spec, number) {
        Some(statement) => statement_by(alloc, run, place, number, statement),
        None => Ok(Flow::Goes),
    }
}

// What a statement does, where those before a number are known.
#[cycle(statements)]
fn statement_by(
    alloc: Global,
    run: &Run<'_>,
    place: &mut Place<'_>,
    known: u32,
    statement: SStmt,
) -> Result<Flow, Stop>
    requires { (place_of place.old).state.full ≡ true }
    ensures comes { Comes result (place_of place.new) (steps.statement_by run.now.spec.now run.now.numbers.now run.now.port run.now.time
        (steps.statements_before run.now.spec.now run.now.numbers.now run.now.port run.now.time known) statement (place_of place.old)) }
    ensures full { OnOk result ((place_of place.new).state.full ≡ true) }
{
    match statement {
        SStmt::Let { value } => let_name(run, place, value),
        SStmt::Drop => Ok(Flow::Ends(Verdict::Drop)),
        SStmt::Flood => Ok(Flow::Ends(Verdict::Flood)),
        SStmt::Send { port } => send(run, place, port),
        SStmt::If {
            condition,
            then,
            otherwise,
        } => {
            let test = told(run, place, condition)?;
            let block = if test != 0 { then } else { otherwise };
            either(alloc, run, place, known, (block, block), None)
        }
        SStmt::SetFrame {
            word,
            place: at,
            value,
        } => set_frame(run, place, word, at, value),
        SStmt::SetCell {
            vector,
            index,
            field,
            value,
        } => {
            set_cell(
                alloc,
                run,
                place,
                Target {
                    vector,
                    index,
                    field,
                },
                value,
            )
        }
        SStmt::Expire { link, before } => expire_before(alloc, run, place, link, before),
        SStmt::Find {
            link,
            key,
            then,
            otherwise,
        } => { find(alloc, run, place, known, (link, key), (then, otherwise)) }
        SStmt::Add {
            link,
            key,
            then,
            otherwise,
        } => { add(alloc, run, place, known, (link, key), (then, otherwise)) }
        SStmt::Touch { link, index } => touch(alloc, run, place, link, index),
        SStmt::Remove { link, index } => remove(alloc, run, place, link, index),
        SStmt::Lookup {
            table,
            address,
            then,
            otherwise,
        } => {
            let address = told(run, place, address)?;
            let found = match_in(&place.state, table, (address % 4_294_967_296) as u32);
            either(alloc, run, place, known, (then, otherwise), widened(found))
        }
    }
}

// `find link key as index then else otherwise`
#[cycle(statements)]
fn find(
    alloc: Global,
    run: &Run<'_>,
    place: &mut Place<'_>,
    known: u32,
    entry: (u16, Parts),
    blocks: (Parts, Parts),
) -> Result<Flow, Stop>
    requires { (place_of place.old).state.full ≡ true }
    ensures comes { Comes result (place_of place.new) (steps.statement_by run.now.spec.now run.now.numbers.now run.now.port run.now.time
        (steps.statements_before run.now.spec.now run.now.numbers.now run.now.port run.now.time known) (SStmt.Find entry.0 entry.1 blocks.0 blocks.1)
        (place_of place.old)) }
    ensures full { OnOk result ((place_of place.new).state.full ≡ true) }
{
    let key = key_at(alloc, run, place, entry.0, entry.1)?;
    match index_of(&place.state, entry.0, &key) {
        Some(found) => either(alloc, run, place, known, blocks, wide(found)),
        None => Err(Stop::Untold),
    }
}

// `add link key as index then else otherwise`
#[cycle(statements)]
fn add(
    alloc: Global,
    run: &Run<'_>,
    place: &mut Place<'_>,
    known: u32,
    entry: (u16, Parts),
    blocks: (Parts, Parts),
) -> Result<Flow, Stop>
    requires { (place_of place.old).state.full ≡ true }
    ensures comes { Comes result (place_of place.new) (steps.statement_by run.now.spec.now run.now.numbers.now run.now.port run.now.time
        (steps.statements_before run.now.spec.now run.now.numbers.now run.now.port run.now.time known) (SStmt.Add entry.0 entry.1 blocks.0 blocks.1)
        (place_of place.old)) }
    ensures full { OnOk result ((place_of place.new).state.full ≡ true) }
{
    let key = key_at(alloc, run, place, entry.0, entry.1)?;
    let Some(found) = index_of(&place.state, entry.0, &key) else {
        return Err(Stop::Untold);
    };
    if found.is_some() || is_used_up(&place.state, entry.0) {
        return either(alloc, run, place, known, (blocks.1, blocks.1), None);
    }
    hand_out(alloc, run, place, known, entry.0, &key, blocks.0)
}

// The next choice is handed out to a key, and the block follows.
#[cycle(statements)]
fn hand_out(
    alloc: Global,
    run: &Run<'_>,
    place: &mut Place<'_>,
    known: u32,
    link: u16,
    key: &[u8],
    block: Parts,
) -> Result<Flow, Stop>
    requires { (place_of place.old).state.full ≡ true }
    ensures comes { Comes result (place_of place.new) (steps.hand_out run.now.spec.now run.now.numbers.now run.now.port run.now.time
        (steps.statements_before run.now.spec.now run.now.numbers.now run.now.port run.now.time known) block (place_of place.old) link key.now
        (place_of place.old).choices) }
    ensures full { OnOk result ((place_of place.new).state.full ≡ true) }
{
    let Some((choice, rest)) = place.choices.split_first() else {
        return Err(Stop::Choice);
    };
    let choice = *choice;
    match may_hand_out(&place.state, link, choice) {
        None => Err(Stop::Untold),
        Some(false) => Err(Stop::Choice),
        Some(true) => {
            effects::hand_out(alloc, &mut place.state, link, key, choice, run.time)?;
            place.choices = rest;
            either(
                alloc,
                run,
                place,
                known,
                (block, block),
                Some(u64::from(choice)),
            )
        }
    }
}
