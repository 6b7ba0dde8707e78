//! Runs of `nf_process` on frames.
ghost use Rattle.std.specs.Prelude.{◌≡◌, ◌≤◌, ◌<◌, ◌^◌, [], false, List, ℕ, IfOk, OnOk, Some, None, length, replicate};
ghost use Rattle.vg_cmean.specs.Outcomes.{gives, goes, full};
ghost use Rattle.vg_cmean.specs.Runs as runs;
ghost use Rattle.vg_cmean.specs.Runs.{has_extern, IsMadeFor, run, run_at, done_of, frame_of, sizes_below};
ghost use Rattle.vg_cmean.specs.Nesting.{nesting};
ghost use Rattle.vg_cmean.specs.Typings as typings;
ghost use Rattle.vg_cmean.specs.Views.{seen, IsShort, IsSame};
ghost use Rattle.vg_cmemory.specs.State.{sizes};

use crate::calls::{answer_as, end_all, end_of, parameter};
use crate::chains::chains_of;
use crate::datum::Datum;
use crate::fault::Fault;
use crate::nesting::{MOST_NESTED, depth, depths};
use crate::run::statement;
use crate::typings::{is_pointer, kind_at, size_of_type, type_at};
use crate::values::{number, word_of};
use crate::world::{Env, World};
use std::alloc::Global;
use std::marker::Model;
use vg_cint::{INT, reading};
use vg_cmemory::FrameMemory;
use vg_core::{CType, Integer, Kind, Node, Reason, Unit, erase};
use vg_parts::Memory;

/// What comes of a frame.
#[derive(Clone, Copy, Debug, PartialEq, Eq)]
pub enum Done {
    /// `nf_process` returned this value after so many steps, with so many chunks of the frame not given back.
    Ret { value: i32, steps: u32, left: u32 },
    /// What the function does at this place of the text has no meaning.
    Wrong { at: u32, reason: Reason },
}

/// A machine that runs one typed text on frames. All its memory is taken when it is made.
#[derive(Drop)]
pub struct Machine {
    memory: FrameMemory,
    above: Vec<u32>,
    waiting: Vec<Datum>,
}

impl Model for Machine {
    ghost use Rattle.vg_cmemory.specs.State.{Own};

    ghost Value = { Own };

    ghost view = { λ m. m.memory };
}

/// Whether a text names an object of the library or a configured number. Machines don't run such texts yet.
pub fn has_externs(unit: &Unit) -> bool
    ensures { result ≡ has_extern unit.now.tree.nodes }
{
    has_extern(erase(unit).nodes())
}

fn has_extern(nodes: &[Node]) -> bool
    ensures { result ≡ has_extern nodes.now }
{
    for node in nodes {
        if is_extern(node) {
            return true;
        }
    }
    false
}

fn is_extern(node: &Node) -> bool
    ensures { result ≡ runs.is_extern node.now.kind }
{
    matches!(
        node.kind,
        Kind::ExternHandle { .. } | Kind::ExternNumber { .. }
    )
}

impl Machine {
    /// A machine for a typed text.
    ///
    /// `Memory`: memory ran out, the objects of a declaration have more bytes than numbers of 32 bits count, or a run nests more than 1,000 constructs,
    /// those of called functions included.
    #[tactic(auto, using(crate::proofs::Declarations::sizes_next, crate::proofs::Declarations::sizes_none))]
    pub fn new(alloc: Global, unit: &Unit) -> Result<Machine, Memory>
        ensures made { IfOk result (λ m. IsMadeFor m unit.now) }
        ensures shallow { OnOk result (nesting unit.now ≤ 1000) }
    {
        if nesting_of(alloc, unit)? > MOST_NESTED {
            return Err(Memory);
        }
        let mut memory = FrameMemory::new(alloc);
        for n in 0..erase(unit).nodes().len() as u32 {
            let size = bytes_declared(unit, n);
            if size > u64::from(u32::MAX) {
                return Err(Memory);
            }
            memory.add(alloc, size as u32)?;
        }
        let above = chains_of(alloc, unit)?;
        let waiting = vec![in alloc; Datum::Nothing; erase(unit).items().len()]?;
        Ok(Machine {
            memory,
            above,
            waiting,
        })
    }

    /// Runs `nf_process` on a frame of at most 262,144 bytes that came to a port at a time in nanoseconds. `unit` is the text that the machine was
    /// made for. What the function wrote stands in the frame afterwards, after a wrong run what it wrote until then. No chunk is lent afterwards.
    ///
    /// No memory is taken.
    pub fn frame(&mut self, unit: &Unit, port: u16, frame: &mut [u8], now: u64) -> Done
        requires made_for { IsMadeFor self.old unit.now }
        requires no_externs { has_extern unit.now.tree.nodes ≡ false }
        requires size { length frame.old ≤ 262144 }
        ensures runs { done_of (run unit.now port now frame.old) ≡ Some result }
        ensures frame { frame.new ≡ frame_of (run unit.now port now frame.old) }
        ensures made_for { IsMadeFor self.new unit.now }
        ensures taken_back { self.new.chunks ≡ [] }
    {
        self.memory.restart();
        let env = Env {
            unit,
            above: self.above.as_slice(),
        };
        let mut world = World {
            memory: &mut self.memory,
            frame,
            waiting: self.waiting.as_mut_slice(),
        };
        let answer = process(&mut world, &env, port, now);
        let done = told(&self.memory, answer);
        self.memory.take_back_all();
        done
    }
}

// How deep a run of a text nests.
fn nesting_of(alloc: Global, unit: &Unit) -> Result<u32, Memory>
    ensures { IfOk result (λ n. n ≡ nesting unit.now) }
{
    let depths = depths(alloc, unit)?;
    match process_of(unit) {
        Some(function) => Ok(depth(&depths, function)),
        None => Ok(0),
    }
}

// How many bytes a variable of a type has. A pointer variable has none.
fn bytes_of(unit: &Unit, of: CType) -> u64
    ensures { result ≡ runs.bytes_of unit.now of }
{
    if is_pointer(of) {
        return 0;
    }
    size_of_type(unit, of)
}

// How many bytes a parameter has. Nothing can be given for one that is a struct.
fn bytes_of_parameter(unit: &Unit, of: CType) -> u64
    ensures { result ≡ runs.bytes_of_parameter unit.now of }
{
    match of {
        CType::Struct(_) => 0,
        _ => bytes_of(unit, of),
    }
}

// How many bytes a node declares.
fn bytes_declared(unit: &Unit, n: u32) -> u64
    ensures { result ≡ runs.bytes_declared unit.now n (typings.kind_at unit.now n) }
{
    match kind_at(unit, n) {
        Kind::Param { .. } => bytes_of_parameter(unit, type_at(unit, n)),
        Kind::Declare { .. } | Kind::For { .. } => bytes_of(unit, type_at(unit, n)),
        _ => 0,
    }
}

fn last_of(items: &[u32]) -> Option<u32>
    ensures { result ≡ runs.last_of items.now }
{
    let count = items.len();
    if count == 0 {
        return None;
    }
    items.get(count - 1).copied()
}

// The last item of a text.
fn process_of(unit: &Unit) -> Option<u32>
    ensures { result ≡ runs.process_of unit.now }
{
    let count = erase(unit).nodes().len();
    let root = if count == 0 { 0 } else { count as u32 - 1 };
    match kind_at(unit, root) {
        Kind::Unit { items } => last_of(erase(unit).listed(items)),
        _ => None,
    }
}

fn unsigned(bits: u8, word: u64) -> Datum
    ensures { result ≡ runs.unsigned bits word }
{
    let of = Integer {
        bits,
        signed: false,
    };
    Datum::Word(number(of, word))
}

// The parameters of `nf_process`: the port and the time.
fn arguments(
    world: &mut World,
    unit: &Unit,
    params: &[u32],
    port: u16,
    now: u64,
) -> Result<(), Fault>
    ensures value { goes result (seen world.new) ≡ runs.arguments unit.now params.now port now (seen world.old) }
    ensures same { IsSame world.old world.new }
{
    match params {
        [first, second] => {
            parameter(world, unit, *first, unsigned(16, u64::from(port)))?;
            parameter(world, unit, *second, unsigned(64, now))
        }
        _ => Ok(()),
    }
}

// What `nf_process` answers for a frame.
#[tactic(auto, using(crate::proofs::Closing::closing_ok))]
fn process(world: &mut World, env: &Env, port: u16, now: u64) -> Result<Datum, Fault>
    requires size { IsShort world.old }
    ensures value { gives result (seen world.new) ≡ run_at env.now.unit.now (runs.process_of env.now.unit.now) port now (seen world.old) }
    ensures same { IsSame world.old world.new }
{
    let Some(function) = process_of(env.unit) else {
        return Err(NOTHING_TO_RUN);
    };
    match kind_at(env.unit, function) {
        Kind::Function {
            answer,
            params,
            body,
            ..
        } => {
            let params = erase(env.unit).listed(params);
            arguments(world, env.unit, params, port, now)?;
            let returned = statement(world, env, body)?;
            end_all(world.memory, params);
            answer_as(answer, end_of(kind_at(env.unit, body)), returned)
        }
        _ => Err(NOTHING_TO_RUN),
    }
}

const NOTHING_TO_RUN: Fault = Fault {
    at: 0,
    reason: Reason::Unset,
};

// An `int` by its word.
#[tactic(auto, unfolding(vg_cint::specs::Values::reading))]
fn int_of(word: u64) -> i32
    ensures { result ≡ runs.int_of word }
{
    let low = (word % (1 << 32)) as u32;
    if low < 1 << 31 {
        low as i32
    } else {
        -((u32::MAX - low) as i32) - 1
    }
}

fn told(memory: &FrameMemory, answer: Result<Datum, Fault>) -> Done
    ensures { (frame : List ℕ) → done_of (gives answer (full memory.now frame)) ≡ Some result }
{
    match answer {
        Ok(datum) => Done::Ret {
            value: int_of(word_of(datum).word),
            steps: memory.steps(),
            left: memory.chunks_out(),
        },
        Err(fault) => Done::Wrong {
            at: fault.at,
            reason: fault.reason,
        },
    }
}
