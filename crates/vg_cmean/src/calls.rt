//! What calls do before and behind the body of what is called (C11 6.5.2.2), and the library's calls for the frame.
ghost use Rattle.std.specs.Prelude.{◌≡◌, ◌≤◌, Ok, length};
ghost use Rattle.vg_cmean.specs.Outcomes.{gives, does, goes};
ghost use Rattle.vg_cmean.specs.Views.{seen, IsShort, IsSame};
ghost use Rattle.vg_cmean.specs.Arguments.{set_below};
ghost use Rattle.vg_cmean.specs.Meaning as meaning;
ghost use Rattle.vg_cmemory.specs.State.{State, sizes};

use crate::datum::Datum;
use crate::fault::{Fault, or_wrong};
use crate::places::declared;
use crate::typings::{kind_at, place_at};
use crate::values::{converted_to, number, pointer_of, word_of, write};
use crate::world::World;
use vg_cint::integer_of;
use vg_cmemory::{FrameCall, FrameMemory};
use vg_core::{IntType, Integer, Kind, Reason, Unit};

const UNSIGNED_32: Integer = Integer {
    bits: 32,
    signed: false,
};

/// A parameter is a new variable with its argument.
pub fn parameter(world: &mut World, unit: &Unit, p: u32, argument: Datum) -> Result<(), Fault>
    ensures value { goes result (seen world.new) ≡ meaning.parameter unit.now p argument (seen world.old) }
    ensures same { IsSame world.old world.new }
{
    world.memory.declare(p);
    let variable = declared(world.memory, unit, p, place_at(unit, p));
    write(world, variable, argument)
}

/// Each parameter is a new variable with the argument that waits for it. The last one is the first, which nothing can tell.
pub fn parameters(
    world: &mut World,
    unit: &Unit,
    params: &[u32],
    arguments: &[Datum],
) -> Result<(), Fault>
    requires enough { length arguments.now ≤ length params.now }
    ensures value { goes result (seen world.new) ≡ set_below unit.now params.now arguments.now (length arguments.now) (seen world.old) }
    ensures same { IsSame world.old world.new }
{
    for k in 0..arguments.len() {
        let last = arguments.len() - 1 - k;
        parameter(world, unit, params[last], arguments[last])?;
    }
    Ok(())
}

/// What these nodes declare lives no longer.
pub fn end_all(memory: &mut FrameMemory, nodes: &[u32])
    ensures value { memory.new ≡ meaning.ended nodes.now memory.old }
    ensures sizes { sizes memory.new ≡ sizes memory.old }
{
    for &node in nodes {
        memory.end_life(node);
    }
}

/// The place of a block's last brace.
pub fn end_of(kind: Kind) -> u32
    ensures { result ≡ meaning.end_of kind }
{
    match kind {
        Kind::Block { end, .. } => end,
        _ => 0,
    }
}

/// What a function answers, by what its body returned; `end` is the place of its last brace.
///
/// `Unset`, at the last brace: the function isn't `void`, and its body came to its end.
pub fn answer_as(answer: Option<IntType>, end: u32, returned: Option<Datum>) -> Result<Datum, Fault>
    ensures { (s : State) → gives result s ≡ meaning.answer_as answer end (does (Ok returned) s) }
{
    match (answer, returned) {
        (None, _) => Ok(Datum::Nothing),
        (Some(_), None) => Err(Fault {
            at: end,
            reason: Reason::Unset,
        }),
        (Some(of), Some(datum)) => Ok(Datum::Word(converted_to(integer_of(of), word_of(datum)))),
    }
}

// `packet_length`
fn packet_length(world: &World) -> Datum
    ensures { gives (Ok result) (seen world.now) ≡ meaning.packet_length (seen world.now) }
{
    Datum::Word(number(UNSIGNED_32, world.frame.len() as u64))
}

// `packet_borrow`
fn packet_borrow(world: &mut World, at: u32, count: Datum) -> Result<Datum, Fault>
    requires size { IsShort world.old }
    ensures value { gives result (seen world.new) ≡ meaning.packet_borrow at count (seen world.old) }
    ensures same { IsSame world.old world.new }
{
    let bytes = converted_to(UNSIGNED_32, word_of(count)).word;
    let start = or_wrong(world.memory.borrow(world.frame.len() as u32, bytes), at)?;
    Ok(Datum::Address(start))
}

// `packet_return`
fn packet_return(world: &mut World, at: u32, chunk: Datum) -> Result<Datum, Fault>
    ensures value { gives result (seen world.new) ≡ meaning.packet_return at chunk (seen world.old) }
    ensures same { IsSame world.old world.new }
{
    or_wrong(world.memory.give_back(pointer_of(chunk)), at)?;
    Ok(Datum::Nothing)
}

// An argument of a call. Typing has made sure of their number.
fn argument_at(arguments: &[Datum], k: usize) -> Datum
    ensures { result ≡ meaning.argument_at arguments.now k }
{
    match arguments.get(k) {
        Some(argument) => *argument,
        None => Datum::Nothing,
    }
}

/// A call of the library for the frame, by its arguments.
///
/// `Before(2)`: the bytes can't be borrowed. `Before(3)`: the pointer isn't the start of the chunk that was lent last.
pub fn frame_row(
    world: &mut World,
    row: FrameCall,
    at: u32,
    arguments: &[Datum],
) -> Result<Datum, Fault>
    requires size { IsShort world.old }
    ensures value { gives result (seen world.new) ≡ meaning.frame_row row at arguments.now (seen world.old) }
    ensures same { IsSame world.old world.new }
{
    match row {
        FrameCall::Length => Ok(packet_length(world)),
        FrameCall::Borrow => packet_borrow(world, at, argument_at(arguments, 0)),
        FrameCall::Return => packet_return(world, at, argument_at(arguments, 0)),
    }
}
