//! The machine: it runs the nodes of a typed text as they mean (C11 6.5, 6.8). It takes no memory.
ghost use Rattle.std.specs.Prelude.{◌≡◌, ◌<◌, ◌≤◌, ◌^◌, [], length, min};
ghost use Rattle.vg_cmean.specs.Outcomes.{gives, does, goes, and_then};
ghost use Rattle.vg_cmean.specs.Views.{seen, IsShort, IsSame};
ghost use Rattle.vg_cmean.specs.Chains.{link_at, branched_at};
ghost use Rattle.vg_cmean.specs.Meaning as meaning;
ghost use Rattle.vg_cmean.specs.Meaning.{meaning_below, value, operated, indexed_by};
ghost use Rattle.vg_cmean.specs.Typings as typings;

use crate::calls::{answer_as, end_all, end_of, frame_row, parameter, parameters};
use crate::chains::{Branch, Foot, above, else_if, foot_of};
use crate::datum::Datum;
use crate::fault::Fault;
use crate::operators::{ONE, binary, is_below, next_of, unary};
use crate::places::{address, declared, element, indexed, member, named, pointed_to};
use crate::typings::{constant_at, element_size, kind_at, place_at, referent_at, type_at};
use crate::values::{as_type, converted_to, integer_of, is_true, number, of_bool, read, write};
use crate::world::{Env, World};
use arrayvec::ArrayVec;
use vg_cint::Value;
use vg_cmemory::{FrameCall, call_in_row};
use vg_core::{BinaryOp, IntType, Integer, Kind, Referent, UnaryOp, Unit, erase};

// No row of the library takes more.
const MOST_ARGUMENTS: usize = 4;

const UNSIGNED_64: Integer = Integer {
    bits: 64,
    signed: false,
};

/// What a node gives as an expression. A chain of operators and suffixes is walked from its innermost part on.
#[cycle(machine)]
pub fn expression(world: &mut World, env: &Env, n: u32) -> Result<Datum, Fault>
    requires size { IsShort world.old }
    ensures value { gives result (seen world.new) ≡ (meaning.meaning env.now.unit.now n).gives (seen world.old) }
    ensures same { IsSame world.old world.new }
{
    let Foot { node, links } = foot_of(env, n);
    let mut datum = alone(world, env, node)?;
    let mut at = node;
    for _link in 0..links {
        at = above(env, at);
        datum = link(world, env, at, datum)?;
    }
    Ok(datum)
}

// What a node gives by its parts.
#[cycle(machine)]
#[tactic(auto, using(crate::proofs::Below::meaning_is, crate::proofs::Lists::few_listed, crate::proofs::Links::by_link))]
fn alone(world: &mut World, env: &Env, n: u32) -> Result<Datum, Fault>
    requires size { IsShort world.old }
    ensures value { gives result (seen world.new) ≡ (meaning.meaning env.now.unit.now n).gives (seen world.old) }
    ensures same { IsSame world.old world.new }
{
    match kind_at(env.unit, n) {
        Kind::Number { value, of } => Ok(Datum::Word(number(vg_cint::integer_of(of), value))),
        Kind::Sizeof { .. } => Ok(Datum::Word(number(UNSIGNED_64, constant_at(env.unit, n)))),
        Kind::Variable { .. } => Ok(named(world.memory, env.unit, n)),
        Kind::Parens { inner } => part(world, env, n, inner),
        Kind::Unary { op, operand } => before_operand(world, env, op, n, operand),
        Kind::Choose {
            condition,
            then,
            otherwise,
        } => choose(world, env, n, condition, then, otherwise),
        Kind::Cast { operand, .. } => {
            let datum = part_value(world, env, n, operand)?;
            Ok(as_type(type_at(env.unit, n), datum))
        }
        Kind::Call { arguments, .. } => {
            let arguments = erase(env.unit).listed(arguments);
            call(world, env, n, arguments)
        }
        Kind::Binary { left, .. } => linked(world, env, n, left),
        Kind::Index { array, .. } => linked(world, env, n, array),
        Kind::Member { whole, .. } => linked(world, env, n, whole),
        Kind::Arrow { pointer, .. } => linked(world, env, n, pointer),
        _ => Ok(Datum::Nothing),
    }
}

// The first part of a chain's node, and then the node.
#[cycle(machine)]
fn linked(world: &mut World, env: &Env, n: u32, first: u32) -> Result<Datum, Fault>
    requires size { IsShort world.old }
    ensures value { gives result (seen world.new) ≡ and_then ((meaning_below env.now.unit.now n first).gives (seen world.old)) (link_at env.now.unit.now n) }
    ensures same { IsSame world.old world.new }
{
    let datum = part(world, env, n, first)?;
    link(world, env, n, datum)
}

// What a chain's node gives, where its first part gave something.
#[cycle(machine)]
fn link(world: &mut World, env: &Env, n: u32, first: Datum) -> Result<Datum, Fault>
    requires size { IsShort world.old }
    ensures value { gives result (seen world.new) ≡ link_at env.now.unit.now n first (seen world.old) }
    ensures same { IsSame world.old world.new }
{
    match kind_at(env.unit, n) {
        Kind::Binary { op, right, .. } => {
            let left = read(world, first)?;
            operation(world, env, op, n, left, right)
        }
        Kind::Index { array, index } => index_of(world, env, n, array, first, index),
        Kind::Member { whole, .. } => Ok(member(env.unit, n, whole, first)),
        Kind::Arrow { pointer, .. } => {
            let datum = read(world, first)?;
            Ok(member(env.unit, n, pointer, datum))
        }
        _ => Ok(first),
    }
}

// What a part of a node gives. A node's parts stand before it.
#[cycle(machine)]
#[tactic(auto, using(crate::proofs::Below::below_is, crate::proofs::Below::below_none))]
fn part(world: &mut World, env: &Env, n: u32, p: u32) -> Result<Datum, Fault>
    requires size { IsShort world.old }
    ensures value { gives result (seen world.new) ≡ (meaning_below env.now.unit.now n p).gives (seen world.old) }
    ensures same { IsSame world.old world.new }
{
    if n <= p {
        return Ok(Datum::Nothing);
    }
    expression(world, env, p)
}

// The value of a part of a node: an lvalue is read.
#[cycle(machine)]
fn part_value(world: &mut World, env: &Env, n: u32, p: u32) -> Result<Datum, Fault>
    requires size { IsShort world.old }
    ensures value { gives result (seen world.new) ≡ value (meaning_below env.now.unit.now n p) (seen world.old) }
    ensures same { IsSame world.old world.new }
{
    let datum = part(world, env, n, p)?;
    read(world, datum)
}

// What a part of a node does as a statement.
#[cycle(machine)]
#[tactic(auto, using(crate::proofs::Below::below_is, crate::proofs::Below::below_none))]
fn part_does(world: &mut World, env: &Env, n: u32, p: u32) -> Result<Option<Datum>, Fault>
    requires size { IsShort world.old }
    ensures value { does result (seen world.new) ≡ (meaning_below env.now.unit.now n p).does (seen world.old) }
    ensures same { IsSame world.old world.new }
{
    if n <= p {
        return Ok(None);
    }
    statement(world, env, p)
}

// An operator before its operand.
#[cycle(machine)]
fn before_operand(
    world: &mut World,
    env: &Env,
    op: UnaryOp,
    n: u32,
    operand: u32,
) -> Result<Datum, Fault>
    requires size { IsShort world.old }
    ensures value { gives result (seen world.new) ≡ meaning.before_operand env.now.unit.now op n (meaning_below env.now.unit.now n operand) (seen world.old) }
    ensures same { IsSame world.old world.new }
{
    match op {
        UnaryOp::Address => {
            let datum = part(world, env, n, operand)?;
            address(world, env.unit, datum)
        }
        UnaryOp::Load => {
            let datum = part_value(world, env, n, operand)?;
            Ok(pointed_to(type_at(env.unit, n), place_at(env.unit, n), datum))
        }
        _ => {
            let datum = part_value(world, env, n, operand)?;
            unary(op, place_at(env.unit, n), datum)
        }
    }
}

// An operator between two operands, of which the left one has this value.
#[cycle(machine)]
#[tactic(auto, using(crate::proofs::Strict::operated_strict))]
fn operation(
    world: &mut World,
    env: &Env,
    op: BinaryOp,
    n: u32,
    left: Datum,
    right: u32,
) -> Result<Datum, Fault>
    requires size { IsShort world.old }
    ensures value { gives result (seen world.new) ≡ operated op (typings.place_at env.now.unit.now n) (meaning_below env.now.unit.now n right) left
        (seen world.old) }
    ensures same { IsSame world.old world.new }
{
    match op {
        BinaryOp::AndThen => {
            world.memory.tick();
            if !is_true(left) {
                return Ok(of_bool(false));
            }
            let b = part_value(world, env, n, right)?;
            Ok(of_bool(is_true(b)))
        }
        BinaryOp::OrElse => {
            world.memory.tick();
            if is_true(left) {
                return Ok(of_bool(true));
            }
            let b = part_value(world, env, n, right)?;
            Ok(of_bool(is_true(b)))
        }
        _ => {
            let b = part_value(world, env, n, right)?;
            binary(op, place_at(env.unit, n), left, b)
        }
    }
}

// `condition ? one : other`
#[cycle(machine)]
fn choose(
    world: &mut World,
    env: &Env,
    n: u32,
    condition: u32,
    one: u32,
    other: u32,
) -> Result<Datum, Fault>
    requires size { IsShort world.old }
    ensures value { gives result (seen world.new) ≡ meaning.choice env.now.unit.now n (meaning_below env.now.unit.now n condition)
        (meaning_below env.now.unit.now n one) (meaning_below env.now.unit.now n other) (seen world.old) }
    ensures same { IsSame world.old world.new }
{
    let holds = is_true(part_value(world, env, n, condition)?);
    world.memory.tick();
    if holds {
        let datum = part_value(world, env, n, one)?;
        return Ok(as_type(type_at(env.unit, n), datum));
    }
    let datum = part_value(world, env, n, other)?;
    Ok(as_type(type_at(env.unit, n), datum))
}

// `array[index]`, where the array gave something.
#[cycle(machine)]
fn index_of(
    world: &mut World,
    env: &Env,
    n: u32,
    array: u32,
    first: Datum,
    index: u32,
) -> Result<Datum, Fault>
    requires size { IsShort world.old }
    ensures value { gives result (seen world.new) ≡ indexed_by env.now.unit.now (meaning_below env.now.unit.now n) n array index first (seen world.old) }
    ensures same { IsSame world.old world.new }
{
    let whole = indexed(world, first)?;
    let number = part_value(world, env, n, index)?;
    let size = element_size(env.unit, type_at(env.unit, array));
    element(
        size,
        type_at(env.unit, n),
        place_at(env.unit, n),
        place_at(env.unit, index),
        whole,
        number,
    )
}

// A call, of a function of the text or of the library.
#[cycle(machine)]
fn call(world: &mut World, env: &Env, n: u32, arguments: &[u32]) -> Result<Datum, Fault>
    requires size { IsShort world.old }
    requires few { length arguments.now < 2 ^ 32 }
    ensures value { gives result (seen world.new) ≡ meaning.call env.now.unit.now (meaning_below env.now.unit.now n)
        (typings.place_at env.now.unit.now n) arguments.now (typings.referent_at env.now.unit.now n) (seen world.old) }
    ensures same { IsSame world.old world.new }
{
    match referent_at(env.unit, n) {
        None => Ok(Datum::Nothing),
        Some(Referent::Library(row)) => library(world, env, n, row, arguments),
        Some(Referent::Declared(function)) => match kind_at(env.unit, function) {
            Kind::Function {
                answer,
                params,
                body,
                ..
            } => {
                let params = erase(env.unit).listed(params);
                call_function(world, env, n, arguments, answer, params, body)
            }
            _ => Ok(Datum::Nothing),
        },
    }
}

// A call of a function of the text.
#[cycle(machine)]
#[tactic(auto, using(crate::proofs::Closing::closing_ok))]
fn call_function(
    world: &mut World,
    env: &Env,
    n: u32,
    arguments: &[u32],
    answer: Option<IntType>,
    params: &[u32],
    body: u32,
) -> Result<Datum, Fault>
    requires size { IsShort world.old }
    requires few { length arguments.now < 2 ^ 32 }
    ensures value { gives result (seen world.new) ≡ meaning.function_called env.now.unit.now (meaning_below env.now.unit.now n) arguments.now answer
        params.now body (seen world.old) }
    ensures same { IsSame world.old world.new }
{
    given(world, env, n, arguments, params)?;
    let returned = part_does(world, env, n, body)?;
    end_all(world.memory, params);
    answer_as(answer, end_of(kind_at(env.unit, body)), returned)
}

// The parameters of a call, after all arguments were evaluated, the first one first. They wait in the room for arguments; where it is too small, as it
// never is for a text that was read, each waits in a call.
#[cycle(machine)]
fn given(
    world: &mut World,
    env: &Env,
    n: u32,
    arguments: &[u32],
    params: &[u32],
) -> Result<(), Fault>
    requires size { IsShort world.old }
    requires few { length arguments.now < 2 ^ 32 }
    ensures value { goes result (seen world.new) ≡ meaning.given env.now.unit.now (meaning_below env.now.unit.now n) arguments.now params.now (seen world.old) }
    ensures same { IsSame world.old world.new }
{
    let count = usize::min(arguments.len(), params.len());
    if world.waiting.len() < count {
        return given_in_calls(world, env, n, arguments, params);
    }
    let (evaluated, waiting) = world.waiting.split_at_mut(count);
    let mut inner = World {
        memory: world.memory,
        frame: world.frame,
        waiting,
    };
    given_waiting(&mut inner, env, n, arguments, params, evaluated)
}

// The same, where `evaluated` is room for the arguments.
#[cycle(machine)]
fn given_waiting(
    world: &mut World,
    env: &Env,
    n: u32,
    arguments: &[u32],
    params: &[u32],
    evaluated: &mut [Datum],
) -> Result<(), Fault>
    requires size { IsShort world.old }
    requires room { length evaluated.old ≡ min (length arguments.now) (length params.now) }
    ensures value { goes result (seen world.new) ≡ meaning.given env.now.unit.now (meaning_below env.now.unit.now n) arguments.now params.now (seen world.old) }
    ensures same { IsSame world.old world.new }
{
    for k in 0..evaluated.len() {
        let datum = part(world, env, n, arguments[k])?;
        evaluated[k] = read(world, datum)?;
    }
    world.memory.tick();
    parameters(world, env.unit, params, evaluated)
}

// The same, where each argument waits in a call.
#[cycle(machine)]
fn given_in_calls(
    world: &mut World,
    env: &Env,
    n: u32,
    arguments: &[u32],
    params: &[u32],
) -> Result<(), Fault>
    requires size { IsShort world.old }
    requires few { length arguments.now < 2 ^ 32 }
    ensures value { goes result (seen world.new) ≡ meaning.given env.now.unit.now (meaning_below env.now.unit.now n) arguments.now params.now (seen world.old) }
    ensures same { IsSame world.old world.new }
{
    match (arguments.split_first(), params.split_first()) {
        (Some((&argument, arguments)), Some((&p, params))) => {
            let datum = part_value(world, env, n, argument)?;
            given_in_calls(world, env, n, arguments, params)?;
            parameter(world, env.unit, p, datum)
        }
        _ => {
            world.memory.tick();
            Ok(())
        }
    }
}

// A call of the library, by the number of its row.
#[cycle(machine)]
fn library(world: &mut World, env: &Env, n: u32, row: u8, arguments: &[u32]) -> Result<Datum, Fault>
    requires size { IsShort world.old }
    ensures value { gives result (seen world.new) ≡ meaning.library (meaning_below env.now.unit.now n) row (typings.place_at env.now.unit.now n)
        arguments.now (seen world.old) }
    ensures same { IsSame world.old world.new }
{
    match call_in_row(row) {
        Some(row) => {
            if arguments.len() > MOST_ARGUMENTS {
                return Ok(Datum::Nothing);
            }
            frame_call(world, env, n, row, arguments)
        }
        None => Ok(Datum::Nothing),
    }
}

// A call of the library for the frame: all arguments, the first one first, and then its row.
#[cycle(machine)]
fn frame_call(
    world: &mut World,
    env: &Env,
    n: u32,
    row: FrameCall,
    arguments: &[u32],
) -> Result<Datum, Fault>
    requires size { IsShort world.old }
    requires few { length arguments.now ≤ 4 }
    ensures value { gives result (seen world.new) ≡ meaning.frame_call (meaning_below env.now.unit.now n) row (typings.place_at env.now.unit.now n) []
        arguments.now (seen world.old) }
    ensures same { IsSame world.old world.new }
{
    let mut data = ArrayVec::<Datum, MOST_ARGUMENTS>::new();
    for &argument in arguments {
        let datum = part_value(world, env, n, argument)?;
        data.push(datum);
    }
    world.memory.tick();
    frame_row(world, row, place_at(env.unit, n), data.as_slice())
}

/// What a node does as a statement: nothing where it goes on to the next one, else what it returns.
#[cycle(machine)]
#[tactic(auto, using(crate::proofs::Below::meaning_is, crate::proofs::Closing::closing_ok))]
pub fn statement(world: &mut World, env: &Env, n: u32) -> Result<Option<Datum>, Fault>
    requires size { IsShort world.old }
    ensures value { does result (seen world.new) ≡ (meaning.meaning env.now.unit.now n).does (seen world.old) }
    ensures same { IsSame world.old world.new }
{
    match kind_at(env.unit, n) {
        Kind::Block { statements, .. } => {
            let list = erase(env.unit).listed(statements);
            let returned = run_all(world, env, n, list)?;
            end_all(world.memory, list);
            Ok(returned)
        }
        Kind::Declare { value, .. } => declaration(world, env, n, value),
        Kind::Empty => {
            world.memory.tick();
            Ok(None)
        }
        Kind::Evaluate { value } => {
            world.memory.tick();
            part(world, env, n, value)?;
            Ok(None)
        }
        Kind::Assign { op, target, value } => assign(world, env, n, op, target, value),
        Kind::Increment { target } => {
            world.memory.tick();
            let to = part(world, env, n, target)?;
            stepped(world, BinaryOp::Add, place_at(env.unit, n), to)?;
            Ok(None)
        }
        Kind::Decrement { target } => {
            world.memory.tick();
            let to = part(world, env, n, target)?;
            stepped(world, BinaryOp::Subtract, place_at(env.unit, n), to)?;
            Ok(None)
        }
        Kind::If {
            condition,
            then,
            otherwise,
        } => {
            let first = Branch {
                node: n,
                condition,
                body: then,
                otherwise,
            };
            branch(world, env, first)
        }
        Kind::For {
            of,
            start,
            bound,
            step,
            body,
            ..
        } => {
            world.memory.tick();
            world.memory.declare(n);
            let returned = turns(
                world,
                env,
                n,
                body,
                first_of(env.unit, of, start),
                constant(env.unit, bound),
                step_of(env.unit, step),
            )?;
            world.memory.end_life(n);
            Ok(returned)
        }
        Kind::Return { value } => {
            world.memory.tick();
            match value {
                None => Ok(Some(Datum::Nothing)),
                Some(value) => Ok(Some(part_value(world, env, n, value)?)),
            }
        }
        _ => Ok(None),
    }
}

// A declaration of a variable in a block.
#[cycle(machine)]
fn declaration(
    world: &mut World,
    env: &Env,
    n: u32,
    value: Option<u32>,
) -> Result<Option<Datum>, Fault>
    requires size { IsShort world.old }
    ensures value { does result (seen world.new) ≡ meaning.declaration env.now.unit.now (meaning_below env.now.unit.now n) n value (seen world.old) }
    ensures same { IsSame world.old world.new }
{
    world.memory.declare(n);
    match value {
        None => Ok(None),
        Some(value) => {
            let datum = part_value(world, env, n, value)?;
            let variable = declared(world.memory, env.unit, n, place_at(env.unit, n));
            write(world, variable, datum)?;
            Ok(None)
        }
    }
}

// `target = value;`, or `target op= value;`
#[cycle(machine)]
fn assign(
    world: &mut World,
    env: &Env,
    n: u32,
    op: Option<BinaryOp>,
    target: u32,
    value: u32,
) -> Result<Option<Datum>, Fault>
    requires size { IsShort world.old }
    ensures value { does result (seen world.new) ≡ meaning.assignment env.now.unit.now n op (meaning_below env.now.unit.now n target)
        (meaning_below env.now.unit.now n value) (seen world.old) }
    ensures same { IsSame world.old world.new }
{
    world.memory.tick();
    let to = part(world, env, n, target)?;
    match op {
        None => {
            let datum = part_value(world, env, n, value)?;
            write(world, to, datum)?;
            Ok(None)
        }
        Some(op) => {
            let a = read(world, to)?;
            let b = part_value(world, env, n, value)?;
            let datum = binary(op, place_at(env.unit, n), a, b)?;
            write(world, to, datum)?;
            Ok(None)
        }
    }
}

// An `if`, and the `else if`s behind it one after the other.
#[cycle(machine)]
fn branch(world: &mut World, env: &Env, first: Branch) -> Result<Option<Datum>, Fault>
    requires size { IsShort world.old }
    ensures value { does result (seen world.new) ≡ branched_at env.now.unit.now first (seen world.old) }
    ensures same { IsSame world.old world.new }
{
    let mut branch = first;
    loop {
        world.memory.tick();
        let condition = part_value(world, env, branch.node, branch.condition)?;
        world.memory.tick();
        if is_true(condition) {
            return part_does(world, env, branch.node, branch.body);
        }
        let Some(next) = else_if(env.unit, branch) else {
            return otherwise(world, env, branch.node, branch.otherwise);
        };
        branch = next;
    }
}

// What an `else` does, where there is one.
#[cycle(machine)]
fn otherwise(
    world: &mut World,
    env: &Env,
    n: u32,
    other: Option<u32>,
) -> Result<Option<Datum>, Fault>
    requires size { IsShort world.old }
    ensures value { does result (seen world.new) ≡ meaning.branch (meaning_below env.now.unit.now n) other (seen world.old) }
    ensures same { IsSame world.old world.new }
{
    match other {
        None => Ok(None),
        Some(other) => part_does(world, env, n, other),
    }
}

// The statements of a block, in order, up to one that returns.
#[cycle(machine)]
fn run_all(world: &mut World, env: &Env, n: u32, list: &[u32]) -> Result<Option<Datum>, Fault>
    requires size { IsShort world.old }
    ensures value { does result (seen world.new) ≡ meaning.run_all (meaning_below env.now.unit.now n) list.now (seen world.old) }
    ensures same { IsSame world.old world.new }
{
    for &p in list {
        if let Some(datum) = part_does(world, env, n, p)? {
            return Ok(Some(datum));
        }
    }
    Ok(None)
}

// The turns of a loop, up to one that returns.
#[cycle(machine)]
#[tactic(auto, using(crate::proofs::Turns::turns_next, crate::proofs::Turns::turns_none))]
fn turns(
    world: &mut World,
    env: &Env,
    n: u32,
    body: u32,
    first: Value,
    bound: Value,
    step: u64,
) -> Result<Option<Datum>, Fault>
    requires size { IsShort world.old }
    ensures value { does result (seen world.new) ≡ meaning.turns env.now.unit.now meaning.most_turns n (meaning_below env.now.unit.now n body) first
        bound step (seen world.old) }
    ensures same { IsSame world.old world.new }
{
    let mut counter = first;
    for _turn in 0..u64::MAX {
        if !is_below(counter, bound) {
            return Ok(None);
        }
        if let Some(datum) = turn(world, env, n, body, counter)? {
            return Ok(Some(datum));
        }
        counter = next_of(counter, step);
    }
    Ok(None)
}

// A turn of a loop.
#[cycle(machine)]
fn turn(
    world: &mut World,
    env: &Env,
    n: u32,
    body: u32,
    counter: Value,
) -> Result<Option<Datum>, Fault>
    requires size { IsShort world.old }
    ensures value { does result (seen world.new) ≡ meaning.turn env.now.unit.now n (meaning_below env.now.unit.now n body) counter (seen world.old) }
    ensures same { IsSame world.old world.new }
{
    world.memory.tick(); // a turn is a step
    let variable = declared(world.memory, env.unit, n, place_at(env.unit, n));
    write(world, variable, Datum::Word(counter))?;
    part_does(world, env, n, body)
}

// Reads an lvalue, and writes to it what it is with one added to it or taken from it.
fn stepped(world: &mut World, op: BinaryOp, at: u32, to: Datum) -> Result<(), Fault>
    ensures value { goes result (seen world.new) ≡ meaning.stepped op at to (seen world.old) }
    ensures same { IsSame world.old world.new }
{
    let datum = binary(op, at, read(world, to)?, ONE)?;
    write(world, to, datum)
}

// The value of a constant expression.
fn constant(unit: &Unit, n: u32) -> Value
    ensures { result ≡ meaning.constant unit.now n }
{
    number(integer_of(type_at(unit, n)), constant_at(unit, n))
}

// What a loop's counter begins with.
fn first_of(unit: &Unit, of: IntType, start: u32) -> Value
    ensures { result ≡ meaning.first_of unit.now of start }
{
    converted_to(vg_cint::integer_of(of), constant(unit, start))
}

// By how much a loop's counter is stepped.
fn step_of(unit: &Unit, step: Option<u32>) -> u64
    ensures { result ≡ meaning.step_of unit.now step }
{
    match step {
        None => 1,
        Some(step) => constant_at(unit, step),
    }
}
