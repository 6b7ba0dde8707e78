//! Conversions, reads and writes (C11 6.3).
ghost use Rattle.std.specs.Prelude.{◌≡◌, ◌<◌, ◌≤◌};
ghost use Rattle.vg_cmean.specs.Outcomes.{gives, goes};
ghost use Rattle.vg_cmean.specs.Values as values;
ghost use Rattle.vg_cmean.specs.Views.{seen, IsSame};
ghost use Rattle.vg_cmemory.specs.State.{State};

use crate::datum::{Datum, Lvalue};
use crate::fault::{Fault, or_wrong};
use crate::world::World;
use vg_cint::{INT, Value, converted, truth, width};
use vg_cmemory::{Object, Pointer};
use vg_core::{CType, Integer, Reason};

/// The integer that typing has made sure of.
pub fn word_of(datum: Datum) -> Value
    ensures { result ≡ values.word_of datum }
{
    match datum {
        Datum::Word(value) => value,
        _ => Value { of: INT, word: 0 },
    }
}

/// The pointer that typing has made sure of.
pub fn pointer_of(datum: Datum) -> Pointer
    ensures { result ≡ values.pointer_of datum }
{
    match datum {
        Datum::Address(pointer) => pointer,
        _ => Pointer {
            object: Object::Chunk { number: 0 },
            offset: 0,
        },
    }
}

/// The integer type that typing has made sure of.
pub fn integer_of(of: CType) -> Integer
    ensures { result ≡ values.integer_of of }
{
    match of {
        CType::Int { bits, signed } => Integer { bits, signed },
        _ => INT,
    }
}

/// A value converted to an integer type (C11 6.3.1.3).
pub fn converted_to(to: Integer, value: Value) -> Value
    ensures { result ≡ values.converted_to to value }
{
    Value {
        of: to,
        word: converted(to, value.of, value.word),
    }
}

/// A number with this word, which is cut to its type.
pub fn number(of: Integer, word: u64) -> Value
    ensures { result ≡ values.number of word }
{
    converted_to(of, Value { of, word })
}

/// What an expression gave, converted to a type as an assignment, a cast or a `return` does it.
pub fn as_type(of: CType, datum: Datum) -> Datum
    ensures { result ≡ values.as_type of datum }
{
    match of {
        CType::Int { bits, signed } => {
            Datum::Word(converted_to(Integer { bits, signed }, word_of(datum)))
        }
        CType::Pointer(_) => Datum::Address(pointer_of(datum)),
        _ => Datum::Nothing,
    }
}

/// Whether a condition holds.
pub fn is_true(datum: Datum) -> bool
    ensures { result ≡ values.is_true datum }
{
    let value = word_of(datum);
    truth(value.of, value.word)
}

/// 0 or 1, as an `int`.
pub fn of_bool(holds: bool) -> Datum
    ensures { result ≡ values.of_bool holds }
{
    Datum::Word(Value {
        of: INT,
        word: if holds { 1 } else { 0 },
    })
}

fn size_of(of: Integer) -> u32
    ensures value { result ≡ values.size_of of }
    ensures some { 0 < result }
    ensures at_most_a_word { result ≤ 8 }
{
    u32::from(width(of) / 8)
}

fn align_of(loose: bool, of: Integer) -> u32
    ensures value { result ≡ values.align_of loose of }
    ensures some { 0 < result }
{
    if loose { 1 } else { size_of(of) }
}

fn read_integer(world: &World, of: Integer, place: Lvalue) -> Result<Datum, Fault>
    ensures { gives result (seen world.now) ≡ values.read_integer of place (seen world.now) }
{
    let size = size_of(of);
    let align = align_of(place.loose, of);
    let word = or_wrong(
        world
            .memory
            .load(world.frame, place.pointer, place.room, size, align),
        place.at,
    )?;
    Ok(Datum::Word(Value { of, word }))
}

fn read_lvalue(world: &World, place: Lvalue) -> Result<Datum, Fault>
    ensures { gives result (seen world.now) ≡ values.read_lvalue place.of place (seen world.now) }
{
    match place.of {
        CType::Int { bits, signed } => read_integer(world, Integer { bits, signed }, place),
        CType::Array(..) => Ok(Datum::Address(place.pointer)),
        _ => Ok(Datum::Nothing),
    }
}

fn read_pointer(pointer: Option<Pointer>, at: u32) -> Result<Datum, Fault>
    ensures { (s : State) → gives result s ≡ values.read_pointer pointer at s }
{
    match pointer {
        Some(pointer) => Ok(Datum::Address(pointer)),
        None => Err(Fault {
            at,
            reason: Reason::Unset,
        }),
    }
}

/// The value of what an expression gave: an lvalue is read (C11 6.3.2.1).
///
/// The faults of a read stand at the lvalue; `Unset` also at a pointer variable that isn't set.
pub fn read(world: &World, datum: Datum) -> Result<Datum, Fault>
    ensures { gives result (seen world.now) ≡ values.read datum (seen world.now) }
{
    match datum {
        Datum::Lvalue(place) => read_lvalue(world, place),
        Datum::PointerVariable { node, at } => read_pointer(world.memory.held(node), at),
        _ => Ok(datum),
    }
}

fn write_integer(world: &mut World, of: Integer, place: Lvalue, value: Value) -> Result<(), Fault>
    ensures value { goes result (seen world.new) ≡ values.write_integer of place value (seen world.old) }
    ensures same { IsSame world.old world.new }
{
    let size = size_of(of);
    let align = align_of(place.loose, of);
    let word = converted(of, value.of, value.word);
    or_wrong(
        world
            .memory
            .store(world.frame, place.pointer, place.room, size, align, word),
        place.at,
    )
}

/// Writes to an lvalue what an expression gave, converted to its type (C11 6.5.16.1). The faults of a write stand at the lvalue.
pub fn write(world: &mut World, to: Datum, datum: Datum) -> Result<(), Fault>
    ensures value { goes result (seen world.new) ≡ values.write to datum (seen world.old) }
    ensures same { IsSame world.old world.new }
{
    match to {
        Datum::Lvalue(place) => {
            write_integer(world, integer_of(place.of), place, word_of(datum))
        }
        Datum::PointerVariable { node, .. } => {
            world.memory.hold(node, pointer_of(datum));
            Ok(())
        }
        _ => Ok(()),
    }
}
