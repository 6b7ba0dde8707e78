//! The lvalues that expressions name (C11 6.5.1, 6.5.2.1, 6.5.2.3, 6.5.3.2).
ghost use Rattle.std.specs.Prelude.{◌≡◌};
ghost use Rattle.vg_cmean.specs.Outcomes.{gives};
ghost use Rattle.vg_cmean.specs.Views.{seen};
ghost use Rattle.vg_cint.specs.Tests.{tested};
ghost use Rattle.vg_cmean.specs.Places as places;
ghost use Rattle.vg_cmean.specs.Typings as typings;
ghost use Rattle.vg_cmemory.specs.State.{State};

use crate::datum::{Datum, Lvalue};
use crate::fault::{Fault, or_wrong};
use crate::typings::{
    is_array, is_packed, is_pointer, offset_at, place_at, referent_at, size_of_type, type_at,
};
use crate::values::{pointer_of, read, word_of};
use crate::world::World;
use vg_cint::{Value, converted, reading};
use vg_cmemory::{FrameMemory, Pointer, Room, lies_in};
use vg_core::{CType, Integer, Reason, Referent, Unit};

const SIGNED_64: Integer = Integer {
    bits: 64,
    signed: true,
};

// An lvalue that no array's bounds are asked of.
fn lvalue_at(pointer: Pointer, of: CType, at: u32) -> Lvalue
    ensures { result ≡ places.lvalue_at pointer of at }
{
    Lvalue {
        pointer,
        of,
        loose: false,
        room: None,
        past: false,
        at,
    }
}

/// What a declaration declares, named at a place of the text.
pub fn declared(memory: &FrameMemory, unit: &Unit, node: u32, at: u32) -> Datum
    ensures { result ≡ places.declared unit.now node at memory.now }
{
    let of = type_at(unit, node);
    if is_pointer(of) {
        return Datum::PointerVariable { node, at };
    }
    Datum::Lvalue(lvalue_at(memory.start_of(node), of, at))
}

/// What a name stands for in an expression.
pub fn named(memory: &FrameMemory, unit: &Unit, n: u32) -> Datum
    ensures { result ≡ places.named unit.now (typings.referent_at unit.now n) (typings.place_at unit.now n) memory.now }
{
    match referent_at(unit, n) {
        Some(Referent::Declared(node)) => declared(memory, unit, node, place_at(unit, n)),
        _ => Datum::Nothing,
    }
}

fn moved(pointer: Pointer, bytes: u64) -> Pointer
    ensures { result ≡ places.moved pointer bytes }
{
    Pointer {
        object: pointer.object,
        offset: pointer.offset.wrapping_add(bytes),
    }
}

fn start_under(datum: Datum) -> Pointer
    ensures { result ≡ places.start_under datum }
{
    match datum {
        Datum::Lvalue(place) => place.pointer,
        _ => pointer_of(datum),
    }
}

fn is_loose(datum: Datum) -> bool
    ensures { result ≡ places.is_loose datum }
{
    match datum {
        Datum::Lvalue(place) => place.loose,
        _ => false,
    }
}

/// What is indexed: an array where it stands, else a pointer.
pub fn indexed(world: &World, datum: Datum) -> Result<Datum, Fault>
    ensures { gives result (seen world.now) ≡ places.indexed datum (seen world.now) }
{
    match datum {
        Datum::Lvalue(place) => {
            if is_array(place.of) {
                Ok(datum)
            } else {
                read(world, datum)
            }
        }
        _ => read(world, datum),
    }
}

fn is_near(bound: u64, number: i128) -> bool
    ensures { result ≡ places.is_near bound number }
{
    -i128::from(bound) <= number && number <= i128::from(bound)
}

fn element_of(pointer: Pointer, size: u32, index: Value) -> Pointer
    ensures { result ≡ places.element_of pointer size index }
{
    let elements = converted(SIGNED_64, index.of, index.word);
    moved(pointer, elements.wrapping_mul(u64::from(size)))
}

// Where an index leads to, or the first reason against it.
fn pointer_at(pointer: Pointer, size: u32, index: Value) -> Result<Pointer, Reason>
    ensures { result ≡ tested (places.index_tests pointer index) (places.element_of pointer size index) }
{
    if !is_near(262144, reading(index.of, index.word)) {
        return Err(Reason::OutOfObject);
    }
    if !is_near(1 << 40, reading(SIGNED_64, pointer.offset)) {
        return Err(Reason::OutOfObject);
    }
    Ok(element_of(pointer, size, index))
}

fn length_of(of: CType) -> u32
    ensures { result ≡ places.length_of of }
{
    match of {
        CType::Array(_, length) => length,
        _ => 0,
    }
}

fn room_of_array(size: u32, array: Lvalue) -> Room
    ensures { result ≡ places.room_of_array size array }
{
    Room {
        from: array.pointer.offset,
        size: u64::from(size) * u64::from(length_of(array.of)),
    }
}

fn narrowed(outer: Option<Room>, inner: Room) -> Room
    ensures { result ≡ places.narrowed outer inner }
{
    if lies_in(outer, inner.from, inner.size) {
        return inner;
    }
    Room { size: 0, ..inner }
}

fn room_of_element(size: u32, array: Datum) -> Option<Room>
    ensures { result ≡ places.room_of_element size array }
{
    match array {
        Datum::Lvalue(array) => Some(narrowed(array.room, room_of_array(size, array))),
        _ => None,
    }
}

fn stands_behind(outer: Option<Room>, room: Room, element: Pointer) -> bool
    ensures { result ≡ places.stands_behind outer room element }
{
    lies_in(outer, room.from, room.size) && element.offset == room.from.wrapping_add(room.size)
}

fn is_past(size: u32, array: Datum, element: Pointer) -> bool
    ensures { result ≡ places.is_past size array element }
{
    match array {
        Datum::Lvalue(array) => stands_behind(array.room, room_of_array(size, array), element),
        _ => false,
    }
}

fn element_at(size: u32, of: CType, at: u32, array: Datum, pointer: Pointer) -> Lvalue
    ensures { result ≡ places.element_at size of at array pointer }
{
    Lvalue {
        loose: is_loose(array),
        room: room_of_element(size, array),
        past: is_past(size, array, pointer),
        ..lvalue_at(pointer, of, at)
    }
}

fn room_under(datum: Datum) -> Option<Room>
    ensures { result ≡ places.room_under datum }
{
    match datum {
        Datum::Lvalue(place) => place.room,
        _ => None,
    }
}

/// An element of an array, or of what a pointer points into.
///
/// `OutOfObject`, at the index: the index lies beyond 262,144 to either side, or the array or pointer stands beyond 2^40 bytes from its object.
pub fn element(
    size: u32,
    of: CType,
    at: u32,
    index_at: u32,
    array: Datum,
    index: Datum,
) -> Result<Datum, Fault>
    ensures { (s : State) → gives result s ≡ places.element size of at index_at array index s }
{
    let start = start_under(array);
    let pointer = or_wrong(pointer_at(start, size, word_of(index)), index_at)?;
    Ok(Datum::Lvalue(element_at(size, of, at, array, pointer)))
}

fn offset_of(unit: &Unit, field: Option<Referent>) -> u32
    ensures { result ≡ places.offset_of unit.now field }
{
    match field {
        Some(Referent::Declared(field)) => offset_at(unit, field),
        _ => 0,
    }
}

/// The member that a node names of what another node gave.
pub fn member(unit: &Unit, n: u32, whole: u32, datum: Datum) -> Datum
    ensures { result ≡ places.member unit.now n whole (typings.place_at unit.now n) datum }
{
    let offset = offset_of(unit, referent_at(unit, n));
    let pointer = moved(start_under(datum), u64::from(offset));
    Datum::Lvalue(Lvalue {
        loose: is_loose(datum) || is_packed(unit, type_at(unit, whole)),
        room: room_under(datum),
        ..lvalue_at(pointer, type_at(unit, n), place_at(unit, n))
    })
}

/// What a pointer points to.
pub fn pointed_to(of: CType, at: u32, datum: Datum) -> Datum
    ensures { result ≡ places.pointed_to of at datum }
{
    Datum::Lvalue(lvalue_at(pointer_of(datum), of, at))
}

fn may_be_pointed_to(world: &World, size: u64, place: Lvalue) -> bool
    ensures { result ≡ places.may_be_pointed_to size place (seen world.now) }
{
    lies_in(place.room, place.pointer.offset, size)
        || (place.past && world.memory.ends_at(world.frame, place.pointer))
}

// The address of an lvalue, or the first reason against it.
fn address_of(world: &World, size: u64, place: Lvalue) -> Result<Pointer, Reason>
    ensures { result ≡ tested (places.address_tests size place (seen world.now)) place.pointer }
{
    if may_be_pointed_to(world, size, place) {
        Ok(place.pointer)
    } else {
        Err(Reason::OutOfObject)
    }
}

/// The address of an lvalue.
///
/// `OutOfObject`, at the lvalue: it doesn't lie in the arrays that its path names, nor is it the element just past the last of an array with which its
/// object ends.
pub fn address(world: &World, unit: &Unit, datum: Datum) -> Result<Datum, Fault>
    ensures { gives result (seen world.now) ≡ places.address unit.now datum (seen world.now) }
{
    match datum {
        Datum::Lvalue(place) => {
            let size = size_of_type(unit, place.of);
            let pointer = or_wrong(address_of(world, size, place), place.at)?;
            Ok(Datum::Address(pointer))
        }
        _ => Ok(Datum::Address(pointer_of(datum))),
    }
}
