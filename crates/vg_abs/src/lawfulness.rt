//! Whether a state is lawful.
ghost use Rattle.std.specs.Prelude.{◌≡◌, ◌↔◌, IsTrue, slice_get};
ghost use Rattle.std.specs.List.{list_all, zip};
ghost use Rattle.std.specs.Option.{option_map};
ghost use Rattle.std.specs.FinMap.{entries};
ghost use Rattle.vg_abs.specs.Shape as shapes;
ghost use Rattle.vg_abs.specs.Lawful.{IsLawful, Holds};
ghost use Rattle.vg_abs.specs.LawfulTests as tests;

use crate::evaluation::{Cell, Scope, value};
use crate::links::{is_lawful_link, is_lawful_part};
use crate::numbered::Numbered;
use crate::object::{LinkTable, Object, PrefixTable, VectorTable};
use crate::start::size_of;
use crate::state::LibState;
use crate::tables::{all_there, cells_end, cells_have, keys_have};
use vg_stree::{Config, ObjectKind, Route, Rule, Shape, Size, Spec};

// Whether a link has the declared shape.
fn is_link_of(shape: &Shape, numbers: &[u64], key: u16, capacity: Size, link: &LinkTable) -> bool
    ensures { result ≡ tests.is_link_of shape.now numbers.now key capacity link.now }
{
    link.capacity == size_of(numbers, capacity)
        && link.key_length == shape.struct_bytes(key)
        && keys_have(link.key_length, &link.keys)
        && cells_have(link.key_length, &link.cells)
}

// Whether a vector has the declared shape.
fn is_vector_of(
    shape: &Shape,
    numbers: &[u64],
    cell: u16,
    count: Size,
    vector: &VectorTable,
) -> bool
    ensures { result ≡ tests.is_vector_of shape.now numbers.now cell count vector.now }
{
    vector.cell_count == size_of(numbers, count)
        && cells_have(shape.struct_bytes(cell), &vector.cells)
}

// Whether an object has the declared shape.
fn is_object_of(shape: &Shape, numbers: &[u64], kind: ObjectKind, object: &Object) -> bool
    ensures { result ≡ tests.is_object_of shape.now numbers.now kind object.now }
{
    match (kind, object) {
        (ObjectKind::Map { key, capacity }, Object::Map(link)) => {
            is_link_of(shape, numbers, key, capacity, link)
        }
        (ObjectKind::Chain, Object::Chain) => true,
        (ObjectKind::Keys, Object::Keys) => true,
        (ObjectKind::Vector { cell, length }, Object::Cells(vector)) => {
            is_vector_of(shape, numbers, cell, length, vector)
        }
        (ObjectKind::Table { .. }, Object::Prefixes(_)) => true,
        _ => false,
    }
}

// Whether each object has the declared shape.
fn each_shaped(shape: &Shape, numbers: &[u64], found: &[Object]) -> bool
    ensures { result ≡ list_all (λ pair. tests.is_object_of shape.now numbers.now pair.0.kind pair.1) (zip shape.now.objects found.now) }
{
    shape.objects().iter().zip(found).all(|(declared, object)| is_object_of(
        shape,
        numbers,
        declared.kind,
        object,
    ))
}

// Whether objects have the declared shape.
fn is_shaped(shape: &Shape, numbers: &[u64], found: &[Object]) -> bool
    ensures { result ≡ tests.is_shaped shape.now numbers.now found.now }
{
    found.len() == shape.objects().len() && each_shaped(shape, numbers, found)
}

// Whether a vector of its own is lawful.
fn is_lawful_vector(full: bool, vector: &VectorTable) -> bool
    ensures { result ≡ tests.is_lawful_vector full vector.now }
{
    cells_end(&vector.cells, vector.cell_count)
        && (!full || all_there(&vector.cells, vector.cell_count))
}

// Whether a route lies in its table's range.
fn is_lawful_route(low: u16, high: u16, route: Route) -> bool
    ensures { result ≡ tests.is_lawful_route low high route }
{
    low <= route.value && route.value <= high && route.len <= 32
}

// Whether routes lie in their table's range.
fn are_lawful_routes(low: u16, high: u16, routes: &[Route]) -> bool
    ensures { result ≡ list_all (tests.is_lawful_route low high) routes.now }
{
    routes
        .iter()
        .all(|route| is_lawful_route(low, high, *route))
}

// Whether a full state's prefix table is lawful.
fn has_lawful_routes(low: u16, high: u16, prefixes: &PrefixTable) -> bool
    ensures { result ≡ tests.has_lawful_routes low high prefixes.now }
{
    are_lawful_routes(low, high, &prefixes.routes) && prefixes.addresses.is_empty()
}

// Whether what is told of an address lies in its table's range.
fn is_value(low: u16, high: u16, value: Option<u16>) -> bool
    ensures { result ≡ tests.is_value low high value }
{
    match value {
        Some(value) => low <= value && value <= high,
        None => true,
    }
}

// Whether what is told of addresses lies in their table's range.
fn are_values(low: u16, high: u16, addresses: &Numbered<Option<u16>>) -> bool
    ensures { result ≡ list_all (λ entry. tests.is_value low high entry.1) (entries addresses.now) }
{
    addresses
        .iter()
        .all(|(_, value)| is_value(low, high, *value))
}

// Whether a partial state's prefix table is lawful.
fn has_lawful_addresses(low: u16, high: u16, prefixes: &PrefixTable) -> bool
    ensures { result ≡ tests.has_lawful_addresses low high prefixes.now }
{
    are_values(low, high, &prefixes.addresses) && prefixes.routes.is_empty()
}

// Whether an object is lawful.
fn is_lawful_object(now: u64, full: bool, kind: ObjectKind, object: &Object) -> bool
    ensures { result ≡ tests.is_lawful_object now full kind object.now }
{
    match object {
        Object::Map(link) if full => is_lawful_link(now, link),
        Object::Map(link) => is_lawful_part(now, link),
        Object::Cells(vector) => is_lawful_vector(full, vector),
        Object::Prefixes(prefixes) => match kind {
            ObjectKind::Table { low, high } if full => has_lawful_routes(low, high, prefixes),
            ObjectKind::Table { low, high } => has_lawful_addresses(low, high, prefixes),
            _ => true,
        },
        _ => true,
    }
}

// The struct of a map's keys, by its number; 0 where the object is no map.
fn key_struct(shape: &Shape, map: usize) -> u16
    ensures { result ≡ shapes.key_struct_in (slice_get shape.now.objects map) }
{
    match shape.objects().get(map) {
        Some(object) => match object.kind {
            ObjectKind::Map { key, .. } => key,
            _ => 0,
        },
        None => 0,
    }
}

/// The struct of a vector's cells, by its number: its own, or that of the keys of the map two objects before; 0 where there is none.
pub fn cell_struct(shape: &Shape, vector: u16) -> u16
    ensures { result ≡ shapes.cell_struct shape.now vector }
{
    match shape.objects().get(vector as usize) {
        Some(object) => match object.kind {
            ObjectKind::Vector { cell, .. } => cell,
            _ => key_struct(shape, vector.saturating_sub(2) as usize),
        },
        None => 0,
    }
}

// Whether a cell meets a rule.
fn cell_passes(spec: &Spec, numbers: &[u64], rule: Rule, bytes: &[u8]) -> bool
    ensures { result ≡ tests.cell_passes spec.now numbers.now rule bytes.now }
{
    let fields = spec
        .shape()
        .fields_of(cell_struct(spec.shape(), rule.vector));
    let scope = Scope {
        numbers,
        cell: Cell { fields, bytes },
        names: &[],
    };
    value(spec.code(), &scope, rule.value) != 0
}

// Whether an index is told to be allocated.
fn is_taken(found: Option<Option<u64>>) -> bool
    ensures { result ≡ tests.is_taken found }
{
    match found {
        Some(time) => time.is_some(),
        None => false,
    }
}

// Whether each allocated index's cell of a vector of keys meets a rule.
fn keys_pass(spec: &Spec, numbers: &[u64], rule: Rule, link: &LinkTable) -> bool
    ensures { result ≡ tests.keys_pass spec.now numbers.now rule (Some (Object.Map link.now)) }
{
    link.cells.iter().all(|(index, bytes)| {
        !is_taken(link.times.get(*index).copied())
            || cell_passes(spec, numbers, rule, bytes.as_slice())
    })
}

// Whether each cell of a vector of its own meets a rule.
fn cells_pass(spec: &Spec, numbers: &[u64], rule: Rule, vector: &VectorTable) -> bool
    ensures { result ≡ list_all (λ entry. tests.cell_passes spec.now numbers.now rule entry.1) (entries vector.now.cells) }
{
    vector.cells.iter().all(|(_, bytes)| cell_passes(spec, numbers, rule, bytes.as_slice()))
}

// The object with a number.
fn object_at(state: &LibState, number: u16) -> Option<&Object>
    ensures { option_map (λ object. object.now) result ≡ slice_get state.now.objects number }
{
    state.objects.get(number as usize)
}

// Whether each told cell of a vector that a rule speaks of meets it.
fn vector_passes(spec: &Spec, numbers: &[u64], state: &LibState, rule: Rule) -> bool
    ensures { result ≡ tests.vector_passes spec.now numbers.now state.now rule (slice_get state.now.objects rule.vector) }
{
    match object_at(state, rule.vector) {
        Some(Object::Cells(vector)) => cells_pass(spec, numbers, rule, vector),
        Some(Object::Keys) => match object_at(state, rule.vector.saturating_sub(2)) {
            Some(Object::Map(link)) => keys_pass(spec, numbers, rule, link),
            _ => true,
        },
        _ => true,
    }
}

/// Whether each cell that a rule speaks of meets it: those of allocated indices in a vector of keys, and every cell of another vector. Cells
/// that a partial state doesn't tell aren't asked.
pub fn rule_holds(spec: &Spec, numbers: &[u64], state: &LibState, rule: Rule) -> bool
    ensures { IsTrue result ↔ Holds spec.now numbers.now state.now rule }
{
    vector_passes(spec, numbers, state, rule)
}

// Whether each object is lawful.
fn objects_lawful(shape: &Shape, found: &[Object], full: bool, now: u64) -> bool
    ensures { result ≡ list_all (λ pair. tests.is_lawful_object now full pair.0.kind pair.1) (zip shape.now.objects found.now) }
{
    shape.objects().iter().zip(found).all(|(declared, object)| is_lawful_object(
        now,
        full,
        declared.kind,
        object,
    ))
}

// Whether each rule holds.
fn rules_hold(spec: &Spec, numbers: &[u64], state: &LibState) -> bool
    ensures { result ≡ tests.rules_hold spec.now numbers.now state.now }
{
    spec.shape()
        .rules()
        .iter()
        .all(|rule| vector_passes(spec, numbers, state, *rule))
}

// Whether a state has the declared shape, and each object is lawful.
fn are_lawful(shape: &Shape, numbers: &[u64], state: &LibState, now: u64) -> bool
    ensures { result ≡ tests.are_lawful shape.now numbers.now now state.now }
{
    is_shaped(shape, numbers, &state.objects)
        && objects_lawful(shape, &state.objects, state.full, now)
}

// Whether a state has the declared shape, each object is lawful, and each rule holds.
fn passes(spec: &Spec, numbers: &[u64], state: &LibState, now: u64) -> bool
    ensures { result ≡ tests.is_lawful spec.now numbers.now now state.now }
{
    are_lawful(spec.shape(), numbers, state, now) && rules_hold(spec, numbers, state)
}

/// Whether a state is lawful at a time, for a specification and its configuration: it has the declared shape, each key that is mapped and each
/// index that is allocated belong together, the counts and times fit, routes lie in their ranges, and each cell that a rule speaks of meets it.
/// A partial state is lawful where what it tells is.
pub fn lawful(spec: &Spec, config: &Config, state: &LibState, now: u64) -> bool
    ensures { IsTrue result ↔ IsLawful spec.now config.now.numbers now state.now }
{
    passes(spec, config.numbers(), state, now)
}
