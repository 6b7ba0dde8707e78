//! What a state tells of its objects, by their numbers.
ghost use Rattle.std.specs.Prelude.{◌≡◌, ◌+◌, ◌==◌, ◌<◌, true, length, IsTrue, IfSome, Some, None, slice_get, is_some, if◌then◌else◌};
ghost use Rattle.std.specs.Option.{option_map};
ghost use Rattle.std.specs.FinMap.{get};
ghost use Rattle.vg_abs.specs.State as states;
ghost use Rattle.vg_abs.specs.Answers as answers;
ghost use Rattle.vg_abs.specs.Rows as rows;
ghost use Rattle.vg_smean.specs.Places as places;
ghost use Rattle.vg_smean.specs.Values as values;

use vg_abs::{
    Bytes, LibState, LinkTable, Numbered, Object, cell_struct, field_value, longest_match,
};
use vg_stree::Spec;

// The object with a number.
fn object_at(state: &LibState, number: u16) -> Option<&Object>
    ensures { option_map (λ object. object.now) result ≡ slice_get state.now.objects number }
{
    state.objects.get(number as usize)
}

/// Whether an object is a map.
pub fn is_map(state: &LibState, map: u16) -> bool
    ensures map { result ≡ places.is_map (slice_get state.now.objects map) }
    ensures inside { IsTrue result → map < length state.now.objects }
{
    matches!(object_at(state, map), Some(Object::Map(_)))
}

/// How many cells a vector has.
pub fn cell_count(state: &LibState, vector: u16) -> u64
    ensures { result ≡ (states.vector_of state.now vector).cell_count }
{
    match object_at(state, vector) {
        Some(Object::Cells(cells)) => cells.cell_count,
        Some(Object::Keys) => match object_at(state, vector.saturating_sub(2)) {
            Some(Object::Map(link)) => link.capacity,
            _ => 0,
        },
        _ => 0,
    }
}

// The bytes of a cell in a table; none where they aren't told.
fn bytes_in(cells: &Numbered<Bytes>, index: u64) -> Option<&[u8]>
    ensures { option_map (λ bytes. bytes.now) result ≡ get cells.now index }
{
    match cells.get(index) {
        Some(bytes) => Some(bytes.as_slice()),
        None => None,
    }
}

/// The bytes of a vector's cell; none where they aren't told.
#[tactic(auto, using(crate::proofs::TellingLaws::no_cell))]
pub fn cell_at(state: &LibState, vector: u16, index: u64) -> Option<&[u8]>
    ensures { option_map (λ bytes. bytes.now) result ≡ get (states.vector_of state.now vector).cells index }
{
    match object_at(state, vector) {
        Some(Object::Cells(cells)) => bytes_in(&cells.cells, index),
        Some(Object::Keys) => match object_at(state, vector.saturating_sub(2)) {
            Some(Object::Map(link)) => bytes_in(&link.cells, index),
            _ => None,
        },
        _ => None,
    }
}

/// A field of a vector's cell, 0 where there is no such cell, and none where it isn't told.
pub fn field_of_cell(
    spec: &Spec,
    state: &LibState,
    vector: u16,
    field: u16,
    index: u64,
) -> Option<u64>
    ensures { result ≡ values.field_of_cell spec.now state.now vector field index }
{
    if index < cell_count(state, vector) {
        let bytes = cell_at(state, vector, index)?;
        let fields = spec.shape().fields_of(cell_struct(spec.shape(), vector));
        Some(field_value(fields, bytes, field as usize))
    } else {
        Some(0)
    }
}

// What is listed in a table; else nothing in a full state, and in a partial one it isn't told.
fn listed_or_none(full: bool, found: Option<Option<u64>>) -> Option<Option<u64>>
    ensures { result ≡ answers.listed_or_none full found }
{
    match found {
        Some(answer) => Some(answer),
        None if full => Some(None),
        None => None,
    }
}

// The last time of a link's index, or that it is free, where it is told.
fn link_time(full: bool, link: &LinkTable, index: u64) -> Option<Option<u64>>
    ensures { result ≡ answers.time_of full link.now index }
{
    if index < link.capacity {
        listed_or_none(full, link.times.get(index).copied())
    } else {
        Some(None)
    }
}

/// The last time of an index of a link, told by its map, or that it is free; none where it isn't told.
#[tactic(auto, using(crate::proofs::TellingLaws::no_time))]
pub fn time_of(state: &LibState, map: u16, index: u64) -> Option<Option<u64>>
    ensures { result ≡ answers.time_of state.now.full (states.link_of_map state.now map) index }
{
    match object_at(state, map) {
        Some(Object::Map(link)) => link_time(state.full, link, index),
        _ => Some(None),
    }
}

// The index of a key in a link, or that it is absent, where it is told.
fn link_index(full: bool, link: &LinkTable, key: &[u8]) -> Option<Option<u32>>
    ensures { result ≡ answers.index_of full link.now key.now }
{
    match link.keys.get(key) {
        Some(answer) => Some(answer),
        None if full => Some(None),
        None => None,
    }
}

// That a key or an index has no answer, where a state tells that of what it doesn't list.
fn absent<T>(full: bool) -> Option<Option<T>>
    ensures { result ≡ (if full then Some None else None) }
{
    if full { Some(None) } else { None }
}

/// The index of a key in a link, told by its map, or that the key is absent; none where it isn't told.
#[tactic(auto, using(crate::proofs::TellingLaws::no_index))]
pub fn index_of(state: &LibState, map: u16, key: &[u8]) -> Option<Option<u32>>
    ensures { result ≡ answers.index_of state.now.full (states.link_of_map state.now map) key.now }
{
    match object_at(state, map) {
        Some(Object::Map(link)) => link_index(state.full, link, key),
        _ => absent(state.full),
    }
}

/// Whether all indices of a link are allocated.
pub fn is_used_up(state: &LibState, map: u16) -> bool
    ensures { result ≡ ((states.link_of_map state.now map).count == (states.link_of_map state.now map).capacity) }
{
    match object_at(state, map) {
        Some(Object::Map(link)) => u64::from(link.count) == link.capacity,
        _ => true,
    }
}

/// Whether an index of a link can be handed out: it is below the capacity and free; none where it isn't told.
#[tactic(auto, using(crate::proofs::TellingLaws::none_handed))]
pub fn may_hand_out(state: &LibState, map: u16, index: u32) -> Option<bool>
    ensures may { result ≡ rows.may_hand_out state.now (map + 1) index }
    ensures map { IfSome result (λ may. IsTrue may → places.is_map (slice_get state.now.objects map) ≡ true) }
    ensures inside { IfSome result (λ may. IsTrue may → map < length state.now.objects) }
{
    match object_at(state, map) {
        Some(Object::Map(link)) if u64::from(index) < link.capacity => {
            let time = link_time(state.full, link, u64::from(index))?;
            Some(time.is_none())
        }
        _ => Some(false),
    }
}

/// What a look-up of an address answers in a full state.
#[tactic(auto, using(crate::proofs::TellingLaws::no_routes))]
pub fn match_in(state: &LibState, table: u16, address: u32) -> Option<u16>
    requires { state.now.full ≡ true }
    ensures { Some result ≡ answers.match_in state.now.full (states.prefixes_of state.now table) address }
{
    match object_at(state, table) {
        Some(Object::Prefixes(prefixes)) => longest_match(&prefixes.routes, address),
        _ => None,
    }
}

/// Whether the cell of an index of a link, told by its map, is told.
#[tactic(auto, using(crate::proofs::TellingLaws::no_cell))]
pub fn is_cell_told(state: &LibState, map: u16, index: u64) -> bool
    ensures { result ≡ is_some (get (states.link_of_map state.now map).cells index) }
{
    match object_at(state, map) {
        Some(Object::Map(link)) => link.cells.get(index).is_some(),
        _ => false,
    }
}

/// Whether an index of a link is allocated, as 1 or 0; none where it isn't told.
pub fn is_allocated(state: &LibState, map: u16, index: u64) -> Option<u64>
    ensures { result ≡ values.is_allocated state.now map index }
{
    let time = time_of(state, map, index)?;
    Some(u64::from(time.is_some()))
}
