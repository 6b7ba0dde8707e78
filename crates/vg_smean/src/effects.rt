//! What a step does to the tables of a full state.
ghost use Rattle.std.specs.Prelude.{◌≡◌, ◌<◌, ◌+◌, ◌-◌, true, Some, OnOk, IfOk, [], length, slice_get, unwrap_or};
ghost use Rattle.std.specs.FinMap.{get};
ghost use Rattle.vg_abs.specs.Answers as answers;
ghost use Rattle.vg_abs.specs.Effects as effects;
ghost use Rattle.vg_abs.specs.State.{link_in, link_of_map, vector_of};
ghost use Rattle.vg_abs.specs.declared.object.Object.TheVariants.{Map};
ghost use Rattle.vg_smean.specs.Places as places;
ghost use Rattle.vg_smean.specs.Places.{is_map, without_entry};
ghost use Rattle.vg_smean.specs.Expiring as expiring;
ghost use Rattle.vg_smean.specs.Step as steps;

use std::alloc::Global;
use vg_abs::{Bytes, Keyed, LibState, LinkTable, Numbered, Object};
use vg_parts::Memory;

// A count and one more, or want of memory.
fn one_more(count: u32) -> Result<u32, Memory>
    ensures { IfOk result (λ more. more ≡ count + 1) }
{
    match count.checked_add(1) {
        Some(more) => Ok(more),
        None => Err(Memory),
    }
}

// An index of a link is handed out with a time, its cell holds a key, and the key is mapped to it.
fn enter(
    alloc: Global,
    link: &mut LinkTable,
    key: &[u8],
    index: u32,
    time: u64,
) -> Result<(), Memory>
    ensures { OnOk result (link.new ≡ steps.with_entry link.old key.now index time) }
{
    link.size = one_more(link.size)?;
    link.count = one_more(link.count)?;
    link.times.insert(u64::from(index), Some(time))?;
    link.cells
        .insert(u64::from(index), Bytes::new(alloc, key)?)?;
    link.keys.insert(alloc, key, Some(index))?;
    link.highest = time;
    link.bounds = Numbered::new(alloc);
    Ok(())
}

// The same of an object that is a map.
fn enter_in(
    alloc: Global,
    object: &mut Object,
    key: &[u8],
    index: u32,
    time: u64,
) -> Result<(), Memory>
    requires { is_map (Some object.old) ≡ true }
    ensures { OnOk result (object.new ≡ Map (steps.with_entry (link_in (Some object.old)) key.now index time)) }
{
    match object {
        Object::Map(link) => enter(alloc, link, key, index, time),
        _ => unreachable!(),
    }
}

/// An index of a link, told by its map, is handed out with a time, its cell holds a key, and the key is mapped to it.
pub fn hand_out(
    alloc: Global,
    state: &mut LibState,
    map: u16,
    key: &[u8],
    index: u32,
    time: u64,
) -> Result<(), Memory>
    requires inside { map < length state.old.objects }
    requires map { is_map (slice_get state.old.objects map) ≡ true }
    ensures { OnOk result (state.new ≡ effects.with_link state.old map (steps.with_entry (link_of_map state.old map) key.now index time)) }
{
    enter_in(alloc, &mut state.objects[map as usize], key, index, time)
}

// An allocated index has this time.
fn touch_in(alloc: Global, object: &mut Object, index: u64, time: u64) -> Result<(), Memory>
    requires { is_map (Some object.old) ≡ true }
    ensures { OnOk result (object.new ≡ Map (effects.with_time (link_in (Some object.old)) index time)) }
{
    match object {
        Object::Map(link) => {
            link.times.insert(index, Some(time))?;
            link.highest = time;
            link.bounds = Numbered::new(alloc);
            Ok(())
        }
        _ => unreachable!(),
    }
}

/// An allocated index of a link, told by its map, has this time.
pub fn touch(
    alloc: Global,
    state: &mut LibState,
    map: u16,
    index: u64,
    time: u64,
) -> Result<(), Memory>
    requires inside { map < length state.old.objects }
    requires map { is_map (slice_get state.old.objects map) ≡ true }
    ensures { OnOk result (state.new ≡ effects.with_link state.old map (effects.with_time (link_of_map state.old map) index time)) }
{
    touch_in(alloc, &mut state.objects[map as usize], index, time)
}

// The bytes of a cell; none where they aren't told.
fn bytes_at(cells: &Numbered<Bytes>, index: u64) -> &[u8]
    ensures { result.now ≡ unwrap_or (get cells.now index) [] }
{
    match cells.get(index) {
        Some(bytes) => bytes.as_slice(),
        None => &[],
    }
}

// An index is free, and the key of its cell is absent, while the cell stays.
#[tactic(auto, using(crate::proofs::EffectLaws::key_goes, crate::proofs::EffectLaws::time_goes))]
fn forget(alloc: Global, link: &mut LinkTable, index: u64)
    ensures { link.new ≡ without_entry link.old index }
{
    link.keys.remove(bytes_at(&link.cells, index));
    link.times.remove(index);
    link.size = link.size.saturating_sub(1);
    link.count = link.count.saturating_sub(1);
    link.bounds = Numbered::new(alloc);
}

// The same in an object that is a map.
fn forget_in(alloc: Global, object: &mut Object, index: u64)
    requires { is_map (Some object.old) ≡ true }
    ensures { object.new ≡ Map (without_entry (link_in (Some object.old)) index) }
{
    match object {
        Object::Map(link) => forget(alloc, link, index),
        _ => unreachable!(),
    }
}

/// An index of a link, told by its map, is free, and the key of its cell is absent, while the cell stays.
pub fn remove(alloc: Global, state: &mut LibState, map: u16, index: u64)
    requires inside { map < length state.old.objects }
    requires map { is_map (slice_get state.old.objects map) ≡ true }
    ensures { state.new ≡ effects.with_link state.old map (without_entry (link_of_map state.old map) index) }
{
    forget_in(alloc, &mut state.objects[map as usize], index);
}

// Whether an index is allocated with a time before a bound.
fn is_early(bound: u64, time: Option<u64>) -> bool
    ensures { result ≡ answers.is_before bound (Some time) }
{
    match time {
        Some(time) => time < bound,
        None => false,
    }
}

// The indices with a time before a bound, in ascending order.
fn early(alloc: Global, times: &Numbered<Option<u64>>, bound: u64) -> Result<Vec<u64>, Memory>
    ensures { IfOk result (λ indices. indices.items ≡ expiring.early bound times.now) }
{
    let mut indices = Vec::new(alloc);
    for (index, time) in times.iter() {
        if is_early(bound, *time) {
            indices.push(*index)?;
        }
    }
    Ok(indices)
}

// The key in a cell is absent, where that is told.
#[tactic(auto, using(crate::proofs::EffectLaws::key_goes, crate::proofs::EffectLaws::no_key_goes))]
fn clear_key(keys: &mut Keyed, cells: &Numbered<Bytes>, index: u64)
    ensures { keys.new ≡ effects.without true (effects.is_key_of (get cells.now index)) keys.old }
{
    if let Some(cell) = cells.get(index) {
        keys.remove(cell.as_slice());
    }
}

// The keys in some cells are absent.
fn clear_keys(keys: &mut Keyed, cells: &Numbered<Bytes>, indices: &[u64])
    ensures { keys.new ≡ effects.without true (expiring.is_in_one cells.now indices.now) keys.old }
{
    for index in indices {
        clear_key(keys, cells, *index);
    }
}

// An index below a capacity is free.
#[tactic(auto, using(crate::proofs::EffectLaws::index_goes, crate::proofs::EffectLaws::no_index_goes))]
fn clear_time(times: &mut Numbered<Option<u64>>, capacity: u64, index: u64)
    ensures { times.new ≡ effects.without true (expiring.is_below capacity index) times.old }
{
    if index < capacity {
        times.remove(index);
    }
}

// Some indices are free, as far as they are below a capacity.
fn clear_times(times: &mut Numbered<Option<u64>>, capacity: u64, indices: &[u64])
    ensures { times.new ≡ effects.without true (expiring.is_one_below capacity indices.now) times.old }
{
    for index in indices {
        clear_time(times, capacity, *index);
    }
}

// A count less others; 0 where it would be negative.
fn fewer(count: u32, less: usize) -> u32
    ensures { result ≡ count - less }
{
    match u32::try_from(less) {
        Ok(less) => count.saturating_sub(less),
        Err(_) => 0,
    }
}

// Exactly the indices with a time before a bound are free, and the keys of their cells absent.
#[tactic(auto)]
fn expire_link(alloc: Global, link: &mut LinkTable, bound: u64) -> Result<(), Memory>
    ensures { OnOk result (link.new ≡ expiring.expired_link link.old bound) }
{
    let indices = early(alloc, &link.times, bound)?;
    clear_keys(&mut link.keys, &link.cells, &indices);
    clear_times(&mut link.times, link.capacity, &indices);
    link.size = fewer(link.size, indices.len());
    link.count = fewer(link.count, indices.len());
    link.bounds = Numbered::new(alloc);
    Ok(())
}

// The same in an object that is a map.
fn expire_in(alloc: Global, object: &mut Object, bound: u64) -> Result<(), Memory>
    requires { is_map (Some object.old) ≡ true }
    ensures { OnOk result (object.new ≡ Map (expiring.expired_link (link_in (Some object.old)) bound)) }
{
    match object {
        Object::Map(link) => expire_link(alloc, link, bound),
        _ => unreachable!(),
    }
}

/// Exactly the indices of a link, told by its map, with a time before a bound are free, and the keys of their cells absent.
pub fn expire(alloc: Global, state: &mut LibState, map: u16, bound: u64) -> Result<(), Memory>
    requires inside { map < length state.old.objects }
    requires map { is_map (slice_get state.old.objects map) ≡ true }
    ensures { OnOk result (state.new ≡ effects.with_link state.old map (expiring.expired_link (link_of_map state.old map) bound)) }
{
    expire_in(alloc, &mut state.objects[map as usize], bound)
}

// A cell of an object, which is a vector of its own or a link's map, holds these bytes.
fn store_in(alloc: Global, object: &mut Object, index: u64, bytes: Bytes) -> Result<(), Memory>
    ensures { OnOk result (object.new ≡ places.stored_in object.old index bytes) }
{
    match object {
        Object::Map(link) => {
            link.cells.insert(index, bytes)?;
            link.bounds = Numbered::new(alloc);
            Ok(())
        }
        Object::Cells(vector) => vector.cells.insert(index, bytes),
        _ => Ok(()),
    }
}

// The object that holds the cells of a vector which has some: itself, or the map of its link.
#[tactic(auto, using(crate::proofs::StoreLaws::holder_inside, crate::proofs::StoreLaws::own_holder, crate::proofs::StoreLaws::map_holder))]
fn holder(state: &LibState, vector: u16) -> u16
    requires { 0 < (vector_of state.now vector).cell_count }
    ensures holder { result ≡ places.holder_of vector (slice_get state.now.objects vector) }
    ensures inside { result < length state.now.objects }
{
    match state.objects.get(vector as usize) {
        Some(Object::Keys) => vector.saturating_sub(2),
        _ => vector,
    }
}

/// A cell of a vector holds these bytes.
#[tactic(auto, using(crate::proofs::StoreLaws::stored))]
pub fn store(
    alloc: Global,
    state: &mut LibState,
    vector: u16,
    index: u64,
    bytes: Bytes,
) -> Result<(), Memory>
    requires { index < (vector_of state.old vector).cell_count }
    ensures { OnOk result (state.new ≡ effects.with_bytes state.old vector index bytes) }
{
    let holder = holder(state, vector) as usize;
    store_in(alloc, &mut state.objects[holder], index, bytes)
}
