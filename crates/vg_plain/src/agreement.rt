//! Where the list library's state differs from another.
ghost use Rattle.std.specs.Prelude.{◌≡◌, ◌≤◌, ◌<◌, ◌^◌, ◌↔◌, length, slice_get, true, IsTrue};
ghost use Rattle.std.specs.Option.{option_map};
ghost use Rattle.vg_abs.specs.Agreement.{AgreeAt, ChainsAgree};
ghost use Rattle.vg_plain.specs.LinkStates.{CellsAgree};
ghost use Rattle.vg_abs.specs.Library.{SameShape, Differs};
ghost use Rattle.vg_abs.specs.State.{link_of_map};
ghost use Rattle.vg_plain.specs.PlainStates.{state_of, plain_link, table_in};

use crate::link::PlainLink;
use crate::object::PlainObject;
use vg_abs::{LibState, LinkTable, Object};

// The link whose map is an object.
fn link_at(objects: &[PlainObject], map: usize) -> Option<&PlainLink>
    ensures { option_map (λ link. link.now) result ≡ plain_link (slice_get objects.now map) }
{
    match objects.get(map)? {
        PlainObject::Map(link) => Some(link),
        _ => None,
    }
}

// The table of the link whose map is an object.
fn table_at(objects: &[Object], map: usize) -> Option<&LinkTable>
    ensures { option_map (λ table. table.now) result ≡ table_in (slice_get objects.now map) }
{
    match objects.get(map)? {
        Object::Map(table) => Some(table),
        _ => None,
    }
}

// Whether the chains of links agree, whose maps have this number.
fn chains_agree(objects: &[PlainObject], state: &LibState, map: usize) -> bool
    requires { SameShape (state_of objects.now) state.now }
    ensures { IsTrue result ↔ ChainsAgree true state.now.full (link_of_map (state_of objects.now) map) (link_of_map state.now map) }
{
    let Some(link) = link_at(objects, map) else {
        return true;
    };
    let Some(other) = table_at(&state.objects, map) else {
        return true;
    };
    link.chain_agrees(other, state.full)
}

// Whether the vectors of links agree, whose maps have this number.
fn keys_agree(objects: &[PlainObject], state: &LibState, map: usize) -> bool
    requires { SameShape (state_of objects.now) state.now }
    ensures { IsTrue result ↔ CellsAgree (link_of_map (state_of objects.now) map).cells (link_of_map state.now map).cells }
{
    let Some(link) = link_at(objects, map) else {
        return true;
    };
    let Some(other) = table_at(&state.objects, map) else {
        return true;
    };
    link.cells_agree(&other.cells)
}

// Whether the objects and a state agree at an object.
fn agree_at(objects: &[PlainObject], state: &LibState, i: usize) -> bool
    requires inside { i < length objects.now }
    requires shape { SameShape (state_of objects.now) state.now }
    ensures { IsTrue result ↔ AgreeAt (state_of objects.now) state.now i }
{
    match (&objects[i], &state.objects[i]) {
        (PlainObject::Map(link), Object::Map(other)) => link.map_agrees(other, state.full),
        (PlainObject::Chain, _) => chains_agree(objects, state, i.saturating_sub(1)),
        (PlainObject::Keys, _) => keys_agree(objects, state, i.saturating_sub(2)),
        (PlainObject::Cells(vector), Object::Cells(other)) => vector.agrees(&other.cells),
        _ => true,
    }
}

/// The least object at which the objects and a state of their shape differ, in what both tell.
pub fn first_difference(objects: &[PlainObject], state: &LibState) -> Option<u16>
    requires few { length objects.now ≤ 2 ^ 16 }
    requires shape { SameShape (state_of objects.now) state.now }
    ensures { Differs (state_of objects.now) state.now result }
{
    for i in 0..objects.len() {
        if !agree_at(objects, state, i) {
            return Some(i as u16);
        }
    }
    None
}
