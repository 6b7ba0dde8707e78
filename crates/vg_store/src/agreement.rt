//! Where the real library's state differs from another.
ghost use Rattle.std.specs.Prelude.{◌≡◌, ◌≤◌, ◌<◌, ◌^◌, ◌↔◌, length, slice_get, true, IsTrue};
ghost use Rattle.std.specs.Option.{option_map};
ghost use Rattle.vg_abs.specs.Agreement.{AgreeAt, ChainsAgree};
ghost use Rattle.vg_abs.specs.Library.{SameShape, Differs};
ghost use Rattle.vg_abs.specs.State.{link_of_map};
ghost use Rattle.vg_plain.specs.LinkStates.{CellsAgree};
ghost use Rattle.vg_plain.specs.PlainStates.{state_of, plain_link, table_in};
ghost use Rattle.vg_store.specs.RealLinks.{seen};
ghost use Rattle.vg_store.specs.RealStates.{plainly};

use crate::link::RealLink;
use crate::object::RealObject;
use vg_abs::{LibState, LinkTable, Object};

// The link whose map is an object.
fn link_at(objects: &[RealObject], map: usize) -> Option<&RealLink>
    ensures { option_map (λ link. seen link.now) result ≡ plain_link (slice_get (plainly objects.now) map) }
{
    match objects.get(map)? {
        RealObject::Map(link) => Some(link),
        _ => None,
    }
}

// The table of the link whose map is an object.
fn table_at(objects: &[Object], map: usize) -> Option<&LinkTable>
    ensures { option_map (λ table. table.now) result ≡ table_in (slice_get objects.now map) }
{
    match objects.get(map)? {
        Object::Map(table) => Some(table),
        _ => None,
    }
}

// Whether the chains of links agree, whose maps have this number.
fn chains_agree(objects: &[RealObject], state: &LibState, map: usize) -> bool
    requires { SameShape (state_of (plainly objects.now)) state.now }
    ensures { IsTrue result ↔ ChainsAgree true state.now.full (link_of_map (state_of (plainly objects.now)) map) (link_of_map state.now map) }
{
    let Some(link) = link_at(objects, map) else {
        return true;
    };
    let Some(other) = table_at(&state.objects, map) else {
        return true;
    };
    link.chain_agrees(other, state.full)
}

// Whether the vectors of links agree, whose maps have this number.
fn keys_agree(objects: &[RealObject], state: &LibState, map: usize) -> bool
    requires { SameShape (state_of (plainly objects.now)) state.now }
    ensures { IsTrue result ↔ CellsAgree (link_of_map (state_of (plainly objects.now)) map).cells (link_of_map state.now map).cells }
{
    let Some(link) = link_at(objects, map) else {
        return true;
    };
    let Some(other) = table_at(&state.objects, map) else {
        return true;
    };
    link.cells_agree(&other.cells)
}

// Whether the objects and a state agree at an object.
fn agree_at(objects: &[RealObject], state: &LibState, i: usize) -> bool
    requires inside { i < length objects.now }
    requires shape { SameShape (state_of (plainly objects.now)) state.now }
    ensures { IsTrue result ↔ AgreeAt (state_of (plainly objects.now)) state.now i }
{
    match (&objects[i], &state.objects[i]) {
        (RealObject::Map(link), Object::Map(other)) => link.map_agrees(other, state.full),
        (RealObject::Chain, _) => chains_agree(objects, state, i.saturating_sub(1)),
        (RealObject::Keys, _) => keys_agree(objects, state, i.saturating_sub(2)),
        (RealObject::Cells(vector), Object::Cells(other)) => vector.agrees(&other.cells),
        _ => true,
    }
}

/// The least object at which the objects and a state of their shape differ, in what both tell.
pub fn first_difference(objects: &[RealObject], state: &LibState) -> Option<u16>
    requires few { length objects.now ≤ 2 ^ 16 }
    requires shape { SameShape (state_of (plainly objects.now)) state.now }
    ensures { Differs (state_of (plainly objects.now)) state.now result }
{
    for i in 0..objects.len() {
        if !agree_at(objects, state, i) {
            return Some(i as u16);
        }
    }
    None
}
