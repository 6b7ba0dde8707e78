//! Externs of a C text against a specification.
ghost use Rattle.std.specs.Prelude.{◌≡◌};
ghost use Rattle.vg_cfit.specs.Fit as fits;

use crate::binding::{Binding, bound_to};
use crate::misfit::{Misfit, Place};
use vg_cint::integer_of;
use vg_core::{HandleKind, Integer, Kind, Name, Node};
use vg_cscope::spelling;
use vg_stree::{Number, Object, ObjectKind, Spec, is_declared};

/// What is wrong with a node of the text where it is an extern.
pub fn extern_fault(text: &[u8], spec: &Spec, node: Node) -> Option<Misfit>
    ensures { result ≡ fits.extern_fault text.now spec.now node }
{
    let name = extern_name(node.kind)?;
    name_fault(spec, node.kind, name.from, spelling(text, name))
}

fn extern_name(kind: Kind) -> Option<Name>
    ensures { result ≡ fits.extern_name kind }
{
    match kind {
        Kind::ExternNumber { name, .. } | Kind::ExternHandle { name, .. } => Some(name),
        _ => None,
    }
}

// What is wrong with an extern, whose name stands at a place and is spelled so.
fn name_fault(spec: &Spec, kind: Kind, at: u32, word: &[u8]) -> Option<Misfit>
    ensures { result ≡ fits.name_fault spec.now kind at word.now }
{
    match bound_to(spec, word) {
        Some(to) if extern_fits(spec, kind, to) => None,
        Some(_) => Some(Misfit::Kind(at)),
        None if is_declared(spec, word) => Some(Misfit::Kind(at)),
        None => Some(Misfit::Missing(Place::Text(at))),
    }
}

fn extern_fits(spec: &Spec, kind: Kind, to: Binding) -> bool
    ensures { result ≡ fits.extern_fits spec.now kind to }
{
    match (kind, to) {
        (Kind::ExternNumber { of, .. }, Binding::Number(number)) => number_fits(
            integer_of(of),
            spec.shape().numbers().get(number as usize).copied(),
        ),
        (Kind::ExternHandle { handle, .. }, Binding::Object(object)) => handle_fits(
            handle,
            spec.shape().objects().get(object as usize).copied(),
        ),
        _ => false,
    }
}

// An extern number has the width of the declared number, whatever its sign.
fn number_fits(of: Integer, number: Option<Number>) -> bool
    ensures { result ≡ fits.number_fits of number }
{
    match number {
        Some(number) => of.bits == 8 * number.of.bytes(),
        None => false,
    }
}

// A handle is for objects of its kind.
fn handle_fits(handle: HandleKind, object: Option<Object>) -> bool
    ensures { result ≡ fits.handle_fits handle object }
{
    match object {
        Some(object) => handle_fits_kind(handle, object.kind),
        None => false,
    }
}

fn handle_fits_kind(handle: HandleKind, kind: ObjectKind) -> bool
    ensures { result ≡ fits.handle_fits_kind handle kind }
{
    match (handle, kind) {
        (HandleKind::Map, ObjectKind::Map { .. }) => true,
        (HandleKind::Chain, ObjectKind::Chain) => true,
        (HandleKind::Vector, ObjectKind::Keys | ObjectKind::Vector { .. }) => true,
        (HandleKind::Prefix, ObjectKind::Table { .. }) => true,
        _ => false,
    }
}
