//! The real library's objects at the start.
ghost use Rattle.std.specs.Prelude.{◌≡◌, ◌<◌, length, replicate, false, IfOk};
ghost use Rattle.vg_plain.specs.PlainTables.{cell_table};
ghost use Rattle.vg_plain.specs.PlainStates.{object_of};
ghost use Rattle.vg_plain.specs.Beginning.{AreWhole, BeginsCells, NoneIsLent};
ghost use Rattle.vg_store.specs.RealStates.{as_plain};
ghost use Rattle.vg_store.specs.Beginning.{MayBegin};

use crate::link::RealLink;
use crate::object::RealObject;
use crate::real::SEED;
use crate::routes::RealRoutes;
use crate::vector::RealVector;
use std::alloc::Global;
use vg_abs::{Bytes, Numbered, Object, VectorTable};
use vg_parts::Memory;
use vg_stree::{ObjectKind, Shape};

// A number of 32 bits; more indices than these number want more memory than there is.
fn counted(number: u64) -> Result<u32, Memory>
    ensures { IfOk result (λ count. count ≡ number) }
{
    u32::try_from(number).map_err(|_| Memory)
}

// A vector with the bytes of a table, which has so many cells of so many bytes.
fn vector_of(
    alloc: Global,
    count: u32,
    size: u32,
    table: &Numbered<Bytes>,
) -> Result<RealVector, Memory>
    requires { AreWhole count size table.now }
    ensures cells { IfOk result (λ made. cell_table 0 made.cells ≡ table.now) }
    ensures count { IfOk result (λ made. length made.cells ≡ count) }
    ensures free { IfOk result (λ made. made.lent ≡ replicate count false) }
{
    let mut made = RealVector::new(alloc, count, size)?;
    for i in 0..count {
        if let Some(bytes) = table.get(u64::from(i)) {
            made.fill(i, bytes.as_slice());
        }
    }
    Ok(made)
}

// The vector of a declared kind, with the bytes of its table.
fn begin_vector(
    alloc: Global,
    shape: &Shape,
    kind: ObjectKind,
    vector: &VectorTable,
) -> Result<RealVector, Memory>
    requires { BeginsCells shape.now kind vector.now }
    ensures cells { IfOk result (λ made. cell_table 0 made.cells ≡ vector.now.cells) }
    ensures count { IfOk result (λ made. length made.cells ≡ vector.now.cell_count) }
    ensures free { IfOk result (λ made. made.lent ≡ replicate vector.now.cell_count false) }
{
    let ObjectKind::Vector { cell, .. } = kind else {
        unreachable!()
    };
    let count = counted(vector.cell_count)?;
    let size = counted(shape.struct_bytes(cell))?;
    vector_of(alloc, count, size, &vector.cells)
}

/// An object at the start.
pub fn begin(
    alloc: Global,
    shape: &Shape,
    kind: ObjectKind,
    object: &Object,
) -> Result<RealObject, Memory>
    requires { MayBegin shape.now kind object.now }
    ensures object { IfOk result (λ made. object_of (as_plain made) ≡ object.now) }
    ensures free { IfOk result (λ made. NoneIsLent (as_plain made)) }
{
    match object {
        Object::Map(link) => {
            let capacity = counted(link.capacity)?;
            let key_length = counted(link.key_length)?;
            Ok(RealObject::Map(RealLink::new(alloc, capacity, key_length, SEED)?))
        }
        Object::Chain => Ok(RealObject::Chain),
        Object::Keys => Ok(RealObject::Keys),
        Object::Cells(vector) => Ok(RealObject::Cells(begin_vector(alloc, shape, kind, vector)?)),
        Object::Prefixes(prefixes) => Ok(RealObject::Prefixes(RealRoutes::new(
            alloc,
            &prefixes.routes,
        )?)),
    }
}
