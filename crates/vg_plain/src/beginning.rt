//! The list library's objects at the start.
ghost use Rattle.std.specs.Prelude.{◌≡◌, ◌<◌, ℕ, List, length, replicate, false, Some, IsSome, IfOk};
ghost use Rattle.std.specs.FinMap.{get};
ghost use Rattle.vg_plain.specs.PlainTables.{cell_table};
ghost use Rattle.vg_plain.specs.PlainStates.{object_of};
ghost use Rattle.vg_plain.specs.Beginning.{AreWhole, Begins, BeginsCells, NoneIsLent};

use crate::link::PlainLink;
use crate::object::PlainObject;
use crate::vector::PlainVector;
use std::alloc::Global;
use vg_abs::{Bytes, Numbered, Object, VectorTable};
use vg_parts::Memory;
use vg_stree::{ObjectKind, Shape};

// Cells with the bytes of a table, which has so many cells of so many bytes.
fn cells_of(
    alloc: Global,
    count: u32,
    size: u32,
    table: &Numbered<Bytes>,
) -> Result<PlainVector, Memory>
    requires { AreWhole count size table.now }
    ensures cells { IfOk result (λ made. cell_table 0 made.cells ≡ table.now) }
    ensures count { IfOk result (λ made. length made.cells ≡ count) }
    ensures free { IfOk result (λ made. made.lent ≡ replicate count false) }
{
    let mut made = PlainVector::new(alloc, count, size)?;
    for i in 0..count {
        if let Some(bytes) = table.get(u64::from(i)) {
            made.fill(i, bytes.as_slice());
        }
    }
    Ok(made)
}

// A number of 32 bits, or want of memory.
fn narrow(number: u64) -> Result<u32, Memory>
    ensures { IfOk result (λ narrowed. narrowed ≡ number) }
{
    match u32::try_from(number) {
        Ok(narrowed) => Ok(narrowed),
        Err(_) => Err(Memory),
    }
}

/// An object at the start.
pub fn begin(
    alloc: Global,
    shape: &Shape,
    kind: ObjectKind,
    object: &Object,
) -> Result<PlainObject, Memory>
    requires { Begins shape.now kind object.now }
    ensures object { IfOk result (λ made. object_of made ≡ object.now) }
    ensures free { IfOk result NoneIsLent }
{
    match object {
        Object::Map(link) => {
            let capacity = narrow(link.capacity)?;
            let key_length = narrow(link.key_length)?;
            Ok(PlainObject::Map(PlainLink::new(alloc, capacity, key_length)?))
        }
        Object::Chain => Ok(PlainObject::Chain),
        Object::Keys => Ok(PlainObject::Keys),
        Object::Cells(vector) => Ok(PlainObject::Cells(begin_cells(alloc, shape, kind, vector)?)),
        Object::Prefixes(prefixes) => {
            let routes = Vec::from_slice(alloc, &prefixes.routes)?;
            Ok(PlainObject::Prefixes(routes))
        }
    }
}

// The cells of a vector of its own.
fn begin_cells(
    alloc: Global,
    shape: &Shape,
    kind: ObjectKind,
    vector: &VectorTable,
) -> Result<PlainVector, Memory>
    requires { BeginsCells shape.now kind vector.now }
    ensures cells { IfOk result (λ made. cell_table 0 made.cells ≡ vector.now.cells) }
    ensures count { IfOk result (λ made. length made.cells ≡ vector.now.cell_count) }
    ensures free { IfOk result (λ made. made.lent ≡ replicate vector.now.cell_count false) }
{
    match kind {
        ObjectKind::Vector { cell, .. } => {
            let count = narrow(vector.cell_count)?;
            let size = narrow(shape.struct_bytes(cell))?;
            cells_of(alloc, count, size, &vector.cells)
        }
        _ => unreachable!(),
    }
}
