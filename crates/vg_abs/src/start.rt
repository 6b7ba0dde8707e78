//! The state that a configuration opens with.
ghost use Rattle.std.specs.Prelude.{◌≡◌, ◌==◌, ◌&&◌, not, is_some, ◌||◌, unwrap_or, take, drop, [], slice_get, IfOk, OnOk, ℕ};
ghost use Rattle.std.specs.FinMap.{get};
ghost use Rattle.vg_stree.specs.Declarations.{fields_of};
ghost use Rattle.vg_abs.specs.Fields as fields;
ghost use Rattle.vg_abs.specs.Shape as shapes;
ghost use Rattle.vg_abs.specs.Opening as openings;

use crate::bytes::Bytes;
use crate::keyed::Keyed;
use crate::numbered::Numbered;
use crate::object::{LinkTable, Object, PrefixTable, VectorTable};
use crate::state::LibState;
use std::alloc::Global;
use vg_parts::Memory;
use vg_stree::{Config, Field, FieldType, Fill, ObjectKind, Route, Shape, Size, Spec};

/// A capacity or a length, by the configuration's numbers.
pub fn size_of(numbers: &[u64], size: Size) -> u64
    ensures { result ≡ shapes.size_of numbers.now size }
{
    match size {
        Size::Count(count) => u64::from(count),
        Size::Number(number) => numbers.get(number as usize).copied().unwrap_or(0),
    }
}

// The lowest so many bytes of a number, the lowest first.
#[tactic(auto, using(crate::proofs::Starting::low_more, crate::proofs::Starting::low_done))]
fn low_bytes(alloc: Global, count: u8, number: u64) -> Result<Vec<u8>, Memory>
    ensures { IfOk result (λ bytes. bytes.items ≡ fields.low_bytes count number) }
{
    let mut bytes = Vec::new(alloc);
    let mut rest = number;
    for _made in 0..count {
        bytes.push((rest % 256) as u8)?;
        rest /= 256;
    }
    Ok(bytes)
}

/// The bytes of a field that holds a number, which is taken modulo the field's size.
pub fn bytes_in(alloc: Global, of: FieldType, number: u64) -> Result<Vec<u8>, Memory>
    ensures { IfOk result (λ bytes. bytes.items ≡ fields.bytes_in of number) }
{
    let mut bytes = low_bytes(alloc, of.bytes(), number)?;
    if let FieldType::Bytes(_) = of {
        bytes.reverse();
    }
    Ok(bytes)
}

/// The bytes before a place, as far as they go.
pub fn before(bytes: &[u8], place: u64) -> &[u8]
    ensures { result.now ≡ take place bytes.now }
{
    let (before, _) = bytes.split_at(usize::min(place as usize, bytes.len()));
    before
}

/// The bytes from a place on.
pub fn behind(bytes: &[u8], place: u64) -> &[u8]
    ensures { result.now ≡ drop place bytes.now }
{
    let (_, behind) = bytes.split_at(usize::min(place as usize, bytes.len()));
    behind
}

/// A struct's bytes with a number in the field at a place, taken modulo the field's size.
pub fn with_field(
    alloc: Global,
    place: u64,
    of: FieldType,
    number: u64,
    bytes: &[u8],
) -> Result<Bytes, Memory>
    ensures { IfOk result (λ made. made ≡ fields.with_field place of number bytes.now) }
{
    let field = bytes_in(alloc, of, number)?;
    let mut made = Vec::from_slice(alloc, before(bytes, place))?;
    made.extend_from_slice(&field)?;
    made.extend_from_slice(behind(behind(bytes, place), u64::from(of.bytes())))?;
    Bytes::new(alloc, &made)
}

// So many cells of so many zeros.
fn zero_cells(alloc: Global, count: u64, bytes: u64) -> Result<Numbered<Bytes>, Memory>
    ensures { IfOk result (λ cells. cells ≡ openings.zero_cells count bytes) }
{
    let mut cells = Numbered::new(alloc);
    for index in 0..count {
        cells.insert(index, Bytes::zeros(alloc, bytes)?)?;
    }
    Ok(cells)
}

/// A field of a struct, both by their numbers; none where there is no such field.
pub fn field_at(shape: &Shape, cell: u16, field: u16) -> Option<Field>
    ensures { result ≡ slice_get (fields_of shape.now cell) field }
{
    shape.fields_of(cell).get(field as usize).copied()
}

// The cells of a vector after a fill, which counts where it is of this vector.
fn fill_in(
    alloc: Global,
    shape: &Shape,
    cell: u16,
    vector: usize,
    cells: &mut Numbered<Bytes>,
    fill: Fill,
) -> Result<(), Memory>
    ensures { OnOk result (cells.new ≡ openings.with_fill shape.now cell vector cells.old fill) }
{
    if fill.vector as usize != vector {
        return Ok(());
    }
    if let Some(field) = field_at(shape, cell, fill.field) {
        let place = shape.field_place(cell, fill.field);
        set_field(alloc, place, field.of, cells, fill)?;
    }
    Ok(())
}

// The bytes of a cell; none where it isn't there.
fn bytes_at(cells: &Numbered<Bytes>, index: u64) -> &[u8]
    ensures { result.now ≡ unwrap_or (get cells.now index) [] }
{
    match cells.get(index) {
        Some(bytes) => bytes.as_slice(),
        None => &[],
    }
}

// A field of a cell holds what a fill says.
fn set_field(
    alloc: Global,
    place: u64,
    of: FieldType,
    cells: &mut Numbered<Bytes>,
    fill: Fill,
) -> Result<(), Memory>
    ensures { OnOk result (cells.new ≡ openings.with_field_at place of cells.old fill) }
{
    let bytes = bytes_at(cells, u64::from(fill.index));
    let filled = with_field(alloc, place, of, fill.value, bytes)?;
    cells.insert(u64::from(fill.index), filled)
}

// The cells of a vector at the start.
fn opening_cells(
    alloc: Global,
    shape: &Shape,
    fills: &[Fill],
    vector: usize,
    cell: u16,
    count: u64,
) -> Result<Numbered<Bytes>, Memory>
    ensures { IfOk result (λ cells. cells ≡ openings.opening_cells shape.now fills.now vector cell count) }
{
    let mut cells = zero_cells(alloc, count, shape.struct_bytes(cell))?;
    for fill in fills {
        fill_in(alloc, shape, cell, vector, &mut cells, *fill)?;
    }
    Ok(cells)
}

// The first bits of a route and how many they are, as one number.
fn prefix_of(route: Route) -> u64
    ensures { result ≡ openings.prefix_of route }
{
    let free = 32u8.saturating_sub(route.len);
    (u64::from(route.address) >> free) * 256 + u64::from(route.len)
}

// Whether a route is of a table and no later one has its prefix; the prefixes of later ones are told.
fn is_kept(route: Route, table: usize, later: &Numbered<bool>) -> bool
    ensures { result ≡ ((route.table == table) && not (is_some (get later.now (openings.prefix_of route)))) }
{
    route.table as usize == table && later.get(prefix_of(route)).is_none()
}

// Notes a route's prefix, where it is of a table.
fn note_prefix(route: Route, table: usize, later: &mut Numbered<bool>) -> Result<(), Memory>
    ensures { OnOk result ((prefix : ℕ) → is_some (get later.new prefix) ≡ (openings.has_prefix table prefix route || is_some (get later.old prefix))) }
{
    if route.table as usize == table {
        later.insert(prefix_of(route), true)?;
    }
    Ok(())
}

// The routes of a table, in order, without those that a later one of equal prefix replaces.
fn routes_of(alloc: Global, table: usize, routes: &[Route]) -> Result<Vec<Route>, Memory>
    ensures { IfOk result (λ made. made.items ≡ openings.routes_of table routes.now) }
{
    let mut later = Numbered::new(alloc);
    let mut kept = Vec::new(alloc);
    let mut left = routes.len();
    while left > 0 {
        left -= 1;
        let route = routes[left];
        if is_kept(route, table, &later) {
            kept.push(route)?;
        }
        note_prefix(route, table, &mut later)?;
    }
    kept.reverse();
    Ok(kept)
}

// A link at the start.
fn opening_link(alloc: Global, capacity: u64, key_length: u64) -> Result<LinkTable, Memory>
    ensures { IfOk result (λ link. link ≡ openings.opening_link capacity key_length) }
{
    Ok(LinkTable {
        capacity,
        key_length,
        keys: Keyed::new(alloc),
        times: Numbered::new(alloc),
        cells: zero_cells(alloc, capacity, key_length)?,
        size: 0,
        count: 0,
        highest: 0,
        bounds: Numbered::new(alloc),
    })
}

// An object at the start, by its number.
fn opening_object(
    alloc: Global,
    shape: &Shape,
    config: &Config,
    number: usize,
    kind: ObjectKind,
) -> Result<Object, Memory>
    ensures { IfOk result (λ object. object ≡ openings.opening_object shape.now config.now number kind) }
{
    match kind {
        ObjectKind::Map { key, capacity } => {
            let capacity = size_of(config.numbers(), capacity);
            let link = opening_link(alloc, capacity, shape.struct_bytes(key))?;
            Ok(Object::Map(link))
        }
        ObjectKind::Chain => Ok(Object::Chain),
        ObjectKind::Keys => Ok(Object::Keys),
        ObjectKind::Vector { cell, length } => {
            let cell_count = size_of(config.numbers(), length);
            let cells = opening_cells(alloc, shape, config.fills(), number, cell, cell_count)?;
            Ok(Object::Cells(VectorTable { cell_count, cells }))
        }
        ObjectKind::Table { .. } => {
            let routes = routes_of(alloc, number, config.routes())?;
            Ok(Object::Prefixes(PrefixTable {
                routes,
                addresses: Numbered::new(alloc),
            }))
        }
    }
}

/// The state that a configuration opens with: empty maps, free chains, and cells of zeros but for what it fills. It takes n log n steps for
/// n routes.
pub fn opening(alloc: Global, spec: &Spec, config: &Config) -> Result<LibState, Memory>
    ensures { IfOk result (λ state. state ≡ openings.opening spec.now config.now) }
{
    let shape = spec.shape();
    let mut objects = Vec::new(alloc);
    for declared in shape.objects() {
        let number = objects.len();
        let object = opening_object(alloc, shape, config, number, declared.kind)?;
        objects.push(object)?;
    }
    Ok(LibState {
        full: true,
        objects,
    })
}
