//! The bytes of keys and of cells' fields.
ghost use Rattle.std.specs.Prelude.{◌≡◌, IfOk};
ghost use Rattle.std.specs.Option.{option_map};
ghost use Rattle.vg_smean.specs.Scenes.{scene_of};
ghost use Rattle.vg_smean.specs.Values.{values_of};
ghost use Rattle.vg_smean.specs.Step as steps;

use crate::values::{Scene, value};
use std::alloc::Global;
use vg_abs::{Bytes, bytes_in, cell_struct, field_at, with_field};
use vg_parts::Memory;
use vg_stree::{Field, Parts, Spec};

// The values of a key's expressions; none where one isn't told.
fn values_told(
    alloc: Global,
    spec: &Spec,
    scene: &Scene<'_>,
    expressions: &[u32],
) -> Result<Option<Vec<u64>>, Memory>
    ensures { IfOk result (λ told. option_map (λ values. values.items) told ≡ values_of spec.now (scene_of scene.now) expressions.now) }
{
    let mut values = Vec::new(alloc);
    for expression in expressions {
        match value(spec, scene, *expression) {
            Some(value) => values.push(value)?,
            None => return Ok(None),
        }
    }
    Ok(Some(values))
}

// The bytes of values in fields, one after another, as far as there are both.
#[tactic(auto, using(crate::proofs::KeyLaws::no_value, crate::proofs::KeyLaws::no_field, crate::proofs::KeyLaws::one_value))]
fn key_bytes(alloc: Global, fields: &[Field], values: &[u64]) -> Result<Vec<u8>, Memory>
    ensures { IfOk result (λ bytes. bytes.items ≡ steps.key_bytes fields.now values.now) }
{
    let mut bytes = Vec::new(alloc);
    for (i, field) in fields.iter().enumerate() {
        if i >= values.len() {
            return Ok(bytes);
        }
        bytes.extend_from_slice(&bytes_in(alloc, field.of, values[i])?)?;
    }
    Ok(bytes)
}

/// The bytes of a key of a link, told by its map; none where the state doesn't tell a value of it.
pub fn key_told(
    alloc: Global,
    spec: &Spec,
    scene: &Scene<'_>,
    map: u16,
    key: Parts,
) -> Result<Option<Vec<u8>>, Memory>
    ensures { IfOk result (λ told. option_map (λ bytes. bytes.items) told ≡ steps.key_of spec.now (scene_of scene.now) map key) }
{
    let Some(values) = values_told(alloc, spec, scene, spec.code().items(key))? else {
        return Ok(None);
    };
    let Some(vector) = map.checked_add(2) else {
        return Err(Memory);
    };
    let cell = cell_struct(spec.shape(), vector);
    let bytes = key_bytes(alloc, spec.shape().fields_of(cell), &values)?;
    Ok(Some(bytes))
}

/// The bytes of a vector's cell with a number in a field, taken modulo the field's size.
pub fn with_field_in_cell(
    alloc: Global,
    spec: &Spec,
    vector: u16,
    field: u16,
    number: u64,
    bytes: &[u8],
) -> Result<Bytes, Memory>
    ensures { IfOk result (λ made. made ≡ steps.with_field_in_cell spec.now.shape vector field number bytes.now) }
{
    let cell = cell_struct(spec.shape(), vector);
    match field_at(spec.shape(), cell, field) {
        Some(there) => {
            let place = spec.shape().field_place(cell, field);
            let made = with_field(alloc, place, there.of, number, bytes)?;
            Ok(made)
        }
        None => Bytes::new(alloc, bytes),
    }
}
