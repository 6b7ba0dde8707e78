//! Structs of a specification against those of a C text.
ghost use Rattle.std.specs.Prelude.{◌≡◌, slice_get};
ghost use Rattle.vg_cfit.specs.Fit as fits;

use crate::misfit::{Misfit, Place};
use vg_core::{CType, Kind, Node, Note, Parts, Target, Unit, erase};
use vg_cscope::spelling;
use vg_stree::{Field, FieldType, Spec, Struct, name_at, part_of};

/// What is wrong with a struct of the specification.
pub fn struct_fault(unit: &Unit, spec: &Spec, declared: Struct) -> Option<Misfit>
    ensures { result ≡ fits.struct_fault unit.now spec.now declared }
{
    match struct_tagged(
        unit.text(),
        name_at(spec, declared.at).as_bytes(),
        erase(unit).nodes(),
    ) {
        Some(parts)
            if fields_fit(
                unit.notes(),
                erase(unit).listed(parts),
                part_of(spec.shape().fields(), declared.fields),
            ) => None,
        Some(_) => Some(Misfit::Layout(declared.at)),
        None => Some(Misfit::Missing(Place::Specification(declared.at))),
    }
}

// The fields of the struct of C with a tag.
fn struct_tagged(text: &[u8], word: &[u8], nodes: &[Node]) -> Option<Parts>
    ensures { result ≡ fits.struct_tagged text.now word.now nodes.now }
{
    for node in nodes {
        if let Some(fields) = fields_tagged(text, word, node.kind) {
            return Some(fields);
        }
    }
    None
}

// The fields of a node where it is a struct with a tag.
fn fields_tagged(text: &[u8], word: &[u8], kind: Kind) -> Option<Parts>
    ensures { result ≡ fits.fields_tagged text.now word.now kind }
{
    match kind {
        Kind::Struct { tag, fields, .. } if spelling(text, tag) == word => Some(fields),
        _ => None,
    }
}

// Whether the fields of a struct of C, by their nodes, are those of a struct of the specification.
fn fields_fit(notes: &[Note], nodes: &[u32], fields: &[Field]) -> bool
    ensures { result ≡ fits.fields_fit notes.now nodes.now fields.now }
{
    let mut rest = fields;
    for node in nodes {
        let Some((field, others)) = rest.split_first() else {
            return false;
        };
        if !node_fits(notes, *node, field.of) {
            return false;
        }
        rest = others;
    }
    rest.is_empty()
}

fn node_fits(notes: &[Note], node: u32, of: FieldType) -> bool
    ensures { result ≡ fits.field_fits (slice_get notes.now node) of }
{
    field_fits(notes.get(node as usize).copied(), of)
}

fn field_fits(note: Option<Note>, of: FieldType) -> bool
    ensures { result ≡ fits.field_fits note of }
{
    match note {
        Some(note) => noted_fits(note.of, of),
        None => false,
    }
}

fn noted_fits(noted: Option<CType>, of: FieldType) -> bool
    ensures { result ≡ fits.noted_fits noted of }
{
    match noted {
        Some(noted) => type_fits(noted, of),
        None => false,
    }
}

// `u8` to `u64` are the unsigned types, and `bN` is an array of N bytes.
fn type_fits(noted: CType, of: FieldType) -> bool
    ensures { result ≡ fits.type_fits noted of }
{
    match (noted, of) {
        (CType::Int { bits, signed }, FieldType::Number(width)) => bits == 8 * width.bytes()
            && !signed,
        (CType::Array(Target::Int { bits, signed }, length), FieldType::Bytes(count)) => bits == 8
            && !signed
            && length == u32::from(count),
        _ => false,
    }
}
