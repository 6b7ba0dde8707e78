//! What the tree and typing say of a node.
ghost use Rattle.std.specs.Prelude.{◌≡◌, slice_get};
ghost use Rattle.vg_cmean.specs.Typings as typings;
ghost use Rattle.vg_core.specs.Layouts.{layout};

use vg_core::{CType, Kind, Note, Referent, Target, Unit, erase, target_layout};

/// What a node is; `;` where there is none with this number.
pub fn kind_at(unit: &Unit, n: u32) -> Kind
    ensures { result ≡ typings.kind_at unit.now n }
{
    match erase(unit).nodes().get(n as usize) {
        Some(node) => node.kind,
        None => Kind::Empty,
    }
}

/// The place of a node's first token.
pub fn place_at(unit: &Unit, n: u32) -> u32
    ensures { result ≡ typings.place_at unit.now n }
{
    match erase(unit).nodes().get(n as usize) {
        Some(node) => node.at,
        None => 0,
    }
}

fn note_at(unit: &Unit, n: u32) -> Option<Note>
    ensures { result ≡ slice_get unit.now.notes n }
{
    unit.notes().get(n as usize).copied()
}

/// The type of an expression, or of what a declaration declares.
pub fn type_at(unit: &Unit, n: u32) -> CType
    ensures { result ≡ typings.type_at unit.now n }
{
    match note_at(unit, n) {
        Some(note) => note.of.unwrap_or(CType::Void),
        None => CType::Void,
    }
}

/// The word of a constant expression.
pub fn constant_at(unit: &Unit, n: u32) -> u64
    ensures { result ≡ typings.constant_at unit.now n }
{
    match note_at(unit, n) {
        Some(note) => note.constant.unwrap_or(0),
        None => 0,
    }
}

/// Where a field stands in its struct, in bytes.
pub fn offset_at(unit: &Unit, n: u32) -> u32
    ensures { result ≡ typings.offset_at unit.now n }
{
    match note_at(unit, n) {
        Some(note) => note.offset.unwrap_or(0),
        None => 0,
    }
}

/// What a name stands for.
pub fn referent_at(unit: &Unit, n: u32) -> Option<Referent>
    ensures { result ≡ typings.referent_at unit.now n }
{
    note_at(unit, n)?.stands_for
}

fn is_packed_target(unit: &Unit, target: Target) -> bool
    ensures { result ≡ typings.is_packed_target unit.now target }
{
    match target {
        Target::Struct(tag) => match kind_at(unit, tag) {
            Kind::Struct { attribute, .. } => attribute.is_some(),
            _ => false,
        },
        _ => false,
    }
}

/// Whether a field is taken from a packed struct, by the type of what stands before `.` or `->`.
pub fn is_packed(unit: &Unit, of: CType) -> bool
    ensures { result ≡ typings.is_packed unit.now of }
{
    match of {
        CType::Struct(tag) => is_packed_target(unit, Target::Struct(tag)),
        CType::Pointer(target) => is_packed_target(unit, target),
        CType::Array(target, _) => is_packed_target(unit, target),
        _ => false,
    }
}

/// The size of an element of an array, or of what a pointer points to, in bytes.
pub fn element_size(unit: &Unit, of: CType) -> u32
    ensures { result ≡ typings.element_size unit.now of }
{
    match of {
        CType::Pointer(target) => target_layout(unit.notes(), target).size,
        CType::Array(target, _) => target_layout(unit.notes(), target).size,
        _ => 0,
    }
}

/// The size of a type, in bytes.
pub fn size_of_type(unit: &Unit, of: CType) -> u64
    ensures { result ≡ (layout unit.now.notes of).size }
{
    match of {
        CType::Void | CType::Handle(_) => 0,
        CType::Pointer(_) => 8,
        CType::Int { bits, signed } => {
            u64::from(target_layout(unit.notes(), Target::Int { bits, signed }).size)
        }
        CType::Array(target, length) => {
            u64::from(target_layout(unit.notes(), target).size) * u64::from(length)
        }
        CType::Struct(tag) => u64::from(target_layout(unit.notes(), Target::Struct(tag)).size),
    }
}

pub fn is_array(of: CType) -> bool
    ensures { result ≡ typings.is_array of }
{
    matches!(of, CType::Array(..))
}

pub fn is_pointer(of: CType) -> bool
    ensures { result ≡ typings.is_pointer of }
{
    matches!(of, CType::Pointer(_))
}
