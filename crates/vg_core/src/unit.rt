//! A typed C text: its tree, and what typing says of each node.
ghost use Rattle.std.specs.Prelude.{◌≡◌, ◌≤◌, IfOk, slice_get};
ghost use Rattle.vg_core.specs.Layouts.{layout, offset, field_of_node};

use crate::tree::{Kind, Tree};
use crate::types::{CType, Layout, Target};
use std::alloc::Global;
use std::marker::Model;
use vg_parts::Memory;

/// What a name stands for.
#[derive(Clone, Copy, Debug, PartialEq, Eq)]
pub enum Referent {
    /// A variable, parameter, loop counter, field, extern or function of the text, by the number of the node that declares it.
    Declared(u32),
    /// A call of the library, by its row in the library's table, counted from 1.
    Library(u8),
}

/// What typing says of a node.
#[derive(Clone, Copy, Debug, PartialEq, Eq)]
pub struct Note {
    /// The type of an expression, of what a field, parameter, variable, counter or extern holds, or of what a function answers.
    pub of: Option<CType>,
    /// What the name stands for that an expression is, calls, or takes a field by.
    pub stands_for: Option<Referent>,
    /// The value of a constant expression, as a word of its type.
    pub constant: Option<u64>,
    /// Of a struct its size and alignment; of a field those of its struct's fields up to it, without bytes behind it.
    pub layout: Option<Layout>,
    /// The place of a field in its struct, in bytes.
    pub offset: Option<u32>,
    /// At most how many steps it takes to run it; 1,000,001 where there may be more than 1,000,000.
    pub steps: u32,
}

/// A typed C text.
#[derive(Drop)]
pub struct Unit {
    bytes: Vec<u8>,
    syntax: Tree,
    note_list: Vec<Note>,
}

impl Model for Unit {
    ghost use Rattle.vg_core.specs.Units.{Typed};

    ghost Value = { Typed };

    ghost view = { λ u. record { text = u.bytes.items; tree = u.syntax; notes = u.note_list.items } };
}

impl Unit {
    /// A typed text, of its bytes, its tree, and a note for each node.
    pub fn new(text: Vec<u8>, tree: Tree, notes: Vec<Note>) -> Unit
        ensures { result ≡ record { text = text.items; tree = tree; notes = notes.items } }
    {
        Unit {
            bytes: text,
            syntax: tree,
            note_list: notes,
        }
    }

    /// The same typed text, in memory of its own.
    pub fn copy(&self, alloc: Global) -> Result<Unit, Memory>
        ensures { IfOk result (λ copy. copy ≡ self.now) }
    {
        Ok(Unit {
            bytes: Vec::from_slice(alloc, &self.bytes)?,
            syntax: self.syntax.copy(alloc)?,
            note_list: Vec::from_slice(alloc, &self.note_list)?,
        })
    }

    /// The bytes of the text.
    pub fn text(&self) -> &[u8]
        ensures { result.now ≡ self.now.text }
    {
        &self.bytes
    }

    /// What typing says of the nodes, in the order of their numbers.
    pub fn notes(&self) -> &[Note]
        ensures { result.now ≡ self.now.notes }
    {
        &self.note_list
    }
}

/// The tree of a typed text.
pub fn erase(unit: &Unit) -> &Tree
    ensures { result.now ≡ unit.now.tree }
{
    &unit.syntax
}

/// The size and alignment of a type. Types that no object has (`void`, and those of the library's objects) take no bytes.
pub fn layout_of(unit: &Unit, of: &CType) -> Layout
    requires at_most_65536_bytes { (layout unit.now.notes of.now).size ≤ 65536 }
    ensures { result ≡ layout unit.now.notes of.now }
{
    match *of {
        CType::Void | CType::Handle(_) => NO_BYTES,
        CType::Int { bits, .. } => integer_layout(bits),
        CType::Pointer(_) => Layout { size: 8, align: 8 },
        CType::Array(target, length) => {
            let one = target_layout(&unit.note_list, target);
            Layout {
                size: one.size * length,
                align: one.align,
            }
        }
        CType::Struct(tag) => struct_layout(&unit.note_list, tag),
    }
}

/// The size and alignment of what a pointer points to, or an array is of, by the notes on the nodes so far.
pub fn target_layout(notes: &[Note], target: Target) -> Layout
    ensures { result ≡ Rattle.vg_core.specs.Layouts.target_layout notes.now target }
{
    match target {
        Target::Void => NO_BYTES,
        Target::Int { bits, .. } => integer_layout(bits),
        Target::Struct(tag) => struct_layout(notes, tag),
    }
}

/// The place of a struct's field in the struct, in bytes. `tag` is the number of the node that declares the struct, and fields are counted from 0.
pub fn offset_of(unit: &Unit, tag: u32, field: u32) -> u32
    ensures { result ≡ offset unit.now tag field }
{
    match field_node(unit, tag, field) {
        Some(node) => match unit.note_list.get(node as usize) {
            Some(note) => note.offset.unwrap_or(0),
            None => 0,
        },
        None => 0,
    }
}

fn field_node(unit: &Unit, tag: u32, field: u32) -> Option<u32>
    ensures { result ≡ field_of_node unit.now.tree field (slice_get unit.now.tree.nodes tag) }
{
    let node = unit.syntax.nodes().get(tag as usize)?;
    match node.kind {
        Kind::Struct { fields, .. } => {
            let at = fields.from as usize + field as usize;
            unit.syntax.items().get(at).copied()
        }
        _ => None,
    }
}

const NO_BYTES: Layout = Layout { size: 0, align: 1 };

fn integer_layout(bits: u8) -> Layout
    ensures { result ≡ Rattle.vg_core.specs.Layouts.integer_layout bits }
{
    let bytes = u32::from(bits / 8);
    Layout {
        size: bytes,
        align: bytes,
    }
}

fn struct_layout(notes: &[Note], tag: u32) -> Layout
    ensures { result ≡ Rattle.vg_core.specs.Layouts.struct_layout notes.now tag }
{
    match notes.get(tag as usize) {
        Some(note) => note.layout.unwrap_or(NO_BYTES),
        None => NO_BYTES,
    }
}
