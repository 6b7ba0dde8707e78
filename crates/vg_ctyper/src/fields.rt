//! Where fields stand in their struct.
ghost use Rattle.std.specs.Prelude.{◌≡◌, ◌<◌};
ghost use Rattle.vg_core.specs.Layouts.{layout};
ghost use Rattle.vg_ctyper.specs.Fields as fields;
ghost use Rattle.vg_ctyper.specs.Views.{known};

use crate::given::Given;
use vg_core::{CType, Kind, Layout, Target, target_layout};

/// The size and alignment of no fields.
const NO_FIELDS: Layout = Layout { size: 0, align: 1 };

fn has_attribute(kind: Kind) -> bool
    ensures { result ≡ fields.has_attribute kind }
{
    match kind {
        Kind::Struct { attribute, .. } => attribute.is_some(),
        _ => false,
    }
}

/// The next multiple of an alignment.
#[tactic(auto, using(crate::proofs::Rounding::rounding))]
pub(crate) fn rounded_up(size: u32, align: u32) -> u64
    requires { 0 < align }
    ensures { result ≡ fields.rounded_up size align }
{
    let align = u64::from(align);
    (u64::from(size) + (align - 1)) / align * align
}

impl Given<'_> {
    /// The node that a node is a part of.
    pub fn within(&self, n: u32) -> u32
        ensures { result ≡ fields.within (known self.now) n }
    {
        match self.scopes.standings.get(n as usize) {
            Some(standing) => standing.within,
            None => 0,
        }
    }

    fn is_packed(&self, n: u32) -> bool
        ensures { result ≡ fields.is_packed (known self.now) n }
    {
        has_attribute(self.kind(self.within(n)))
    }

    /// The size and alignment that a node before has as a struct, or up to it as a field.
    pub fn layout_at(&self, n: u32) -> Option<Layout>
        ensures { result ≡ fields.layout_at (known self.now) n }
    {
        self.notes.get(n as usize)?.layout
    }

    fn layout_behind(&self, declaration: u32, kind: Kind) -> Option<Layout>
        ensures { result ≡ fields.layout_behind (known self.now) declaration kind }
    {
        match kind {
            Kind::Field { .. } => self.layout_at(declaration),
            _ => Some(NO_FIELDS),
        }
    }

    /// The size and alignment of the fields before a field.
    pub fn fields_before(&self, n: u32) -> Option<Layout>
        ensures { result ≡ fields.fields_before (known self.now) n }
    {
        match self.scopes.seen_at(n) {
            Some(declaration) => self.layout_behind(declaration, self.kind(declaration)),
            None => Some(NO_FIELDS),
        }
    }

    fn align_of(&self, of: CType) -> u32
        ensures { result ≡ (layout self.now.notes.now of).align }
    {
        match of {
            CType::Void | CType::Handle(_) => 1,
            CType::Int { bits, .. } => u32::from(bits / 8),
            CType::Pointer(_) => 8,
            CType::Array(target, _) => target_layout(self.notes, target).align,
            CType::Struct(tag) => target_layout(self.notes, Target::Struct(tag)).align,
        }
    }

    /// The alignment of a field in its struct.
    pub fn field_align(&self, n: u32, of: CType) -> u32
        ensures align { result ≡ fields.field_align (known self.now) n of }
        ensures positive { 0 < result }
    {
        if self.is_packed(n) {
            1
        } else {
            u32::max(self.align_of(of), 1)
        }
    }

    /// The offset of a field of a type behind fields of so many bytes.
    pub fn field_offset(&self, n: u32, of: CType, before: Layout) -> u64
        ensures { result ≡ fields.field_offset (known self.now) n of before }
    {
        rounded_up(before.size, self.field_align(n, of))
    }
}
