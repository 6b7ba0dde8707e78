//! The rules that declarations and the whole text meet.
ghost use Rattle.std.specs.Prelude.{◌≡◌};
ghost use Rattle.vg_ctyper.specs.DeclarationRules as rules;
ghost use Rattle.vg_ctyper.specs.Views.{known};

use crate::demands::{Demand, same_bool};
use crate::fault::{Rule, TypeFault, sooner};
use crate::given::Given;
use crate::kinds::of_target;
use vg_core::{Base, CType, IntType, Kind, Layout, Name, Target, library_row};
use vg_cscope::{Wanted, spelling};

/// Whether a declaration stands in a function.
fn is_local(kind: Kind) -> bool
    ensures { result ≡ rules.is_local kind }
{
    matches!(
        kind,
        Kind::Param { .. } | Kind::Declare { .. } | Kind::For { .. }
    )
}

/// Whether a variable may be declared with a value.
fn has_value(base: Base, pointer: bool, count: Option<u32>) -> bool
    ensures { result ≡ rules.has_value base pointer count }
{
    match (base, count) {
        (_, Some(_)) => false,
        (Base::Int(_), None) => true,
        (Base::Struct { .. }, None) => pointer,
    }
}

fn is_field_type(base: Base, count: Option<u32>) -> bool
    ensures { result ≡ rules.is_field_type base count }
{
    match base {
        Base::Int(_) => true,
        Base::Struct { .. } => count.is_none(),
    }
}

/// The place of a struct's tag.
fn tag_place(kind: Kind) -> u32
    ensures { result ≡ rules.tag_place kind }
{
    match kind {
        Kind::Struct { tag, .. } => tag.from,
        _ => 0,
    }
}

/// Bytes between the fields of a struct, from an offset up to the next field.
fn padded(kind: Kind, offset: u32, next: u64) -> Option<TypeFault>
    ensures { result ≡ rules.padded kind offset next }
{
    if u64::from(offset) == next {
        None
    } else {
        let tag = tag_place(kind);
        Some(TypeFault::Padded { tag, offset })
    }
}

/// Bytes behind the last field of a struct.
fn end_fault(tag: Name, fields: Layout) -> Option<TypeFault>
    ensures { result ≡ rules.end_fault tag fields }
{
    let align = u32::max(fields.align, 1);
    if fields.size % align == 0 {
        None
    } else {
        Some(TypeFault::Padded {
            tag: tag.from,
            offset: fields.size,
        })
    }
}

pub(crate) fn last_of(items: &[u32]) -> Option<u32>
    ensures { result ≡ rules.last_of items.now }
{
    items.get(items.len().saturating_sub(1)).copied()
}

fn is_param_of(word: IntType, kind: Kind) -> bool
    ensures { result ≡ rules.is_param_of word kind }
{
    match kind {
        Kind::Param {
            base: Base::Int(of),
            pointer: false,
            ..
        } => match (word, of) {
            (IntType::Uint16, IntType::Uint16) | (IntType::Uint64, IntType::Uint64) => true,
            _ => false,
        },
        _ => false,
    }
}

impl Given<'_> {
    fn is_free(&self, kind: Kind, declaration: Option<u32>) -> bool
        ensures { result ≡ rules.is_free (known self.now) kind declaration }
    {
        match declaration {
            Some(declaration) => !same_bool(is_local(kind), is_local(self.kind(declaration))),
            None => true,
        }
    }

    fn is_row(&self, name: Name) -> bool
        ensures { result ≡ rules.is_row (known self.now) name }
    {
        library_row(spelling(self.scopes.text, name)).is_some()
    }

    /// The fault of a name that is declared twice, or is that of a call of the library.
    pub fn name_fault(&self, n: u32, kind: Kind, name: Name) -> Option<TypeFault>
        ensures { result ≡ rules.name_fault (known self.now) n kind name }
    {
        let before = self.found(Wanted::Ordinary(name), n);
        self.unless(
            n,
            Rule::DeclaredOnce,
            self.is_free(kind, before) && !self.is_row(name),
        )
    }

    fn length_fault(&self, n: u32, count: Option<u32>) -> Option<TypeFault>
        ensures { result ≡ rules.length_fault (known self.now) n count }
    {
        let count = count?;
        self.used(
            count,
            self.unless(n, Rule::Sizes, self.length_at(count).is_some()),
        )
    }

    fn size_fault(&self, n: u32, of: Option<CType>) -> Option<TypeFault>
        ensures { result ≡ rules.size_fault (known self.now) n of }
    {
        self.unless(n, Rule::Sizes, self.size_of(of?) <= 65536)
    }

    fn array_fault(&self, n: u32, target: Option<Target>, count: Option<u32>) -> Option<TypeFault>
        ensures { result ≡ rules.array_fault (known self.now) n target count }
    {
        let target = target?;
        self.size_fault(n, self.sized(target, count, of_target(target)))
    }

    fn object_size_fault(
        &self,
        n: u32,
        base: Base,
        pointer: bool,
        count: Option<u32>,
    ) -> Option<TypeFault>
        ensures { result ≡ rules.object_size_fault (known self.now) n base pointer count }
    {
        match (pointer, count) {
            (true, None) => None,
            (true, Some(_)) => sooner(self.fault_at(n, Rule::Sizes), self.length_fault(n, count)),
            (false, count) => {
                let target = self.base_target(n, base);
                sooner(
                    self.length_fault(n, count),
                    self.array_fault(n, target, count),
                )
            }
        }
    }

    /// How many bytes an object takes; none where it has no type.
    pub fn object_size(&self, of: Option<CType>) -> u64
        ensures { result ≡ rules.size_of (known self.now) of }
    {
        match of {
            Some(of) => self.size_of(of),
            None => 0,
        }
    }

    fn locals_fault(&self, n: u32, before: u32, size: u64) -> Option<TypeFault>
        ensures { result ≡ rules.locals_fault (known self.now) n before size }
    {
        let total = u128::from(before) + u128::from(size);
        self.unless(n, Rule::Sizes, 65536 < before || total <= 65536)
    }

    fn initial_fault(
        &self,
        n: u32,
        allowed: bool,
        of: Option<CType>,
        value: u32,
    ) -> Option<TypeFault>
        ensures { result ≡ rules.initial_fault (known self.now) n allowed of value }
    {
        if allowed {
            self.assigned(n, of?, value)
        } else {
            self.fault_at(n, Rule::Assignment)
        }
    }

    fn value_fault(
        &self,
        n: u32,
        allowed: bool,
        of: Option<CType>,
        value: Option<u32>,
    ) -> Option<TypeFault>
        ensures { result ≡ rules.value_fault (known self.now) n allowed of value }
    {
        match value {
            Some(value) => sooner(
                self.wants(value, Demand::Value, Rule::Assignment),
                self.initial_fault(n, allowed, of, value),
            ),
            None => None,
        }
    }

    fn contents_fault(
        &self,
        locals: u32,
        n: u32,
        of: Option<CType>,
        allowed: bool,
        value: Option<u32>,
    ) -> Option<TypeFault>
        ensures { result ≡ rules.contents_fault (known self.now) locals n of allowed value }
    {
        sooner(
            self.locals_fault(n, locals, self.object_size(of)),
            self.value_fault(n, allowed, of, value),
        )
    }

    /// The rule that a declaration in a block breaks, behind variables of so many bytes in all.
    pub fn declare_fault(&self, locals: u32, n: u32, kind: Kind) -> Option<TypeFault>
        ensures { result ≡ rules.declare_fault (known self.now) locals n kind }
    {
        match kind {
            Kind::Declare {
                base,
                pointer,
                name,
                length,
                value,
            } => {
                let of = self.type_declared(n, kind);
                let allowed = has_value(base, pointer, length);
                let variable = self.contents_fault(locals, n, of, allowed, value);
                let size = self.object_size_fault(n, base, pointer, length);
                let named = sooner(self.base_fault(n, base), self.name_fault(n, kind, name));
                sooner(named, sooner(size, variable))
            }
            _ => None,
        }
    }

    /// The rule that a parameter breaks.
    pub fn param_fault(&self, n: u32, kind: Kind, base: Base, name: Name) -> Option<TypeFault>
        ensures { result ≡ rules.param_fault (known self.now) n kind base name }
    {
        sooner(self.base_fault(n, base), self.name_fault(n, kind, name))
    }

    fn total_fault(&self, n: u32, of: CType, offset: u64) -> Option<TypeFault>
        ensures { result ≡ rules.total_fault (known self.now) n of offset }
    {
        let total = u128::from(offset) + u128::from(self.size_of(of));
        self.unless(n, Rule::Sizes, total <= 65536)
    }

    fn placed_fault(&self, n: u32, of: CType, before: Layout) -> Option<TypeFault>
        ensures { result ≡ rules.placed_fault (known self.now) n of before }
    {
        let offset = self.field_offset(n, of, before);
        let whole = self.kind(self.within(n));
        sooner(
            self.total_fault(n, of, offset),
            padded(whole, before.size, offset),
        )
    }

    fn place_fault(&self, n: u32, of: Option<CType>, before: Option<Layout>) -> Option<TypeFault>
        ensures { result ≡ rules.place_fault (known self.now) n of before }
    {
        self.placed_fault(n, of?, before?)
    }

    fn field_name_fault(&self, n: u32, name: Name) -> Option<TypeFault>
        ensures { result ≡ rules.field_name_fault (known self.now) n name }
    {
        self.unless(
            n,
            Rule::Fields,
            self.found(Wanted::Field(name), n).is_none(),
        )
    }

    /// The rule that a field breaks.
    pub fn field_fault(
        &self,
        n: u32,
        kind: Kind,
        base: Base,
        name: Name,
        count: Option<u32>,
    ) -> Option<TypeFault>
        ensures { result ≡ rules.field_fault (known self.now) n kind base name count }
    {
        let placed = self.place_fault(n, self.type_declared(n, kind), self.fields_before(n));
        let sized = sooner(self.object_size_fault(n, base, false, count), placed);
        let typed = sooner(
            self.unless(n, Rule::Fields, is_field_type(base, count)),
            sized,
        );
        sooner(
            self.base_fault(n, base),
            sooner(self.field_name_fault(n, name), typed),
        )
    }

    fn attribute_fault(&self, n: u32, attribute: Option<Name>) -> Option<TypeFault>
        ensures { result ≡ rules.attribute_fault (known self.now) n attribute }
    {
        match attribute {
            Some(name) => self.unless(n, Rule::Fields, self.is_spelled(name, b"packed")),
            None => None,
        }
    }

    fn tag_fault(&self, n: u32, tag: Name) -> Option<TypeFault>
        ensures { result ≡ rules.tag_fault (known self.now) n tag }
    {
        self.unless(
            n,
            Rule::DeclaredOnce,
            self.found(Wanted::Tag(tag), n).is_none(),
        )
    }

    fn layout_of_last(&self, fields: &[u32]) -> Option<Layout>
        ensures { result ≡ rules.layout_of_last (known self.now) fields.now }
    {
        self.layout_at(last_of(fields)?)
    }

    fn behind_fault(&self, tag: Name, packed: bool, fields: &[u32]) -> Option<TypeFault>
        ensures { result ≡ rules.behind_fault (known self.now) tag packed fields.now }
    {
        if packed {
            None
        } else {
            end_fault(tag, self.layout_of_last(fields)?)
        }
    }

    /// The rule that a struct breaks.
    pub fn struct_fault(
        &self,
        n: u32,
        tag: Name,
        fields: &[u32],
        attribute: Option<Name>,
    ) -> Option<TypeFault>
        ensures { result ≡ rules.struct_fault (known self.now) n tag fields.now attribute }
    {
        let behind = self.behind_fault(tag, attribute.is_some(), fields);
        sooner(
            self.tag_fault(n, tag),
            sooner(self.attribute_fault(n, attribute), behind),
        )
    }

    fn are_frame_params(&self, params: &[u32]) -> bool
        ensures { result ≡ rules.are_frame_params (known self.now) params.now }
    {
        match params {
            [port, now] => {
                is_param_of(IntType::Uint16, self.kind(*port))
                    && is_param_of(IntType::Uint64, self.kind(*now))
            }
            _ => false,
        }
    }

    /// Whether it is `int nf_process(uint16_t port, uint64_t now)`.
    fn is_process(&self, kind: Kind) -> bool
        ensures { result ≡ rules.is_process (known self.now) kind }
    {
        match kind {
            Kind::Function {
                is_static: false,
                is_inline: false,
                answer: Some(IntType::Int),
                name,
                params,
                ..
            } => {
                self.is_spelled(name, b"nf_process")
                    && self.are_frame_params(self.scopes.tree.listed(params))
            }
            _ => false,
        }
    }

    fn last_fault(&self, item: Option<u32>) -> Option<TypeFault>
        ensures { result ≡ rules.last_fault (known self.now) item }
    {
        match item {
            Some(item) => self.unless(item, Rule::LastItem, self.is_process(self.kind(item))),
            None => Some(TypeFault::Typing {
                at: 0,
                rule: Rule::LastItem,
            }),
        }
    }

    /// The fault of a text whose last item isn't `nf_process`.
    pub fn unit_fault(&self, items: &[u32]) -> Option<TypeFault>
        ensures { result ≡ rules.unit_fault (known self.now) items.now }
    {
        self.last_fault(last_of(items))
    }
}
