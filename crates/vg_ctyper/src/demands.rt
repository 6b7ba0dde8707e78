//! What rules ask of the parts of a node. A part without a type breaks no rule of the node that it is a part of.
ghost use Rattle.std.specs.Prelude.{◌≡◌};
ghost use Rattle.vg_ctyper.specs.Demands as demands;
ghost use Rattle.vg_ctyper.specs.Views.{known};

use crate::fault::{Rule, TypeFault, sooner};
use crate::given::Given;
use crate::kinds::{as_integer, pointed, pointee};
use vg_core::{CType, HandleKind, Kind, Name, Target, UnaryOp};
use vg_cscope::{Wanted, spelling};

/// What an operator wants of an operand's type.
#[derive(Clone, Copy)]
pub(crate) enum Demand {
    /// That it is the type of a value.
    Value,
    Integer,
    /// A pointer to an object, or an array.
    Object,
}

pub(crate) fn meets(demand: Demand, of: CType) -> bool
    ensures { result ≡ demands.meets demand of }
{
    match demand {
        Demand::Value => true,
        Demand::Integer => as_integer(of).is_some(),
        Demand::Object => pointee(of).is_some(),
    }
}

/// The type, where it is that of a value.
fn as_value(of: CType) -> Option<CType>
    ensures { result ≡ demands.as_value of }
{
    match of {
        CType::Handle(_) | CType::Void => None,
        _ => Some(of),
    }
}

fn inner(kind: Kind) -> Option<u32>
    ensures { result ≡ demands.inner kind }
{
    match kind {
        Kind::Parens { inner } => Some(inner),
        _ => None,
    }
}

fn is_extern_number(kind: Kind) -> bool
    ensures { result ≡ demands.is_extern_number kind }
{
    matches!(kind, Kind::ExternNumber { .. })
}

fn is_loop(kind: Kind) -> bool
    ensures { result ≡ demands.is_loop kind }
{
    matches!(kind, Kind::For { .. })
}

fn is_same_target(a: Target, b: Target) -> bool
    ensures { result ≡ demands.is_same_target a b }
{
    match (a, b) {
        (Target::Void, Target::Void) => true,
        (
            Target::Int { bits, signed },
            Target::Int {
                bits: width,
                signed: sign,
            },
        ) => bits == width && same_bool(signed, sign),
        (Target::Struct(tag), Target::Struct(other)) => tag == other,
        _ => false,
    }
}

pub(crate) fn same_bool(a: bool, b: bool) -> bool
    ensures { result ≡ demands.same_bool a b }
{
    if a { b } else { !b }
}

fn is_void(target: Target) -> bool
    ensures { result ≡ demands.is_void target }
{
    matches!(target, Target::Void)
}

fn takes_pointer(target: Target, source: Option<Target>) -> bool
    ensures { result ≡ demands.takes_pointer target source }
{
    match source {
        Some(source) => is_void(source) || is_same_target(target, source),
        None => false,
    }
}

/// Whether a value of the type `source` is assigned to an object of the type `of` (C11 6.5.16.1).
fn is_assignable(of: CType, source: CType) -> bool
    ensures { result ≡ demands.is_assignable of source }
{
    match of {
        CType::Int { .. } => as_integer(source).is_some(),
        CType::Pointer(target) => takes_pointer(target, pointed(source)),
        _ => false,
    }
}

fn is_same_handle(a: HandleKind, b: HandleKind) -> bool
    ensures { result ≡ demands.is_same_handle a b }
{
    matches!(
        (a, b),
        (HandleKind::Map, HandleKind::Map)
            | (HandleKind::Chain, HandleKind::Chain)
            | (HandleKind::Vector, HandleKind::Vector)
            | (HandleKind::Prefix, HandleKind::Prefix)
    )
}

fn is_handle(handle: HandleKind, of: CType) -> bool
    ensures { result ≡ demands.is_handle handle of }
{
    match of {
        CType::Handle(other) => is_same_handle(handle, other),
        _ => false,
    }
}

/// Whether an argument of the type `source` is passed to a parameter of the type `of`.
pub(crate) fn is_passed(of: CType, source: CType) -> bool
    ensures { result ≡ demands.is_passed of source }
{
    match of {
        CType::Handle(handle) => is_handle(handle, source),
        CType::Pointer(Target::Void) => pointed(source).is_some(),
        _ => is_assignable(of, source),
    }
}

impl Given<'_> {
    /// The place of a node's first token.
    pub fn place(&self, n: u32) -> u32
        ensures { result ≡ demands.place (known self.now) n }
    {
        match self.scopes.tree.nodes().get(n as usize) {
            Some(node) => node.at,
            None => 0,
        }
    }

    pub fn fault_at(&self, n: u32, rule: Rule) -> Option<TypeFault>
        ensures { result ≡ demands.fault_at (known self.now) n rule }
    {
        let at = self.place(n);
        Some(TypeFault::Typing { at, rule })
    }

    pub fn unless(&self, n: u32, rule: Rule, holds: bool) -> Option<TypeFault>
        ensures { result ≡ demands.unless (known self.now) n rule holds }
    {
        if holds { None } else { self.fault_at(n, rule) }
    }

    pub fn is_spelled(&self, name: Name, bytes: &[u8]) -> bool
        ensures { result ≡ demands.is_spelled (known self.now) name bytes.now }
    {
        spelling(self.scopes.text, name) == bytes
    }

    /// The fault of a part that stands as a value, which is that of the part itself where it is none.
    pub fn used_as(&self, part: u32, of: CType, otherwise: Option<TypeFault>) -> Option<TypeFault>
        ensures { result ≡ demands.used_as (known self.now) part of otherwise }
    {
        match of {
            CType::Handle(_) => self.fault_at(part, Rule::Handle),
            CType::Void => self.fault_at(part, Rule::Statement),
            _ => otherwise,
        }
    }

    pub fn used(&self, part: u32, otherwise: Option<TypeFault>) -> Option<TypeFault>
        ensures { result ≡ demands.used (known self.now) part otherwise }
    {
        self.used_as(part, self.type_at(part)?, otherwise)
    }

    /// The type of a part that is a value.
    pub fn value_at(&self, part: u32) -> Option<CType>
        ensures { result ≡ demands.value_at (known self.now) part }
    {
        as_value(self.type_at(part)?)
    }

    fn wanted_of(&self, part: u32, demand: Demand, rule: Rule, of: CType) -> Option<TypeFault>
        ensures { result ≡ demands.wanted_of (known self.now) part demand rule of }
    {
        self.used_as(part, of, self.unless(part, rule, meets(demand, of)))
    }

    /// The fault of an operand whose operator wants something of its type.
    pub fn wants(&self, part: u32, demand: Demand, rule: Rule) -> Option<TypeFault>
        ensures { result ≡ demands.wants (known self.now) part demand rule }
    {
        self.wanted_of(part, demand, rule, self.type_at(part)?)
    }

    /// What stands in parentheses.
    fn without_parens(&self, n: u32) -> u32
        ensures { result ≡ demands.without_parens (known self.now) n }
    {
        let mut part = n;
        for _node in self.scopes.tree.nodes() {
            match inner(self.kind(part)) {
                Some(wrapped) => part = wrapped,
                None => return part,
            }
        }
        part
    }

    fn kind_found(&self, declaration: Option<u32>) -> Kind
        ensures { result ≡ demands.kind_found self.now.scopes.now.tree.now declaration }
    {
        match declaration {
            Some(declaration) => self.kind(declaration),
            None => Kind::Empty,
        }
    }

    /// What declares the name that an expression is.
    fn declaration_of(&self, n: u32, kind: Kind) -> Kind
        ensures { result ≡ demands.declaration_of (known self.now) n kind }
    {
        match kind {
            Kind::Variable { name } => self.kind_found(self.found(Wanted::Ordinary(name), n)),
            _ => Kind::Empty,
        }
    }

    fn is_object(&self, n: u32, kind: Kind) -> bool
        ensures { result ≡ demands.is_object (known self.now) n kind }
    {
        match kind {
            Kind::Variable { .. } => !is_extern_number(self.declaration_of(n, kind)),
            Kind::Member { .. } | Kind::Arrow { .. } | Kind::Index { .. } => true,
            Kind::Unary { op, .. } => matches!(op, UnaryOp::Load),
            _ => false,
        }
    }

    fn is_lvalue(&self, n: u32) -> bool
        ensures { result ≡ demands.is_lvalue (known self.now) n }
    {
        let part = self.without_parens(n);
        self.is_object(part, self.kind(part))
    }

    fn is_counter(&self, n: u32) -> bool
        ensures { result ≡ demands.is_counter (known self.now) n }
    {
        let part = self.without_parens(n);
        is_loop(self.declaration_of(part, self.kind(part)))
    }

    /// The fault of what is assigned to, incremented or has its address taken, where it is no lvalue or a loop's counter.
    pub fn object_fault(&self, part: u32) -> Option<TypeFault>
        ensures { result ≡ demands.object_fault (known self.now) part }
    {
        sooner(
            self.unless(part, Rule::Lvalue, self.is_lvalue(part)),
            self.unless(part, Rule::Loop, !self.is_counter(part)),
        )
    }

    /// The fault of a node that assigns a value to an object.
    pub fn assigned(&self, n: u32, of: CType, value: u32) -> Option<TypeFault>
        ensures { result ≡ demands.assigned (known self.now) n of value }
    {
        self.unless(
            n,
            Rule::Assignment,
            is_assignable(of, self.value_at(value)?),
        )
    }
}
