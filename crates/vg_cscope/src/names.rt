//! Names, as nodes declare them and as they are looked for.
ghost use Rattle.std.specs.Prelude.{◌≡◌};
ghost use Rattle.vg_cscope.specs.Names as names;
ghost use Rattle.vg_cscope.specs.Tables as tables;

use vg_core::{Kind, Name};

/// What a declaration is looked for by.
#[derive(Clone, Copy, Debug, PartialEq, Eq)]
pub enum Wanted {
    /// The name of a variable, parameter, counter, extern or function.
    Ordinary(Name),
    /// The tag of a struct.
    Tag(Name),
    /// The name of a field before, in the same struct.
    Field(Name),
    /// A function of any name.
    Function,
}

/// The bytes of a name.
pub fn spelling(text: &[u8], name: Name) -> &[u8]
    ensures { result.now ≡ names.spelling text.now name }
{
    match text.get(name.from as usize..name.to as usize) {
        Some(bytes) => bytes,
        None => &[],
    }
}

/// The name that a node declares, other than of a struct or a field.
pub(crate) fn ordinary_name(kind: Kind) -> Option<Name>
    ensures { result ≡ names.ordinary_name kind }
{
    match kind {
        Kind::ExternHandle { name, .. }
        | Kind::ExternNumber { name, .. }
        | Kind::Function { name, .. }
        | Kind::Param { name, .. }
        | Kind::Declare { name, .. }
        | Kind::For { counter: name, .. } => Some(name),
        _ => None,
    }
}

/// The name of a field.
pub fn field_name(kind: Kind) -> Option<Name>
    ensures { result ≡ names.field_name kind }
{
    match kind {
        Kind::Field { name, .. } => Some(name),
        _ => None,
    }
}

/// The tag of a struct.
pub(crate) fn tag_name(kind: Kind) -> Option<Name>
    ensures { result ≡ names.tag_name kind }
{
    match kind {
        Kind::Struct { tag, .. } => Some(tag),
        _ => None,
    }
}

pub fn is_function(kind: Kind) -> bool
    ensures { result ≡ names.is_function kind }
{
    matches!(kind, Kind::Function { .. })
}

/// The name that a node declares, in whichever name space.
pub(crate) fn declared_name(kind: Kind) -> Option<Name>
    ensures { result ≡ tables.declared_name kind }
{
    match kind {
        Kind::Struct { tag, .. } => Some(tag),
        Kind::Field { name, .. } => Some(name),
        _ => ordinary_name(kind),
    }
}

/// The name that is looked for.
pub(crate) fn wanted_name(wanted: Wanted) -> Option<Name>
    ensures { result ≡ tables.wanted_name wanted }
{
    match wanted {
        Wanted::Ordinary(name) | Wanted::Tag(name) | Wanted::Field(name) => Some(name),
        Wanted::Function => None,
    }
}
