//! What typing knows of a text when it comes to a node, and the declarations that names stand for.
ghost use Rattle.std.specs.Prelude.{◌≡◌};
ghost use Rattle.vg_ctyper.specs.Names as names;
ghost use Rattle.vg_cscope.specs.Scopes as scopes;
ghost use Rattle.vg_ctyper.specs.Views.{known};

use vg_core::{Kind, Name, Note, Referent, library_row};
use vg_cscope::{Scopes, Wanted, field_name, is_function, spelling};

/// A text with its scopes, and notes on the nodes before the one that is looked at.
#[derive(Clone, Copy)]
pub(crate) struct Given<'a> {
    pub scopes: &'a Scopes<'a>,
    pub notes: &'a [Note],
}

impl<'a> Given<'a> {
    pub fn kind(&self, n: u32) -> Kind
        ensures { result ≡ scopes.kind_at self.now.scopes.now.tree.now n }
    {
        self.scopes.kind(n)
    }

    /// Whether two names are spelled alike.
    pub fn is_same(&self, a: Name, b: Name) -> bool
        ensures { result ≡ names.is_same (known self.now) a b }
    {
        spelling(self.scopes.text, a) == spelling(self.scopes.text, b)
    }

    fn is_named(&self, name: Name, other: Option<Name>) -> bool
        ensures { result ≡ names.is_named (known self.now) name other }
    {
        match other {
            Some(other) => self.is_same(name, other),
            None => false,
        }
    }

    /// The last of the declarations that a node sees that is what is looked for.
    pub fn found(&self, wanted: Wanted, n: u32) -> Option<u32>
        ensures { result ≡ names.found (known self.now) wanted n }
    {
        self.scopes.found(wanted, n)
    }

    /// What a name stands for that is used as a variable.
    pub fn variable(&self, n: u32, name: Name) -> Option<Referent>
        ensures { result ≡ names.variable (known self.now) n name }
    {
        let declaration = self.found(Wanted::Ordinary(name), n)?;
        if is_function(self.kind(declaration)) {
            None
        } else {
            Some(Referent::Declared(declaration))
        }
    }

    /// What a name stands for that is called.
    pub fn callee(&self, n: u32, name: Name) -> Option<Referent>
        ensures { result ≡ names.callee (known self.now) n name }
    {
        match self.found(Wanted::Ordinary(name), n) {
            Some(declaration) => {
                if is_function(self.kind(declaration))
                    && (declaration as usize) < self.notes.len()
                {
                    Some(Referent::Declared(declaration))
                } else {
                    None
                }
            }
            None => Some(Referent::Library(library_row(spelling(self.scopes.text, name))?)),
        }
    }

    /// The field of a struct with a name.
    pub fn field_named(&self, tag: u32, name: Name) -> Option<u32>
        ensures { result ≡ names.field_named (known self.now) tag name }
    {
        let Kind::Struct { fields, .. } = self.kind(tag) else {
            return None;
        };
        self.field_among(name, self.scopes.tree.listed(fields))
    }

    fn field_among(&self, name: Name, fields: &[u32]) -> Option<u32>
        ensures { result ≡ names.field_among (known self.now) name fields.now }
    {
        for field in fields {
            if self.is_named(name, field_name(self.kind(*field))) {
                return Some(*field);
            }
        }
        None
    }
}
