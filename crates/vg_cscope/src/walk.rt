//! Looking a declaration up along those that are seen, one after the other.
ghost use Rattle.std.specs.Prelude.{◌≡◌};
ghost use Rattle.vg_cscope.specs.Names as names;
ghost use Rattle.vg_cscope.specs.Scopes as scopes;
ghost use Rattle.vg_cscope.specs.Views.{walked};

use crate::names::{Wanted, field_name, is_function, ordinary_name, spelling, tag_name};
use crate::standing::{Standing, kind_at, seen_at};
use vg_core::{Kind, Name, Tree};

/// A text, its tree, and where each node stands.
#[derive(Clone, Copy)]
pub(crate) struct Walk<'a> {
    pub text: &'a [u8],
    pub tree: &'a Tree,
    pub standings: &'a [Standing],
}

impl Walk<'_> {
    pub fn kind(&self, n: u32) -> Kind
        ensures { result ≡ scopes.kind_at self.now.tree.now n }
    {
        kind_at(self.tree, n)
    }

    /// The last declaration that a node sees.
    pub fn seen_at(&self, n: u32) -> Option<u32>
        ensures { result ≡ scopes.seen_at self.now.standings.now n }
    {
        seen_at(self.standings, n)
    }

    fn is_named(&self, name: Name, other: Option<Name>) -> bool
        ensures { result ≡ names.is_named self.now.text.now name other }
    {
        match other {
            Some(other) => spelling(self.text, name) == spelling(self.text, other),
            None => false,
        }
    }

    /// Whether a declaration is what is looked for.
    pub fn is_wanted(&self, wanted: Wanted, kind: Kind) -> bool
        ensures { result ≡ names.is_wanted self.now.text.now wanted kind }
    {
        match wanted {
            Wanted::Ordinary(name) => self.is_named(name, ordinary_name(kind)),
            Wanted::Tag(name) => self.is_named(name, tag_name(kind)),
            Wanted::Field(name) => self.is_named(name, field_name(kind)),
            Wanted::Function => is_function(kind),
        }
    }

    /// The last of the declarations that a node sees that is what is looked for.
    pub fn found(&self, wanted: Wanted, n: u32) -> Option<u32>
        ensures { result ≡ names.found (walked self.now) wanted n }
    {
        let mut seen = self.seen_at(n);
        for _node in self.tree.nodes() {
            let declaration = seen?;
            if self.is_wanted(wanted, self.kind(declaration)) {
                return Some(declaration);
            }
            seen = self.seen_at(declaration);
        }
        None
    }
}
