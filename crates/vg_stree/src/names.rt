//! The names that a specification declares.
ghost use Rattle.std.specs.Prelude.{◌≡◌, [], ◌&&◌, not, IfOk, OnOk};
ghost use Rattle.std.specs.List.{list_any};
ghost use Rattle.std.specs.Str.{bytes_eq};
ghost use Rattle.vg_stree.specs.Names.{spelled_at, with_name};
ghost use Rattle.vg_stree.specs.Specification as specification;

use crate::shape::Field;
use std::alloc::Global;
use std::marker::Model;
use vg_parts::Memory;

/// A declared name: its place in the text, and how it is spelled.
#[derive(Drop)]
struct Named {
    at: u32,
    spelled: String,
}

/// The names that a specification declares, in order of declaration.
#[derive(Drop)]
pub struct Names {
    list: Vec<Named>,
}

impl Model for Names {
    ghost use Rattle.std.specs.Prelude.{List};
    ghost use Rattle.vg_stree.specs.Names.{Name, seen};

    ghost Value = { List Name };

    ghost view = { λ n. seen n.list.items };
}

impl Names {
    /// No names.
    pub fn new(alloc: Global) -> Names
        ensures { result ≡ [] }
    {
        Names {
            list: Vec::new(alloc),
        }
    }

    /// Adds a name that is declared at a place.
    pub fn add(&mut self, alloc: Global, at: u32, name: &str) -> Result<(), Memory>
        ensures { OnOk result (self.new ≡ with_name self.old at name.now) }
    {
        let spelled = String::from_str(alloc, name)?;
        self.list.push(Named { at, spelled })?;
        Ok(())
    }

    /// The name that is declared at a place, and nothing where none is.
    pub fn name_at(&self, at: u32) -> &str
        ensures { result.now ≡ spelled_at self.now at }
    {
        for named in &self.list {
            if named.at == at {
                return named.spelled.as_str();
            }
        }
        ""
    }

    /// Whether a word is one of the names, and not a field's.
    pub fn declare(&self, fields: &[Field], word: &[u8]) -> bool
        ensures { result ≡ list_any (λ name. bytes_eq name.spelled word.now && not (specification.is_field fields.now name.at)) self.now }
    {
        for named in &self.list {
            if named.spelled.as_bytes() == word && !is_field(fields, named.at) {
                return true;
            }
        }
        false
    }

    /// The same names once more.
    pub fn copy(&self, alloc: Global) -> Result<Names, Memory>
        ensures { IfOk result (λ copied. copied ≡ self.now) }
    {
        let mut copied = Names::new(alloc);
        for named in &self.list {
            copied.add(alloc, named.at, named.spelled.as_str())?;
        }
        Ok(copied)
    }
}

// Whether a field's name stands at a place.
fn is_field(fields: &[Field], at: u32) -> bool
    ensures { result ≡ specification.is_field fields.now at }
{
    fields.iter().any(|field| field.at == at)
}
