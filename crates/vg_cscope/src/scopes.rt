//! The scopes of a text, in which each name is looked up once.
ghost use Rattle.std.specs.Prelude.{◌≡◌, IfOk};
ghost use Rattle.vg_cscope.specs.Names.{scoped, found as finds};
ghost use Rattle.vg_cscope.specs.Scopes as scopes;
ghost use Rattle.vg_cscope.specs.Tables.{AreAnswers};

use crate::answers::{Answer, Answers, answers_of, told};
use crate::names::Wanted;
use crate::standing::{Standing, kind_at, seen_at, standings_of};
use crate::walk::Walk;
use std::alloc::{AllocError, Global};
use vg_core::{Kind, Tree};

/// A text, its tree, where each node stands, and the declarations that the names of its nodes stand for.
#[derive(Drop)]
pub struct Scopes<'a> {
    pub text: &'a [u8],
    pub tree: &'a Tree,
    pub standings: Vec<Standing>,
    names: Vec<Option<Answer>>,
    tags: Vec<Option<Answer>>,
    ghost named: { AreAnswers (scoped text.now tree.now standings.items) names.items },
    ghost tagged: { AreAnswers (scoped text.now tree.now standings.items) tags.items },
}

impl<'a> Scopes<'a> {
    /// The scopes of a text.
    pub fn of(alloc: Global, text: &'a [u8], tree: &'a Tree) -> Result<Scopes<'a>, AllocError>
        ensures text { IfOk result (λ s. s.text.now ≡ text.now) }
        ensures tree { IfOk result (λ s. s.tree.now ≡ tree.now) }
        ensures standings { IfOk result (λ s. s.standings.items ≡ scopes.standings_of tree.now) }
    {
        let standings = standings_of(alloc, tree)?;
        let walk = Walk {
            text,
            tree,
            standings: &standings,
        };
        let Answers { names, tags } = answers_of(alloc, &walk)?;
        Ok(Scopes {
            text,
            tree,
            standings,
            names,
            tags,
        })
    }

    pub fn kind(&self, n: u32) -> Kind
        ensures { result ≡ scopes.kind_at self.now.tree.now n }
    {
        kind_at(self.tree, n)
    }

    /// The last declaration that a node sees.
    pub fn seen_at(&self, n: u32) -> Option<u32>
        ensures { result ≡ scopes.seen_at self.now.standings.items n }
    {
        seen_at(&self.standings, n)
    }

    /// The last of the declarations that a node sees that is what is looked for.
    pub fn found(&self, wanted: Wanted, n: u32) -> Option<u32>
        ensures { result ≡ finds (scoped self.now.text.now self.now.tree.now self.now.standings.items) wanted n }
    {
        if let Some(answer) = told(&self.names, n, wanted) {
            return answer.declaration;
        }
        if let Some(answer) = told(&self.tags, n, wanted) {
            return answer.declaration;
        }
        let walk = Walk {
            text: self.text,
            tree: self.tree,
            standings: &self.standings,
        };
        walk.found(wanted, n)
    }
}
