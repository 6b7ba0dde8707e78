//! What the nodes of a text look for, and what they find: each name is looked up once.
ghost use Rattle.std.specs.Prelude.{◌≡◌, IfOk, IfSome, Some, slice_get};
ghost use Rattle.vg_cscope.specs.Names.{found};
ghost use Rattle.vg_cscope.specs.Tables.{IsTable, AreAnswers};
ghost use Rattle.vg_cscope.specs.Views.{walked};

use crate::names::Wanted;
use crate::table::Table;
use crate::walk::Walk;
use std::alloc::{AllocError, Global};
use vg_core::{Base, Kind};

/// What was looked for at a node, and what was found.
#[derive(Clone, Copy)]
pub(crate) struct Answer {
    pub wanted: Wanted,
    pub declaration: Option<u32>,
}

/// What each node finds.
#[derive(Drop)]
pub(crate) struct Answers {
    pub names: Vec<Option<Answer>>,
    pub tags: Vec<Option<Answer>>,
}

/// What a node looks for by a name that it declares or names.
fn name_wanted(kind: Kind) -> Option<Wanted> {
    match kind {
        Kind::Struct { tag, .. } => Some(Wanted::Tag(tag)),
        Kind::Field { name, .. } => Some(Wanted::Field(name)),
        Kind::ExternHandle { name, .. }
        | Kind::ExternNumber { name, .. }
        | Kind::Function { name, .. }
        | Kind::Param { name, .. }
        | Kind::Declare { name, .. }
        | Kind::For { counter: name, .. }
        | Kind::Variable { name }
        | Kind::Call { name, .. } => Some(Wanted::Ordinary(name)),
        _ => None,
    }
}

/// What a node looks for by the tag of the type that it names.
fn tag_wanted(kind: Kind) -> Option<Wanted> {
    match kind {
        Kind::Field { base, .. }
        | Kind::Param { base, .. }
        | Kind::Declare { base, .. }
        | Kind::Cast { base, .. }
        | Kind::Sizeof { base } => match base {
            Base::Struct { tag, .. } => Some(Wanted::Tag(tag)),
            Base::Int(_) => None,
        },
        _ => None,
    }
}

/// What a node found for a name, where it looked for that.
pub(crate) fn told(answers: &[Option<Answer>], n: u32, wanted: Wanted) -> Option<Answer>
    ensures { IfSome result (λ a. (a.wanted ≡ wanted) × (slice_get answers.now n ≡ Some (Some a))) }
{
    let answer = (*answers.get(n as usize)?)?;
    if answer.wanted == wanted {
        Some(answer)
    } else {
        None
    }
}

/// What a node finds, where it looks for something.
fn answer_at(table: &Table, walk: &Walk, n: u32, wanted: Option<Wanted>) -> Option<Answer>
    requires { IsTable (walked walk.now) table.now.stack.items table.now.heads.items }
    ensures { IfSome result (λ a. found (walked walk.now) a.wanted n ≡ a.declaration) }
{
    let wanted = wanted?;
    let declaration = table.found(walk, n, wanted);
    Some(Answer {
        wanted,
        declaration,
    })
}

/// What all nodes find.
pub(crate) fn answers_of(alloc: Global, walk: &Walk) -> Result<Answers, AllocError>
    ensures names { IfOk result (λ a. AreAnswers (walked walk.now) a.names.items) }
    ensures tags { IfOk result (λ a. AreAnswers (walked walk.now) a.tags.items) }
{
    let mut table = Table::new(alloc, walk)?;
    let mut names = Vec::new(alloc);
    let mut tags = Vec::new(alloc);
    for n in 0..walk.tree.nodes().len() as u32 {
        table.move_to(alloc, walk, walk.seen_at(n))?;
        names.push(answer_at(&table, walk, n, name_wanted(walk.kind(n))))?;
        tags.push(answer_at(&table, walk, n, tag_wanted(walk.kind(n))))?;
    }
    Ok(Answers { names, tags })
}
