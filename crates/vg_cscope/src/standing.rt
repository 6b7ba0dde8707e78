//! What each node of a tree sees, and of which it is a part.
ghost use Rattle.std.specs.Prelude.{◌≡◌, [], ◌∷◌, IfOk, replicate};
ghost use Rattle.vg_cscope.specs.Scopes as scopes;

use std::alloc::{AllocError, Global};
use vg_core::{Kind, Tree};

/// Where a node stands.
#[derive(Clone, Copy, Debug, PartialEq, Eq)]
pub struct Standing {
    /// The node that it is a part of; 0 for the whole.
    pub within: u32,
    /// The last declaration before it that it sees.
    pub seen: Option<u32>,
}

/// Where each node stands, told from the whole down to the parts.
#[tactic(auto, using(crate::proofs::Telling::told_next))]
pub(crate) fn standings_of(alloc: Global, tree: &Tree) -> Result<Vec<Standing>, AllocError>
    ensures { IfOk result (λ v. v.items ≡ scopes.standings_of tree.now) }
{
    let count = tree.nodes().len();
    let mut standings = nobody(alloc, count)?;
    for below in 0..count {
        tell(tree, &mut standings, (count - 1 - below) as u32);
    }
    Ok(standings)
}

/// As many standings of nodes that see nothing.
fn nobody(alloc: Global, count: usize) -> Result<Vec<Standing>, AllocError>
    ensures { IfOk result (λ v. v.items ≡ replicate count scopes.alone) }
{
    let mut standings = Vec::new(alloc);
    for _count in 0..count {
        standings.push(Standing {
            within: 0,
            seen: None,
        })?;
    }
    Ok(standings)
}

/// What a node is; a number that none has counts as an empty statement.
pub fn kind_at(tree: &Tree, n: u32) -> Kind
    ensures { result ≡ scopes.kind_at tree.now n }
{
    match tree.nodes().get(n as usize) {
        Some(node) => node.kind,
        None => Kind::Empty,
    }
}

/// The last declaration that a node sees.
pub(crate) fn seen_at(standings: &[Standing], n: u32) -> Option<u32>
    ensures { result ≡ scopes.seen_at standings.now n }
{
    standings.get(n as usize)?.seen
}

/// Whether what stands behind sees it.
fn declares(kind: Kind) -> bool
    ensures { result ≡ scopes.declares kind }
{
    matches!(
        kind,
        Kind::Struct { .. }
            | Kind::Field { .. }
            | Kind::ExternHandle { .. }
            | Kind::ExternNumber { .. }
            | Kind::Function { .. }
            | Kind::Param { .. }
            | Kind::Declare { .. }
    )
}

/// Tells each part of a node what it sees.
#[tactic(auto, using(crate::proofs::Telling::told_append))]
fn tell(tree: &Tree, standings: &mut Vec<Standing>, n: u32)
    ensures { standings.new.items ≡ scopes.told n (scopes.sight tree.now n (scopes.seen_at standings.old.items n) (scopes.kind_at tree.now n))
        standings.old.items }
{
    let seen = seen_at(standings, n);
    match kind_at(tree, n) {
        Kind::Unit { items } => tell_row(tree, standings, n, tree.listed(items), None),
        Kind::Struct { fields, .. } => tell_row(tree, standings, n, tree.listed(fields), Some(n)),
        Kind::Block { statements, .. } => tell_row(
            tree,
            standings,
            n,
            tree.listed(statements),
            seen,
        ),
        Kind::Function { params, body, .. } => {
            let params = tree.listed(params);
            tell_row(tree, standings, n, params, Some(n));
            tell_part(standings, n, body, seen_behind(tree, params, Some(n)));
        }
        Kind::Call { arguments, .. } => tell_all(standings, n, tree.listed(arguments), seen),
        Kind::For {
            start,
            bound,
            step,
            body,
            ..
        } => {
            tell_part(standings, n, start, Some(n));
            tell_part(standings, n, bound, Some(n));
            tell_optional(standings, n, step, Some(n));
            tell_part(standings, n, body, Some(n));
        }
        Kind::Declare { length, value, .. } => {
            tell_optional(standings, n, length, seen);
            tell_optional(standings, n, value, Some(n));
        }
        Kind::If {
            condition,
            then,
            otherwise,
        } => {
            tell_part(standings, n, condition, seen);
            tell_part(standings, n, then, seen);
            tell_optional(standings, n, otherwise, seen);
        }
        Kind::Choose {
            condition,
            then,
            otherwise,
        } => tell_all(standings, n, &[condition, then, otherwise], seen),
        Kind::Assign { target, value, .. } => tell_all(standings, n, &[target, value], seen),
        Kind::Binary { left, right, .. } => tell_all(standings, n, &[left, right], seen),
        Kind::Index { array, index } => tell_all(standings, n, &[array, index], seen),
        Kind::Field { length, .. } => tell_optional(standings, n, length, seen),
        Kind::Return { value } => tell_optional(standings, n, value, seen),
        Kind::Evaluate { value: part }
        | Kind::Increment { target: part }
        | Kind::Decrement { target: part }
        | Kind::Unary { operand: part, .. }
        | Kind::Cast { operand: part, .. }
        | Kind::Member { whole: part, .. }
        | Kind::Arrow { pointer: part, .. }
        | Kind::Parens { inner: part } => tell_part(standings, n, part, seen),
        Kind::ExternHandle { .. }
        | Kind::ExternNumber { .. }
        | Kind::Param { .. }
        | Kind::Empty
        | Kind::Sizeof { .. }
        | Kind::Number { .. }
        | Kind::Variable { .. } => {}
    }
}

/// Tells a part what it sees.
fn tell_part(standings: &mut Vec<Standing>, within: u32, part: u32, seen: Option<u32>)
    ensures { standings.new.items ≡ scopes.told within ((part, seen) ∷ []) standings.old.items }
{
    if let Some(standing) = standings.get_mut(part as usize) {
        *standing = Standing { within, seen };
    }
}

/// Tells a part what it sees, where there is one.
fn tell_optional(standings: &mut Vec<Standing>, within: u32, part: Option<u32>, seen: Option<u32>)
    ensures { standings.new.items ≡ scopes.told within (scopes.all_see seen (scopes.optional part)) standings.old.items }
{
    if let Some(part) = part {
        tell_part(standings, within, part, seen);
    }
}

/// Tells parts that all see the same.
fn tell_all(standings: &mut Vec<Standing>, within: u32, parts: &[u32], seen: Option<u32>)
    ensures { standings.new.items ≡ scopes.told within (scopes.all_see seen parts.now) standings.old.items }
{
    for part in parts {
        tell_part(standings, within, *part, seen);
    }
}

/// Tells parts that stand in a row, each of which sees what is seen behind the one before it.
fn tell_row(
    tree: &Tree,
    standings: &mut Vec<Standing>,
    within: u32,
    parts: &[u32],
    first: Option<u32>,
)
    ensures { standings.new.items ≡ scopes.told within (scopes.in_row tree.now first parts.now) standings.old.items }
{
    let mut seen = first;
    for part in parts {
        tell_part(standings, within, *part, seen);
        seen = behind(tree, seen, *part);
    }
}

/// What is seen behind a part.
fn behind(tree: &Tree, seen: Option<u32>, part: u32) -> Option<u32>
    ensures { result ≡ scopes.behind tree.now seen part }
{
    if declares(kind_at(tree, part)) {
        Some(part)
    } else {
        seen
    }
}

/// What is seen behind parts that stand in a row.
fn seen_behind(tree: &Tree, parts: &[u32], first: Option<u32>) -> Option<u32>
    ensures { result ≡ scopes.seen_behind tree.now first parts.now }
{
    let mut seen = first;
    for part in parts {
        seen = behind(tree, seen, *part);
    }
    seen
}
