//! How deep a run of a text nests: constructs in one another, and those of called functions.
ghost use Rattle.std.specs.Prelude.{◌≡◌, ◌≤◌, ◌+◌, ◌^◌, [], ◌∷◌, IfOk, length, slice_index_or, option_to_list};
ghost use Rattle.vg_core.specs.Syntax as syntax;
ghost use Rattle.vg_cmean.specs.Nesting as nesting;
ghost use Rattle.vg_cmean.specs.Nesting.{deepest, depths_below};

use crate::typings::{kind_at, referent_at};
use std::alloc::Global;
use vg_core::{Kind, Parts, Referent, Unit, erase};
use vg_parts::Memory;

/// So many constructs may stand in one another, those of called functions included: the machine's own stack grows with them.
pub const MOST_NESTED: u32 = 1000;

/// The depth of a node.
pub fn depth(depths: &[u32], n: u32) -> u32
    ensures { result ≡ slice_index_or depths.now n 0 }
{
    depths.get(n as usize).copied().unwrap_or(0)
}

// The greatest depth of some parts that are constructs of their own.
fn deepest_listed(depths: &[u32], nodes: &[u32]) -> u64
    ensures { result ≡ deepest depths.now 1 nodes.now }
{
    let mut most = 0;
    for &n in nodes {
        most = u64::max(most, inside(depths, n));
    }
    most
}

// The depth of a part that is a construct of its own.
fn inside(depths: &[u32], n: u32) -> u64
    ensures value { result ≡ 1 + slice_index_or depths.now n 0 }
    ensures small { result ≤ 2 ^ 32 }
{
    u64::from(depth(depths, n)) + 1
}

fn optional(depths: &[u32], node: Option<u32>) -> u64
    ensures value { result ≡ deepest depths.now 1 (option_to_list node) }
    ensures small { result ≤ 2 ^ 32 }
{
    match node {
        Some(node) => inside(depths, node),
        None => 0,
    }
}

fn deeper(depths: &[u32], one: u32, other: u32) -> u64
    ensures value { result ≡ deepest depths.now 1 (one ∷ other ∷ []) }
    ensures small { result ≤ 2 ^ 32 }
{
    u64::max(inside(depths, one), inside(depths, other))
}

// The greatest depth of the parts that are constructs of their own.
#[tactic(auto, using(crate::proofs::Depths::deepest_append))]
fn deepest_inner(depths: &[u32], kind: Kind) -> u64
    ensures value { result ≡ deepest depths.now 1 (nesting.inner kind) }
    ensures small { result ≤ 2 ^ 32 }
{
    match kind {
        Kind::Field { length, .. } => optional(depths, length),
        Kind::Function { body, .. } => inside(depths, body),
        Kind::Evaluate { value } => inside(depths, value),
        Kind::Assign { target, value, .. } => deeper(depths, target, value),
        Kind::Increment { target } | Kind::Decrement { target } => inside(depths, target),
        Kind::If {
            condition,
            then,
            otherwise,
        } => u64::max(deeper(depths, condition, then), optional(depths, otherwise)),
        Kind::For { body, .. } => inside(depths, body),
        Kind::Return { value } => optional(depths, value),
        Kind::Choose {
            then,
            otherwise,
            ..
        } => deeper(depths, then, otherwise),
        Kind::Unary { operand, .. } | Kind::Cast { operand, .. } => inside(depths, operand),
        Kind::Binary { right, .. } => inside(depths, right),
        Kind::Index { index, .. } => inside(depths, index),
        Kind::Parens { inner } => inside(depths, inner),
        _ => 0,
    }
}

// The greatest depth of the parts that belong to the construct that their node belongs to.
fn deepest_operand(depths: &[u32], kind: Kind) -> u32
    ensures { result ≡ deepest depths.now 0 (nesting.operands kind) }
{
    match kind {
        Kind::Binary { left, .. } => depth(depths, left),
        Kind::Choose { condition, .. } => depth(depths, condition),
        Kind::Index { array, .. } => depth(depths, array),
        Kind::Member { whole, .. } => depth(depths, whole),
        Kind::Arrow { pointer, .. } => depth(depths, pointer),
        Kind::Declare { value, .. } => match value {
            Some(value) => depth(depths, value),
            None => 0,
        },
        _ => 0,
    }
}

// Where the list of a node's parts stands.
fn list_of(kind: Kind) -> Parts
    ensures { result ≡ syntax.list_of kind }
{
    match kind {
        Kind::Unit { items } => items,
        Kind::Struct { fields, .. } => fields,
        Kind::Function { params, .. } => params,
        Kind::Block { statements, .. } => statements,
        Kind::Call { arguments, .. } => arguments,
        _ => Parts { from: 0, count: 0 },
    }
}

// The depth of the function that a call calls.
fn depth_called(depths: &[u32], kind: Kind, called: Option<Referent>) -> u32
    ensures { result ≡ nesting.depth_called depths.now kind called }
{
    match (kind, called) {
        (Kind::Call { .. }, Some(Referent::Declared(function))) => depth(depths, function),
        _ => 0,
    }
}

fn depth_of(unit: &Unit, depths: &[u32], n: u32) -> u32
    ensures { result ≡ nesting.depth_of unit.now depths.now n }
{
    let kind = kind_at(unit, n);
    let listed = deepest_listed(depths, erase(unit).listed(list_of(kind)));
    let own = u64::max(listed, deepest_inner(depths, kind));
    let same = u32::max(
        deepest_operand(depths, kind),
        depth_called(depths, kind, referent_at(unit, n)),
    );
    let all = u64::max(own, u64::from(same));
    if all > u64::from(MOST_NESTED) {
        MOST_NESTED + 1
    } else {
        all as u32
    }
}

/// The depths of all nodes: how many constructs stand in one another in each, those of the function that it calls included. A depth above the limit
/// counts as one more than the limit.
#[tactic(auto, using(crate::proofs::Depths::depths_next, crate::proofs::Depths::depths_none))]
pub fn depths(alloc: Global, unit: &Unit) -> Result<Vec<u32>, Memory>
    ensures { IfOk result (λ depths. depths.items ≡ depths_below unit.now (length unit.now.tree.nodes)) }
{
    let mut depths = Vec::new(alloc);
    for n in 0..erase(unit).nodes().len() as u32 {
        let depth = depth_of(unit, &depths, n);
        depths.push(depth)?;
    }
    Ok(depths)
}
