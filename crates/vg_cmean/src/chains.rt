//! Chains of operators, suffixes and `else if`s, as the machine walks them: in loops, so that the longest takes no more of its stack than the shortest.
ghost use Rattle.std.specs.Prelude.{◌≡◌, IfSome, length, slice_index_or};
ghost use Rattle.vg_cmean.specs.Chains as chains;
ghost use Rattle.vg_cmean.specs.Chains.{IsLink, IsChain, IsElseIf};

use crate::typings::kind_at;
use crate::world::Env;
use std::alloc::Global;
use vg_core::{Kind, Unit, erase};
use vg_parts::Memory;

/// An `if` with its parts.
#[derive(Clone, Copy)]
pub struct Branch {
    pub node: u32,
    pub condition: u32,
    pub body: u32,
    pub otherwise: Option<u32>,
}

/// The innermost node of a chain, and how many nodes of the chain stand above it.
#[derive(Clone, Copy)]
pub struct Foot {
    pub node: u32,
    pub links: u32,
}

// The part that a node of a chain goes on from.
fn first_of(kind: Kind) -> Option<u32>
    ensures { result ≡ chains.first_of kind }
{
    match kind {
        Kind::Binary { left, .. } => Some(left),
        Kind::Index { array, .. } => Some(array),
        Kind::Member { whole, .. } => Some(whole),
        Kind::Arrow { pointer, .. } => Some(pointer),
        _ => None,
    }
}

/// The node that goes on from this one.
pub fn above(env: &Env, n: u32) -> u32
    ensures { result ≡ slice_index_or env.now.above.now n 0 }
{
    env.above.get(n as usize).copied().unwrap_or(0)
}

// The node that this one goes on from, where `above` leads back.
fn below(env: &Env, n: u32) -> Option<u32>
    ensures { IfSome result (λ first. IsLink env.now.unit.now env.now.above.now first n) }
{
    let first = first_of(kind_at(env.unit, n))?;
    if first < n && above(env, first) == n {
        return Some(first);
    }
    None
}

/// The innermost node of the chain that ends with this one.
pub fn foot_of(env: &Env, n: u32) -> Foot
    ensures { IsChain env.now.unit.now env.now.above.now n result.links result.node }
{
    let mut node = n;
    let mut links = 0;
    while let Some(first) = below(env, node) {
        node = first;
        links += 1;
    }
    Foot { node, links }
}

/// The `if` that is the `else` of another.
pub fn else_if(unit: &Unit, branch: Branch) -> Option<Branch>
    ensures { IfSome result (IsElseIf unit.now branch) }
{
    let node = branch.otherwise?;
    if branch.node <= node {
        return None;
    }
    match kind_at(unit, node) {
        Kind::If {
            condition,
            then,
            otherwise,
        } => Some(Branch {
            node,
            condition,
            body: then,
            otherwise,
        }),
        _ => None,
    }
}

/// For each node that another goes on from, the number of the other.
pub fn chains_of(alloc: Global, unit: &Unit) -> Result<Vec<u32>, Memory> {
    let nodes = erase(unit).nodes();
    let mut above = vec![in alloc; 0; nodes.len()]?;
    for n in 0..nodes.len() as u32 {
        if let Some(first) = first_of(kind_at(unit, n)) {
            if (first as usize) < above.len() {
                above[first as usize] = n;
            }
        }
    }
    Ok(above)
}
