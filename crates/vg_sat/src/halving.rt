// Which literals of a clause are needed, found by halves: with one half assumed false the other is judged, and so on within the halves.

ghost use Rattle.std.specs.Prelude.{◌≡◌, length, All, IfOk, IsOk};
ghost use Rattle.vg_cnf.specs.Clauses.{IsOver};
ghost use Rattle.vg_units.specs.Propagating.{AreWithin};
ghost use Rattle.vg_sat.specs.Learned.{AreNeeded, AreNeededBeside};

use std::alloc::{AllocError, Global};
use vg_cnf::Lit;
use vg_units::Propagator;

/// Those literals of a list that are needed beside what is assumed, where the clause of both follows.
#[cycle(halving)]
fn needed(alloc: Global, search: &mut Propagator, list: &[Lit]) -> Result<Vec<Lit>, AllocError>
    requires at_end { search.old.head ≡ length search.old.trail }
    requires over { All (IsOver search.old.variables) list.now }
    ensures back { IsOk result → search.new ≡ search.old }
    ensures within { IfOk result (λ kept. AreWithin kept.items list.now) }
    ensures needed { IfOk result (λ kept. AreNeeded search.old list.now kept.items) }
{
    search.facts();
    if list.len() <= 1 {
        let mut kept = Vec::new(alloc);
        kept.extend_from_slice(list)?;
        return Ok(kept);
    }
    let (front, back) = list.split_at(list.len() / 2);
    let mut kept = needed_beside(alloc, search, back, front)?;
    let more = needed_beside(alloc, search, &kept, back)?;
    kept.extend_from_slice(&more)?;
    Ok(kept)
}

/// Those literals of a list that are needed beside others and what is assumed, where the clause of all follows.
#[cycle(halving)]
pub(crate) fn needed_beside(
    alloc: Global,
    search: &mut Propagator,
    others: &[Lit],
    list: &[Lit],
) -> Result<Vec<Lit>, AllocError>
    requires at_end { search.old.head ≡ length search.old.trail }
    requires others { All (IsOver search.old.variables) others.now }
    requires over { All (IsOver search.old.variables) list.now }
    ensures back { IsOk result → search.new ≡ search.old }
    ensures within { IfOk result (λ kept. AreWithin kept.items list.now) }
    ensures needed { IfOk result (λ kept. AreNeededBeside search.old others.now list.now kept.items) }
{
    let level = search.level();
    let follows = search.assume_also(others)?;
    let kept = if follows {
        Vec::new(alloc)
    } else {
        needed(alloc, search, list)?
    };
    search.return_to(level);
    Ok(kept)
}
