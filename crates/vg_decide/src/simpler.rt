//! Facts, each simplified once under those before it.
ghost use Rattle.std.specs.Prelude.{◌≡◌, ◌⊎◌, All, IfOk, IfErr};
ghost use Rattle.vg_term.specs.Terms.{Stands, width_at};
ghost use Rattle.vg_term.specs.Wiring.{Grown};
ghost use Rattle.vg_decide.specs.Deciding.{AreAsGood};

use crate::decision::DecideStop;
use std::alloc::Global;
use vg_simp::simplify;
use vg_term::{TermId, Terms};

/// Facts that the same assignments make true, each simplified under those before it.
pub(crate) fn simpler_facts(
    alloc: Global,
    terms: &mut Terms,
    facts: &[TermId],
) -> Result<Vec<TermId>, DecideStop>
    requires stand { All (Stands terms.old) facts.now }
    requires flags { All (λ fact. width_at terms.old fact ≡ 1) facts.now }
    ensures grown { Grown terms.old terms.new }
    ensures refused { IfErr result (λ e. (e ≡ DecideStop.Terms) ⊎ (e ≡ DecideStop.Memory)) }
    ensures simpler { IfOk result (λ simpler. AreAsGood terms.new facts.now simpler.items) }
{
    // A call on the terms tells that they are in order.
    let _count = terms.len();
    let mut simpler = Vec::new(alloc);
    for fact in facts {
        let other = simplify(alloc, terms, *fact, &simpler)?;
        simpler.push(other)?;
    }
    Ok(simpler)
}
