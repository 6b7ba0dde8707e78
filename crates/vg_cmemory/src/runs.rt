//! Runs by number.
ghost use Rattle.std.specs.Prelude.{◌≡◌, ◌≤◌, All, length};
ghost use Rattle.vg_cmemory.specs.State.{at_rest, sizes_of};
ghost use Rattle.vg_cmemory.specs.Kept.{slots_of, AreOfRuns};

use crate::local::{Local, forget};

/// The number of the run behind one, in which nothing lives. Only where the numbers are used up is each local looked at.
#[tactic(auto, using(crate::proofs::Slots::all_rested, crate::proofs::Slots::past_more))]
pub fn next_run(locals: &mut Vec<Local>, run: u64) -> u64
    requires runs { AreOfRuns run locals.old.items }
    ensures value { slots_of result locals.new.items ≡ at_rest (sizes_of (slots_of run locals.old.items)) }
    ensures runs { AreOfRuns result locals.new.items }
{
    if run < u64::MAX {
        return run + 1;
    }
    forget_all(locals, run);
    1
}

// No local is of a run any more.
fn forget_all(locals: &mut Vec<Local>, run: u64)
    ensures value { sizes_of (slots_of run locals.new.items) ≡ sizes_of (slots_of run locals.old.items) }
    ensures runs { All (λ local. local.run ≤ 0) locals.new.items }
{
    for k in 0..locals.len() {
        forget(&mut locals[k]);
    }
}
