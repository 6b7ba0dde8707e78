//! The step of a specification: what it means, as definitions with worked steps, and the call that takes it.
#![tactic(auto)]

mod effects;
mod keys;
mod running;
mod statements;
mod step;
mod stops;
mod telling;
#[cfg(test)]
mod tests;
mod values;
mod words;

ghost use Rattle.vg_smean.specs.Outcomes.{LawfulTellsAll};
ghost use Rattle.vg_smean.specs.Worked.{WorkedSteps};

pub use step::spec_step;
pub use stops::SpecStop;
pub use values::{Scene, value};
pub use words::{set_word, word_at};

/// Small steps, each with what comes of it by the definitions, worked by hand. It does nothing: its contract is what it says.
#[tactic(auto, using(crate::proofs::Worked::worked_steps))]
pub fn steps_are_as_worked()
    ensures { WorkedSteps }
{}

/// A lawful full state tells all that a step of its specification asks. It does nothing: its contract is what it says.
pub fn a_lawful_state_tells_all()
    ensures { LawfulTellsAll }
{}
