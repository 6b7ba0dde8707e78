//! Runs that go wrong.
ghost use Rattle.std.specs.Prelude.{◌≡◌};
ghost use Rattle.vg_cmean.specs.Outcomes.{at_place};

use vg_core::Reason;

/// Where a run goes wrong, as a place in the text, and why.
#[derive(Clone, Copy, Debug, PartialEq, Eq)]
pub struct Fault {
    pub at: u32,
    pub reason: Reason,
}

/// The answer, or its refusal as a fault at a place.
pub fn or_wrong<T>(answer: Result<T, Reason>, at: u32) -> Result<T, Fault>
    ensures { result ≡ at_place answer at }
{
    match answer {
        Ok(value) => Ok(value),
        Err(reason) => Err(Fault { at, reason }),
    }
}
