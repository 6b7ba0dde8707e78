//! What the definitions come to on worked values.
ghost use Rattle.vg_frames.specs.Worked.{WorkedFrames};

/// Numbers, flows and checksums that were worked apart from this program, RFC 1071's own example among them. It does nothing: its
/// contract is what it says.
#[tactic(auto, using(crate::proofs::Worked::worked))]
pub fn frames_are_as_worked()
    ensures { WorkedFrames }
{}
