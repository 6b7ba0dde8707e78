//! Laws of the definitions, each as the contract of a function that does nothing.
ghost use Rattle.std.specs.Ordering.{nat_cmp};
ghost use Rattle.std.specs.Cmp.Lexicographic.{slice_cmp};
ghost use Rattle.vg_abs.specs.Effects.{Forgets};
ghost use Rattle.vg_abs.specs.Opening.{LinkOpensLawful, StateOpensLawful};

/// A link at the start is lawful: nothing is mapped, no index is allocated, and each cell is there.
pub fn an_opening_link_is_lawful()
    ensures { LinkOpensLawful }
{}

/// What is erased, freed or expired is absent or free, and everything else stays as it was told.
pub fn only_what_goes_is_forgotten()
    ensures keys { Forgets (slice_cmp nat_cmp) }
    ensures times { Forgets nat_cmp }
{}

/// The state that a valid configuration opens with is lawful at the time 0: it has the declared shape, each object is lawful, and each rule
/// holds on the cells that it speaks of.
pub fn an_opening_state_is_lawful()
    ensures { StateOpensLawful }
{}
