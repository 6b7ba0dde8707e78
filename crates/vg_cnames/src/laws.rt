//! Laws, as the contract of a function that does nothing.
ghost use Rattle.vg_cnames.specs.Visible.{NamesAreOne, VisibleAreFound, FoundAreVisible};

/// In a tree that is ordered and uses each node once, as that of every text that is read, a name names one declaration or none, and it is the one that
/// `Scopes::found` of `vg_cscope` finds.
pub fn names_are_one()
    ensures one { NamesAreOne }
    ensures all { VisibleAreFound }
    ensures only { FoundAreVisible }
{}
