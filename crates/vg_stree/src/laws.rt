//! A law of the definitions, as the contract of a function that does nothing.
ghost use Rattle.vg_stree.specs.Routes.{MatchIsOne};

/// Which route an address has is a function of the routes and the address.
pub fn each_address_has_one_match()
    ensures { MatchIsOne }
{}
