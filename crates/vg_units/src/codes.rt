// Places of literals in tables.

ghost use Rattle.std.specs.Prelude.{◌≡◌};
ghost use Rattle.vg_units.specs.Codes.{code};

use vg_cnf::Lit;

/// The literal's place in a table that has two for each variable.
pub(crate) fn code_of(literal: Lit) -> usize
    ensures { result ≡ code literal }
{
    let place = 2 * literal.variable() as usize;
    if literal.is_positive() {
        place
    } else {
        place + 1
    }
}
