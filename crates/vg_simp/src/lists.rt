//! Lists of terms that grow.

ghost use Rattle.std.specs.Prelude.{◌≡◌, ◌++◌, ◌∷◌, [], OnOk};

use crate::knowledge::Literal;
use vg_term::{TermId, TermStop};

/// Adds a term at the end.
pub(crate) fn push(list: &mut Vec<TermId>, id: TermId) -> Result<(), TermStop>
    ensures { OnOk result (list.new.items ≡ list.old.items ++ id ∷ []) }
{
    match list.push(id) {
        Ok(_) => Ok(()),
        Err(_) => Err(TermStop::Memory),
    }
}

/// Adds a truth at the end.
pub(crate) fn push_literal(
    list: &mut Vec<Literal>,
    term: TermId,
    holds: bool,
) -> Result<(), TermStop>
    ensures { OnOk result (list.new.items ≡ list.old.items ++ (record { term = term; holds = holds }) ∷ []) }
{
    match list.push(Literal { term, holds }) {
        Ok(_) => Ok(()),
        Err(_) => Err(TermStop::Memory),
    }
}
