//! A C text and a specification, side by side.
ghost use Rattle.std.specs.Prelude.{◌≡◌};
ghost use Rattle.vg_cfit.specs.Fit as fits;

use crate::externs::extern_fault;
use crate::misfit::Misfit;
use crate::structs::struct_fault;
use vg_core::{Unit, erase};
use vg_stree::Spec;

/// Whether a typed C text and a specification fit. Each extern of the text is to be a number or an object of the specification, of its kind and
/// width; and each struct of the specification one of the text, with fields of the same widths in the same order. `Missing` is answered where
/// a name isn't there, `Kind` where an extern is of another kind or width, `Layout` where the fields differ: for the first extern that doesn't
/// fit, in the order of the text, and where all do for the first such struct of the specification. It takes no memory.
pub fn fit(unit: &Unit, spec: &Spec) -> Result<(), Misfit>
    ensures { result ≡ fits.outcome (fits.misfit unit.now spec.now) }
{
    match misfit(unit, spec) {
        Some(fault) => Err(fault),
        None => Ok(()),
    }
}

fn misfit(unit: &Unit, spec: &Spec) -> Option<Misfit>
    ensures { result ≡ fits.misfit unit.now spec.now }
{
    match first_of_externs(unit, spec) {
        Some(fault) => Some(fault),
        None => first_of_structs(unit, spec),
    }
}

fn first_of_externs(unit: &Unit, spec: &Spec) -> Option<Misfit>
    ensures { result ≡ fits.first_fault (fits.extern_fault unit.now.text spec.now) unit.now.tree.nodes }
{
    for node in erase(unit).nodes() {
        if let Some(fault) = extern_fault(unit.text(), spec, *node) {
            return Some(fault);
        }
    }
    None
}

fn first_of_structs(unit: &Unit, spec: &Spec) -> Option<Misfit>
    ensures { result ≡ fits.first_fault (fits.struct_fault unit.now spec.now) spec.now.shape.structs }
{
    for declared in spec.shape().structs() {
        if let Some(fault) = struct_fault(unit, spec, *declared) {
            return Some(fault);
        }
    }
    None
}
