//! One call from a text to its typed unit.
ghost use Rattle.std.specs.Prelude.{◌≡◌, ◌<◌, ◌^◌, ◌⊎◌, length, IfOk, IfErr, MatchResult};
ghost use Rattle.vg_core.specs.Units.{Typed};
ghost use Rattle.vg_cscope.specs.Names.{spelling};
ghost use Rattle.vg_cfront.specs.Refusals.{Refuses};
ghost use Rattle.vg_cfront.specs.Units.{IsUnitOf};
ghost use Rattle.vg_cfront.specs.declared.fault.CFault.{CFault};
ghost use Rattle.vg_cfront.specs.declared.fault.CFault.TheVariants as faults;

use crate::fault::CFault;
use std::alloc::Global;
use vg_core::{Name, Unit};
use vg_cread::read_unit;
use vg_ctok::tokens;
use vg_ctyper::type_unit;

/// The typed unit of a C text of less than 2^31 bytes: its tokens are cut, they are read as a tree, and the tree is typed.
///
/// A fault is answered exactly where the text has one, and it is that one: of its bytes, or where they are tokens of these, or
/// where these spell a tree of its types. `Memory` is answered where memory ran out.
pub fn read_c(alloc: Global, text: &[u8]) -> Result<Unit, CFault>
    requires { length text.now < 2 ^ 31 }
    ensures unit { IfOk result (λ u. IsUnitOf text.now u) }
    ensures fault { IfErr result (λ e. (e ≡ faults.Memory) ⊎ Refuses text.now e) }
    ensures only_unit { (u : Typed) → IsUnitOf text.now u → MatchResult result (λ v. v ≡ u) (λ e. e ≡ faults.Memory) }
    ensures only_fault { (e : CFault) → Refuses text.now e → MatchResult result (λ _. ⊥) (λ f. (f ≡ faults.Memory) ⊎ (f ≡ e)) }
{
    let toks = tokens(alloc, text)?;
    let tree = read_unit(alloc, &toks)?;
    Ok(type_unit(alloc, text, tree)?)
}

/// The bytes of a name of a text; none where the name doesn't lie in it.
pub fn name_bytes(text: &[u8], name: Name) -> &[u8]
    ensures { result.now ≡ spelling text.now name }
{
    match text.get(name.from as usize..name.to as usize) {
        Some(bytes) => bytes,
        None => &[],
    }
}
