//! A text in pieces.
ghost use Rattle.std.specs.Prelude.{◌≡◌, map, IfOk};
ghost use Rattle.vg_conf.specs.Pieces as pieces;

use std::alloc::Global;
use vg_parts::Memory;

/// The pieces between marks, one more than there are marks.
#[tactic(auto, using(crate::proofs::Cutting::cut_on))]
pub fn cut(alloc: Global, mark: u8, text: &[u8]) -> Result<Vec<&[u8]>, Memory>
    ensures { IfOk result (λ found. map (λ piece. piece.now) found.items ≡ pieces.pieces mark text.now) }
{
    let mut found = Vec::new(alloc);
    let mut end = text.len();
    let mut left = text.len();
    while left > 0 {
        left -= 1;
        if text[left] == mark {
            found.push(&text[left + 1..end])?;
            end = left;
        }
    }
    found.push(&text[..end])?;
    found.reverse();
    Ok(found)
}
