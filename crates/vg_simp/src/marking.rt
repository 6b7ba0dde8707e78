//! Which terms stand under one.

ghost use Rattle.std.specs.Prelude.{◌≡◌, ◌<◌, length, All, IfOk, if◌then◌else◌};
ghost use Rattle.vg_term.specs.Terms.{AreTerms, Stands, listed};
ghost use Rattle.vg_simp.specs.Marking.{AreMarks, is_marked, marked, parts_at};

use std::alloc::{AllocError, Global};
use vg_term::{Node, Parts, TermId, Terms};

// The parts of a term.
fn parts_of(terms: &Terms, id: TermId) -> Parts
    requires { Stands terms.now id }
    ensures { listed result ≡ parts_at terms.now id }
{
    match terms.node(id) {
        Node::Var { .. } => Parts::Zero,
        Node::Op(_, parts) => parts,
    }
}

// Marks up to three terms.
fn mark_parts(marks: &mut Vec<bool>, parts: Parts)
    requires { All (λ id. id.0 < length marks.old.items) (listed parts) }
    ensures { marks.new.items ≡ marked marks.old.items (listed parts) }
{
    match parts {
        Parts::Zero => {}
        Parts::One(a) => marks[a.0 as usize] = true,
        Parts::Two(a, b) => {
            marks[a.0 as usize] = true;
            marks[b.0 as usize] = true;
        }
        Parts::Three(c, a, b) => {
            marks[c.0 as usize] = true;
            marks[a.0 as usize] = true;
            marks[b.0 as usize] = true;
        }
    }
}

// Marks the parts of a term, if it is marked.
fn mark_next(terms: &Terms, id: TermId, marks: &mut Vec<bool>)
    requires made { AreTerms terms.now }
    requires stands { Stands terms.now id }
    requires within { id.0 < length marks.old.items }
    ensures { marks.new.items ≡ (if is_marked marks.old.items id then marked marks.old.items (parts_at terms.now id) else marks.old.items) }
{
    let parts = parts_of(terms, id);
    if marks[id.0 as usize] {
        mark_parts(marks, parts);
    }
}

/// Marks on a term and on all that stand under it, by the terms' numbers.
pub(crate) fn reached(alloc: Global, terms: &Terms, goal: TermId) -> Result<Vec<bool>, AllocError>
    requires made { AreTerms terms.now }
    requires stands { Stands terms.now goal }
    ensures { IfOk result (λ marks. AreMarks terms.now goal 0 marks.items) }
{
    let last = goal.0 as usize;
    let mut marks = vec![in alloc; false; last + 1]?;
    marks[last] = true;
    for done in 0..last + 1 {
        mark_next(terms, TermId((last - done) as u32), &mut marks);
    }
    Ok(marks)
}
