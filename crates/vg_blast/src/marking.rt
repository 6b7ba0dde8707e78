// Which terms are reached from some.

ghost use Rattle.std.specs.Prelude.{◌≡◌, ◌<◌, length, All, IfOk, OnOk, if◌then◌else◌};
ghost use Rattle.vg_term.specs.Terms.{AreTerms, Stands, listed};
ghost use Rattle.vg_blast.specs.Marking.{AreMarks, AreStarts, followed, is_marked, marked};

use std::alloc::{AllocError, Global};
use vg_term::{Node, Op, Parts, TermId, Terms};

/// From which terms one goes on, and where to.
#[derive(Clone, Copy, PartialEq, Eq, Debug)]
pub(crate) enum Follow {
    /// From each term to its parts.
    Parts,
    /// From a conjunction, an `and` of width 1, to its parts.
    Conjuncts,
}

/// Where one goes on to from a term.
pub(crate) fn next(terms: &Terms, follow: Follow, id: TermId) -> Parts
    requires { Stands terms.now id }
    ensures parts { listed result ≡ followed follow terms.now id }
    ensures made { AreTerms terms.now }
{
    match (follow, terms.node(id)) {
        (Follow::Parts, Node::Op(_, parts)) => parts,
        (Follow::Conjuncts, Node::Op(Op::And, parts)) if terms.width(id) == 1 => parts,
        _ => Parts::Zero,
    }
}

/// Marks up to three terms.
fn mark_parts(marks: &mut Vec<bool>, parts: Parts)
    requires { All (λ id. id.0 < length marks.old.items) (listed parts) }
    ensures { marks.new.items ≡ marked marks.old.items (listed parts) }
{
    match parts {
        Parts::Zero => {}
        Parts::One(a) => marks[a.0 as usize] = true,
        Parts::Two(a, b) => {
            marks[a.0 as usize] = true;
            marks[b.0 as usize] = true;
        }
        Parts::Three(c, a, b) => {
            marks[c.0 as usize] = true;
            marks[a.0 as usize] = true;
            marks[b.0 as usize] = true;
        }
    }
}

/// Marks where one goes on to from a term, if that is marked.
fn mark_next(terms: &Terms, follow: Follow, id: TermId, marks: &mut Vec<bool>)
    requires stands { Stands terms.now id }
    requires long { length marks.old.items ≡ length terms.now }
    ensures made { AreTerms terms.now }
    ensures marks { marks.new.items ≡ (if is_marked marks.old.items id then marked marks.old.items (followed follow terms.now id) else marks.old.items) }
{
    let parts = next(terms, follow, id);
    if marks[id.0 as usize] {
        mark_parts(marks, parts);
    }
}

/// Marks on some terms alone.
fn starts(alloc: Global, terms: &Terms, from: &[TermId]) -> Result<Vec<bool>, AllocError>
    requires { All (Stands terms.now) from.now }
    ensures { IfOk result (λ marks. AreStarts terms.now from.now marks.items) }
{
    let mut marks = vec![in alloc; false; terms.len() as usize]?;
    for id in from {
        marks[id.0 as usize] = true;
    }
    Ok(marks)
}

/// Marks on all terms to which one goes on from some, by the terms' numbers.
pub(crate) fn mark(
    alloc: Global,
    terms: &Terms,
    follow: Follow,
    from: &[TermId],
) -> Result<Vec<bool>, AllocError>
    requires { All (Stands terms.now) from.now }
    ensures marks { IfOk result (λ marks. AreMarks follow terms.now from.now 0 marks.items) }
    ensures made { OnOk result (AreTerms terms.now) }
{
    let mut marks = starts(alloc, terms, from)?;
    let count = terms.len();
    for done in 0..count {
        mark_next(terms, follow, TermId(count - 1 - done), &mut marks);
    }
    Ok(marks)
}
