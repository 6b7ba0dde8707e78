// A disjunction as the list of its parts.

ghost use Rattle.std.specs.Prelude.{◌≡◌, IfOk};
ghost use Rattle.vg_term.specs.Terms.{AreTerms, Stands};
ghost use Rattle.vg_blast.specs.Disjuncts.{AreDisjuncts, part_of, sides_of};

use std::alloc::{AllocError, Global};
use vg_term::{Node, Op, Parts, TermId, Terms};

/// The most parts into which a disjunction is taken apart.
const MOST_PARTS: usize = 128;

/// A term of width 1, or its negation.
#[derive(Clone, Copy, PartialEq, Eq, Debug)]
pub(crate) struct Part {
    pub term: TermId,
    pub negated: bool,
}

/// A term, or its negation: where it is a `not`, the term under that with the other sign.
fn as_part(terms: &Terms, negated: bool, id: TermId) -> Part
    requires { Stands terms.now id }
    ensures part { result ≡ part_of terms.now negated id }
    ensures made { AreTerms terms.now }
{
    match terms.node(id) {
        Node::Op(Op::Not, Parts::One(a)) => Part {
            term: a,
            negated: !negated,
        },
        _ => Part { term: id, negated },
    }
}

/// The two terms of a disjunction: an `or` of width 1, and under a negation an `and`, whose terms are to be negated too.
fn sides(terms: &Terms, part: Part) -> Option<(TermId, TermId)>
    requires { Stands terms.now part.term }
    ensures sides { result ≡ sides_of terms.now part }
    ensures made { AreTerms terms.now }
{
    let width = terms.width(part.term);
    match (part.negated, terms.node(part.term)) {
        (false, Node::Op(Op::Or, Parts::Two(a, b))) if width == 1 => Some((a, b)),
        (true, Node::Op(Op::And, Parts::Two(a, b))) if width == 1 => Some((a, b)),
        _ => None,
    }
}

/// The parts of a term as a disjunction, those that are disjunctions taken apart too; the term alone where it is none.
/// Where there are `MOST_PARTS` of them, the disjunctions among them are left whole.
pub(crate) fn disjuncts(alloc: Global, terms: &Terms, id: TermId) -> Result<Vec<Part>, AllocError>
    requires { Stands terms.now id }
    ensures { IfOk result (λ parts. AreDisjuncts terms.now id parts.items) }
{
    let mut parts = Vec::new(alloc);
    parts.push(as_part(terms, false, id))?;
    let mut at = 0;
    while at < parts.len() && parts.len() < MOST_PARTS {
        let whole = parts[at];
        match sides(terms, whole) {
            Some((a, b)) => {
                parts[at] = as_part(terms, whole.negated, a);
                parts.push(as_part(terms, whole.negated, b))?;
            }
            None => at += 1,
        }
    }
    Ok(parts)
}
