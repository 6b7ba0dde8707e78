//! Facts as clauses.

ghost use Rattle.std.specs.Prelude.{◌≡◌, ◌<◌, ◌≤◌, length, sum_by, All, IfOk, IfErr};
ghost use Rattle.vg_term.specs.Terms.{Stands, width_at};
ghost use Rattle.vg_blast.specs.declared.stops.BlastStop.TheVariants as stops;
ghost use Rattle.vg_blast.specs.Cost.{cost};
ghost use Rattle.vg_blast.specs.Blasting.{IsBlasted};

use crate::marking::{Follow, mark};
use crate::stops::BlastStop;
use crate::terms::Circuit;
use std::alloc::Global;
use vg_cnf::{Clauses, Lit};
use vg_term::{TermId, Terms};

/// Facts as clauses, and which literals stand for the bits of the variables.
#[derive(Drop)]
pub struct Blasted {
    /// The clauses. They have a model exactly where some assignment makes every fact true.
    pub clauses: Clauses,
    /// For each bit of each variable under the facts: the variable's term, the bit's number, counted from the lowest, and the literal that says that
    /// the bit is 1.
    pub bits: Vec<(TermId, u8, Lit)>,
}

/// Clauses that have a model exactly where some assignment makes every fact true. A fact is a term of width 1, and it is true where its value is 1.
/// A conjunction among the facts, an `and` of width 1, is asserted part by part. A disjunction, an `or` of width 1 or the negation of an `and`, is asserted by
/// one clause of the literals of its parts, of which those that are disjunctions are taken apart too as long as the clause has fewer than 128 literals.
///
/// `BlastStop::Clauses` comes where more than `MOST_LITERALS` literals are needed, counted as they stand in the clauses. It comes only where the facts cost
/// more than that number: 1 for each fact, and for each term under them, counted once, 400 * w * w for a product, a quotient or a remainder, 4000 * w for a
/// shift, and 400 * w for any other, where w is the greatest width of the term and its parts. `BlastStop::Memory` comes where memory ran out.
pub fn blast(alloc: Global, terms: &Terms, facts: &[TermId]) -> Result<Blasted, BlastStop>
    requires stand { All (Stands terms.now) facts.now }
    requires flags { All (λ fact. width_at terms.now fact ≡ 1) facts.now }
    ensures blasted { IfOk result (λ b. IsBlasted terms.now facts.now b.clauses b.bits.items) }
    ensures most { IfOk result (λ b. sum_by length b.clauses.clauses ≤ 16777216) }
    ensures refused { IfErr result (λ e. e ≡ stops.Clauses → 16777216 < cost terms.now facts.now) }
{
    let marks = mark(alloc, terms, Follow::Parts, facts)?;
    let asserted = mark(alloc, terms, Follow::Conjuncts, facts)?;
    let mut circuit = Circuit::of_terms(alloc, terms, &marks)?;
    circuit.require_all(alloc, terms, &marks, &asserted)?;
    Ok(finished(circuit))
}

/// The clauses and the names alone.
fn finished(circuit: Circuit) -> Blasted
    ensures clauses { result.clauses ≡ circuit.gates }
    ensures names { result.bits.items ≡ circuit.names.items }
{
    let Circuit { gates, names, .. } = circuit;
    Blasted {
        clauses: gates.into_clauses(),
        bits: names,
    }
}
