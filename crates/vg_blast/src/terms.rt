// The literals of terms, one term after another.

ghost use Rattle.std.specs.Prelude.{◌≡◌, ◌+◌, ◌<◌, ◌≤◌, ◌++◌, ◌∷◌, [], pos, true, length, All, IfOk, IfErr, OnOk};
ghost use Rattle.vg_term.specs.Terms.{Stands, listed};
ghost use Rattle.vg_term.specs.declared.node.TermId.{TermId as Id};
ghost use Rattle.vg_blast.specs.declared.stops.BlastStop.TheVariants as stops;
ghost use Rattle.vg_blast.specs.Circuits.{IsNet, literals};
ghost use Rattle.vg_blast.specs.Cost.{parts_at};
ghost use Rattle.vg_blast.specs.Marking.{is_marked};
ghost use Rattle.vg_blast.specs.State.{AddsOperation, AreReady, IsState, MakesOperation, added_to, new_literals, new_names};

use crate::gates::Gates;
use crate::operation::{of_one, of_three, of_two, without_parts};
use crate::stops::BlastStop;
use std::alloc::{AllocError, Global};
use vg_cnf::{Lit, LiteralLists};
use vg_term::{Node, Op, Parts, TermId, Terms};

/// How many literals the clauses may have, counted as they stand.
pub const MOST_LITERALS: usize = 16_777_216;

/// A new literal for a bit of a variable, noted as such.
fn input_bit(
    gates: &mut Gates,
    names: &mut Vec<(TermId, u8, Lit)>,
    id: TermId,
    at: u8,
) -> Result<Lit, AllocError>
    ensures gates { OnOk result (gates.new ≡ record gates.old { variables = gates.old.variables + 1 }) }
    ensures literal { IfOk result (λ l. l ≡ pos gates.new.variables) }
    ensures names { IfOk result (λ l. names.new.items ≡ names.old.items ++ (id, at, l) ∷ []) }
{
    let literal = gates.fresh()?;
    names.push((id, at, literal))?;
    Ok(literal)
}

/// New literals for the bits of a variable, noted as such.
fn input(
    alloc: Global,
    gates: &mut Gates,
    names: &mut Vec<(TermId, u8, Lit)>,
    id: TermId,
    width: u8,
) -> Result<Vec<Lit>, AllocError>
    ensures gates { IfOk result (λ out. gates.new ≡ record gates.old { variables = gates.old.variables + width }) }
    ensures names { IfOk result (λ out. names.new.items ≡ names.old.items ++ new_names id gates.old.variables width) }
    ensures literals { IfOk result (λ out. out.items ≡ new_literals gates.old.variables width) }
{
    let mut word = Vec::new(alloc);
    for at in 0..width {
        let literal = input_bit(gates, names, id, at)?;
        word.push(literal)?;
    }
    Ok(word)
}

/// The literals of an operation on parts that have theirs.
fn operation(
    alloc: Global,
    gates: &mut Gates,
    lists: &LiteralLists,
    op: Op,
    parts: Parts,
) -> Result<Vec<Lit>, AllocError>
    requires { AreReady gates.old lists.now op (listed parts) }
    ensures { IfOk result (λ out. MakesOperation gates.old gates.new lists.now op (listed parts) out.items) }
{
    match parts {
        Parts::Zero => without_parts(alloc, gates, op),
        Parts::One(a) => of_one(alloc, gates, op, lists.get(a.0 as usize)),
        Parts::Two(a, b) => {
            let left = lists.get(a.0 as usize);
            let right = lists.get(b.0 as usize);
            of_two(alloc, gates, op, left, right)
        }
        Parts::Three(c, a, b) => {
            let condition = lists.get(c.0 as usize);
            let left = lists.get(a.0 as usize);
            let right = lists.get(b.0 as usize);
            of_three(alloc, gates, op, condition, left, right)
        }
    }
}

/// Clauses for the terms up to some number, the literals of those that are marked, and the names of the variables' bits.
#[derive(Drop)]
pub(crate) struct Circuit {
    pub gates: Gates,
    pub lists: LiteralLists,
    pub names: Vec<(TermId, u8, Lit)>,
}

impl Circuit {
    /// For no terms.
    pub fn new(alloc: Global) -> Result<Self, AllocError>
        ensures gates { IfOk result (λ c. c.gates ≡ record { variables = 1; clauses = (pos 1 ∷ []) ∷ [] }) }
        ensures lists { IfOk result (λ c. c.lists ≡ []) }
        ensures names { IfOk result (λ c. c.names.items ≡ []) }
    {
        let gates = Gates::new(alloc)?;
        Ok(Circuit {
            gates,
            lists: LiteralLists::new(alloc),
            names: Vec::new(alloc),
        })
    }

    /// For one more term, a variable.
    fn add_variable(&mut self, alloc: Global, id: TermId, width: u8) -> Result<(), AllocError>
        ensures net { IsNet self.old.gates }
        ensures gates { OnOk result (self.new.gates ≡ record self.old.gates { variables = self.old.gates.variables + width }) }
        ensures names { OnOk result (self.new.names.items ≡ self.old.names.items ++ new_names id self.old.gates.variables width) }
        ensures lists { OnOk result (self.new.lists ≡ self.old.lists ++ new_literals self.old.gates.variables width ∷ []) }
    {
        let _ = self.gates.truth();
        let word = input(alloc, &mut self.gates, &mut self.names, id, width)?;
        self.lists.push(&word)
    }

    /// For one more term, an operation.
    fn add_operation(&mut self, alloc: Global, op: Op, parts: Parts) -> Result<(), AllocError>
        requires { AreReady self.old.gates self.old.lists op (listed parts) }
        ensures word { OnOk result (AddsOperation self.old.gates self.new.gates self.old.lists self.new.lists op (listed parts)) }
        ensures names { OnOk result (self.new.names.items ≡ self.old.names.items) }
    {
        let word = operation(alloc, &mut self.gates, &self.lists, op, parts)?;
        self.lists.push(&word)
    }

    /// For one more term, which has literals if it is marked.
    fn add_term(
        &mut self,
        alloc: Global,
        terms: &Terms,
        marks: &[bool],
        id: TermId,
    ) -> Result<(), AllocError>
        requires stands { Stands terms.now id }
        requires long { length marks.now ≡ length terms.now }
        requires closed { is_marked marks.now id ≡ true → All (λ part. is_marked marks.now part ≡ true) (parts_at terms.now id) }
        requires state { IsState terms.now marks.now id.0 self.old.gates self.old.lists self.old.names.items }
        ensures { OnOk result (IsState terms.now marks.now (id.0 + 1) self.new.gates self.new.lists self.new.names.items) }
    {
        if !marks[id.0 as usize] {
            return self.lists.push(&[]);
        }
        match terms.node(id) {
            Node::Var { width, .. } => self.add_variable(alloc, id, width),
            Node::Op(op, parts) => self.add_operation(alloc, op, parts),
        }
    }

    /// For all terms, of which the marked ones have literals.
    pub fn of_terms(alloc: Global, terms: &Terms, marks: &[bool]) -> Result<Self, BlastStop>
        requires long { length marks.now ≡ length terms.now }
        requires closed { (id : Id) → is_marked marks.now id ≡ true → All (λ part. is_marked marks.now part ≡ true) (parts_at terms.now id) }
        ensures state { IfOk result (λ c. IsState terms.now marks.now (length terms.now) c.gates c.lists c.names.items) }
        ensures most { IfOk result (λ c. literals c.gates ≤ 16777216) }
        ensures refused { IfErr result (λ e. e ≡ stops.Clauses → 16777216 < 1 + added_to terms.now marks.now (length terms.now)) }
    {
        let mut circuit = Circuit::new(alloc)?;
        for at in 0..terms.len() {
            circuit.add_term(alloc, terms, marks, TermId(at))?;
            if circuit.gates.literal_count() > MOST_LITERALS {
                return Err(BlastStop::Clauses);
            }
        }
        Ok(circuit)
    }
}
