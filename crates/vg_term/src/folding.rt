//! Constructors that fold: the answered term may be a simpler one of the same value.

ghost use Rattle.std.specs.Prelude.{◌≡◌, ◌≤◌, ◌+◌, None, length, map, All, IfOk, IfSome};
ghost use Rattle.vg_term.specs.Operations.{Fits};
ghost use Rattle.vg_term.specs.Terms.{AreTerms, IsConstant, Stands, constant_at, width_at};
ghost use Rattle.vg_term.specs.Folding.{Builds, Folds, IsAnswer, IsFolded, IsKnown, IsWord};
ghost use Rattle.vg_term.specs.Spending.{IsFull, NeedsPlaces, Spends};

use crate::applying::apply;
use crate::comparing::is_comparison;
use crate::cutting::MOST_CUTS;
use crate::known::Known;
use crate::node::{Node, Op, Parts, TermId};
use crate::stops::TermStop;
use crate::terms::Terms;
use vg_bits::Word;

impl Terms {
    /// The word of a term that is a constant.
    pub fn constant(&self, term: TermId) -> Option<Word>
        requires { Stands self.now term }
        ensures constant { result ≡ constant_at self.now term }
        ensures word { IfSome result (λ w. IsWord self.now term w) }
    {
        match self.node(term) {
            Node::Op(op, _) => match op {
                Op::Const(word) => Some(word),
                _ => None,
            },
            Node::Var { .. } => None,
        }
    }

    /// A term for an operation on parts that fit it, of the same value under every assignment. It is a simpler one where the parts are constants,
    /// equal, opposite, or neutral; on constants it is the constant of what the operation answers. It may need more terms than one: `Full` comes only
    /// where fewer than 65,536 of `MOST_TERMS` are left.
    pub fn build(&mut self, op: Op, parts: &[TermId]) -> Result<TermId, TermStop>
        requires parts_stand { All (Stands self.old) parts.now }
        requires fits { Fits op (map (width_at self.old) parts.now) }
        ensures made { AreTerms self.new }
        ensures folds { Folds self.old self.new op parts.now result }
        ensures full { NeedsPlaces self.old result }
        ensures folded { All (IsConstant self.old) parts.now → IfOk result (λ id. IsFolded self.old self.new op parts.now id) }
    {
        let mark = self.mark();
        match self.folded(op, parts) {
            Ok(term) => Ok(term),
            Err(stop) => {
                self.forget(mark);
                Err(stop)
            }
        }
    }

    // The same, but a refusal may leave terms that were needed on the way.
    fn folded(&mut self, op: Op, parts: &[TermId]) -> Result<TermId, TermStop>
        requires made { AreTerms self.old }
        requires parts_stand { All (Stands self.old) parts.now }
        requires fits { Fits op (map (width_at self.old) parts.now) }
        ensures builds { Builds self.old self.new op parts.now result }
        ensures few { length self.new ≤ length self.old + 33026 }
        ensures full { IsFull self.new result }
        ensures folded { All (IsConstant self.old) parts.now → IfOk result (λ id. IsFolded self.old self.new op parts.now id) }
    {
        if let Some(word) = self.answer_on_constants(op, parts) {
            return self.make(Op::Const(word), &[]);
        }
        let mut cuts = MOST_CUTS;
        match parts {
            [a, b] if is_comparison(op) => self.compared(op, *a, *b, &mut cuts),
            _ => self.wired(op, parts, &mut cuts),
        }
    }

    /// The operation by the rules of one operation alone. A refusal may leave terms that were needed on the way.
    pub(crate) fn simple(&mut self, op: Op, parts: &[TermId]) -> Result<TermId, TermStop>
        requires made { AreTerms self.old }
        requires parts_stand { All (Stands self.old) parts.now }
        requires fits { Fits op (map (width_at self.old) parts.now) }
        ensures builds { Builds self.old self.new op parts.now result }
        ensures few { length self.new ≤ length self.old + 1 }
        ensures full { IsFull self.new result }
    {
        match self.known(op, parts) {
            Some(Known::Standing(term)) => Ok(term),
            Some(Known::Constant(word)) => self.make(Op::Const(word), &[]),
            None => self.make(op, parts),
        }
    }

    /// The operation rebuilt from its wires, where it is wiring, and else as it is.
    #[cycle(cutting)]
    pub(crate) fn wired(
        &mut self,
        op: Op,
        parts: &[TermId],
        cuts: &mut u8,
    ) -> Result<TermId, TermStop>
        requires made { AreTerms self.old }
        requires parts_stand { All (Stands self.old) parts.now }
        requires fits { Fits op (map (width_at self.old) parts.now) }
        ensures builds { Builds self.old self.new op parts.now result }
        ensures spends { Spends self.old self.new cuts.old cuts.new 128 }
        ensures full { IsFull self.new result }
    {
        let held = Parts::new(parts);
        let same = self.as_wiring(op, held);
        let width = self.answer_width(same, held);
        match self.wires(same, held, width) {
            Some(wires) => self.rebuild(&wires, width, cuts),
            None => self.simple(op, parts),
        }
    }

    // The operation as a term that stands or a word, where a rule says so.
    fn known(&self, op: Op, parts: &[TermId]) -> Option<Known>
        requires parts_stand { All (Stands self.now) parts.now }
        requires fits { Fits op (map (width_at self.now) parts.now) }
        ensures { IfSome result (IsKnown self.now op parts.now) }
    {
        if let Some(word) = self.answer_on_constants(op, parts) {
            return Some(Known::Constant(word));
        }
        match Parts::new(parts) {
            Parts::Zero => None,
            Parts::One(a) => self.known_of_one(op, a),
            Parts::Two(a, b) => self.known_of_two(op, a, b),
            Parts::Three(c, a, b) => self.known_of_three(op, c, a, b),
        }
    }

    // What the operation answers, where all its parts are constants.
    fn answer_on_constants(&self, op: Op, parts: &[TermId]) -> Option<Word>
        requires parts_stand { All (Stands self.now) parts.now }
        requires fits { Fits op (map (width_at self.now) parts.now) }
        ensures answer { IfSome result (λ w. IsAnswer self.now op parts.now w) }
        ensures all { result ≡ None → All (IsConstant self.now) parts.now → ⊥ }
    {
        match Parts::new(parts) {
            Parts::Zero => Some(apply(op, &[])),
            Parts::One(a) => {
                let word = self.constant(a)?;
                Some(apply(op, &[word]))
            }
            Parts::Two(a, b) => {
                let left = self.constant(a)?;
                let right = self.constant(b)?;
                Some(apply(op, &[left, right]))
            }
            Parts::Three(c, a, b) => {
                let condition = self.constant(c)?;
                let left = self.constant(a)?;
                let right = self.constant(b)?;
                Some(apply(op, &[condition, left, right]))
            }
        }
    }
}
