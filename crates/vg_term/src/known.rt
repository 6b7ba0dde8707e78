//! Operations that are one of their parts, or a word, whatever the variables are.

ghost use Rattle.std.specs.Prelude.{◌≡◌, ◌<◌, ◌≤◌, [], ◌∷◌, IfSome, IsTrue};
ghost use Rattle.vg_term.specs.Operations.{FitsOne, FitsThree};
ghost use Rattle.vg_term.specs.Terms.{AreTerms, Stands, width_at};
ghost use Rattle.vg_term.specs.Rules.{AreOpposite, Places, width_alike};
ghost use Rattle.vg_term.specs.Folding.{IsKnown, StandsFor};
ghost use Rattle.vg_term.specs.declared.node.Op.TheVariants as ops;

use crate::node::{Node, Op, Parts, TermId};
use crate::rules::{self, Simple};
use crate::terms::Terms;
use vg_bits::Word;

/// A simpler form of an operation.
#[derive(Clone, Copy, PartialEq, Eq, Debug)]
pub(crate) enum Known {
    /// A term that stands.
    Standing(TermId),
    /// The same word under each assignment.
    Constant(Word),
}

fn width_of_alike(op: Op, width: u8) -> u8
    requires some { 0 < width }
    requires most { width ≤ 64 }
    ensures width { result ≡ width_alike op width }
    ensures some { 0 < result }
    ensures most { result ≤ 64 }
{
    match op {
        Op::Eq | Op::Ult | Op::Slt => 1,
        _ => width,
    }
}

impl Terms {
    /// An operation on two parts of one width.
    pub(crate) fn known_of_two(&self, op: Op, a: TermId, b: TermId) -> Option<Known>
        requires first { Stands self.now a }
        requires second { Stands self.now b }
        ensures { IfSome result (IsKnown self.now op (a ∷ b ∷ [])) }
    {
        if self.width(a) != self.width(b) {
            return None;
        }
        if let Some(known) = self.known_of_equal(op, a, b) {
            return Some(known);
        }
        if let Some(known) = self.known_of_opposite(op, a, b) {
            return Some(known);
        }
        if let Some(known) = self.known_before_constant(op, a, b) {
            return Some(known);
        }
        self.known_after_constant(op, a, b)
    }

    // A simple answer beside this part.
    fn placed(&self, op: Op, simple: Simple, part: TermId) -> Known
        requires { Stands self.now part }
        ensures made { AreTerms self.now }
        ensures places { Places self.now op simple part result }
    {
        let width = width_of_alike(op, self.width(part));
        match simple {
            Simple::Part => Known::Standing(part),
            Simple::Zero => Known::Constant(Word::zero(width)),
            Simple::One => Known::Constant(Word::one(width)),
            Simple::Ones => Known::Constant(Word::all_ones(width)),
        }
    }

    fn known_of_equal(&self, op: Op, a: TermId, b: TermId) -> Option<Known>
        requires first { Stands self.now a }
        requires second { Stands self.now b }
        ensures { IfSome result (IsKnown self.now op (a ∷ b ∷ [])) }
    {
        if a.0 != b.0 {
            return None;
        }
        let simple = rules::on_equal(op)?;
        Some(self.placed(op, simple, a))
    }

    fn known_of_opposite(&self, op: Op, a: TermId, b: TermId) -> Option<Known>
        requires first { Stands self.now a }
        requires second { Stands self.now b }
        requires alike { width_at self.now a ≡ width_at self.now b }
        ensures { IfSome result (IsKnown self.now op (a ∷ b ∷ [])) }
    {
        if !self.are_opposite(a, b) {
            return None;
        }
        let simple = rules::on_opposite(op)?;
        Some(self.placed(op, simple, a))
    }

    fn known_before_constant(&self, op: Op, a: TermId, b: TermId) -> Option<Known>
        requires first { Stands self.now a }
        requires second { Stands self.now b }
        requires alike { width_at self.now a ≡ width_at self.now b }
        ensures { IfSome result (IsKnown self.now op (a ∷ b ∷ [])) }
    {
        let word = self.constant(b)?;
        if word.value == 0 {
            let simple = rules::before_zero(op)?;
            return Some(self.placed(op, simple, a));
        }
        if word.value == Word::all_ones(word.width).value {
            if let Some(simple) = rules::before_ones(op) {
                return Some(self.placed(op, simple, a));
            }
        }
        if word.value == 1 {
            let simple = rules::before_one(op)?;
            return Some(self.placed(op, simple, a));
        }
        None
    }

    fn known_after_constant(&self, op: Op, a: TermId, b: TermId) -> Option<Known>
        requires first { Stands self.now a }
        requires second { Stands self.now b }
        requires alike { width_at self.now a ≡ width_at self.now b }
        ensures { IfSome result (IsKnown self.now op (a ∷ b ∷ [])) }
    {
        let word = self.constant(a)?;
        if word.value == 0 {
            let simple = rules::after_zero(op)?;
            return Some(self.placed(op, simple, b));
        }
        if word.value == Word::all_ones(word.width).value {
            if let Some(simple) = rules::after_ones(op) {
                return Some(self.placed(op, simple, b));
            }
        }
        if word.value == 1 {
            let simple = rules::after_one(op)?;
            return Some(self.placed(op, simple, b));
        }
        None
    }

    // Whether one is made as the other with each bit turned.
    fn are_opposite(&self, a: TermId, b: TermId) -> bool
        requires first { Stands self.now a }
        requires second { Stands self.now b }
        ensures { IsTrue result → AreOpposite self.now a b }
    {
        if self.is_not_of(a, b) {
            return true;
        }
        self.is_not_of(b, a)
    }

    // Whether the first is made as the second with each bit turned.
    fn is_not_of(&self, a: TermId, b: TermId) -> bool
        requires first { Stands self.now a }
        requires second { Stands self.now b }
        ensures { IsTrue result → AreOpposite self.now a b }
    {
        match self.node(a) {
            Node::Op(Op::Not, Parts::One(part)) => part.0 == b.0,
            _ => false,
        }
    }

    /// An operation on one part.
    pub(crate) fn known_of_one(&self, op: Op, a: TermId) -> Option<Known>
        requires stands { Stands self.now a }
        requires fits { FitsOne op (width_at self.now a) }
        ensures { IfSome result (IsKnown self.now op (a ∷ [])) }
    {
        match op {
            Op::Not => Some(Known::Standing(self.turned(a)?)),
            _ => None,
        }
    }

    // The term of which this one has each bit turned.
    fn turned(&self, a: TermId) -> Option<TermId>
        requires { Stands self.now a }
        ensures { IfSome result (λ part. StandsFor self.now part ops.Not (a ∷ [])) }
    {
        match self.node(a) {
            Node::Op(Op::Not, Parts::One(part)) => Some(part),
            _ => None,
        }
    }

    /// A choice.
    pub(crate) fn known_of_three(
        &self,
        op: Op,
        condition: TermId,
        a: TermId,
        b: TermId,
    ) -> Option<Known>
        requires condition { Stands self.now condition }
        requires first { Stands self.now a }
        requires second { Stands self.now b }
        requires fits { FitsThree op (width_at self.now condition) (width_at self.now a) (width_at self.now b) }
        ensures { IfSome result (IsKnown self.now op (condition ∷ a ∷ b ∷ [])) }
    {
        if a.0 == b.0 {
            return Some(Known::Standing(a));
        }
        if let Some(word) = self.constant(condition) {
            return Some(Known::Standing(if word.value == 1 { a } else { b }));
        }
        let one = self.constant(a)?;
        let zero = self.constant(b)?;
        if self.width(a) == 1 && one.value == 1 && zero.value == 0 {
            return Some(Known::Standing(condition));
        }
        None
    }
}
