//! Bits that are cut from a term, or from the parts of its operation where these tell them.

ghost use Rattle.std.specs.Prelude.{◌≡◌, ◌<◌, ◌≤◌, ◌+◌, [], ◌∷◌, slice_get, Some, IsTrue};
ghost use Rattle.vg_term.specs.Terms.{AreTerms, Stands, width_at};
ghost use Rattle.vg_term.specs.Folding.{Builds};
ghost use Rattle.vg_term.specs.Narrowing.{CutsFrom, IsArithmetic};
ghost use Rattle.vg_term.specs.Wiring.{IsBitOp};
ghost use Rattle.vg_term.specs.Spending.{IsFull, Spends};
ghost use Rattle.vg_term.specs.declared.node.Op.TheVariants as ops;
ghost use Rattle.vg_term.specs.declared.node.Node.TheVariants as nodes;
ghost use Rattle.vg_term.specs.declared.node.Parts.TheVariants as held;

use crate::node::{Node, Op, Parts, TermId};
use crate::stops::TermStop;
use crate::terms::Terms;

/// How many operations may be cut while one term is built. Without a bound, a part would be cut once for each way down to it, which takes time
/// exponential in the depth.
pub(crate) const MOST_CUTS: u8 = 64;

fn is_bitwise(op: Op) -> bool
    ensures { IsTrue result → IsBitOp op }
{
    match op {
        Op::And | Op::Or | Op::Xor => true,
        _ => false,
    }
}

fn is_arithmetic(op: Op) -> bool
    ensures { IsTrue result → IsArithmetic op }
{
    match op {
        Op::Add | Op::Sub | Op::Mul => true,
        _ => false,
    }
}

impl Terms {
    /// `width` bits of a term from place `from` on, rebuilt from their wires.
    #[cycle(cutting)]
    pub(crate) fn slice(
        &mut self,
        term: TermId,
        from: u8,
        width: u8,
        cuts: &mut u8,
    ) -> Result<TermId, TermStop>
        requires made { AreTerms self.old }
        requires stands { Stands self.old term }
        requires some { 0 < width }
        requires within { from + width ≤ width_at self.old term }
        ensures builds { Builds self.old self.new (ops.Extract from width) (term ∷ []) result }
        ensures spends { Spends self.old self.new cuts.old cuts.new 128 }
        ensures full { IsFull self.new result }
    {
        let cut = Op::Extract { from, width };
        match self.wires(cut, Parts::One(term), width) {
            Some(wires) => self.rebuild(&wires, width, cuts),
            None => self.make(cut, &[term]),
        }
    }

    /// `width` bits of a term from place `from` on, cut from the parts of its operation where these tell them.
    #[cycle(cutting)]
    pub(crate) fn cut_from(
        &mut self,
        term: TermId,
        from: u8,
        width: u8,
        cuts: &mut u8,
    ) -> Result<TermId, TermStop>
        requires made { AreTerms self.old }
        requires stands { Stands self.old term }
        requires some { 0 < width }
        requires within { from + width ≤ width_at self.old term }
        ensures builds { Builds self.old self.new (ops.Extract from width) (term ∷ []) result }
        ensures spends { Spends self.old self.new cuts.old cuts.new 1 }
        ensures full { IsFull self.new result }
    {
        match self.node(term) {
            Node::Op(op, parts) if *cuts > 0 => {
                *cuts -= 1;
                self.cut_operation(term, op, parts, from, width, cuts)
            }
            _ => self.make(Op::Extract { from, width }, &[term]),
        }
    }

    // The same for a term of this operation on these parts.
    #[cycle(cutting)]
    fn cut_operation(
        &mut self,
        term: TermId,
        op: Op,
        parts: Parts,
        from: u8,
        width: u8,
        cuts: &mut u8,
    ) -> Result<TermId, TermStop>
        requires made { AreTerms self.old }
        requires node { slice_get self.old term.0 ≡ Some (nodes.Op op parts, width_at self.old term) }
        requires some { 0 < width }
        requires within { from + width ≤ width_at self.old term }
        ensures builds { Builds self.old self.new (ops.Extract from width) (term ∷ []) result }
        ensures spends { Spends self.old self.new cuts.old cuts.new 512 }
        ensures full { IsFull self.new result }
    {
        match parts {
            Parts::Zero => self.make(Op::Extract { from, width }, &[term]),
            Parts::One(a) => self.cut_of_one(term, op, a, from, width, cuts),
            Parts::Two(a, b) => self.cut_of_two(term, op, a, b, from, width, cuts),
            Parts::Three(condition, a, b) => {
                self.cut_of_three(term, op, condition, a, b, from, width, cuts)
            }
        }
    }

    // Of a `not`, or of an extension with the sign, whose lowest bits are its part's.
    #[cycle(cutting)]
    fn cut_of_one(
        &mut self,
        term: TermId,
        op: Op,
        a: TermId,
        from: u8,
        width: u8,
        cuts: &mut u8,
    ) -> Result<TermId, TermStop>
        requires made { AreTerms self.old }
        requires node { slice_get self.old term.0 ≡ Some (nodes.Op op (held.One a), width_at self.old term) }
        requires some { 0 < width }
        requires within { from + width ≤ width_at self.old term }
        ensures builds { Builds self.old self.new (ops.Extract from width) (term ∷ []) result }
        ensures spends { Spends self.old self.new cuts.old cuts.new 512 }
        ensures full { IsFull self.new result }
    {
        match op {
            Op::Not => {
                let part = self.slice(a, from, width, cuts)?;
                self.wired(Op::Not, &[part], cuts)
            }
            Op::Sext(_) => {
                if from + width <= self.width(a) {
                    return self.slice(a, from, width, cuts);
                }
                if from == 0 {
                    return self.wired(Op::Sext(width), &[a], cuts);
                }
                self.make(Op::Extract { from, width }, &[term])
            }
            _ => self.make(Op::Extract { from, width }, &[term]),
        }
    }

    // Of an operation on bits, or of a sum, a difference or a product, whose lowest bits come from the lowest ones of its parts.
    #[cycle(cutting)]
    fn cut_of_two(
        &mut self,
        term: TermId,
        op: Op,
        a: TermId,
        b: TermId,
        from: u8,
        width: u8,
        cuts: &mut u8,
    ) -> Result<TermId, TermStop>
        requires made { AreTerms self.old }
        requires node { slice_get self.old term.0 ≡ Some (nodes.Op op (held.Two a b), width_at self.old term) }
        requires some { 0 < width }
        requires within { from + width ≤ width_at self.old term }
        ensures builds { Builds self.old self.new (ops.Extract from width) (term ∷ []) result }
        ensures spends { Spends self.old self.new cuts.old cuts.new 512 }
        ensures full { IsFull self.new result }
    {
        if is_bitwise(op) {
            return self.cut_parts(term, op, a, b, from, width, cuts);
        }
        if is_arithmetic(op) && from + width < self.width(term) {
            let low = self.cut_parts(term, op, a, b, 0, from + width, cuts)?;
            return self.slice(low, from, width, cuts);
        }
        self.make(Op::Extract { from, width }, &[term])
    }

    // Of a choice.
    #[cycle(cutting)]
    fn cut_of_three(
        &mut self,
        term: TermId,
        op: Op,
        condition: TermId,
        a: TermId,
        b: TermId,
        from: u8,
        width: u8,
        cuts: &mut u8,
    ) -> Result<TermId, TermStop>
        requires made { AreTerms self.old }
        requires node { slice_get self.old term.0 ≡ Some (nodes.Op op (held.Three condition a b), width_at self.old term) }
        requires some { 0 < width }
        requires within { from + width ≤ width_at self.old term }
        ensures builds { Builds self.old self.new (ops.Extract from width) (term ∷ []) result }
        ensures spends { Spends self.old self.new cuts.old cuts.new 512 }
        ensures full { IsFull self.new result }
    {
        match op {
            Op::Ite => {
                let one = self.slice(a, from, width, cuts)?;
                let zero = self.slice(b, from, width, cuts)?;
                self.wired(Op::Ite, &[condition, one, zero], cuts)
            }
            _ => self.make(Op::Extract { from, width }, &[term]),
        }
    }

    // Of an operation on two parts of which these bits tell those of the answer.
    #[cycle(cutting)]
    fn cut_parts(
        &mut self,
        term: TermId,
        op: Op,
        a: TermId,
        b: TermId,
        from: u8,
        width: u8,
        cuts: &mut u8,
    ) -> Result<TermId, TermStop>
        requires made { AreTerms self.old }
        requires node { slice_get self.old term.0 ≡ Some (nodes.Op op (held.Two a b), width_at self.old term) }
        requires cuts { CutsFrom op from }
        requires some { 0 < width }
        requires within { from + width ≤ width_at self.old term }
        ensures builds { Builds self.old self.new (ops.Extract from width) (term ∷ []) result }
        ensures spends { Spends self.old self.new cuts.old cuts.new 384 }
        ensures full { IsFull self.new result }
    {
        let left = self.slice(a, from, width, cuts)?;
        let right = self.slice(b, from, width, cuts)?;
        self.wired(op, &[left, right], cuts)
    }
}
