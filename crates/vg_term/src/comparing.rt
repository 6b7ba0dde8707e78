//! Comparisons in the narrowest width in which they are the same.

ghost use Rattle.std.specs.Prelude.{◌≡◌, ◌<◌, ◌≤◌, ◌+◌, [], ◌∷◌, length, Err, IfOk, IfSome, IsTrue};
ghost use Rattle.vg_term.specs.Terms.{AreTerms, Stands, width_at};
ghost use Rattle.vg_term.specs.Folding.{Builds};
ghost use Rattle.vg_term.specs.Narrowing.{AreNarrower, AreOff, IsComparison, IsExtended, IsExtendedWord, IsLess};
ghost use Rattle.vg_term.specs.Wiring.{Grown};
ghost use Rattle.vg_term.specs.declared.stops.TermStop.TheVariants as stops;
ghost use Rattle.vg_term.specs.Spending.{IsFull, Spends};

use crate::node::{Node, Op, Parts, TermId};
use crate::stops::TermStop;
use crate::terms::Terms;
use crate::wire::Wire;
use crate::wiring::is_off;
use vg_bits::Word;

// The width up to the highest wire that isn't fixed to 0, at least 1.
fn used(wires: &[Wire], width: u8) -> u8
    requires some { 0 < width }
    requires most { width ≤ 64 }
    requires long { width ≤ length wires.now }
    ensures some { 0 < result }
    ensures most { result ≤ width }
    ensures off { AreOff wires.now result width }
{
    let mut end = width;
    while end > 1 && is_off(wires[end as usize - 1]) {
        end -= 1;
    }
    end
}

/// Whether an operation compares two words.
pub(crate) fn is_comparison(op: Op) -> bool
    ensures { IsTrue result → IsComparison op }
{
    match op {
        Op::Eq | Op::Ult | Op::Slt => true,
        _ => false,
    }
}

impl Terms {
    /// A comparison of two parts of one width.
    pub(crate) fn compared(
        &mut self,
        op: Op,
        a: TermId,
        b: TermId,
        cuts: &mut u8,
    ) -> Result<TermId, TermStop>
        requires op { IsComparison op }
        requires made { AreTerms self.old }
        requires first { Stands self.old a }
        requires second { Stands self.old b }
        requires alike { width_at self.old a ≡ width_at self.old b }
        ensures builds { Builds self.old self.new op (a ∷ b ∷ []) result }
        ensures spends { Spends self.old self.new cuts.old cuts.new 258 }
        ensures full { IsFull self.new result }
    {
        let narrower = self.unextended(a, b)?;
        match narrower {
            Some((x, y)) => self.compared_bits(op, x, y, cuts),
            None => self.compared_bits(op, a, b, cuts),
        }
    }

    // The same by the wires of both.
    fn compared_bits(
        &mut self,
        op: Op,
        a: TermId,
        b: TermId,
        cuts: &mut u8,
    ) -> Result<TermId, TermStop>
        requires op { IsComparison op }
        requires made { AreTerms self.old }
        requires first { Stands self.old a }
        requires second { Stands self.old b }
        requires alike { width_at self.old a ≡ width_at self.old b }
        ensures builds { Builds self.old self.new op (a ∷ b ∷ []) result }
        ensures spends { Spends self.old self.new cuts.old cuts.new 257 }
        ensures full { IsFull self.new result }
    {
        match op {
            Op::Ult => self.less(Op::Ult, a, b, cuts),
            Op::Slt => self.less(Op::Slt, a, b, cuts),
            Op::Eq => self.equal(a, b, cuts),
            _ => self.simple(op, &[a, b]),
        }
    }

    // Whether the first of two parts is less. Where the highest bits of both are 0, it is so in the width of the others, read without sign.
    fn less(&mut self, op: Op, a: TermId, b: TermId, cuts: &mut u8) -> Result<TermId, TermStop>
        requires op { IsLess op }
        requires made { AreTerms self.old }
        requires first { Stands self.old a }
        requires second { Stands self.old b }
        requires alike { width_at self.old a ≡ width_at self.old b }
        ensures builds { Builds self.old self.new op (a ∷ b ∷ []) result }
        ensures spends { Spends self.old self.new cuts.old cuts.new 257 }
        ensures full { IsFull self.new result }
    {
        let width = self.width(a);
        let whole = Op::Extract { from: 0, width };
        let Some(left) = self.wires(whole, Parts::One(a), width) else {
            return self.simple(op, &[a, b]);
        };
        let Some(right) = self.wires(whole, Parts::One(b), width) else {
            return self.simple(op, &[a, b]);
        };
        let end = used(&left, width).max(used(&right, width));
        if end == width {
            return self.simple(op, &[a, b]);
        }
        let x = self.rebuild(&left, end, cuts)?;
        let y = self.rebuild(&right, end, cuts)?;
        self.simple(Op::Ult, &[x, y])
    }

    // Two terms of one width of which two others are the extensions with the sign.
    fn unextended(&mut self, a: TermId, b: TermId) -> Result<Option<(TermId, TermId)>, TermStop>
        requires made { AreTerms self.old }
        requires first { Stands self.old a }
        requires second { Stands self.old b }
        requires alike { width_at self.old a ≡ width_at self.old b }
        ensures grown { Grown self.old self.new }
        ensures few { length self.new ≤ length self.old + 1 }
        ensures full { result ≡ Err stops.Full → length self.new ≡ 4194304 }
        ensures narrower { IfOk result (λ pair. IfSome pair (λ p. AreNarrower self.new a b p.0 p.1)) }
    {
        match (self.extended_part(a), self.extended_part(b)) {
            (Some(x), Some(y)) if self.width(x) == self.width(y) => Ok(Some((x, y))),
            (Some(x), None) => {
                let Some(word) = self.extended_word(b, self.width(x)) else {
                    return Ok(None);
                };
                let y = self.make(Op::Const(word), &[])?;
                Ok(Some((x, y)))
            }
            (None, Some(y)) => {
                let Some(word) = self.extended_word(a, self.width(y)) else {
                    return Ok(None);
                };
                let x = self.make(Op::Const(word), &[])?;
                Ok(Some((x, y)))
            }
            _ => Ok(None),
        }
    }

    // The term of which this one is the extension with the sign.
    fn extended_part(&self, term: TermId) -> Option<TermId>
        requires { Stands self.now term }
        ensures { IfSome result (λ part. IsExtended self.now term part) }
    {
        match self.node(term) {
            Node::Op(Op::Sext(_), Parts::One(part)) => Some(part),
            _ => None,
        }
    }

    // The word of this width of which a constant is the extension with the sign.
    fn extended_word(&self, term: TermId, width: u8) -> Option<Word>
        requires stands { Stands self.now term }
        requires some { 0 < width }
        ensures word { IfSome result (λ w. IsExtendedWord self.now term width w) }
    {
        let word = self.constant(term)?;
        if width > word.width {
            return None;
        }
        let low = vg_bits::extract(word, 0, width);
        if vg_bits::sext(low, word.width).value == word.value {
            Some(low)
        } else {
            None
        }
    }
}
