//! An equality as a conjunction of equalities of the aligned pieces of both sides.

ghost use Rattle.std.specs.Prelude.{◌≡◌, ◌≤◌, ◌+◌, [], ◌∷◌, length};
ghost use Rattle.vg_term.specs.Terms.{AreTerms, Stands, width_at};
ghost use Rattle.vg_term.specs.Folding.{Builds};
ghost use Rattle.vg_term.specs.Equality.{JoinsEqual};
ghost use Rattle.vg_term.specs.Spending.{IsFull, Spends};
ghost use Rattle.vg_term.specs.declared.node.Op.TheVariants as ops;

use crate::node::{Op, Parts, TermId};
use crate::stops::TermStop;
use crate::terms::Terms;
use crate::wire::run_end;
use vg_bits::Word;

impl Terms {
    /// Whether two parts of one width are equal. Each stretch of wires that is a run on both sides gives one equality.
    pub(crate) fn equal(&mut self, a: TermId, b: TermId, cuts: &mut u8) -> Result<TermId, TermStop>
        requires made { AreTerms self.old }
        requires first { Stands self.old a }
        requires second { Stands self.old b }
        requires alike { width_at self.old a ≡ width_at self.old b }
        ensures builds { Builds self.old self.new ops.Eq (a ∷ b ∷ []) result }
        ensures spends { Spends self.old self.new cuts.old cuts.new 257 }
        ensures full { IsFull self.new result }
    {
        let width = self.width(a);
        let whole = Op::Extract { from: 0, width };
        let Some(left) = self.wires(whole, Parts::One(a), width) else {
            return self.simple(Op::Eq, &[a, b]);
        };
        let Some(right) = self.wires(whole, Parts::One(b), width) else {
            return self.simple(Op::Eq, &[a, b]);
        };
        let mut all = self.simple(Op::Const(Word::one(1)), &[])?;
        let mut at = 0;
        while at < width {
            let end = run_end(&left, at, width).min(run_end(&right, at, width));
            let x = self.piece(&left, at, end, cuts)?;
            let y = self.piece(&right, at, end, cuts)?;
            all = self.both_equal(all, x, y)?;
            at = end;
        }
        Ok(all)
    }

    // A fact, and that two parts of one width are equal.
    fn both_equal(&mut self, fact: TermId, a: TermId, b: TermId) -> Result<TermId, TermStop>
        requires made { AreTerms self.old }
        requires fact { Stands self.old fact }
        requires bit { width_at self.old fact ≡ 1 }
        requires first { Stands self.old a }
        requires second { Stands self.old b }
        requires alike { width_at self.old a ≡ width_at self.old b }
        ensures joins { JoinsEqual self.old self.new fact a b result }
        ensures few { length self.new ≤ length self.old + 2 }
        ensures full { IsFull self.new result }
    {
        let equal = self.simple(Op::Eq, &[a, b])?;
        self.simple(Op::And, &[fact, equal])
    }
}
