//! Terms as sums of a term and a constant.

ghost use Rattle.std.specs.Prelude.{◌≡◌, ◌≤◌, ◌<◌, IfSome};
ghost use Rattle.vg_bits.specs.Words as words;
ghost use Rattle.vg_term.specs.Terms.{AreTerms, Stands, width_at};
ghost use Rattle.vg_simp.specs.Sums.{BuildsSum, IsSum, IsSumAs, IsWideSum, IsWidened};
ghost use Rattle.vg_simp.specs.Knowing.{IsKnown};

use crate::judging::DEPTH;
use crate::knowledge::Knowledge;
use crate::range::Range;
use vg_bits::Word;
use vg_term::{Node, Op, Parts, TermId, TermStop, Terms};

/// The sum of a term and a word.
#[derive(Clone, Copy, PartialEq, Eq, Debug)]
pub(crate) struct Sum {
    pub(crate) base: TermId,
    pub(crate) word: Word,
}

/// A term as the sum of another one and a word.
pub(crate) fn sum_of(terms: &Terms, term: TermId) -> Option<Sum>
    requires made { AreTerms terms.now }
    requires stands { Stands terms.now term }
    ensures { IfSome result (λ sum. IsSum terms.now term sum) }
{
    let Node::Op(op, parts) = terms.node(term) else {
        return None;
    };
    match (op, parts) {
        (Op::Add, Parts::Two(a, b)) => {
            if let Some(word) = terms.constant(b) {
                return Some(Sum { base: a, word });
            }
            let word = terms.constant(a)?;
            Some(Sum { base: b, word })
        }
        (Op::Sub, Parts::Two(a, b)) => {
            let word = terms.constant(b)?;
            let turned = vg_bits::sub(Word::zero(word.width), word);
            Some(Sum {
                base: a,
                word: turned,
            })
        }
        _ => None,
    }
}

// The word of a greater width whose sums with the numbers in a range are those of this word.
#[tactic(auto, using(crate::proofs::Summed::widened_plain, crate::proofs::Summed::widened_wrapped))]
fn widened(range: Range, narrow: Word, width: u8) -> Option<Word>
    requires wider { narrow.width ≤ width }
    requires most { width ≤ 64 }
    ensures width { IfSome result (λ wide. wide.width ≡ width) }
    ensures widened { IfSome result (λ wide. IsWidened range narrow wide) }
{
    let room = Word::all_ones(narrow.width).value - narrow.value;
    if range.high <= room {
        return Some(vg_bits::zext(narrow, width));
    }
    if range.low > room {
        let value = Word::all_ones(width).value - room;
        return Some(Word::new(width, value));
    }
    None
}

/// A term for the sum of a word and a term that is extended to its width.
pub(crate) fn build_sum(terms: &mut Terms, sum: Sum) -> Result<TermId, TermStop>
    requires made { AreTerms terms.old }
    requires stands { Stands terms.old sum.base }
    requires wider { width_at terms.old sum.base ≤ sum.word.width }
    ensures { BuildsSum terms.old terms.new sum result }
{
    let wide = terms.build(Op::Zext(sum.word.width), &[sum.base])?;
    let constant = terms.build(Op::Const(sum.word), &[])?;
    terms.build(Op::Add, &[wide, constant])
}

// A sum whose term is itself a sum, as one sum.
#[tactic(auto, using(crate::proofs::Summed::sum_itself, crate::proofs::Summed::sum_flattened))]
fn flattened(terms: &Terms, sum: Sum) -> Sum
    requires made { AreTerms terms.now }
    requires stands { Stands terms.now sum.base }
    requires width { width_at terms.now sum.base ≡ sum.word.width }
    ensures { IsSumAs terms.now sum result }
{
    match sum_of(terms, sum.base) {
        Some(inner) => Sum {
            base: inner.base,
            word: vg_bits::add(inner.word, sum.word),
        },
        None => sum,
    }
}

impl Knowledge {
    /// A term as the sum of a word of its width and another term, which may be narrower where the facts' bounds say that the sum doesn't wrap.
    #[tactic(auto, using(crate::proofs::Summed::sum_wide))]
    pub(crate) fn wide_sum_of(&self, terms: &Terms, term: TermId) -> Option<Sum>
        requires made { AreTerms terms.now }
        requires stands { Stands terms.now term }
        requires known { IsKnown terms.now self.now }
        ensures { IfSome result (λ sum. IsWideSum terms.now self.now.facts.items term sum) }
    {
        if let Some(sum) = sum_of(terms, term) {
            return Some(flattened(terms, sum));
        }
        let Node::Op(op, parts) = terms.node(term) else {
            return None;
        };
        let (Op::Zext(_), Parts::One(part)) = (op, parts) else {
            return None;
        };
        let sum = sum_of(terms, part)?;
        let range = self.range(terms, sum.base, DEPTH);
        let word = widened(range, sum.word, terms.width(term))?;
        Some(Sum {
            base: sum.base,
            word,
        })
    }
}
