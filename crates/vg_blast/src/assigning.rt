//! The assignment that truth values stand for.

ghost use Rattle.std.specs.Prelude.{◌≡◌, ◌+◌, ◌<◌, ◌≤◌, ℕ, length, IfOk, OnOk};
ghost use Rattle.std.specs.Int.{bit_at};
ghost use Rattle.vg_bits.specs.Words.{bit};
ghost use Rattle.vg_term.specs.Terms.{AreTerms, Stands, width_at};
ghost use Rattle.vg_term.specs.Value.{Assigns};
ghost use Rattle.vg_blast.specs.Blasting.{Agree, AreNames, IsVariable, MakesTrue};
ghost use Rattle.vg_blast.specs.Assigning.{AreFilled, AreZeros, SetsBit};

use crate::blasting::Blasted;
use std::alloc::{AllocError, Global};
use vg_bits::Word;
use vg_cnf::{Lit, Values};
use vg_parts::Memory;
use vg_term::{Assign, Node, TermId, Terms};

/// The words that truth values stand for: each named bit of a variable is 1 where its literal is true, and the others are 0. Where the values satisfy the
/// clauses, every fact is true that `blast` was given.
///
/// `blasted` is what `blast` answered for these terms, or for them before later ones were added, and there are as many values as its clauses have variables.
pub fn assignment(
    alloc: Global,
    terms: &Terms,
    blasted: &Blasted,
    values: &Values,
) -> Result<Assign, Memory>
    requires names { AreNames terms.now blasted.now.clauses.variables blasted.now.bits.items }
    requires each { length values.now ≡ blasted.now.clauses.variables }
    ensures assigns { IfOk result (λ a. Assigns a.words.items terms.now) }
    ensures agrees { IfOk result (λ a. Agree values.now terms.now a.words.items blasted.now.bits.items) }
    ensures facts { IfOk result (λ a. MakesTrue terms.now blasted.now.clauses blasted.now.bits.items values.now a.words.items) }
{
    let Ok(mut words) = zeros(alloc, terms) else {
        return Err(Memory);
    };
    fill(terms, &blasted.bits, values, &mut words);
    Ok(Assign { words })
}

/// A zero for one more term, if it is a variable.
fn push_zero(terms: &Terms, id: TermId, words: &mut Vec<Word>) -> Result<(), AllocError>
    requires stands { Stands terms.now id }
    requires zeros { AreZeros terms.now id.0 words.old.items }
    ensures { OnOk result (AreZeros terms.now (id.0 + 1) words.new.items) }
{
    match terms.node(id) {
        Node::Var { width, .. } => {
            words.push(Word::zero(width))?;
            Ok(())
        }
        Node::Op(_, _) => Ok(()),
    }
}

/// A zero for each variable.
fn zeros(alloc: Global, terms: &Terms) -> Result<Vec<Word>, AllocError>
    ensures { IfOk result (λ words. AreZeros terms.now (length terms.now) words.items) }
{
    let mut words = Vec::new(alloc);
    for at in 0..terms.len() {
        push_zero(terms, TermId(at), &mut words)?;
    }
    Ok(words)
}

/// A word with one more bit.
fn with_bit(word: Word, at: u8) -> Word
    requires { at < word.width }
    ensures width { result.width ≡ word.width }
    ensures set { bit_at result.value at ≡ 1 }
    ensures others { (i : ℕ) → (i ≡ at → ⊥) → bit_at result.value i ≡ bit_at word.value i }
{
    Word {
        width: word.width,
        value: word.value | 1 << at,
    }
}

/// Gives a bit of a variable its truth.
fn set_bit(terms: &Terms, words: &mut Vec<Word>, id: TermId, at: u8, holds: bool)
    requires assigns { Assigns words.old.items terms.now }
    requires variable { IsVariable terms.now id }
    requires within { at < width_at terms.now id }
    ensures { SetsBit terms.now words.old.items words.new.items id at holds }
{
    if let Node::Var { number, .. } = terms.node(id)
        && holds
    {
        let word = words[number as usize];
        words[number as usize] = with_bit(word, at);
    }
}

/// Gives each named bit its truth.
fn fill(terms: &Terms, names: &[(TermId, u8, Lit)], values: &Values, words: &mut Vec<Word>)
    requires names { AreNames terms.now (length values.now) names.now }
    requires zeros { AreZeros terms.now (length terms.now) words.old.items }
    ensures assigns { Assigns words.new.items terms.now }
    ensures agrees { Agree values.now terms.now words.new.items names.now }
{
    for k in 0..names.len() {
        let (id, at, literal) = names[k];
        set_bit(terms, words, id, at, values.makes_literal_true(literal));
    }
}
