//! The value of a term under an assignment.

ghost use Rattle.std.specs.Prelude.{◌≡◌, ◌≤◌, length};
ghost use Rattle.vg_term.specs.Operations.{bits_of};
ghost use Rattle.vg_term.specs.Terms.{Stands, width_at};
ghost use Rattle.vg_term.specs.Value.{Assigns, AreReckoned, value_of, bits_at};

use crate::applying::apply;
use crate::node::{Node, Parts, TermId};
use crate::terms::Terms;
use vg_bits::Word;

/// A word for each variable, by the variable's number, of the variable's width.
#[derive(Debug, Drop)]
pub struct Assign {
    /// The words in the order of the variables.
    pub words: Vec<Word>,
}

/// The value of a term under an assignment. `room` holds the words of the terms up to this one while they are reckoned, and no memory is taken.
pub fn value(terms: &Terms, term: TermId, assign: &Assign, room: &mut [Word]) -> Word
    requires stands { Stands terms.now term }
    requires assigns { Assigns assign.now.words.items terms.now }
    requires room { length terms.now ≤ length room.old }
    ensures width { result.width ≡ width_at terms.now term }
    ensures value { result.value ≡ value_of terms.now assign.now.words.items term }
{
    let last = term.0 as usize;
    let mut done = 0;
    while done <= last {
        let word = word_of(terms, TermId(done as u32), assign, room);
        room[done] = word;
        done += 1;
    }
    room[last]
}

// The word of a term, where `room` holds those of the terms before it.
fn word_of(terms: &Terms, term: TermId, assign: &Assign, room: &[Word]) -> Word
    requires stands { Stands terms.now term }
    requires assigns { Assigns assign.now.words.items terms.now }
    requires room { length terms.now ≤ length room.now }
    requires before { AreReckoned terms.now assign.now.words.items room.now term.0 }
    ensures { bits_of result ≡ bits_at terms.now assign.now.words.items term }
{
    match terms.node(term) {
        Node::Var { number, .. } => assign.words[number as usize],
        Node::Op(op, parts) => match parts {
            Parts::Zero => apply(op, &[]),
            Parts::One(a) => apply(op, &[room[a.0 as usize]]),
            Parts::Two(a, b) => apply(op, &[room[a.0 as usize], room[b.0 as usize]]),
            Parts::Three(c, a, b) => apply(
                op,
                &[room[c.0 as usize], room[a.0 as usize], room[b.0 as usize]],
            ),
        },
    }
}
