//! What a term is made of: its operation and its parts, or a variable.

ghost use Rattle.std.specs.Prelude.{◌≡◌, ◌≤◌, length};
ghost use Rattle.vg_term.specs.Terms.{held};

use vg_bits::Word;

/// The number of a term among its `Terms`, counted from 0.
#[derive(Clone, Copy, PartialEq, Eq, Hash, Debug)]
pub struct TermId(pub u32);

/// An operation on machine words. `vg_bits` has a function for each but the first and the last.
#[derive(Clone, Copy, PartialEq, Eq, Hash, Debug)]
pub enum Op {
    /// A word, of no parts.
    Const(Word),
    /// Each bit turned.
    Not,
    /// The `width` bits from bit `from` on, where bit 0 is the least significant.
    Extract { from: u8, width: u8 },
    /// The word of this width with the same value.
    Zext(u8),
    /// The word of this width with the same signed reading.
    Sext(u8),
    /// The sum.
    Add,
    /// The first less the second.
    Sub,
    /// The product.
    Mul,
    /// The unsigned quotient; all ones where the second is 0.
    Udiv,
    /// The unsigned remainder; the first where the second is 0.
    Urem,
    /// The bits that both have.
    And,
    /// The bits that either has.
    Or,
    /// The bits that just one has.
    Xor,
    /// The first to the left by the second.
    Shl,
    /// The first to the right by the second, with zeros.
    Lshr,
    /// The first to the right by the second, with its sign.
    Ashr,
    /// Whether they are equal, of width 1.
    Eq,
    /// Whether the first is less, both read without sign, of width 1.
    Ult,
    /// Whether the first is less, both read in two's complement, of width 1.
    Slt,
    /// The first above the second.
    Concat,
    /// The second where the first, of width 1, is 1, and else the third.
    Ite,
}

/// Up to three parts, in order.
#[derive(Clone, Copy, PartialEq, Eq, Hash, Debug)]
pub enum Parts {
    Zero,
    One(TermId),
    Two(TermId, TermId),
    Three(TermId, TermId, TermId),
}

/// What a term is made of.
#[derive(Clone, Copy, PartialEq, Eq, Hash, Debug)]
pub enum Node {
    /// A variable: its number among the variables, counted from 0, and its width.
    Var { number: u32, width: u8 },
    /// An operation with its parts.
    Op(Op, Parts),
}

impl Parts {
    /// Up to three parts from a list of them.
    pub fn new(parts: &[TermId]) -> Parts
        requires { length parts.now ≤ 3 }
        ensures { result ≡ held parts.now }
    {
        match parts {
            [] => Parts::Zero,
            [a] => Parts::One(*a),
            [a, b] => Parts::Two(*a, *b),
            [a, b, c] => Parts::Three(*a, *b, *c),
            _ => unreachable!(),
        }
    }
}
