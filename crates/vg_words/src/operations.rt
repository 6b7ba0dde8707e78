//! Operations on terms by the words that stand for them.
ghost use Rattle.std.specs.Prelude.{IsTrue};
ghost use Rattle.vg_term.specs.Operations.{FitsOne, FitsTwo, FitsThree};

use crate::stop::Stop;
use vg_term::{Op, TermId, Terms};

/// Which constructor makes the terms: the one that never folds, or the one that does.
#[derive(Clone, Copy)]
pub enum Way {
    Make,
    Build,
}

// A number of bits.
fn bits_of(word: &str) -> Option<u8> {
    word.parse::<u8>().ok()
}

// An operation with widths in its word: `zext:WIDTH`, `sext:WIDTH`, and `bits:FROM:WIDTH`.
fn wide_operation(word: &str) -> Option<Op> {
    let (name, rest) = word.split_once(':')?;
    match name {
        "zext" => Some(Op::Zext(bits_of(rest)?)),
        "sext" => Some(Op::Sext(bits_of(rest)?)),
        "bits" => {
            let (from, width) = rest.split_once(':')?;
            Some(Op::Extract {
                from: bits_of(from)?,
                width: bits_of(width)?,
            })
        }
        _ => None,
    }
}

/// The operation of a word, without sign where it isn't said.
pub fn operation(word: &str) -> Option<Op> {
    match word {
        "not" => Some(Op::Not),
        "+" => Some(Op::Add),
        "-" => Some(Op::Sub),
        "*" => Some(Op::Mul),
        "/" => Some(Op::Udiv),
        "%" => Some(Op::Urem),
        "&" => Some(Op::And),
        "|" => Some(Op::Or),
        "^" => Some(Op::Xor),
        "<<" => Some(Op::Shl),
        ">>" => Some(Op::Lshr),
        "signed>>" => Some(Op::Ashr),
        "=" => Some(Op::Eq),
        "<" => Some(Op::Ult),
        "signed<" => Some(Op::Slt),
        "concat" => Some(Op::Concat),
        "if" => Some(Op::Ite),
        _ => wide_operation(word),
    }
}

fn fits_one(op: Op, a: u8) -> bool
    ensures { IsTrue result → FitsOne op a }
{
    match op {
        Op::Not => true,
        Op::Extract { from, width } => {
            0 < width && u16::from(from) + u16::from(width) <= u16::from(a)
        }
        Op::Zext(width) | Op::Sext(width) => a <= width && width <= 64,
        _ => false,
    }
}

fn fits_two(op: Op, a: u8, b: u8) -> bool
    ensures { IsTrue result → FitsTwo op a b }
{
    match op {
        Op::Add | Op::Sub | Op::Mul | Op::Udiv | Op::Urem => a == b,
        Op::And | Op::Or | Op::Xor => a == b,
        Op::Shl | Op::Lshr | Op::Ashr => a == b,
        Op::Eq | Op::Ult | Op::Slt => a == b,
        Op::Concat => u16::from(a) + u16::from(b) <= 64,
        _ => false,
    }
}

fn fits_three(op: Op, c: u8, a: u8, b: u8) -> bool
    ensures { IsTrue result → FitsThree op c a b }
{
    match op {
        Op::Ite => c == 1 && a == b,
        _ => false,
    }
}

fn one(terms: &mut Terms, way: Way, op: Op, a: TermId) -> Result<TermId, Stop> {
    if a.0 >= terms.len() || !fits_one(op, terms.width(a)) {
        return Err(Stop::Operands);
    }
    let made = match way {
        Way::Make => terms.make(op, &[a])?,
        Way::Build => terms.build(op, &[a])?,
    };
    Ok(made)
}

fn two(terms: &mut Terms, way: Way, op: Op, a: TermId, b: TermId) -> Result<TermId, Stop> {
    let stand = a.0 < terms.len() && b.0 < terms.len();
    if !stand || !fits_two(op, terms.width(a), terms.width(b)) {
        return Err(Stop::Operands);
    }
    let made = match way {
        Way::Make => terms.make(op, &[a, b])?,
        Way::Build => terms.build(op, &[a, b])?,
    };
    Ok(made)
}

fn three(
    terms: &mut Terms,
    way: Way,
    op: Op,
    c: TermId,
    a: TermId,
    b: TermId,
) -> Result<TermId, Stop> {
    let stand = c.0 < terms.len() && a.0 < terms.len() && b.0 < terms.len();
    if !stand || !fits_three(op, terms.width(c), terms.width(a), terms.width(b)) {
        return Err(Stop::Operands);
    }
    let made = match way {
        Way::Make => terms.make(op, &[c, a, b])?,
        Way::Build => terms.build(op, &[c, a, b])?,
    };
    Ok(made)
}

/// The term of an operation on the operands that are on top of a stack, the first one uppermost; they are taken off.
pub fn applied(
    terms: &mut Terms,
    way: Way,
    op: Op,
    stack: &mut Vec<TermId>,
) -> Result<TermId, Stop> {
    let first = stack.pop().ok_or(Stop::Operands)?;
    if let Op::Not | Op::Extract { .. } | Op::Zext(_) | Op::Sext(_) = op {
        return one(terms, way, op, first);
    }
    let second = stack.pop().ok_or(Stop::Operands)?;
    if let Op::Ite = op {
        let third = stack.pop().ok_or(Stop::Operands)?;
        return three(terms, way, op, first, second, third);
    }
    two(terms, way, op, first, second)
}
