//! What no clause says: sharing as a caller sees it, and small words reckoned by hand.

ghost use Rattle.std.specs.Prelude.{IsTrue};
ghost use Rattle.vg_term.specs.Operations.{FitsOne, FitsTwo};

use crate::applying::apply;
use crate::node::{Op, TermId};
use crate::terms::Terms;
use std::rt::HostRuntime;
use std::test::Fail;
use vg_bits::Word;

#[test]
fn an_operation_on_the_same_parts_is_one_term(rt: HostRuntime) -> Result<(), Fail> {
    let mut terms = Terms::new(rt.alloc())?;
    let seven = Op::Const(Word::new(8, 7));
    let first = terms.make(seven, &[])?;
    let second = terms.make(seven, &[])?;
    let wider = terms.make(Op::Const(Word::new(9, 7)), &[])?;
    assert!(rt; first == second);
    assert!(rt; first != wider);
    assert_eq!(rt; terms.len(), 2);
    Ok(())
}

#[test]
fn words_by_hand(rt: HostRuntime) {
    let three = Word::new(8, 3);
    let five = Word::new(8, 5);
    assert_eq!(rt; apply(Op::Sub, &[three, five]).value, 254);
    assert_eq!(rt; apply(Op::Concat, &[three, five]).value, 773);
    assert_eq!(rt; apply(Op::Extract { from: 1, width: 2 }, &[five]).value, 2);
    assert_eq!(rt; apply(Op::Ite, &[Word::new(1, 0), three, five]).value, 5);
    assert_eq!(rt; apply(Op::Ite, &[Word::new(1, 1), three, five]).value, 3);
}

#[test]
fn constants_are_folded(rt: HostRuntime) -> Result<(), Fail> {
    let mut terms = Terms::new(rt.alloc())?;
    let seven = terms.build(Op::Const(Word::new(8, 7)), &[])?;
    let folded = terms.build(Op::Not, &[seven])?;
    assert!(rt; terms.constant(folded) == Some(Word::new(8, 248)));
    assert_eq!(rt; terms.len(), 2);
    Ok(())
}

// Whether an operation takes two parts of these widths.
fn fits_two(op: Op, a: u8, b: u8) -> bool
    ensures { IsTrue result → FitsTwo op a b }
{
    match op {
        Op::Add | Op::Sub | Op::Mul | Op::Udiv | Op::Urem => a == b,
        Op::And | Op::Or | Op::Xor => a == b,
        Op::Shl | Op::Lshr | Op::Ashr => a == b,
        Op::Eq | Op::Ult | Op::Slt => a == b,
        Op::Concat => u16::from(a) + u16::from(b) <= 64,
        _ => false,
    }
}

fn fits_one(op: Op, a: u8) -> bool
    ensures { IsTrue result → FitsOne op a }
{
    match op {
        Op::Not => true,
        Op::Extract { from, width } => 0 < width
            && u16::from(from) + u16::from(width) <= u16::from(a),
        Op::Zext(width) | Op::Sext(width) => a <= width && width <= 64,
        _ => false,
    }
}

// The folded term of an operation.
fn two(terms: &mut Terms, op: Op, a: TermId, b: TermId) -> Result<TermId, Fail> {
    if a.0 >= terms.len() || b.0 >= terms.len() {
        return Err(Fail::from("the parts don't stand or don't fit"));
    }
    let left = terms.width(a);
    let right = terms.width(b);
    if !fits_two(op, left, right) {
        return Err(Fail::from("the parts don't stand or don't fit"));
    }
    Ok(terms.build(op, &[a, b])?)
}

fn one(terms: &mut Terms, op: Op, a: TermId) -> Result<TermId, Fail> {
    if a.0 >= terms.len() {
        return Err(Fail::from("the parts don't stand or don't fit"));
    }
    let width = terms.width(a);
    if !fits_one(op, width) {
        return Err(Fail::from("the parts don't stand or don't fit"));
    }
    Ok(terms.build(op, &[a])?)
}

fn choice(terms: &mut Terms, c: TermId, a: TermId, b: TermId) -> Result<TermId, Fail> {
    if c.0 >= terms.len() || a.0 >= terms.len() || b.0 >= terms.len() {
        return Err(Fail::from("the parts don't stand or don't fit"));
    }
    if terms.width(c) != 1 || terms.width(a) != terms.width(b) {
        return Err(Fail::from("the parts don't stand or don't fit"));
    }
    Ok(terms.build(Op::Ite, &[c, a, b])?)
}

fn word(terms: &mut Terms, width: u8, value: u64) -> Result<TermId, Fail> {
    if width == 0 || width > 64 {
        return Err(Fail::from("the parts don't stand or don't fit"));
    }
    Ok(terms.build(Op::Const(Word::from_low_bits(width, value)), &[])?)
}

// Each rule of one operation: the operation, its parts, and what it is.
fn rules(terms: &mut Terms) -> Result<bool, Fail> {
    let x = terms.var(8)?;
    let not_x = one(terms, Op::Not, x)?;
    let zero = word(terms, 8, 0)?;
    let lowest = word(terms, 8, 1)?;
    let ones = word(terms, 8, 255)?;
    let on = word(terms, 1, 1)?;
    let off = word(terms, 1, 0)?;
    let rows = [
        (Op::Sub, x, x, zero),
        (Op::Xor, x, x, zero),
        (Op::And, x, x, x),
        (Op::Or, x, x, x),
        (Op::Eq, x, x, on),
        (Op::Ult, x, x, off),
        (Op::And, x, not_x, zero),
        (Op::Or, not_x, x, ones),
        (Op::Xor, x, not_x, ones),
        (Op::Add, zero, x, x),
        (Op::Sub, x, zero, x),
        (Op::And, x, zero, zero),
        (Op::And, x, ones, x),
        (Op::Or, ones, x, ones),
        (Op::Mul, x, lowest, x),
        (Op::Mul, zero, x, zero),
        (Op::Udiv, x, zero, ones),
        (Op::Shl, x, zero, x),
        (Op::Ashr, x, zero, x),
        (Op::Ult, x, zero, off),
    ];
    for (op, a, b, wanted) in rows {
        if two(terms, op, a, b)? != wanted {
            return Ok(false);
        }
    }
    Ok(one(terms, Op::Not, not_x)? == x)
}

fn choices(terms: &mut Terms) -> Result<bool, Fail> {
    let x = terms.var(8)?;
    let y = terms.var(8)?;
    let bit = terms.var(1)?;
    let on = word(terms, 1, 1)?;
    let off = word(terms, 1, 0)?;
    let same = choice(terms, bit, x, x)? == x;
    let first = choice(terms, on, x, y)? == x;
    let second = choice(terms, off, x, y)? == y;
    Ok(same && first && second && choice(terms, bit, on, off)? == bit)
}

#[test]
fn rules_of_one_operation(rt: HostRuntime) -> Result<(), Fail> {
    let mut terms = Terms::new(rt.alloc())?;
    assert!(rt; rules(&mut terms)?);
    assert!(rt; choices(&mut terms)?);
    Ok(())
}

// Bytes, the first the most significant, moved and joined by an operation.
fn big_endian(terms: &mut Terms, op: Op, bytes: &[TermId], width: u8) -> Result<TermId, Fail> {
    let mut all = word(terms, width, 0)?;
    let by = word(terms, width, 8)?;
    for byte in bytes {
        let moved = two(terms, Op::Shl, all, by)?;
        let next = one(terms, Op::Zext(width), *byte)?;
        all = two(terms, op, moved, next)?;
    }
    Ok(all)
}

// Whether bytes joined by `or`, by `add`, by `xor`, and by `concat` and an extension, are one term.
fn joins(terms: &mut Terms, bytes: &[TermId], width: u8) -> Result<bool, Fail> {
    let [first, rest @ ..] = bytes else {
        return Err(Fail::from("the parts don't stand or don't fit"));
    };
    let mut concat = *first;
    for byte in rest {
        concat = two(terms, Op::Concat, concat, *byte)?;
    }
    let wanted = one(terms, Op::Zext(width), concat)?;
    let by_or = big_endian(terms, Op::Or, bytes, width)? == wanted;
    let by_add = big_endian(terms, Op::Add, bytes, width)? == wanted;
    Ok(by_or && by_add && big_endian(terms, Op::Xor, bytes, width)? == wanted)
}

// Whether the second byte from below is cut from a word by a shift, a mask and a cast, and by a cast at once.
fn cuts(terms: &mut Terms, all: TermId, width: u8, wanted: TermId) -> Result<bool, Fail> {
    let mask = word(terms, width, 0xff)?;
    let by = word(terms, width, 8)?;
    let moved = two(terms, Op::Lshr, all, by)?;
    let masked = two(terms, Op::And, moved, mask)?;
    let low = one(terms, Op::Extract { from: 0, width: 8 }, masked)?;
    Ok(low == wanted && one(terms, Op::Extract { from: 8, width: 8 }, all)? == wanted)
}

fn frame_bytes(terms: &mut Terms) -> Result<bool, Fail> {
    let a = terms.var(8)?;
    let b = terms.var(8)?;
    let c = terms.var(8)?;
    let d = terms.var(8)?;
    let pair = joins(terms, &[a, b], 16)?;
    let four = joins(terms, &[a, b, c, d], 32)?;
    let six = joins(terms, &[a, b, c, d, a, b], 64)?;
    let word = big_endian(terms, Op::Or, &[a, b, c, d], 32)?;
    Ok(pair && four && six && cuts(terms, word, 32, c)?)
}

#[test]
fn bytes_joined_and_cut_again(rt: HostRuntime) -> Result<(), Fail> {
    let mut terms = Terms::new(rt.alloc())?;
    assert!(rt; frame_bytes(&mut terms)?);
    Ok(())
}

// Whether a field of two bytes that equals a constant is two facts on its bytes, and extended words are compared in their own width.
fn equalities(terms: &mut Terms) -> Result<bool, Fail> {
    let a = terms.var(8)?;
    let b = terms.var(8)?;
    let field = big_endian(terms, Op::Or, &[a, b], 16)?;
    let kind = word(terms, 16, 0x0800)?;
    let eight = word(terms, 8, 8)?;
    let zero = word(terms, 8, 0)?;
    let low = two(terms, Op::Eq, b, zero)?;
    let high = two(terms, Op::Eq, a, eight)?;
    let both = two(terms, Op::And, low, high)?;
    let wide_a = one(terms, Op::Zext(32), a)?;
    let wide_b = one(terms, Op::Zext(32), b)?;
    let narrow = two(terms, Op::Eq, a, b)?;
    let never = word(terms, 32, 256)?;
    let off = word(terms, 1, 0)?;
    let split = two(terms, Op::Eq, field, kind)? == both;
    let same = two(terms, Op::Eq, wide_a, wide_b)? == narrow;
    Ok(split && same && two(terms, Op::Eq, wide_a, never)? == off)
}

#[test]
fn fields_compared_by_their_bytes(rt: HostRuntime) -> Result<(), Fail> {
    let mut terms = Terms::new(rt.alloc())?;
    assert!(rt; equalities(&mut terms)?);
    Ok(())
}

// Whether words that were extended are compared in the width that they had, and a word that isn't negative without its sign.
fn comparisons(terms: &mut Terms) -> Result<bool, Fail> {
    let x = terms.var(8)?;
    let y = terms.var(8)?;
    let z = terms.var(16)?;
    let zeros_x = one(terms, Op::Zext(32), x)?;
    let zeros_y = one(terms, Op::Zext(32), y)?;
    let zeros_z = one(terms, Op::Zext(32), z)?;
    let signed_x = one(terms, Op::Sext(32), x)?;
    let signed_y = one(terms, Op::Sext(32), y)?;
    let middle_x = one(terms, Op::Zext(16), x)?;
    let few = word(terms, 32, 200)?;
    let few_narrow = word(terms, 8, 200)?;
    let minus = word(terms, 32, 0xffff_fff0)?;
    let minus_narrow = word(terms, 8, 0xf0)?;
    let rows = [
        ((Op::Ult, zeros_x, zeros_y), (Op::Ult, x, y)),
        ((Op::Slt, zeros_x, zeros_y), (Op::Ult, x, y)),
        ((Op::Slt, zeros_x, few), (Op::Ult, x, few_narrow)),
        ((Op::Ult, zeros_x, zeros_z), (Op::Ult, middle_x, z)),
        ((Op::Slt, signed_x, signed_y), (Op::Slt, x, y)),
        ((Op::Ult, signed_x, signed_y), (Op::Ult, x, y)),
        ((Op::Eq, signed_x, signed_y), (Op::Eq, x, y)),
        ((Op::Slt, signed_x, minus), (Op::Slt, x, minus_narrow)),
        ((Op::Slt, minus, signed_x), (Op::Slt, minus_narrow, x)),
    ];
    for (wide, narrow) in rows {
        let wanted = two(terms, narrow.0, narrow.1, narrow.2)?;
        if two(terms, wide.0, wide.1, wide.2)? != wanted {
            return Ok(false);
        }
    }
    Ok(true)
}

#[test]
fn comparisons_in_the_narrow_width(rt: HostRuntime) -> Result<(), Fail> {
    let mut terms = Terms::new(rt.alloc())?;
    assert!(rt; comparisons(&mut terms)?);
    Ok(())
}

fn cut(terms: &mut Terms, term: TermId, from: u8, width: u8) -> Result<TermId, Fail> {
    one(terms, Op::Extract { from, width }, term)
}

// Whether a cut of an operation on two parts is the operation on their cuts.
fn cuts_of_parts(terms: &mut Terms) -> Result<bool, Fail> {
    let a = terms.var(32)?;
    let b = terms.var(32)?;
    let rows = [
        (Op::And, 8, 8),
        (Op::Or, 3, 20),
        (Op::Xor, 31, 1),
        (Op::Add, 0, 16),
        (Op::Sub, 0, 1),
        (Op::Mul, 0, 31),
    ];
    for (op, from, width) in rows {
        let left = cut(terms, a, from, width)?;
        let right = cut(terms, b, from, width)?;
        let wanted = two(terms, op, left, right)?;
        let whole = two(terms, op, a, b)?;
        if cut(terms, whole, from, width)? != wanted {
            return Ok(false);
        }
    }
    Ok(true)
}

// The same for turned bits and choices.
fn cuts_of_others(terms: &mut Terms) -> Result<bool, Fail> {
    let a = terms.var(32)?;
    let b = terms.var(32)?;
    let bit = terms.var(1)?;
    let left = cut(terms, a, 8, 8)?;
    let right = cut(terms, b, 8, 8)?;
    let turned = one(terms, Op::Not, a)?;
    let chosen = choice(terms, bit, a, b)?;
    let turned_cut = one(terms, Op::Not, left)?;
    let chosen_cut = choice(terms, bit, left, right)?;
    Ok(cut(terms, turned, 8, 8)? == turned_cut && cut(terms, chosen, 8, 8)? == chosen_cut)
}

// Whether the bytes of a sum are the same terms in whatever width it was added up.
fn bytes_of_a_sum(terms: &mut Terms) -> Result<bool, Fail> {
    let a = terms.var(16)?;
    let b = terms.var(16)?;
    let c = terms.var(16)?;
    let pair = two(terms, Op::Add, a, b)?;
    let narrow = two(terms, Op::Add, pair, c)?;
    let wide_a = one(terms, Op::Zext(64), a)?;
    let wide_b = one(terms, Op::Zext(64), b)?;
    let wide_c = one(terms, Op::Zext(64), c)?;
    let wide_pair = two(terms, Op::Add, wide_a, wide_b)?;
    let wide = two(terms, Op::Add, wide_pair, wide_c)?;
    let whole = cut(terms, wide, 0, 16)? == narrow;
    let low = cut(terms, wide, 0, 8)? == cut(terms, narrow, 0, 8)?;
    Ok(whole && low && cut(terms, wide, 8, 8)? == cut(terms, narrow, 8, 8)?)
}

#[test]
fn cuts_go_to_the_parts(rt: HostRuntime) -> Result<(), Fail> {
    let mut terms = Terms::new(rt.alloc())?;
    assert!(rt; cuts_of_parts(&mut terms)?);
    assert!(rt; cuts_of_others(&mut terms)?);
    assert!(rt; bytes_of_a_sum(&mut terms)?);
    Ok(())
}

// Whether operations with the sign are wiring on a word whose sign is 0, and a byte is itself again after it was extended.
fn signs(terms: &mut Terms) -> Result<bool, Fail> {
    let x = terms.var(8)?;
    let field = terms.var(16)?;
    let promoted = one(terms, Op::Zext(32), field)?;
    let by = word(terms, 32, 8)?;
    let high = cut(terms, field, 8, 8)?;
    let shifted = two(terms, Op::Ashr, promoted, by)?;
    let byte = one(terms, Op::Zext(32), x)?;
    let wide = one(terms, Op::Zext(64), x)?;
    let signed = one(terms, Op::Sext(32), x)?;
    let extended = one(terms, Op::Zext(32), high)?;
    let same = shifted == extended && one(terms, Op::Sext(64), byte)? == wide;
    Ok(same && cut(terms, signed, 0, 8)? == x)
}

// Whether an extension with the sign stays one where nothing is added to it, and where its lowest bits are cut.
fn extensions(terms: &mut Terms) -> Result<bool, Fail> {
    let x = terms.var(8)?;
    let signed = one(terms, Op::Sext(32), x)?;
    let wide = one(terms, Op::Sext(64), x)?;
    let zero = word(terms, 32, 0)?;
    let ones = word(terms, 32, 0xffff_ffff)?;
    let sum = two(terms, Op::Add, signed, zero)? == signed;
    let masked = two(terms, Op::And, signed, ones)? == signed;
    let whole = cut(terms, signed, 0, 32)? == signed;
    Ok(sum && masked && whole && cut(terms, wide, 0, 32)? == signed)
}

#[test]
fn signs_that_are_known(rt: HostRuntime) -> Result<(), Fail> {
    let mut terms = Terms::new(rt.alloc())?;
    assert!(rt; signs(&mut terms)?);
    assert!(rt; extensions(&mut terms)?);
    Ok(())
}

// Of 40 products each has the one before it twice below it, so that there are 2 ^ 40 ways down. Cutting the lowest bits of the last one ends after 64
// cuts. There are 81 terms before, and a cut makes at most four.
#[test]
fn cuts_of_shared_parts_are_few(rt: HostRuntime) -> Result<(), Fail> {
    let mut terms = Terms::new(rt.alloc())?;
    let mut product = terms.var(64)?;
    for _turn in 0..40 {
        let turned = one(&mut terms, Op::Not, product)?;
        product = two(&mut terms, Op::Mul, product, turned)?;
    }
    let _low = cut(&mut terms, product, 0, 32)?;
    assert!(rt; terms.len() < 400);
    Ok(())
}
