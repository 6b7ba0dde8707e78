//! The wires of what an operation answers, followed down to terms that are no wiring.

ghost use Rattle.std.specs.Prelude.{◌≡◌, ◌<◌, ◌≤◌, ◌/◌, ◌%◌, ◌^◌, [], ◌∷◌, nat_eq, false, length, map, All, IfSome, IsTrue};
ghost use Rattle.vg_term.specs.Operations.{Fits, width_of};
ghost use Rattle.vg_term.specs.Terms.{AreTerms, Stands, listed, width_at};
ghost use Rattle.vg_term.specs.declared.wire.Wire.TheVariants as kinds;
ghost use Rattle.vg_term.specs.Wiring.{AllCarry, AnswersAs, AreApart, Carries, IsBitwise, IsCut, IsNonnegative, SameWire, WireStands, wire_depth};

use crate::node::{Node, Op, Parts, TermId};
use crate::terms::Terms;
use crate::wire::Wire;
use vg_bits::Word;

/// Whether a word has a bit.
#[tactic(auto, using(std::proofs::lemmas::Nat::Bits::shr_and_one))]
fn bit_of(word: Word, at: u8) -> bool
    requires { at < 64 }
    ensures { result ≡ nat_eq (word.value / 2 ^ at % 2) 1 }
{
    word.value >> at & 1 == 1
}

/// Whether a wire is fixed to 0.
pub(crate) fn is_off(wire: Wire) -> bool
    ensures { IsTrue result → wire ≡ kinds.Fixed false }
{
    match wire {
        Wire::Fixed(holds) => !holds,
        Wire::Bit { .. } => false,
    }
}

// What an operation makes of two bits, where that is one of them or fixed.
fn bitwise(op: Op, x: Wire, y: Wire) -> Option<Wire>
    ensures { IfSome result (λ wire. IsBitwise op x y wire) }
{
    match (op, x, y) {
        (Op::And, Wire::Fixed(true), wire) => Some(wire),
        (Op::And, wire, Wire::Fixed(true)) => Some(wire),
        (Op::And, Wire::Fixed(false), _) => Some(Wire::Fixed(false)),
        (Op::And, _, Wire::Fixed(false)) => Some(Wire::Fixed(false)),
        (Op::Or, Wire::Fixed(false), wire) => Some(wire),
        (Op::Or, wire, Wire::Fixed(false)) => Some(wire),
        (Op::Or, Wire::Fixed(true), _) => Some(Wire::Fixed(true)),
        (Op::Or, _, Wire::Fixed(true)) => Some(Wire::Fixed(true)),
        (Op::Xor, Wire::Fixed(false), wire) => Some(wire),
        (Op::Xor, wire, Wire::Fixed(false)) => Some(wire),
        _ => None,
    }
}

impl Terms {
    /// The wires of what an operation answers, the least significant first, where it is wiring.
    pub(crate) fn wires(&self, op: Op, parts: Parts, width: u8) -> Option<[Wire; 64]>
        requires made { AreTerms self.now }
        requires parts_stand { All (Stands self.now) (listed parts) }
        requires fits { Fits op (map (width_at self.now) (listed parts)) }
        requires width { width ≡ width_of op (map (width_at self.now) (listed parts)) }
        requires most { width ≤ 64 }
        ensures long { IfSome result (λ wires. length wires ≡ 64) }
        ensures carry { IfSome result (λ wires. AllCarry self.now op (listed parts) wires width) }
    {
        let mut wires = [Wire::Fixed(false); 64];
        for at in 0..width {
            let wire = self.wire_of(op, parts, at)?;
            wires[at as usize] = wire;
        }
        Some(wires)
    }

    /// An operation that answers the same on these parts and that can be wiring: the union of bits for a sum whose parts never both have a 1 at one place,
    /// and an extension or a shift with zeros for one with the sign, where the sign is 0. Any other operation is itself.
    pub(crate) fn as_wiring(&self, op: Op, parts: Parts) -> Op
        requires made { AreTerms self.now }
        requires parts_stand { All (Stands self.now) (listed parts) }
        requires fits { Fits op (map (width_at self.now) (listed parts)) }
        ensures { AnswersAs self.now op result (listed parts) }
    {
        match (op, parts) {
            (Op::Add, Parts::Two(a, b)) => { if self.are_apart(a, b) { Op::Or } else { op } }
            (Op::Sext(width), Parts::One(a)) => {
                if self.is_nonnegative(a) {
                    Op::Zext(width)
                } else {
                    op
                }
            }
            (Op::Ashr, Parts::Two(a, _)) => { if self.is_nonnegative(a) { Op::Lshr } else { op } }
            _ => op,
        }
    }

    // Whether the sign of a term is 0 under each assignment.
    fn is_nonnegative(&self, term: TermId) -> bool
        requires { Stands self.now term }
        ensures { IsTrue result → IsNonnegative self.now term }
    {
        let at = self.width(term) - 1;
        is_off(self.followed(Wire::Bit { term, at }))
    }

    // Whether two parts of one width never both have a 1 at one place.
    fn are_apart(&self, a: TermId, b: TermId) -> bool
        requires first { Stands self.now a }
        requires second { Stands self.now b }
        requires alike { width_at self.now a ≡ width_at self.now b }
        ensures { IsTrue result → AreApart self.now a b (width_at self.now a) }
    {
        let width = self.width(a);
        for at in 0..width {
            let x = self.followed(Wire::Bit { term: a, at });
            let y = self.followed(Wire::Bit { term: b, at });
            if !is_off(x) && !is_off(y) {
                return false;
            }
        }
        true
    }

    // A bit of what an operation that cuts or joins words answers, as a bit of its parts.
    fn cut(&self, op: Op, parts: Parts, at: u8) -> Option<Wire>
        requires made { AreTerms self.now }
        requires parts_stand { All (Stands self.now) (listed parts) }
        requires fits { Fits op (map (width_at self.now) (listed parts)) }
        requires within { at < width_of op (map (width_at self.now) (listed parts)) }
        ensures { IfSome result (λ wire. IsCut self.now op (listed parts) at wire) }
    {
        match (op, parts) {
            (Op::Const(word), Parts::Zero) => Some(Wire::Fixed(bit_of(word, at))),
            (Op::Extract { from, .. }, Parts::One(term)) => Some(Wire::Bit {
                term,
                at: from + at,
            }),
            (Op::Zext(_), Parts::One(term)) => {
                if at < self.width(term) {
                    return Some(Wire::Bit { term, at });
                }
                Some(Wire::Fixed(false))
            }
            (Op::Concat, Parts::Two(high, low)) => {
                let width = self.width(low);
                if at < width {
                    return Some(Wire::Bit { term: low, at });
                }
                Some(Wire::Bit {
                    term: high,
                    at: at - width,
                })
            }
            _ => None,
        }
    }

    // The wire below this one, where its term cuts or joins words.
    fn next_wire(&self, wire: Wire) -> Option<Wire>
        requires { WireStands self.now wire }
        ensures below { IfSome result (λ next. wire_depth next < wire_depth wire) }
        ensures same { IfSome result (λ next. SameWire self.now wire next) }
    {
        match wire {
            Wire::Fixed(_) => None,
            Wire::Bit { term, at } => match self.node(term) {
                Node::Var { .. } => None,
                Node::Op(op, parts) => self.cut(op, parts, at),
            },
        }
    }

    // The wire at the end of this one, at a term that is no wiring.
    fn followed(&self, wire: Wire) -> Wire
        requires { WireStands self.now wire }
        ensures { SameWire self.now wire result }
    {
        let mut end = wire;
        while let Some(next) = self.next_wire(end) {
            end = next;
        }
        end
    }

    // A bit of what an operation answers, where it is wiring.
    fn wire_of(&self, op: Op, parts: Parts, at: u8) -> Option<Wire>
        requires made { AreTerms self.now }
        requires parts_stand { All (Stands self.now) (listed parts) }
        requires fits { Fits op (map (width_at self.now) (listed parts)) }
        requires within { at < width_of op (map (width_at self.now) (listed parts)) }
        ensures { IfSome result (λ wire. Carries self.now op (listed parts) at wire) }
    {
        if let Some(wire) = self.cut(op, parts, at) {
            return Some(self.followed(wire));
        }
        match parts {
            Parts::Two(a, b) => self.wire_of_two(op, a, b, at),
            _ => None,
        }
    }

    // The same for masks and shifts by a constant.
    fn wire_of_two(&self, op: Op, a: TermId, b: TermId, at: u8) -> Option<Wire>
        requires first { Stands self.now a }
        requires second { Stands self.now b }
        ensures { IfSome result (λ wire. Carries self.now op (a ∷ b ∷ []) at wire) }
    {
        let width = self.width(a);
        if self.width(b) != width || at >= width {
            return None;
        }
        match op {
            Op::And | Op::Or | Op::Xor => {
                let x = self.followed(Wire::Bit { term: a, at });
                let y = self.followed(Wire::Bit { term: b, at });
                bitwise(op, x, y)
            }
            Op::Shl => {
                let by = self.constant(b)?;
                if u64::from(at) < by.value {
                    return Some(Wire::Fixed(false));
                }
                Some(self.followed(Wire::Bit {
                    term: a,
                    at: at - by.value as u8,
                }))
            }
            Op::Lshr => {
                let by = self.constant(b)?;
                if by.value >= u64::from(width - at) {
                    return Some(Wire::Fixed(false));
                }
                Some(self.followed(Wire::Bit {
                    term: a,
                    at: at + by.value as u8,
                }))
            }
            _ => None,
        }
    }
}
