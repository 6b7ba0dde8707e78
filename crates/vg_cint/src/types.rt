// The integer types, and the types that operands and results get.

ghost use Rattle.std.specs.Prelude.{◌≡◌};
ghost use Rattle.vg_cint.specs.Types as types;

use vg_core::{BinaryOp, IntType, Integer, UnaryOp};

/// `int`, the type of comparisons, `!`, `&&` and `||`.
pub const INT: Integer = Integer {
    bits: 32,
    signed: true,
};

/// How many bits the words of a type have: 8, 16, 32 or 64. A type of another width, which C has none of, counts as the next wider one.
pub fn width(of: Integer) -> u8
    ensures { result ≡ types.width of }
{
    match of.bits {
        0..=8 => 8,
        9..=16 => 16,
        17..=32 => 32,
        _ => 64,
    }
}

/// The type that a word of C names (C11 6.2.5 and 7.20.1.1). `int` and `int32_t` are one type.
pub fn integer_of(named: IntType) -> Integer
    ensures { result ≡ types.integer_of named }
{
    let (bits, signed) = match named {
        IntType::Int | IntType::Int32 => (32, true),
        IntType::Unsigned | IntType::Uint32 => (32, false),
        IntType::Int8 => (8, true),
        IntType::Int16 => (16, true),
        IntType::Int64 => (64, true),
        IntType::Uint8 => (8, false),
        IntType::Uint16 => (16, false),
        IntType::Uint64 => (64, false),
    };
    Integer { bits, signed }
}

/// The integer promotions (C11 6.3.1.1): a type narrower than `int` becomes `int`, whatever its sign.
pub fn promoted(of: Integer) -> Integer
    ensures { result ≡ types.promoted of }
{
    if of.bits < 32 { INT } else { of }
}

/// The common type of two operands (C11 6.3.1.8), from their own types.
pub fn common(a: Integer, b: Integer) -> Integer
    ensures { result ≡ types.common a b }
{
    let a = promoted(a);
    let b = promoted(b);
    match (a.signed, b.signed) {
        (true, false) => mixed(a, b),
        (false, true) => mixed(b, a),
        _ => greater(a, b),
    }
}

/// Of two types with the same sign, the one of greater rank.
fn greater(a: Integer, b: Integer) -> Integer
    ensures { result ≡ types.greater a b }
{
    if a.bits < b.bits { b } else { a }
}

/// Of a signed and an unsigned type, the signed one where it holds every value of the other, and else the unsigned one.
fn mixed(signed_one: Integer, unsigned_one: Integer) -> Integer
    ensures { result ≡ types.mixed signed_one unsigned_one }
{
    if unsigned_one.bits < signed_one.bits {
        signed_one
    } else {
        unsigned_one
    }
}

/// Whether an operator converts each operand by itself: the shifts, `&&` and `||`.
fn is_apart(op: BinaryOp) -> bool
    ensures { result ≡ types.is_apart op }
{
    matches!(
        op,
        BinaryOp::ShiftLeft | BinaryOp::ShiftRight | BinaryOp::AndThen | BinaryOp::OrElse
    )
}

/// Whether an operator's answer is 0 or 1.
fn is_test(op: BinaryOp) -> bool
    ensures { result ≡ types.is_test op }
{
    matches!(
        op,
        BinaryOp::Equal
            | BinaryOp::NotEqual
            | BinaryOp::Less
            | BinaryOp::Greater
            | BinaryOp::LessEqual
            | BinaryOp::GreaterEqual
            | BinaryOp::AndThen
            | BinaryOp::OrElse
    )
}

/// The type that the left operand of an operator is converted to.
pub(crate) fn left_type(op: BinaryOp, a: Integer, b: Integer) -> Integer
    ensures { result ≡ types.left_type op a b }
{
    if is_apart(op) {
        promoted(a)
    } else {
        common(a, b)
    }
}

/// The type that the right operand of an operator is converted to.
pub(crate) fn right_type(op: BinaryOp, a: Integer, b: Integer) -> Integer
    ensures { result ≡ types.right_type op a b }
{
    if is_apart(op) {
        promoted(b)
    } else {
        common(a, b)
    }
}

/// The type of an operator's result, from the types of its operands (C11 6.5.5 to 6.5.14): `int` for comparisons, `&&` and `||`, the promoted left
/// operand's for shifts, and else the common type.
pub fn type_of_binary(op: BinaryOp, a: Integer, b: Integer) -> Integer
    ensures { result ≡ types.type_of_binary op a b }
{
    if is_test(op) {
        INT
    } else {
        left_type(op, a, b)
    }
}

/// The type of the result of `-`, `~` or `!`, from that of its operand (C11 6.5.3.3): `int` for `!`, and else the promoted type.
pub fn type_of_unary(op: UnaryOp, a: Integer) -> Integer
    ensures { result ≡ types.type_of_unary op a }
{
    match op {
        UnaryOp::Not => INT,
        _ => promoted(a),
    }
}
