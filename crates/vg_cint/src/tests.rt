// Values worked out by hand after C11, at the edges of every integer type. A row is an expression, and what it gives.

use super::*;
use std::rt::HostRuntime;
use std::test::Fail;
use vg_core::BinaryOp::*;
use vg_core::IntType::*;
use vg_core::Reason::{DivZero, Overflow, Shift};
use vg_core::UnaryOp::{Complement, Negate, Not};
use vg_core::{BinaryOp, IntType, Reason, UnaryOp};

type Number = (IntType, i128);

type Row = (Number, BinaryOp, Number, Result<Number, Reason>);

type UnaryRow = (UnaryOp, Number, Result<Number, Reason>);

// The edges of the types, by the names that C has for them.
const INT_MIN: Number = (Int, -2_147_483_648);

const INT_MAX: Number = (Int, 2_147_483_647);

const UINT_MAX: Number = (Unsigned, 4_294_967_295);

const INT64_MIN: Number = (Int64, -9_223_372_036_854_775_808);

const INT64_MAX: Number = (Int64, 9_223_372_036_854_775_807);

const UINT64_MAX: Number = (Uint64, 18_446_744_073_709_551_615);

// Sums, differences and products: the edges of each type, and operands of two types.
const SUMS: [Row; 30] = [
    ((Uint8, 200), Add, (Uint8, 100), Ok((Int, 300))),
    ((Int8, 127), Add, (Int8, 1), Ok((Int, 128))),
    ((Int8, -128), Subtract, (Int8, 1), Ok((Int, -129))),
    ((Uint16, 65_535), Multiply, (Uint16, 65_535), Err(Overflow)),
    (
        (Int16, -32_768),
        Multiply,
        (Int16, -32_768),
        Ok((Int, 1_073_741_824)),
    ),
    (INT_MAX, Add, (Int, 0), Ok(INT_MAX)),
    (INT_MAX, Add, (Int, 1), Err(Overflow)),
    (INT_MIN, Subtract, (Int, 1), Err(Overflow)),
    (INT_MIN, Subtract, (Int, -1), Ok((Int, -2_147_483_647))),
    (
        (Int, 46_340),
        Multiply,
        (Int, 46_340),
        Ok((Int, 2_147_395_600)),
    ),
    ((Int, 46_341), Multiply, (Int, 46_341), Err(Overflow)),
    ((Int, -46_341), Multiply, (Int, 46_341), Err(Overflow)),
    ((Int, 65_536), Multiply, (Int, -32_768), Ok(INT_MIN)),
    ((Int, 65_536), Multiply, (Int, 32_768), Err(Overflow)),
    ((Unsigned, 0), Subtract, (Unsigned, 1), Ok(UINT_MAX)),
    (UINT_MAX, Add, (Unsigned, 1), Ok((Unsigned, 0))),
    (
        (Unsigned, 65_536),
        Multiply,
        (Unsigned, 65_536),
        Ok((Unsigned, 0)),
    ),
    ((Unsigned, 1), Subtract, (Int, 2), Ok(UINT_MAX)),
    ((Int, -1), Add, (Unsigned, 1), Ok((Unsigned, 0))),
    (
        (Uint32, 4_000_000_000),
        Add,
        (Int8, 5),
        Ok((Uint32, 4_000_000_005)),
    ),
    (
        (Uint32, 4_294_967_295),
        Add,
        (Int64, 1),
        Ok((Int64, 4_294_967_296)),
    ),
    (INT64_MAX, Add, (Int, 1), Err(Overflow)),
    (INT64_MIN, Subtract, (Int, 1), Err(Overflow)),
    (INT64_MIN, Multiply, (Int64, -1), Err(Overflow)),
    (
        (Int64, 3_037_000_499),
        Multiply,
        (Int64, 3_037_000_499),
        Ok((Int64, 9_223_372_030_926_249_001)),
    ),
    (
        (Int64, 3_037_000_500),
        Multiply,
        (Int64, 3_037_000_500),
        Err(Overflow),
    ),
    ((Uint64, 0), Subtract, (Int, 1), Ok(UINT64_MAX)),
    (UINT64_MAX, Add, (Int, 1), Ok((Uint64, 0))),
    (UINT64_MAX, Multiply, UINT64_MAX, Ok((Uint64, 1))),
    ((Uint64, 1), Add, (Int64, -1), Ok((Uint64, 0))),
];

// Quotients and remainders.
const QUOTIENTS: [Row; 24] = [
    ((Int, -7), Divide, (Int, 2), Ok((Int, -3))),
    ((Int, -7), Remainder, (Int, 2), Ok((Int, -1))),
    ((Int, 7), Divide, (Int, -2), Ok((Int, -3))),
    ((Int, 7), Remainder, (Int, -2), Ok((Int, 1))),
    ((Int, -7), Divide, (Int, -2), Ok((Int, 3))),
    ((Int, -7), Remainder, (Int, -2), Ok((Int, -1))),
    (INT_MIN, Divide, (Int, -1), Err(Overflow)),
    (INT_MIN, Remainder, (Int, -1), Err(Overflow)),
    (INT_MIN, Divide, (Int, 1), Ok(INT_MIN)),
    (INT_MIN, Remainder, (Int, 1), Ok((Int, 0))),
    (INT_MIN, Divide, (Int, 0), Err(DivZero)),
    (INT_MIN, Remainder, (Int, 0), Err(DivZero)),
    ((Unsigned, 0), Divide, (Unsigned, 0), Err(DivZero)),
    ((Unsigned, 5), Remainder, (Uint8, 0), Err(DivZero)),
    ((Int, 1), Divide, (Uint64, 0), Err(DivZero)),
    ((Int8, -128), Divide, (Int8, -1), Ok((Int, 128))),
    ((Int16, -32_768), Remainder, (Int16, -1), Ok((Int, 0))),
    (INT64_MIN, Divide, (Int, -1), Err(Overflow)),
    (INT64_MIN, Remainder, (Int8, -1), Err(Overflow)),
    (
        INT64_MIN,
        Divide,
        (Int, 3),
        Ok((Int64, -3_074_457_345_618_258_602)),
    ),
    (
        (Int, -7),
        Divide,
        (Unsigned, 2),
        Ok((Unsigned, 2_147_483_644)),
    ),
    ((Int, -7), Remainder, (Unsigned, 2), Ok((Unsigned, 1))),
    (UINT64_MAX, Divide, (Int, -1), Ok((Uint64, 1))),
    (UINT64_MAX, Remainder, (Int, 10), Ok((Uint64, 5))),
];

// The operators on bits.
const BITS: [Row; 10] = [
    ((Int, 12), BitAnd, (Int, 10), Ok((Int, 8))),
    ((Int, 12), BitOr, (Int, 10), Ok((Int, 14))),
    ((Int, 12), BitXor, (Int, 10), Ok((Int, 6))),
    ((Int, -1), BitAnd, (Int, 255), Ok((Int, 255))),
    ((Int, -1), BitAnd, (Unsigned, 255), Ok((Unsigned, 255))),
    ((Int8, -1), BitOr, (Uint8, 0), Ok((Int, -1))),
    ((Int8, -1), BitXor, (Unsigned, 0), Ok(UINT_MAX)),
    ((Int, -1), BitAnd, UINT64_MAX, Ok(UINT64_MAX)),
    (
        (Uint32, 4_294_967_295),
        BitOr,
        (Int64, 0),
        Ok((Int64, 4_294_967_295)),
    ),
    (INT64_MIN, BitXor, (Int, -1), Ok(INT64_MAX)),
];

// Shifts, whose right operand has a type of its own.
const SHIFTS: [Row; 32] = [
    ((Int, 1), ShiftLeft, (Int, 30), Ok((Int, 1_073_741_824))),
    ((Int, 1), ShiftLeft, (Int, 31), Err(Shift)),
    ((Int, 1), ShiftLeft, (Int, 32), Err(Shift)),
    ((Int, 1), ShiftLeft, (Int, -1), Err(Shift)),
    ((Int, -1), ShiftLeft, (Int, 0), Err(Shift)),
    ((Int, 0), ShiftLeft, (Int, 31), Ok((Int, 0))),
    (INT_MAX, ShiftLeft, (Int, 0), Ok(INT_MAX)),
    (
        (Unsigned, 1),
        ShiftLeft,
        (Int, 31),
        Ok((Unsigned, 2_147_483_648)),
    ),
    ((Unsigned, 1), ShiftLeft, (Int, 32), Err(Shift)),
    ((Unsigned, 1), ShiftLeft, (Int, -1), Err(Shift)),
    (
        (Unsigned, 3),
        ShiftLeft,
        (Unsigned, 31),
        Ok((Unsigned, 2_147_483_648)),
    ),
    ((Uint8, 127), ShiftLeft, (Int, 24), Ok((Int, 2_130_706_432))),
    ((Uint8, 255), ShiftLeft, (Int, 24), Err(Shift)),
    ((Uint8, 1), ShiftLeft, (Uint8, 8), Ok((Int, 256))),
    ((Int, 1), ShiftLeft, (Uint64, 30), Ok((Int, 1_073_741_824))),
    (
        (Unsigned, 1),
        ShiftLeft,
        (Uint64, 4_294_967_296),
        Err(Shift),
    ),
    (
        (Int64, 1),
        ShiftLeft,
        (Int, 62),
        Ok((Int64, 4_611_686_018_427_387_904)),
    ),
    ((Int64, 1), ShiftLeft, (Int, 63), Err(Shift)),
    (
        (Uint64, 1),
        ShiftLeft,
        (Int, 63),
        Ok((Uint64, 9_223_372_036_854_775_808)),
    ),
    ((Uint64, 1), ShiftLeft, (Int, 64), Err(Shift)),
    (
        UINT64_MAX,
        ShiftLeft,
        (Int, 63),
        Ok((Uint64, 9_223_372_036_854_775_808)),
    ),
    ((Int, -1), ShiftRight, (Int, 1), Ok((Int, -1))),
    ((Int, -5), ShiftRight, (Int, 1), Ok((Int, -3))),
    (INT_MIN, ShiftRight, (Int, 31), Ok((Int, -1))),
    ((Int, -1), ShiftRight, (Int, 32), Err(Shift)),
    ((Int, 1), ShiftRight, (Int, -1), Err(Shift)),
    ((Int8, -128), ShiftRight, (Int, 1), Ok((Int, -64))),
    ((Uint8, 128), ShiftRight, (Int, 1), Ok((Int, 64))),
    (UINT_MAX, ShiftRight, (Int, 31), Ok((Unsigned, 1))),
    (INT64_MIN, ShiftRight, (Int, 63), Ok((Int64, -1))),
    (UINT64_MAX, ShiftRight, (Int, 63), Ok((Uint64, 1))),
    ((Int16, 1), ShiftRight, (Int64, 2), Ok((Int, 0))),
];

// Comparisons, and the two operators on truth.
const COMPARISONS: [Row; 21] = [
    ((Int, -1), Less, (Int, 1), Ok((Int, 1))),
    ((Int, -1), Less, (Unsigned, 1), Ok((Int, 0))),
    ((Int, -1), Greater, (Unsigned, 1), Ok((Int, 1))),
    ((Int, -1), GreaterEqual, (Unsigned, 0), Ok((Int, 1))),
    ((Int64, -1), Less, (Unsigned, 1), Ok((Int, 1))),
    ((Int, -1), LessEqual, (Uint64, 0), Ok((Int, 0))),
    ((Uint16, 65_535), Greater, (Int, -1), Ok((Int, 1))),
    (INT64_MIN, Less, INT64_MAX, Ok((Int, 1))),
    (
        (Uint64, 9_223_372_036_854_775_808),
        Greater,
        INT64_MAX,
        Ok((Int, 1)),
    ),
    ((Int, 5), LessEqual, (Int, 5), Ok((Int, 1))),
    ((Int, 5), Less, (Int, 5), Ok((Int, 0))),
    ((Int, 5), GreaterEqual, (Int, 6), Ok((Int, 0))),
    ((Int, -1), Equal, UINT_MAX, Ok((Int, 1))),
    ((Int64, -1), Equal, UINT_MAX, Ok((Int, 0))),
    ((Uint8, 255), Equal, (Int8, -1), Ok((Int, 0))),
    (INT_MIN, NotEqual, (Unsigned, 2_147_483_648), Ok((Int, 0))),
    ((Int, 5), NotEqual, (Int, 6), Ok((Int, 1))),
    ((Int, 0), OrElse, (Unsigned, 0), Ok((Int, 0))),
    ((Int, 0), OrElse, (Int, -3), Ok((Int, 1))),
    (
        (Int, 2),
        AndThen,
        (Uint64, 9_223_372_036_854_775_808),
        Ok((Int, 1)),
    ),
    ((Int, 2), AndThen, (Int8, 0), Ok((Int, 0))),
];

// The operators with one operand.
const UNARY: [UnaryRow; 17] = [
    (Negate, INT_MAX, Ok((Int, -2_147_483_647))),
    (Negate, INT_MIN, Err(Overflow)),
    (Negate, (Unsigned, 0), Ok((Unsigned, 0))),
    (Negate, (Unsigned, 1), Ok(UINT_MAX)),
    (Negate, (Uint8, 1), Ok((Int, -1))),
    (Negate, (Int8, -128), Ok((Int, 128))),
    (Negate, INT64_MIN, Err(Overflow)),
    (Negate, (Uint64, 1), Ok(UINT64_MAX)),
    (Complement, (Int, 0), Ok((Int, -1))),
    (Complement, (Unsigned, 0), Ok(UINT_MAX)),
    (Complement, (Uint8, 0), Ok((Int, -1))),
    (Complement, (Int64, 5), Ok((Int64, -6))),
    (
        Complement,
        (Uint64, 1),
        Ok((Uint64, 18_446_744_073_709_551_614)),
    ),
    (Not, (Int, 0), Ok((Int, 1))),
    (Not, (Unsigned, 7), Ok((Int, 0))),
    (Not, (Int8, -128), Ok((Int, 0))),
    (Not, (Uint64, 0), Ok((Int, 1))),
];

// Conversions: to a type, from a value.
const CONVERSIONS: [(IntType, Number, i128); 14] = [
    (Int8, (Int, 200), -56),
    (Int8, (Int, 384), -128),
    (Uint8, (Int, -1), 255),
    (Uint8, (Uint16, 511), 255),
    (Int16, (Uint16, 40_000), -25_536),
    (Uint16, (Int, 65_536), 0),
    (Int, (Uint32, 4_294_967_295), -1),
    (Int32, (Int64, 4_294_967_296), 0),
    (Uint32, (Int64, -4_294_967_297), 4_294_967_295),
    (Unsigned, (Int8, -128), 4_294_967_168),
    (Int64, (Uint32, 4_294_967_295), 4_294_967_295),
    (Int64, (Int8, -1), -1),
    (
        Int64,
        (Uint64, 9_223_372_036_854_775_808),
        -9_223_372_036_854_775_808,
    ),
    (Uint64, (Int, -1), 18_446_744_073_709_551_615),
];

/// The word of a number that its type can hold: in two's complement, with zeros above the width.
fn value_of((named, number): Number) -> Value {
    let of = integer_of(named);
    let unused = 64_u8.saturating_sub(of.bits).min(63);
    let low = (number.cast_unsigned() & u128::from(u64::MAX)) as u64;
    Value {
        of,
        word: (low << unused) >> unused,
    }
}

fn result_of(gives: Result<Number, Reason>) -> Result<Value, Reason> {
    match gives {
        Ok(number) => Ok(value_of(number)),
        Err(reason) => Err(reason),
    }
}

/// The number of the first row that gives something else.
fn first_wrong(rows: &[Row]) -> Option<usize> {
    for (i, (left, op, right, gives)) in rows.iter().enumerate() {
        let found = binary(*op, value_of(*left), value_of(*right));
        if found != result_of(*gives) {
            return Some(i);
        }
    }
    None
}

#[test]
fn two_operands(rt: HostRuntime) {
    assert_eq!(rt; first_wrong(&SUMS), None);
    assert_eq!(rt; first_wrong(&QUOTIENTS), None);
    assert_eq!(rt; first_wrong(&BITS), None);
    assert_eq!(rt; first_wrong(&SHIFTS), None);
    assert_eq!(rt; first_wrong(&COMPARISONS), None);
}

/// The number of the first row that gives something else.
fn first_wrong_unary(rows: &[UnaryRow]) -> Option<usize> {
    for (i, (op, operand, gives)) in rows.iter().enumerate() {
        let found = match *op {
            UnaryOp::Load | UnaryOp::Address => Err(Reason::Unset),
            arithmetic => unary(arithmetic, value_of(*operand)),
        };
        if found != result_of(*gives) {
            return Some(i);
        }
    }
    None
}

#[test]
fn one_operand(rt: HostRuntime) {
    assert_eq!(rt; first_wrong_unary(&UNARY), None);
}

/// The number of the first row that gives something else.
fn first_wrong_conversion(rows: &[(IntType, Number, i128)]) -> Option<usize> {
    for (i, (to, from, wanted)) in rows.iter().enumerate() {
        let value = value_of(*from);
        let wanted = value_of((*to, *wanted));
        if converted(wanted.of, value.of, value.word) != wanted.word {
            return Some(i);
        }
    }
    None
}

#[test]
fn conversions(rt: HostRuntime) {
    assert_eq!(rt; first_wrong_conversion(&CONVERSIONS), None);
}

// The types that the typer asks for: operands of each rank and sign, and the operators that don't take the common type.
#[test]
fn types_of_results(rt: HostRuntime) {
    let narrow = integer_of(Uint8);
    let unsigned = integer_of(Unsigned);
    let long = integer_of(Int64);
    assert_eq!(rt; integer_of(Int32), INT);
    assert_eq!(rt; promoted(narrow), INT);
    assert_eq!(rt; common(narrow, integer_of(Int16)), INT);
    assert_eq!(rt; common(INT, unsigned), unsigned);
    assert_eq!(rt; common(long, unsigned), long);
    assert_eq!(rt; common(long, integer_of(Uint64)), integer_of(Uint64));
    assert_eq!(rt; type_of_binary(ShiftLeft, narrow, long), INT);
    assert_eq!(rt; type_of_binary(Add, narrow, long), long);
    assert_eq!(rt; type_of_binary(Less, unsigned, long), INT);
    assert_eq!(rt; type_of_unary(Complement, unsigned), unsigned);
    assert_eq!(rt; type_of_unary(Not, long), INT);
}

// Each operator on two words of `int`, and the words as integers.
#[test]
fn words_of_int(rt: HostRuntime) {
    let minus_one = 0xffff_ffff;
    assert_eq!(rt; add(INT, 2, 3), Ok(5));
    assert_eq!(rt; subtract(INT, 2, 3), Ok(minus_one));
    assert_eq!(rt; multiply(INT, 6, 7), Ok(42));
    assert_eq!(rt; divide(INT, 7, 2), Ok(3));
    assert_eq!(rt; remainder(INT, 7, 2), Ok(1));
    assert_eq!(rt; negated(INT, 1), Ok(minus_one));
    assert_eq!(rt; shift_left(INT, INT, 1, 4), Ok(16));
    assert_eq!(rt; shift_right(INT, INT, 16, 4), Ok(1));
    assert_eq!(rt;
        [and(INT, 12, 10), or(INT, 12, 10), xor(INT, 12, 10)],
        [8, 14, 6]
    );
    assert_eq!(rt; complement(INT, 0), minus_one);
    assert!(rt; equal(INT, 5, 5) && less(INT, minus_one, 0) && less_equal(INT, 5, 5));
    assert!(rt; truth(INT, 2) && !truth(INT, 0));
    assert_eq!(rt; reading(INT, minus_one), -1);
    assert!(rt; can_hold(INT, 2_147_483_647) && !can_hold(INT, 2_147_483_648));
    assert_eq!(rt; width(INT), 32);
}
