//! What types are: integers, pointers, structs, and what is made of them.
ghost use Rattle.std.specs.Prelude.{◌≡◌};
ghost use Rattle.vg_ctyper.specs.Types as types;

use vg_cint::{Value, converted, integer_of, less};
use vg_core::{BinaryOp, CType, IntType, Integer, Target};

/// `uint64_t`, the type of `sizeof`.
pub(crate) const UNSIGNED_64: Integer = Integer {
    bits: 64,
    signed: false,
};

pub(crate) fn of_integer(of: Integer) -> CType
    ensures { result ≡ types.of_integer of }
{
    CType::Int {
        bits: of.bits,
        signed: of.signed,
    }
}

pub(crate) fn as_integer(of: CType) -> Option<Integer>
    ensures { result ≡ types.as_integer of }
{
    match of {
        CType::Int { bits, signed } => Some(Integer { bits, signed }),
        _ => None,
    }
}

pub(crate) fn of_target(target: Target) -> CType
    ensures { result ≡ types.of_target target }
{
    match target {
        Target::Void => CType::Void,
        Target::Int { bits, signed } => CType::Int { bits, signed },
        Target::Struct(tag) => CType::Struct(tag),
    }
}

/// What `*`, `->` and `[]` come to: what a pointer points to, or an array is of.
pub(crate) fn pointee(of: CType) -> Option<Target>
    ensures { result ≡ types.pointee of }
{
    match of {
        CType::Pointer(Target::Void) => None,
        CType::Pointer(target) | CType::Array(target, _) => Some(target),
        _ => None,
    }
}

/// What a pointer points to, also to `void`; an array is used as a pointer to its first element.
pub(crate) fn pointed(of: CType) -> Option<Target>
    ensures { result ≡ types.pointed of }
{
    match of {
        CType::Pointer(target) | CType::Array(target, _) => Some(target),
        _ => None,
    }
}

/// The type of `&` of an object.
pub(crate) fn address(of: CType) -> Option<CType>
    ensures { result ≡ types.address of }
{
    match of {
        CType::Int { bits, signed } => Some(CType::Pointer(Target::Int { bits, signed })),
        CType::Struct(tag) => Some(CType::Pointer(Target::Struct(tag))),
        _ => None,
    }
}

pub(crate) fn as_struct(of: CType) -> Option<Target>
    ensures { result ≡ types.as_struct of }
{
    match of {
        CType::Struct(tag) => Some(Target::Struct(tag)),
        _ => None,
    }
}

/// A value as a whole number, where it is at least 0 and below 2^32.
pub(crate) fn number(value: Value) -> Option<u32>
    ensures { result ≡ types.number value }
{
    if less(value.of, value.word, 0) {
        None
    } else {
        below_2_32(converted(UNSIGNED_64, value.of, value.word))
    }
}

pub(crate) fn below_2_32(word: u64) -> Option<u32>
    ensures { result ≡ types.below_2_32 word }
{
    if word < 1 << 32 {
        Some(word as u32)
    } else {
        None
    }
}

pub(crate) fn is_constant_op(op: BinaryOp) -> bool
    ensures { result ≡ types.is_constant_op op }
{
    matches!(op, BinaryOp::Add | BinaryOp::Subtract | BinaryOp::Multiply)
}

/// The length of an array, from 1 to 65,536.
pub(crate) fn as_length(number: u32) -> Option<u32>
    ensures { result ≡ types.as_length number }
{
    if 0 < number && number <= 65536 {
        Some(number)
    } else {
        None
    }
}

pub(crate) fn answer_type(answer: Option<IntType>) -> CType
    ensures { result ≡ types.answer_type answer }
{
    match answer {
        Some(of) => of_integer(integer_of(of)),
        None => CType::Void,
    }
}

/// A cast goes from integers to integers, and from pointers to pointers.
pub(crate) fn cast_type(pointer: bool, target: Target, from: CType) -> Option<CType>
    ensures { result ≡ types.cast_type pointer target from }
{
    if pointer {
        let _target = pointed(from)?;
        Some(CType::Pointer(target))
    } else {
        let _to = as_integer(of_target(target))?;
        let _from = as_integer(from)?;
        Some(of_target(target))
    }
}
