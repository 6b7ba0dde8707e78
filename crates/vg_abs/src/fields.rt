//! The fields of cells as numbers.
ghost use Rattle.std.specs.Prelude.{◌≡◌, reverse};
ghost use Rattle.vg_abs.specs.Fields.{value_in, values_in};
ghost use Rattle.vg_abs.specs.FieldSteps as steps;
ghost use Rattle.vg_abs.specs.Expressions.{value_at};

use crate::start::{before, behind};
use vg_stree::{Field, FieldType};

// A number and one byte more behind it, modulo 2^64.
fn with_byte(number: u64, byte: u8) -> u64
    ensures { result ≡ steps.with_byte number byte }
{
    number.wrapping_mul(256).wrapping_add(u64::from(byte))
}

// The number of bytes, the highest first, modulo 2^64.
fn from_high(bytes: &[u8]) -> u64
    ensures { result ≡ steps.from_high bytes.now }
{
    bytes
        .iter()
        .fold(0, |number, byte| with_byte(number, *byte))
}

// The number of bytes, the lowest first, modulo 2^64.
fn from_low(bytes: &[u8]) -> u64
    ensures { result ≡ steps.from_high (reverse bytes.now) }
{
    bytes
        .iter()
        .rev()
        .fold(0, |number, byte| with_byte(number, *byte))
}

// The value of a field.
#[tactic(auto, using(crate::proofs::FieldValues::high_is, crate::proofs::FieldValues::low_is))]
fn value_of(of: FieldType, bytes: &[u8]) -> u64
    ensures { result ≡ value_in of bytes.now }
{
    match of {
        FieldType::Number(_) => from_low(bytes),
        FieldType::Bytes(_) => from_high(bytes),
    }
}

/// The value of a field of a cell, counted from 0; 0 where there is no such field.
#[tactic(auto, using(crate::proofs::FieldValues::value_here, crate::proofs::FieldValues::value_later, crate::proofs::FieldValues::value_none))]
pub fn field_value(fields: &[Field], bytes: &[u8], number: usize) -> u64
    ensures { result ≡ value_at (values_in fields.now bytes.now) number }
{
    let mut rest = bytes;
    for (i, field) in fields.iter().enumerate() {
        let size = u64::from(field.of.bytes());
        if i == number {
            return value_of(field.of, before(rest, size));
        }
        rest = behind(rest, size);
    }
    0
}
