//! Operators on what expressions gave (C11 6.5.3.3, 6.5.5 to 6.5.12).
ghost use Rattle.std.specs.Prelude.{◌≡◌, ◌≢◌};
ghost use Rattle.vg_cmean.specs.Outcomes.{gives};
ghost use Rattle.vg_cmean.specs.Values as values;
ghost use Rattle.vg_cmean.specs.Meaning as meaning;
ghost use Rattle.vg_cmemory.specs.State.{State};

use crate::datum::Datum;
use crate::fault::{Fault, or_wrong};
use crate::values::{number, word_of};
use vg_cint::{INT, Value, truth};
use vg_core::{BinaryOp, UnaryOp};

/// `a op b`. The faults of the operator stand at a place.
pub fn binary(op: BinaryOp, at: u32, a: Datum, b: Datum) -> Result<Datum, Fault>
    ensures { (s : State) → gives result s ≡ values.binary op at a b s }
{
    let value = or_wrong(vg_cint::binary(op, word_of(a), word_of(b)), at)?;
    Ok(Datum::Word(value))
}

/// `-a`, `~a` or `!a`.
pub fn unary(op: UnaryOp, at: u32, a: Datum) -> Result<Datum, Fault>
    requires no_load { op ≢ UnaryOp.Load }
    requires no_address { op ≢ UnaryOp.Address }
    ensures { (s : State) → gives result s ≡ values.unary op at a s }
{
    let value = or_wrong(vg_cint::unary(op, word_of(a)), at)?;
    Ok(Datum::Word(value))
}

/// 1, as an `int`.
pub const ONE: Datum = Datum::Word(Value { of: INT, word: 1 });

/// Whether a loop's counter is below its bound.
pub fn is_below(counter: Value, bound: Value) -> bool
    ensures { result ≡ meaning.is_below counter bound }
{
    match vg_cint::binary(BinaryOp::Less, counter, bound) {
        Ok(value) => truth(value.of, value.word),
        Err(_) => false,
    }
}

/// A loop's counter a step further.
pub fn next_of(counter: Value, step: u64) -> Value
    ensures { result ≡ meaning.next_of counter step }
{
    number(counter.of, counter.word.wrapping_add(step))
}
