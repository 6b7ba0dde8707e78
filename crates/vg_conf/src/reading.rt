//! A configuration from its whole text.
ghost use Rattle.std.specs.Prelude.{◌≡◌, ◌≢◌, ◌==◌, [], All, None, IfOk, IfErr, IfSome, slice_get};
ghost use Rattle.vg_abs.specs.Lawful.{Holds};
ghost use Rattle.vg_abs.specs.Shape as shapes;
ghost use Rattle.vg_abs.specs.Opening.{IsValid};
ghost use Rattle.vg_conf.specs.declared.fault.ConfFault.TheVariants as faults;
ghost use Rattle.vg_conf.specs.Reading as reading;

use crate::fault::ConfFault;
use crate::given::{CellLine, Given};
use crate::lines::gathered;
use std::alloc::Global;
use vg_abs::{Cell, LibState, Scope, opening, rule_holds, value};
use vg_parts::Memory;
use vg_stree::{Config, Fill, Number, Object, ObjectKind, Size, Spec};

// The value of a declared number, by what lines give of it.
fn value_for(number: Number, given: &[Option<u64>], place: usize) -> Result<u64, ConfFault>
    ensures done { IfOk result (λ value. reading.value_for number (slice_get given.now place) ≡ Ok value) }
    ensures refused { IfErr result (λ fault. reading.value_for number (slice_get given.now place) ≡ Err fault) }
{
    match given.get(place).copied() {
        Some(Some(value)) => Ok(value),
        _ => Err(ConfFault::Absent(number.at)),
    }
}

// The values of all declared numbers.
fn values_of(alloc: Global, spec: &Spec, given: &[Option<u64>]) -> Result<Vec<u64>, ConfFault>
    ensures done { IfOk result (λ values. reading.values_from given.now [] spec.now.shape.numbers ≡ Ok values.items) }
    ensures refused { IfErr result (λ fault. fault ≢ faults.Memory → reading.values_from given.now [] spec.now.shape.numbers ≡ Err fault) }
{
    let mut values = Vec::new(alloc);
    for number in spec.shape().numbers() {
        let place = values.len();
        values.push(value_for(*number, given, place)?)?;
    }
    Ok(values)
}

// Whether a premise is 0.
fn is_broken(spec: &Spec, numbers: &[u64], premise: u32) -> bool
    ensures { result ≡ reading.is_broken spec.now numbers.now premise }
{
    let cell = Cell {
        fields: &[],
        bytes: &[],
    };
    let scope = Scope {
        numbers,
        cell,
        names: &[],
    };
    value(spec.code(), &scope, premise) == 0
}

// The first premise that is 0, counted from 1.
fn broken_premise(spec: &Spec, numbers: &[u64]) -> Option<u64>
    ensures { result ≡ reading.broken_premise spec.now numbers.now }
{
    let mut count = 0;
    for premise in spec.shape().premises() {
        count += 1;
        if is_broken(spec, numbers, *premise) {
            return Some(count);
        }
    }
    None
}

// A length, by the numbers.
fn size_of(numbers: &[u64], size: Size) -> u64
    ensures { result ≡ shapes.size_of numbers.now size }
{
    match size {
        Size::Count(count) => u64::from(count),
        Size::Number(number) => numbers.get(number as usize).copied().unwrap_or(0),
    }
}

// How many cells an object has, where it is a vector of its own.
fn count_in(numbers: &[u64], object: Option<Object>) -> u64
    ensures { result ≡ reading.count_in numbers.now object }
{
    match object {
        Some(object) => match object.kind {
            ObjectKind::Vector { length, .. } => size_of(numbers, length),
            _ => 0,
        },
        None => 0,
    }
}

// The number of a cell, as far as numbers go.
fn as_index(index: u64) -> Result<u32, Memory>
    ensures { IfOk result (λ number. number ≡ index) }
{
    match u32::try_from(index) {
        Ok(number) => Ok(number),
        Err(_) => Err(Memory),
    }
}

// The fill of a line, whose cell is there.
fn fill_for(spec: &Spec, numbers: &[u64], cell: CellLine) -> Result<Fill, ConfFault>
    ensures done { IfOk result (λ fill. reading.fill_for spec.now numbers.now cell ≡ Ok fill) }
    ensures refused { IfErr result (λ fault. fault ≢ faults.Memory → reading.fill_for spec.now numbers.now cell ≡ Err fault) }
{
    let object = spec.shape().objects().get(cell.vector as usize).copied();
    if cell.index >= count_in(numbers, object) {
        return Err(ConfFault::Line(cell.line));
    }
    Ok(Fill {
        vector: cell.vector,
        index: as_index(cell.index)?,
        field: cell.field,
        value: cell.value,
    })
}

// The fills of lines.
fn fills_of(
    alloc: Global,
    spec: &Spec,
    numbers: &[u64],
    cells: &[CellLine],
) -> Result<Vec<Fill>, ConfFault>
    ensures done { IfOk result (λ fills. reading.fills_from spec.now numbers.now [] cells.now ≡ Ok fills.items) }
    ensures refused { IfErr result (λ fault. fault ≢ faults.Memory → reading.fills_from spec.now numbers.now [] cells.now ≡ Err fault) }
{
    let mut fills = Vec::new(alloc);
    for cell in cells {
        fills.push(fill_for(spec, numbers, *cell)?)?;
    }
    Ok(fills)
}

// The configuration that lines give, before rules are asked.
fn drafted(alloc: Global, spec: &Spec, given: Given) -> Result<Config, ConfFault>
    ensures done { IfOk result (λ config. reading.drafted spec.now given ≡ Ok config) }
    ensures refused { IfErr result (λ fault. fault ≢ faults.Memory → reading.drafted spec.now given ≡ Err fault) }
{
    let numbers = values_of(alloc, spec, &given.numbers)?;
    if let Some(premise) = broken_premise(spec, &numbers) {
        return Err(ConfFault::Premise(premise));
    }
    let fills = fills_of(alloc, spec, &numbers, &given.cells)?;
    Ok(Config::new(numbers, given.routes, fills))
}

// The configuration that a text gives, before rules are asked.
fn draft(alloc: Global, spec: &Spec, text: &[u8]) -> Result<Config, ConfFault>
    ensures done { IfOk result (λ config. reading.draft spec.now text.now ≡ Ok config) }
    ensures refused { IfErr result (λ fault. fault ≢ faults.Memory → reading.draft spec.now text.now ≡ Err fault) }
{
    let given = gathered(alloc, spec, text)?;
    drafted(alloc, spec, given)
}

// The first rule that a state breaks, counted from 1.
fn broken_rule(spec: &Spec, numbers: &[u64], state: &LibState) -> Option<u64>
    ensures none { result ≡ None → All (Holds spec.now numbers.now state.now) spec.now.shape.rules }
    ensures first { IfSome result (λ count. reading.IsFirstBroken spec.now numbers.now state.now count) }
{
    let mut count = 0;
    for rule in spec.shape().rules() {
        count += 1;
        if !rule_holds(spec, numbers, state, *rule) {
            return Some(count);
        }
    }
    None
}

/// The configuration that the whole text gives, which is valid: `opening` makes a lawful state of it. The first fault is answered, in this order:
/// `Line`, `Twice` and `Range` by the lines in order, then `Absent`, the first declared number that no line gives; then `Premise`, the first that
/// is 0; then `Line`, the first with a cell's index out of range; then `Rule`, the first that a cell of the opening state breaks.
pub fn read_conf(alloc: Global, spec: &Spec, text: &[u8]) -> Result<Config, ConfFault>
    ensures read { IfOk result (λ config. reading.IsRead spec.now text.now (Ok config)) }
    ensures valid { IfOk result (λ config. IsValid spec.now config) }
    ensures refused { IfErr result (λ fault. fault ≢ faults.Memory → reading.IsRead spec.now text.now (Err fault)) }
{
    let config = draft(alloc, spec, text)?;
    let state = opening(alloc, spec, &config)?;
    match broken_rule(spec, config.numbers(), &state) {
        Some(count) => Err(ConfFault::Rule(count)),
        None => Ok(config),
    }
}
