//! The lines of a configuration's text.
ghost use Rattle.std.specs.Prelude.{◌≡◌, ◌≢◌, ◌^◌, map, slice_set, nat_lt, IfOk, IfErr};
ghost use Rattle.vg_stree.specs.Declarations.{field_bytes};
ghost use Rattle.vg_conf.specs.declared.fault.ConfFault.TheVariants as faults;
ghost use Rattle.vg_conf.specs.Lines as lines;
ghost use Rattle.vg_conf.specs.Numbers as numbers;
ghost use Rattle.vg_conf.specs.Named as named;

use crate::fault::ConfFault;
use crate::given::{CellLine, Given};
use crate::named::{field_named, number_named, table_named, vector_named};
use crate::numbers::{address_in, decimal_in, number_in};
use crate::pieces::cut;
use std::alloc::Global;
use vg_parts::Memory;
use vg_stree::{FieldType, Number, Object, ObjectKind, Route, Spec};

// How many routes a configuration may have.
const MOST_ROUTES: usize = 65536;

// Whether a value lies in a range.
fn is_within(low: u64, high: u64, value: u64) -> bool
    ensures { result ≡ lines.is_within low high value }
{
    low <= value && value <= high
}

// What is given with this value for the declared number at a place.
fn with_number(mut given: Given, place: usize, value: u64) -> Given
    ensures { result ≡ record given { numbers = slice_set given.numbers place (Some value) } }
{
    if place < given.numbers.len() {
        given.numbers[place] = Some(value);
    }
    given
}

// A declared number is given, by what was given of it before: once, and then in its range.
fn give_once(
    given: Given,
    place: usize,
    number: Number,
    value: u64,
    before: Option<Option<u64>>,
) -> Result<Given, ConfFault>
    ensures done { IfOk result (λ next. lines.give_once given place number value before ≡ Ok next) }
    ensures refused { IfErr result (λ fault. fault ≢ faults.Memory → lines.give_once given place number value before ≡ Err fault) }
{
    match before {
        Some(Some(_earlier)) => Err(ConfFault::Twice(number.at)),
        _ => {
            if is_within(number.low, number.high, value) {
                Ok(with_number(given, place, value))
            } else {
                Err(ConfFault::Range(number.at))
            }
        }
    }
}

// A declared number is given.
fn give(
    line: u64,
    given: Given,
    place: usize,
    number: Option<Number>,
    value: u64,
) -> Result<Given, ConfFault>
    ensures done { IfOk result (λ next. lines.give line given place number value ≡ Ok next) }
    ensures refused { IfErr result (λ fault. fault ≢ faults.Memory → lines.give line given place number value ≡ Err fault) }
{
    let Some(number) = number else {
        return Err(ConfFault::Line(line));
    };
    let before = given.numbers.get(place).copied();
    give_once(given, place, number, value, before)
}

// `NAME NUMBER`.
fn number_line(
    alloc: Global,
    spec: &Spec,
    line: u64,
    given: Given,
    name: &[u8],
    number: &[u8],
) -> Result<Given, ConfFault>
    ensures done { IfOk result (λ next. lines.number_line spec.now line given (named.number_named spec.now name.now) (numbers.number_in number.now) ≡ Ok next) }
    ensures refused { IfErr result (λ fault. fault ≢ faults.Memory → lines.number_line spec.now line given (named.number_named spec.now name.now)
        (numbers.number_in number.now) ≡ Err fault) }
{
    let value = number_in(alloc, number)?;
    let (Some(place), Some(value)) = (number_named(spec, name), value) else {
        return Err(ConfFault::Line(line));
    };
    let number = spec.shape().numbers().get(place).copied();
    give(line, given, place, number, value)
}

// The first bits of addresses: an address, and how many of its bits count.
#[derive(Clone, Copy)]
struct Prefix {
    address: u32,
    len: u8,
}

// An address and a length of at most 32 bits.
fn prefix_of(address: Option<u32>, len: Option<u64>) -> Option<Prefix>
    ensures { result ≡ lines.prefix_of address len }
{
    match (address, len) {
        (Some(address), Some(len)) if len <= 32 => Some(Prefix {
            address,
            len: len as u8,
        }),
        _ => None,
    }
}

// `A.B.C.D/LEN`, by its parts.
fn prefix_by(alloc: Global, parts: &[&[u8]]) -> Result<Option<Prefix>, Memory>
    ensures { IfOk result (λ found. found ≡ lines.prefix_by (map (λ part. part.now) parts.now)) }
{
    let [address, len] = parts else {
        return Ok(None);
    };
    Ok(prefix_of(address_in(alloc, address)?, decimal_in(len)))
}

// `A.B.C.D/LEN`.
fn prefix_in(alloc: Global, word: &[u8]) -> Result<Option<Prefix>, Memory>
    ensures { IfOk result (λ found. found ≡ lines.prefix_in word.now) }
{
    let parts = cut(alloc, b'/', word)?;
    prefix_by(alloc, &parts)
}

// A number among objects or fields, as far as numbers go.
fn as_number(place: usize) -> Result<u16, Memory>
    ensures { IfOk result (λ number. number ≡ place) }
{
    match u16::try_from(place) {
        Ok(number) => Ok(number),
        Err(_) => Err(Memory),
    }
}

// `route TABLE A.B.C.D/LEN NUMBER`, by the table's number among the objects, the prefix and the value: that lies in the table's range, and there is
// room for one more route.
fn route_line(
    spec: &Spec,
    line: u64,
    mut given: Given,
    table: Option<usize>,
    prefix: Option<Prefix>,
    value: Option<u64>,
) -> Result<Given, ConfFault>
    ensures done { IfOk result (λ next. lines.route_line spec.now line given table prefix value ≡ Ok next) }
    ensures refused { IfErr result (λ fault. fault ≢ faults.Memory → lines.route_line spec.now line given table prefix value ≡ Err fault) }
{
    let (Some(table), Some(prefix), Some(value)) = (table, prefix, value) else {
        return Err(ConfFault::Line(line));
    };
    let Some(object) = spec.shape().objects().get(table).copied() else {
        return Err(ConfFault::Line(line));
    };
    let ObjectKind::Table { low, high } = object.kind else {
        return Err(ConfFault::Line(line));
    };
    if given.routes.len() >= MOST_ROUTES {
        return Err(ConfFault::Line(line));
    }
    if !is_within(u64::from(low), u64::from(high), value) {
        return Err(ConfFault::Range(object.at));
    }
    given.routes.push(Route {
        table: as_number(table)?,
        address: prefix.address,
        len: prefix.len,
        value: value as u16,
    })?;
    Ok(given)
}

// Whether a field holds a value.
fn is_held(value: u64, of: FieldType) -> bool
    ensures { result ≡ nat_lt value (256 ^ field_bytes of) }
{
    match 256u64.checked_pow(u32::from(of.bytes())) {
        Some(limit) => value < limit,
        None => true,
    }
}

// The struct of a vector's cells, where an object is a vector of its own.
fn struct_in(object: Option<Object>) -> Option<u16>
    ensures { result ≡ lines.struct_in object }
{
    match object?.kind {
        ObjectKind::Vector { cell, .. } => Some(cell),
        _ => None,
    }
}

// `cell VECTOR INDEX FIELD NUMBER`, by the vector's number among the objects, the index, the word for the field, and the value, which the field
// holds.
fn cell_line(
    spec: &Spec,
    line: u64,
    mut given: Given,
    vector: Option<usize>,
    index: Option<u64>,
    field: &[u8],
    value: Option<u64>,
) -> Result<Given, ConfFault>
    ensures done { IfOk result (λ next. lines.cell_line spec.now line given vector index field.now value ≡ Ok next) }
    ensures refused { IfErr result (λ fault. fault ≢ faults.Memory → lines.cell_line spec.now line given vector index field.now value ≡ Err fault) }
{
    let (Some(vector), Some(index), Some(value)) = (vector, index, value) else {
        return Err(ConfFault::Line(line));
    };
    let Some(cell) = struct_in(spec.shape().objects().get(vector).copied()) else {
        return Err(ConfFault::Line(line));
    };
    let Some(place) = field_named(spec, cell, field) else {
        return Err(ConfFault::Line(line));
    };
    let Some(declared) = spec.shape().fields_of(cell).get(place).copied() else {
        return Err(ConfFault::Line(line));
    };
    if !is_held(value, declared.of) {
        return Err(ConfFault::Line(line));
    }
    given.cells.push(CellLine {
        line,
        vector: as_number(vector)?,
        index,
        field: as_number(place)?,
        value,
    })?;
    Ok(given)
}

// A line of four words.
fn after_four(
    alloc: Global,
    spec: &Spec,
    line: u64,
    given: Given,
    first: &[u8],
    table: &[u8],
    prefix: &[u8],
    number: &[u8],
) -> Result<Given, ConfFault>
    ensures done { IfOk result (λ next. lines.after_four spec.now line given first.now table.now prefix.now number.now ≡ Ok next) }
    ensures refused { IfErr result (λ fault. fault ≢ faults.Memory → lines.after_four spec.now line given first.now table.now prefix.now number.now ≡
        Err fault) }
{
    if first != b"route".as_slice() {
        return Err(ConfFault::Line(line));
    }
    let prefix = prefix_in(alloc, prefix)?;
    let value = number_in(alloc, number)?;
    route_line(spec, line, given, table_named(spec, table), prefix, value)
}

// A line of five words.
fn after_five(
    alloc: Global,
    spec: &Spec,
    line: u64,
    given: Given,
    first: &[u8],
    vector: &[u8],
    index: &[u8],
    field: &[u8],
    number: &[u8],
) -> Result<Given, ConfFault>
    ensures done { IfOk result (λ next. lines.after_five spec.now line given first.now vector.now index.now field.now number.now ≡ Ok next) }
    ensures refused { IfErr result (λ fault. fault ≢ faults.Memory → lines.after_five spec.now line given first.now vector.now index.now field.now
        number.now ≡ Err fault) }
{
    if first != b"cell".as_slice() {
        return Err(ConfFault::Line(line));
    }
    let index = number_in(alloc, index)?;
    let value = number_in(alloc, number)?;
    cell_line(
        spec,
        line,
        given,
        vector_named(spec, vector),
        index,
        field,
        value,
    )
}

// A line, by its words.
#[tactic(auto, using(crate::proofs::LineLaws::other_words))]
fn after_words(
    alloc: Global,
    spec: &Spec,
    line: u64,
    given: Given,
    words: &[&[u8]],
) -> Result<Given, ConfFault>
    ensures done { IfOk result (λ next. lines.after_words spec.now line given (map (λ word. word.now) words.now) ≡ Ok next) }
    ensures refused { IfErr result (λ fault. fault ≢ faults.Memory → lines.after_words spec.now line given (map (λ word. word.now) words.now) ≡ Err fault) }
{
    match words {
        [] => Err(ConfFault::Line(line)),
        [_] => Err(ConfFault::Line(line)),
        [name, number] => number_line(alloc, spec, line, given, name, number),
        [_, _, _] => Err(ConfFault::Line(line)),
        [first, table, prefix, number] => after_four(
            alloc, spec, line, given, first, table, prefix, number,
        ),
        [first, vector, index, field, number] => after_five(
            alloc, spec, line, given, first, vector, index, field, number,
        ),
        [_, _, _, _, _, _, ..] => Err(ConfFault::Line(line)),
    }
}

// Whether a line is empty or a comment.
fn is_skipped(line: &[u8]) -> bool
    ensures { result ≡ lines.is_skipped line.now }
{
    matches!(line, [] | [b'#', ..])
}

// A line.
fn after_line(
    alloc: Global,
    spec: &Spec,
    line: u64,
    given: Given,
    bytes: &[u8],
) -> Result<Given, ConfFault>
    ensures done { IfOk result (λ next. lines.after_line spec.now line given bytes.now ≡ Ok next) }
    ensures refused { IfErr result (λ fault. fault ≢ faults.Memory → lines.after_line spec.now line given bytes.now ≡ Err fault) }
{
    if is_skipped(bytes) {
        return Ok(given);
    }
    let words = cut(alloc, b' ', bytes)?;
    after_words(alloc, spec, line, given, &words)
}

/// What the lines of a text give, or why the first bad one is refused.
pub fn gathered(alloc: Global, spec: &Spec, text: &[u8]) -> Result<Given, ConfFault>
    ensures done { IfOk result (λ next. lines.gathered spec.now text.now ≡ Ok next) }
    ensures refused { IfErr result (λ fault. fault ≢ faults.Memory → lines.gathered spec.now text.now ≡ Err fault) }
{
    let mut given = Given::new(alloc, spec)?;
    let mut line = 0;
    for bytes in &cut(alloc, b'\n', text)? {
        line += 1;
        given = after_line(alloc, spec, line, given, bytes)?;
    }
    Ok(given)
}
