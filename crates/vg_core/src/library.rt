//! The calls of the library.
ghost use Rattle.std.specs.Prelude.{◌≡◌, ◌<◌, map, length};
ghost use Rattle.vg_core.specs.Library.{rows, row_named, number_from, answer_of, answer_from, takes, takes_from};

use crate::tree::HandleKind;
use crate::types::{CType, Target};

/// A call of the library: its name, what it answers, and what it takes.
pub type Row = (&'static str, CType, &'static [CType]);

const ANY_POINTER: CType = CType::Pointer(Target::Void);

const INT: CType = CType::Int {
    bits: 32,
    signed: true,
};

const U32: CType = CType::Int {
    bits: 32,
    signed: false,
};

const U64: CType = CType::Int {
    bits: 64,
    signed: false,
};

const TO_U16: CType = CType::Pointer(Target::Int {
    bits: 16,
    signed: false,
});

const TO_U32: CType = CType::Pointer(Target::Int {
    bits: 32,
    signed: false,
});

const MAP: CType = CType::Handle(HandleKind::Map);

const CHAIN: CType = CType::Handle(HandleKind::Chain);

const VECTOR: CType = CType::Handle(HandleKind::Vector);

const PREFIX: CType = CType::Handle(HandleKind::Prefix);

/// The library's table. Its rows are numbered from 1.
pub fn library_rows() -> &'static [Row]
    ensures { map (λ row. (row.0.now, row.1, row.2.now)) result.now ≡ rows }
{
    &[
        ("packet_length", U32, &[]),
        ("packet_borrow", ANY_POINTER, &[U32]),
        ("packet_return", CType::Void, &[ANY_POINTER]),
        ("map_get", INT, &[MAP, ANY_POINTER, TO_U32]),
        ("map_put", CType::Void, &[MAP, ANY_POINTER, U32]),
        ("map_erase", CType::Void, &[MAP, ANY_POINTER]),
        ("map_size", U32, &[MAP]),
        ("chain_allocate", INT, &[CHAIN, TO_U32, U64]),
        ("chain_is_allocated", INT, &[CHAIN, U32]),
        ("chain_rejuvenate", CType::Void, &[CHAIN, U32, U64]),
        ("chain_free", CType::Void, &[CHAIN, U32]),
        ("expire_items", U32, &[MAP, CHAIN, VECTOR, U64]),
        ("vector_borrow", ANY_POINTER, &[VECTOR, U32]),
        ("vector_return", CType::Void, &[VECTOR, ANY_POINTER]),
        ("prefix_lookup", INT, &[PREFIX, U32, TO_U16]),
    ]
}

/// The number of the row with a name.
pub fn library_row(name: &[u8]) -> Option<u8>
    ensures { result ≡ row_named name.now }
{
    number_of(library_rows(), name)
}

fn number_of(table: &[Row], name: &[u8]) -> Option<u8>
    requires { length table.now < 255 }
    ensures { result ≡ number_from 1 (map (λ row. (row.0.now, row.1, row.2.now)) table.now) name.now }
{
    let mut number = 1;
    for row in table {
        if row.0.as_bytes() == name {
            return Some(number);
        }
        number += 1;
    }
    None
}

/// The type of what the call with a number answers.
pub fn library_answer(number: u8) -> Option<CType>
    ensures { result ≡ answer_of number }
{
    answer_in(library_rows(), number)
}

/// The types of what the call with a number takes; none where no call has the number.
pub fn library_takes(number: u8) -> &'static [CType]
    ensures { result.now ≡ takes number }
{
    takes_in(library_rows(), number)
}

fn answer_in(table: &[Row], wanted: u8) -> Option<CType>
    requires { length table.now < 255 }
    ensures { result ≡ answer_from 1 (map (λ row. (row.0.now, row.1, row.2.now)) table.now) wanted }
{
    let mut number = 1;
    for row in table {
        let answer = answer_in_row(row);
        if number == wanted {
            return Some(answer);
        }
        number += 1;
    }
    None
}

fn answer_in_row(row: &Row) -> CType
    ensures { result ≡ row.now.1 }
{
    row.1
}

fn takes_in(table: &[Row], wanted: u8) -> &'static [CType]
    requires { length table.now < 255 }
    ensures { result.now ≡ takes_from 1 (map (λ row. (row.0.now, row.1, row.2.now)) table.now) wanted }
{
    let mut number = 1;
    for row in table {
        let takes = row.2;
        if number == wanted {
            return takes;
        }
        number += 1;
    }
    &[]
}
