//! Which declared number, object or field a word names.
ghost use Rattle.std.specs.Prelude.{◌≡◌};
ghost use Rattle.vg_conf.specs.Named as named;

use vg_stree::{ObjectKind, Spec, name_at};

// Whether a word is the name that is declared at a place.
fn is_named(spec: &Spec, at: u32, word: &[u8]) -> bool
    ensures { result ≡ named.is_named spec.now.names at word.now }
{
    !word.is_empty() && name_at(spec, at).as_bytes() == word
}

/// The declared number with a name, by its place.
pub fn number_named(spec: &Spec, word: &[u8]) -> Option<usize>
    ensures { result ≡ named.number_named spec.now word.now }
{
    let mut place = 0;
    for number in spec.shape().numbers() {
        if is_named(spec, number.at, word) {
            return Some(place);
        }
        place += 1;
    }
    None
}

// Whether an object is a prefix table.
fn is_table(kind: ObjectKind) -> bool
    ensures { result ≡ named.is_table kind }
{
    matches!(kind, ObjectKind::Table { .. })
}

// Whether an object is a vector of its own.
fn is_vector(kind: ObjectKind) -> bool
    ensures { result ≡ named.is_vector kind }
{
    matches!(kind, ObjectKind::Vector { .. })
}

/// The prefix table with a name, by its number among the objects.
pub fn table_named(spec: &Spec, word: &[u8]) -> Option<usize>
    ensures { result ≡ named.table_named spec.now word.now }
{
    let mut place = 0;
    for object in spec.shape().objects() {
        if is_table(object.kind) && is_named(spec, object.at, word) {
            return Some(place);
        }
        place += 1;
    }
    None
}

/// The vector of its own with a name, by its number among the objects.
pub fn vector_named(spec: &Spec, word: &[u8]) -> Option<usize>
    ensures { result ≡ named.vector_named spec.now word.now }
{
    let mut place = 0;
    for object in spec.shape().objects() {
        if is_vector(object.kind) && is_named(spec, object.at, word) {
            return Some(place);
        }
        place += 1;
    }
    None
}

/// The field of a struct with a name, by its place.
pub fn field_named(spec: &Spec, cell: u16, word: &[u8]) -> Option<usize>
    ensures { result ≡ named.field_named spec.now cell word.now }
{
    let mut place = 0;
    for field in spec.shape().fields_of(cell) {
        if is_named(spec, field.at, word) {
            return Some(place);
        }
        place += 1;
    }
    None
}
