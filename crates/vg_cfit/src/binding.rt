//! What a name of a C text is bound to in a specification.
ghost use Rattle.std.specs.Prelude.{◌≡◌};
ghost use Rattle.std.specs.List.{position_from};
ghost use Rattle.vg_cfit.specs.Bindings as bindings;

use vg_stree::{Number, Object, Spec, name_at};

/// What an extern's name is bound to.
#[derive(Clone, Copy, Debug, PartialEq, Eq)]
pub enum Binding {
    /// A number that the configuration gives, by how many are declared before it.
    Number(u16),
    /// An object of the library, by how many are declared before it.
    Object(u16),
}

/// The number or object of the specification that a name is bound to, and none where it declares neither under that name.
pub fn bound_to(spec: &Spec, word: &[u8]) -> Option<Binding>
    ensures { result ≡ bindings.binding spec.now word.now }
{
    match number_named(spec, word) {
        Some(number) => Some(Binding::Number(number)),
        None => object_named(spec, word).map(Binding::Object),
    }
}

fn number_named(spec: &Spec, word: &[u8]) -> Option<u16>
    ensures { result ≡ bindings.number_named spec.now word.now }
{
    let place = first_number(spec, spec.shape().numbers(), word)?;
    u16::try_from(place).ok()
}

fn object_named(spec: &Spec, word: &[u8]) -> Option<u16>
    ensures { result ≡ bindings.object_named spec.now word.now }
{
    let place = first_object(spec, spec.shape().objects(), word)?;
    u16::try_from(place).ok()
}

fn first_number(spec: &Spec, numbers: &[Number], word: &[u8]) -> Option<usize>
    ensures { result ≡ position_from (λ number. bindings.is_named spec.now.names number.at word.now) 0 numbers.now }
{
    let mut place = 0;
    for number in numbers {
        if name_at(spec, number.at).as_bytes() == word {
            return Some(place);
        }
        place += 1;
    }
    None
}

fn first_object(spec: &Spec, objects: &[Object], word: &[u8]) -> Option<usize>
    ensures { result ≡ position_from (λ object. bindings.is_named spec.now.names object.at word.now) 0 objects.now }
{
    let mut place = 0;
    for object in objects {
        if name_at(spec, object.at).as_bytes() == word {
            return Some(place);
        }
        place += 1;
    }
    None
}
