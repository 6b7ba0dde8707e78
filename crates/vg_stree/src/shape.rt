//! What a specification declares.
ghost use Rattle.std.specs.Prelude.{◌≤◌, ◌^◌, length, ◌≡◌, [], ◌∷◌, ◌++◌, IfOk, OnOk};
ghost use Rattle.vg_stree.specs.Declarations.{width_bytes, field_bytes, fields_of, struct_bytes, field_place, bytes_of, empty_shape, with_number};
ghost use Rattle.vg_stree.specs.Declarations.{with_struct, with_field, with_object, with_rule, with_premise};

use crate::code::{Parts, part_of};
use std::alloc::Global;
use std::marker::Model;
use vg_parts::Memory;

/// The width of an unsigned number, in bits.
#[derive(Clone, Copy, Debug, PartialEq, Eq)]
pub enum Width {
    Bits8,
    Bits16,
    Bits32,
    Bits64,
}

impl Width {
    /// How many bytes a number takes.
    pub fn bytes(self) -> u8
        ensures { result ≡ width_bytes self }
    {
        match self {
            Width::Bits8 => 1,
            Width::Bits16 => 2,
            Width::Bits32 => 4,
            Width::Bits64 => 8,
        }
    }
}

/// A number that the configuration gives.
#[derive(Clone, Copy, Debug, PartialEq, Eq)]
pub struct Number {
    /// The place of its name in the text.
    pub at: u32,
    pub of: Width,
    /// The least value.
    pub low: u64,
    /// The greatest value.
    pub high: u64,
}

/// What a field of a struct holds.
#[derive(Clone, Copy, Debug, PartialEq, Eq)]
pub enum FieldType {
    /// An unsigned number, its lowest byte first.
    Number(Width),
    /// So many bytes, 1 to 8: a number, its highest byte first.
    Bytes(u8),
}

impl FieldType {
    /// How many bytes a field takes.
    pub fn bytes(self) -> u8
        ensures { result ≡ field_bytes self }
    {
        match self {
            FieldType::Number(width) => width.bytes(),
            FieldType::Bytes(count) => count,
        }
    }
}

/// A field of a struct.
#[derive(Clone, Copy, Debug, PartialEq, Eq)]
pub struct Field {
    /// The place of its name in the text.
    pub at: u32,
    pub of: FieldType,
}

/// A struct: its fields stand in order, without gaps.
#[derive(Clone, Copy, Debug, PartialEq, Eq)]
pub struct Struct {
    /// The place of its name in the text.
    pub at: u32,
    /// Where its fields stand among the fields of all structs.
    pub fields: Parts,
}

/// The capacity of a link or the length of a vector.
#[derive(Clone, Copy, Debug, PartialEq, Eq)]
pub enum Size {
    /// This number.
    Count(u32),
    /// What the configuration gives for the number with this number, in order of declaration.
    Number(u16),
}

/// What an object of the library is. Structs are told by their numbers, in order of declaration.
#[derive(Clone, Copy, Debug, PartialEq, Eq)]
pub enum ObjectKind {
    /// The map of a link, with the struct of its keys and its capacity. The next object is the link's chain, and the one after it its vector.
    Map { key: u16, capacity: Size },
    /// The chain of the link whose map is the object before.
    Chain,
    /// The vector of keys of the link whose map is two objects before.
    Keys,
    /// A vector of its own, with the struct of its cells and its length.
    Vector { cell: u16, length: Size },
    /// A prefix table, with the least and the greatest value of its routes.
    Table { low: u16, high: u16 },
}

/// An object of the library.
#[derive(Clone, Copy, Debug, PartialEq, Eq)]
pub struct Object {
    /// The place of its name in the text.
    pub at: u32,
    pub kind: ObjectKind,
}

/// A rule on the cells of a vector: its value must not be 0.
#[derive(Clone, Copy, Debug, PartialEq, Eq)]
pub struct Rule {
    /// The number of the vector among the objects.
    pub vector: u16,
    /// The number of the expression.
    pub value: u32,
}

/// What a specification declares: how many ports there are; the numbers that a configuration gives, the structs, and the fields of all
/// structs; the objects of the library, in order of declaration; the rules, and the premises by their expressions' numbers.
#[derive(Drop)]
pub struct Shape {
    port_count: u16,
    number_list: Vec<Number>,
    struct_list: Vec<Struct>,
    field_list: Vec<Field>,
    object_list: Vec<Object>,
    rule_list: Vec<Rule>,
    premise_list: Vec<u32>,
}

impl Model for Shape {
    ghost use Rattle.vg_stree.specs.Declarations.{width_bytes, field_bytes, fields_of, struct_bytes, field_place, bytes_of, Declarations};

    ghost Value = { Declarations };

    ghost view = { λ s. record {
      ports = s.port_count;
      numbers = s.number_list.items;
      structs = s.struct_list.items;
      fields = s.field_list.items;
      objects = s.object_list.items;
      rules = s.rule_list.items;
      premises = s.premise_list.items;
    } };
}

impl Shape {
    /// A shape with so many ports and nothing else.
    pub fn new(alloc: Global, ports: u16) -> Shape
        ensures { result ≡ empty_shape ports }
    {
        Shape {
            port_count: ports,
            number_list: Vec::new(alloc),
            struct_list: Vec::new(alloc),
            field_list: Vec::new(alloc),
            object_list: Vec::new(alloc),
            rule_list: Vec::new(alloc),
            premise_list: Vec::new(alloc),
        }
    }

    /// How many ports there are.
    pub fn ports(&self) -> u16
        ensures { result ≡ self.now.ports }
    {
        self.port_count
    }

    /// The numbers that a configuration gives.
    pub fn numbers(&self) -> &[Number]
        ensures { result.now ≡ self.now.numbers }
    {
        &self.number_list
    }

    /// The structs.
    pub fn structs(&self) -> &[Struct]
        ensures { result.now ≡ self.now.structs }
    {
        &self.struct_list
    }

    /// The fields of all structs, one struct's behind the other's.
    pub fn fields(&self) -> &[Field]
        ensures { result.now ≡ self.now.fields }
    {
        &self.field_list
    }

    /// The objects of the library.
    pub fn objects(&self) -> &[Object]
        ensures { result.now ≡ self.now.objects }
    {
        &self.object_list
    }

    /// The rules.
    pub fn rules(&self) -> &[Rule]
        ensures { result.now ≡ self.now.rules }
    {
        &self.rule_list
    }

    /// The premises, by their expressions' numbers.
    pub fn premises(&self) -> &[u32]
        ensures { result.now ≡ self.now.premises }
    {
        &self.premise_list
    }

    /// The fields of a struct, by its number in order of declaration; none where there is no such struct.
    pub fn fields_of(&self, number: u16) -> &[Field]
        ensures fields { result.now ≡ fields_of self.now number }
        ensures within { length result.now ≤ 2 ^ 32 }
    {
        match self.structs().get(number as usize).copied() {
            Some(declared) => part_of(&self.field_list, declared.fields),
            None => &[],
        }
    }

    /// How many bytes a struct takes.
    pub fn struct_bytes(&self, number: u16) -> u64
        ensures { result ≡ struct_bytes self.now number }
    {
        bytes_of(self.fields_of(number))
    }

    /// The place of a field in its struct, in bytes: behind the fields before it, which are counted from 0.
    pub fn field_place(&self, number: u16, field: u16) -> u64
        ensures { result ≡ field_place self.now number field }
    {
        let fields = self.fields_of(number);
        let (before, _) = fields.split_at(usize::min(field as usize, fields.len()));
        bytes_of(before)
    }

    /// Declares a number.
    pub fn add_number(&mut self, number: Number) -> Result<(), Memory>
        ensures { OnOk result (self.new ≡ with_number self.old number) }
    {
        self.number_list.push(number)?;
        Ok(())
    }

    /// Declares a field, of the struct that is declared next.
    pub fn add_field(&mut self, field: Field) -> Result<(), Memory>
        ensures { OnOk result (self.new ≡ with_field self.old field) }
    {
        self.field_list.push(field)?;
        Ok(())
    }

    /// Declares a struct.
    pub fn add_struct(&mut self, declared: Struct) -> Result<(), Memory>
        ensures { OnOk result (self.new ≡ with_struct self.old declared) }
    {
        self.struct_list.push(declared)?;
        Ok(())
    }

    /// Declares an object.
    pub fn add_object(&mut self, object: Object) -> Result<(), Memory>
        ensures { OnOk result (self.new ≡ with_object self.old object) }
    {
        self.object_list.push(object)?;
        Ok(())
    }

    /// Declares a rule.
    pub fn add_rule(&mut self, rule: Rule) -> Result<(), Memory>
        ensures { OnOk result (self.new ≡ with_rule self.old rule) }
    {
        self.rule_list.push(rule)?;
        Ok(())
    }

    /// Declares a premise, by its expression's number.
    pub fn add_premise(&mut self, value: u32) -> Result<(), Memory>
        ensures { OnOk result (self.new ≡ with_premise self.old value) }
    {
        self.premise_list.push(value)?;
        Ok(())
    }

    /// The same shape once more.
    pub fn copy(&self, alloc: Global) -> Result<Shape, Memory>
        ensures { IfOk result (λ copied. copied ≡ self.now) }
    {
        Ok(Shape {
            port_count: self.port_count,
            number_list: Vec::from_slice(alloc, &self.number_list)?,
            struct_list: Vec::from_slice(alloc, &self.struct_list)?,
            field_list: Vec::from_slice(alloc, &self.field_list)?,
            object_list: Vec::from_slice(alloc, &self.object_list)?,
            rule_list: Vec::from_slice(alloc, &self.rule_list)?,
            premise_list: Vec::from_slice(alloc, &self.premise_list)?,
        })
    }
}

// How many bytes fields take, one behind the other.
fn bytes_of(fields: &[Field]) -> u64
    requires { length fields.now ≤ 2 ^ 32 }
    ensures { result ≡ Rattle.vg_stree.specs.Declarations.bytes_of fields.now }
{
    let mut bytes = 0;
    for field in fields {
        bytes += u64::from(field.of.bytes());
    }
    bytes
}
