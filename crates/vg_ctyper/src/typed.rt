//! The types of declarations and expressions, and the values of constant expressions, each by those of the parts.
ghost use Rattle.std.specs.Prelude.{◌≡◌};
ghost use Rattle.vg_core.specs.Layouts.{layout};
ghost use Rattle.vg_ctyper.specs.Types as types;
ghost use Rattle.vg_ctyper.specs.Views.{known};

use crate::given::Given;
use crate::kinds::{
    UNSIGNED_64, address, answer_type, as_integer, as_length, as_struct, cast_type, is_constant_op,
    number, of_integer, of_target, pointee,
};
use vg_cint::{Value, binary, common, integer_of, type_of_binary, type_of_unary};
use vg_core::{
    Base, BinaryOp, CType, Integer, Kind, Name, Parts, Referent, Target, UnaryOp, library_answer,
    target_layout,
};
use vg_cscope::Wanted;

impl Given<'_> {
    /// The type of a node before.
    pub fn type_at(&self, n: u32) -> Option<CType>
        ensures { result ≡ types.type_at (known self.now) n }
    {
        self.notes.get(n as usize)?.of
    }

    fn word_at(&self, n: u32) -> Option<u64>
        ensures { result ≡ types.word_at (known self.now) n }
    {
        self.notes.get(n as usize)?.constant
    }

    /// The type of a node before that is an integer.
    pub fn integer_at(&self, n: u32) -> Option<Integer>
        ensures { result ≡ types.integer_at (known self.now) n }
    {
        as_integer(self.type_at(n)?)
    }

    /// The value of a constant expression.
    pub fn constant_at(&self, n: u32) -> Option<Value>
        ensures { result ≡ types.constant_at (known self.now) n }
    {
        let of = self.integer_at(n)?;
        let word = self.word_at(n)?;
        Some(Value { of, word })
    }

    /// The value of a constant expression, where it is at least 0 and below 2^32.
    pub fn number_at(&self, n: u32) -> Option<u32>
        ensures { result ≡ types.number_at (known self.now) n }
    {
        number(self.constant_at(n)?)
    }

    fn laid_out(&self, tag: u32) -> Option<Target>
        ensures { result ≡ types.laid_out (known self.now) tag }
    {
        let _layout = self.notes.get(tag as usize)?.layout?;
        Some(Target::Struct(tag))
    }

    /// What a base names: an integer type, or a struct that was declared before and breaks no rule.
    pub fn base_target(&self, n: u32, base: Base) -> Option<Target>
        ensures { result ≡ types.base_target (known self.now) n base }
    {
        match base {
            Base::Int(of) => {
                let of = integer_of(of);
                Some(Target::Int {
                    bits: of.bits,
                    signed: of.signed,
                })
            }
            Base::Struct { tag, .. } => self.laid_out(self.found(Wanted::Tag(tag), n)?),
        }
    }

    fn array_of(&self, target: Target, count: Option<u32>) -> Option<CType>
        ensures { result ≡ types.array_of target count }
    {
        Some(CType::Array(target, count?))
    }

    pub fn length_at(&self, n: u32) -> Option<u32>
        ensures { result ≡ types.length_at (known self.now) n }
    {
        as_length(self.number_at(n)?)
    }

    pub fn sized(&self, target: Target, count: Option<u32>, plain: CType) -> Option<CType>
        ensures { result ≡ types.sized (known self.now) target count plain }
    {
        match count {
            Some(count) => self.array_of(target, self.length_at(count)),
            None => Some(plain),
        }
    }

    /// How many bytes an object of a type takes.
    pub fn size_of(&self, of: CType) -> u64
        ensures { result ≡ (layout self.now.notes.now of).size }
    {
        match of {
            CType::Void | CType::Handle(_) => 0,
            CType::Int { bits, .. } => u64::from(bits / 8),
            CType::Pointer(_) => 8,
            CType::Array(target, count) => {
                u64::from(target_layout(self.notes, target).size) * u64::from(count)
            }
            CType::Struct(tag) => u64::from(target_layout(self.notes, Target::Struct(tag)).size),
        }
    }

    fn if_small(&self, of: Option<CType>) -> Option<CType>
        ensures { result ≡ types.if_small (known self.now) of }
    {
        let of = of?;
        if self.size_of(of) <= 65536 {
            Some(of)
        } else {
            None
        }
    }

    /// The type of an object: `base name`, `base *name` or `base name[count]`.
    pub fn object_type(&self, pointer: bool, target: Target, count: Option<u32>) -> Option<CType>
        ensures { result ≡ types.object_type (known self.now) pointer target count }
    {
        match (pointer, count) {
            (true, None) => Some(CType::Pointer(target)),
            (true, Some(_)) => None,
            (false, count) => self.if_small(self.sized(target, count, of_target(target))),
        }
    }

    fn declared_type(&self, n: u32, base: Base, pointer: bool, count: Option<u32>) -> Option<CType>
        ensures { result ≡ types.declared_type (known self.now) n base pointer count }
    {
        self.object_type(pointer, self.base_target(n, base)?, count)
    }

    /// The type of what a node declares.
    pub fn type_declared(&self, n: u32, kind: Kind) -> Option<CType>
        ensures { result ≡ types.type_declared (known self.now) n kind }
    {
        match kind {
            Kind::Declare {
                base,
                pointer,
                length,
                ..
            } => self.declared_type(n, base, pointer, length),
            Kind::Param { base, pointer, .. } => self.declared_type(n, base, pointer, None),
            Kind::Field { base, length, .. } => self.declared_type(n, base, false, length),
            Kind::For { of, .. } | Kind::ExternNumber { of, .. } => {
                Some(of_integer(integer_of(of)))
            }
            Kind::ExternHandle { handle, .. } => Some(CType::Handle(handle)),
            Kind::Function { answer, .. } => Some(answer_type(answer)),
            _ => None,
        }
    }

    /// The type of what a name stands for.
    pub fn type_of_referent(&self, referent: Referent) -> Option<CType>
        ensures { result ≡ types.type_of_referent (known self.now) referent }
    {
        match referent {
            Referent::Declared(d) => self.type_declared(d, self.kind(d)),
            Referent::Library(row) => library_answer(row),
        }
    }

    fn are_typed(&self, parts: &[u32]) -> bool
        ensures { result ≡ types.are_typed (known self.now) parts.now }
    {
        for part in parts {
            if self.type_at(*part).is_none() {
                return false;
            }
        }
        true
    }

    fn unary_type(&self, op: UnaryOp, operand: u32) -> Option<CType>
        ensures { result ≡ types.unary_type (known self.now) op operand }
    {
        match op {
            UnaryOp::Load => Some(of_target(pointee(self.type_at(operand)?)?)),
            UnaryOp::Address => address(self.type_at(operand)?),
            _ => Some(of_integer(type_of_unary(op, self.integer_at(operand)?))),
        }
    }

    pub fn field_of(&self, field: Name, target: Target) -> Option<Referent>
        ensures { result ≡ types.field_of (known self.now) field target }
    {
        match target {
            Target::Struct(tag) => Some(Referent::Declared(self.field_named(tag, field)?)),
            _ => None,
        }
    }

    /// What the name in an expression stands for.
    pub fn referent(&self, n: u32, kind: Kind) -> Option<Referent>
        ensures { result ≡ types.referent (known self.now) n kind }
    {
        match kind {
            Kind::Variable { name } => self.variable(n, name),
            Kind::Call { name, .. } => self.callee(n, name),
            Kind::Member { whole, field } => {
                self.field_of(field, as_struct(self.type_at(whole)?)?)
            }
            Kind::Arrow { pointer, field } => {
                self.field_of(field, pointee(self.type_at(pointer)?)?)
            }
            _ => None,
        }
    }

    fn cast(&self, n: u32, base: Base, pointer: bool, operand: u32) -> Option<CType>
        ensures { result ≡ types.cast (known self.now) n base pointer operand }
    {
        let target = self.base_target(n, base)?;
        cast_type(pointer, target, self.type_at(operand)?)
    }

    fn binary_type(&self, op: BinaryOp, left: u32, right: u32) -> Option<CType>
        ensures { result ≡ types.binary_type (known self.now) op left right }
    {
        let left = self.integer_at(left)?;
        let right = self.integer_at(right)?;
        Some(of_integer(type_of_binary(op, left, right)))
    }

    fn choice_type(&self, condition: u32, one: u32, other: u32) -> Option<CType>
        ensures { result ≡ types.choice_type (known self.now) condition one other }
    {
        let _condition = self.integer_at(condition)?;
        let one = self.integer_at(one)?;
        let other = self.integer_at(other)?;
        Some(of_integer(common(one, other)))
    }

    fn element_type(&self, array: u32, index: u32) -> Option<CType>
        ensures { result ≡ types.element_type (known self.now) array index }
    {
        let target = pointee(self.type_at(array)?)?;
        let _index = self.integer_at(index)?;
        Some(of_target(target))
    }

    fn call_type(&self, n: u32, name: Name, arguments: Parts) -> Option<CType>
        ensures { result ≡ types.call_type (known self.now) n name arguments }
    {
        if self.are_typed(self.scopes.tree.listed(arguments)) {
            self.type_of_referent(self.callee(n, name)?)
        } else {
            None
        }
    }

    /// The type of an expression; none where a part has none.
    pub fn expression_type(&self, n: u32, kind: Kind) -> Option<CType>
        ensures { result ≡ types.expression_type (known self.now) n kind }
    {
        match kind {
            Kind::Number { of, .. } => Some(of_integer(integer_of(of))),
            Kind::Variable { .. } | Kind::Member { .. } | Kind::Arrow { .. } => {
                self.type_of_referent(self.referent(n, kind)?)
            }
            Kind::Parens { inner } => self.type_at(inner),
            Kind::Sizeof { base } => {
                let _target = self.base_target(n, base)?;
                Some(of_integer(UNSIGNED_64))
            }
            Kind::Cast {
                base,
                pointer,
                operand,
            } => self.cast(n, base, pointer, operand),
            Kind::Unary { op, operand } => self.unary_type(op, operand),
            Kind::Binary { op, left, right } => self.binary_type(op, left, right),
            Kind::Choose {
                condition,
                then,
                otherwise,
            } => self.choice_type(condition, then, otherwise),
            Kind::Index { array, index } => self.element_type(array, index),
            Kind::Call { name, arguments } => self.call_type(n, name, arguments),
            _ => None,
        }
    }

    fn word_of_binary(&self, op: BinaryOp, left: u32, right: u32) -> Option<u64>
        ensures { result ≡ types.word_of_binary (known self.now) op left right }
    {
        if is_constant_op(op) {
            let left = self.constant_at(left)?;
            let right = self.constant_at(right)?;
            binary(op, left, right).ok().map(|value| value.word)
        } else {
            None
        }
    }

    /// The word of a constant expression: numbers, sizes, and `+`, `-` and `*` of such.
    pub fn constant_word(&self, n: u32, kind: Kind) -> Option<u64>
        ensures { result ≡ types.constant_word (known self.now) n kind }
    {
        match kind {
            Kind::Number { value, .. } => Some(value),
            Kind::Sizeof { base } => Some(self.size_of(of_target(self.base_target(n, base)?))),
            Kind::Parens { inner } => self.word_at(inner),
            Kind::Binary { op, left, right } => self.word_of_binary(op, left, right),
            _ => None,
        }
    }
}
