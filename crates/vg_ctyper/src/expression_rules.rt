//! The rules that expressions meet.
ghost use Rattle.std.specs.Prelude.{◌≡◌};
ghost use Rattle.vg_ctyper.specs.ExpressionRules as rules;
ghost use Rattle.vg_ctyper.specs.Views.{known};

use crate::demands::{Demand, is_passed};
use crate::fault::{Rule, TypeFault, sooner};
use crate::given::Given;
use crate::kinds::{address, cast_type, pointee};
use vg_core::{
    Base, BinaryOp, CType, Kind, Name, Referent, Target, UnaryOp, library_row, library_takes,
};
use vg_cscope::{Wanted, is_function, spelling};

/// By which rule the operands of an operator are integers.
pub(crate) fn operand_rule(op: BinaryOp) -> Rule
    ensures { result ≡ rules.operand_rule op }
{
    match op {
        BinaryOp::ShiftLeft | BinaryOp::ShiftRight => Rule::Shift,
        BinaryOp::OrElse
        | BinaryOp::AndThen
        | BinaryOp::Equal
        | BinaryOp::NotEqual
        | BinaryOp::Less
        | BinaryOp::Greater
        | BinaryOp::LessEqual
        | BinaryOp::GreaterEqual => Rule::Comparison,
        _ => Rule::Arithmetic,
    }
}

fn or_else(fault: Option<TypeFault>, other: Option<TypeFault>) -> Option<TypeFault>
    ensures { result ≡ rules.or_else fault other }
{
    match fault {
        Some(fault) => Some(fault),
        None => other,
    }
}

impl Given<'_> {
    fn variable_fault(&self, n: u32, name: Name) -> Option<TypeFault>
        ensures { result ≡ rules.variable_fault (known self.now) n name }
    {
        self.unless(n, Rule::Declared, self.variable(n, name).is_some())
    }

    fn is_before(&self, declaration: Option<u32>) -> bool
        ensures { result ≡ rules.is_before (known self.now) declaration }
    {
        match declaration {
            Some(declaration) => (declaration as usize) < self.notes.len(),
            None => false,
        }
    }

    /// The fault of a struct that is named and wasn't declared before.
    pub fn base_fault(&self, n: u32, base: Base) -> Option<TypeFault>
        ensures { result ≡ rules.base_fault (known self.now) n base }
    {
        match base {
            Base::Int(_) => None,
            Base::Struct { at, tag } => {
                if self.is_before(self.found(Wanted::Tag(tag), n)) {
                    None
                } else {
                    Some(TypeFault::Typing {
                        at,
                        rule: Rule::Declared,
                    })
                }
            }
        }
    }

    fn choose_fault(&self, condition: u32, one: u32, other: u32) -> Option<TypeFault>
        ensures { result ≡ rules.choose_fault (known self.now) condition one other }
    {
        let chosen = sooner(
            self.wants(one, Demand::Integer, Rule::Conditional),
            self.wants(other, Demand::Integer, Rule::Conditional),
        );
        sooner(
            self.wants(condition, Demand::Integer, Rule::Conditional),
            chosen,
        )
    }

    fn binary_fault(&self, op: BinaryOp, left: u32, right: u32) -> Option<TypeFault>
        ensures { result ≡ rules.binary_fault (known self.now) op left right }
    {
        let rule = operand_rule(op);
        sooner(
            self.wants(left, Demand::Integer, rule),
            self.wants(right, Demand::Integer, rule),
        )
    }

    fn address_at(&self, operand: u32) -> Option<CType>
        ensures { result ≡ rules.address_at (known self.now) operand }
    {
        address(self.type_at(operand)?)
    }

    fn address_fault(&self, operand: u32) -> Option<TypeFault>
        ensures { result ≡ rules.address_fault (known self.now) operand }
    {
        let plain = self.unless(operand, Rule::Address, self.address_at(operand).is_some());
        self.used(operand, sooner(self.object_fault(operand), plain))
    }

    fn unary_fault(&self, op: UnaryOp, operand: u32) -> Option<TypeFault>
        ensures { result ≡ rules.unary_fault (known self.now) op operand }
    {
        match op {
            UnaryOp::Negate | UnaryOp::Complement => self.wants(
                operand,
                Demand::Integer,
                Rule::Arithmetic,
            ),
            UnaryOp::Not => self.wants(operand, Demand::Integer, Rule::Comparison),
            UnaryOp::Load => self.wants(operand, Demand::Object, Rule::Indirection),
            UnaryOp::Address => self.address_fault(operand),
        }
    }

    fn converted_fault(
        &self,
        n: u32,
        pointer: bool,
        to: Option<Target>,
        from: Option<CType>,
    ) -> Option<TypeFault>
        ensures { result ≡ rules.converted_fault (known self.now) n pointer to from }
    {
        let to = to?;
        let from = from?;
        self.unless(n, Rule::Cast, cast_type(pointer, to, from).is_some())
    }

    fn cast_fault(&self, n: u32, base: Base, pointer: bool, operand: u32) -> Option<TypeFault>
        ensures { result ≡ rules.cast_fault (known self.now) n base pointer operand }
    {
        let target = self.base_target(n, base);
        let converted = self.converted_fault(n, pointer, target, self.value_at(operand));
        sooner(
            self.base_fault(n, base),
            sooner(self.wants(operand, Demand::Value, Rule::Cast), converted),
        )
    }

    fn index_fault(&self, array: u32, index: u32) -> Option<TypeFault>
        ensures { result ≡ rules.index_fault (known self.now) array index }
    {
        sooner(
            self.wants(array, Demand::Object, Rule::Indirection),
            self.wants(index, Demand::Integer, Rule::Indirection),
        )
    }

    fn member_fault(&self, n: u32, whole: u32, field: Name) -> Option<TypeFault>
        ensures { result ≡ rules.member_fault (known self.now) n whole field }
    {
        let taken = self.referent(n, Kind::Member { whole, field });
        self.used(whole, self.unless(n, Rule::Member, taken.is_some()))
    }

    fn pointed_fault(
        &self,
        n: u32,
        pointer: u32,
        field: Name,
        target: Option<Target>,
    ) -> Option<TypeFault>
        ensures { result ≡ rules.pointed_fault (known self.now) n pointer field target }
    {
        match target {
            Some(target) => self.unless(n, Rule::Member, self.field_of(field, target).is_some()),
            None => self.fault_at(pointer, Rule::Indirection),
        }
    }

    fn pointee_at(&self, pointer: u32) -> Option<Target>
        ensures { result ≡ rules.pointee_at (known self.now) pointer }
    {
        pointee(self.type_at(pointer)?)
    }

    fn arrow_fault(&self, n: u32, pointer: u32, field: Name) -> Option<TypeFault>
        ensures { result ≡ rules.arrow_fault (known self.now) n pointer field }
    {
        let target = self.pointee_at(pointer);
        self.used(pointer, self.pointed_fault(n, pointer, field, target))
    }

    fn row_named(&self, name: Name) -> Option<Referent>
        ensures { result ≡ rules.row_of (known self.now) name }
    {
        Some(Referent::Library(library_row(spelling(self.scopes.text, name))?))
    }

    /// What a name that is called stands for, also where it is a function that isn't whole yet.
    fn called(&self, n: u32, name: Name) -> Option<Referent>
        ensures { result ≡ rules.called (known self.now) n name }
    {
        match self.found(Wanted::Ordinary(name), n) {
            Some(declaration) => {
                if is_function(self.kind(declaration)) {
                    Some(Referent::Declared(declaration))
                } else {
                    None
                }
            }
            None => self.row_named(name),
        }
    }

    fn params_of(&self, kind: Kind) -> &[u32]
        ensures { result.now ≡ rules.params_of (known self.now) kind }
    {
        match kind {
            Kind::Function { params, .. } => self.scopes.tree.listed(params),
            _ => &[],
        }
    }

    fn param_count(&self, callee: Referent) -> usize
        ensures { result ≡ rules.param_count (known self.now) callee }
    {
        match callee {
            Referent::Declared(declaration) => self.params_of(self.kind(declaration)).len(),
            Referent::Library(row) => library_takes(row).len(),
        }
    }

    /// The type of a parameter, the parameters counted from 0.
    fn param_type(&self, callee: Referent, number: usize) -> Option<CType>
        ensures { result ≡ rules.param_type (known self.now) callee number }
    {
        match callee {
            Referent::Declared(declaration) => {
                let params = self.params_of(self.kind(declaration));
                self.type_at(*params.get(number)?)
            }
            Referent::Library(row) => library_takes(row).get(number).copied(),
        }
    }

    fn is_borrow(&self, name: Name, callee: Referent) -> bool
        ensures { result ≡ rules.is_borrow (known self.now) name callee }
    {
        match callee {
            Referent::Declared(_) => false,
            Referent::Library(_) => self.is_spelled(name, b"packet_borrow"),
        }
    }

    fn borrowed_fault(&self, borrowed: bool, argument: u32) -> Option<TypeFault>
        ensures { result ≡ rules.borrowed_fault (known self.now) borrowed argument }
    {
        if borrowed {
            self.unless(argument, Rule::Borrow, self.number_at(argument).is_some())
        } else {
            None
        }
    }

    fn passed_fault(&self, argument: u32, of: CType, param: Option<CType>) -> Option<TypeFault>
        ensures { result ≡ rules.passed_fault (known self.now) argument of param }
    {
        match param {
            Some(param) => self.unless(argument, Rule::Arguments, is_passed(param, of)),
            None => None,
        }
    }

    fn typed_argument_fault(
        &self,
        borrowed: bool,
        param: Option<CType>,
        argument: u32,
        of: CType,
    ) -> Option<TypeFault>
        ensures { result ≡ rules.typed_argument_fault (known self.now) borrowed param argument of }
    {
        match of {
            CType::Void => self.fault_at(argument, Rule::Statement),
            _ => sooner(
                self.passed_fault(argument, of, param),
                self.borrowed_fault(borrowed, argument),
            ),
        }
    }

    fn argument_fault(
        &self,
        borrowed: bool,
        param: Option<CType>,
        argument: u32,
    ) -> Option<TypeFault>
        ensures { result ≡ rules.argument_fault (known self.now) borrowed param argument }
    {
        self.typed_argument_fault(borrowed, param, argument, self.type_at(argument)?)
    }

    /// The fault of the first argument that has one.
    fn arguments_fault(
        &self,
        borrowed: bool,
        callee: Referent,
        arguments: &[u32],
    ) -> Option<TypeFault>
        ensures { result ≡ rules.arguments_fault (known self.now) borrowed callee 0 arguments.now }
    {
        let mut number = 0;
        for argument in arguments {
            let param = self.param_type(callee, number);
            if let Some(fault) = self.argument_fault(borrowed, param, *argument) {
                return Some(fault);
            }
            number += 1;
        }
        None
    }

    fn recursion(&self, n: u32, callee: Referent) -> Option<TypeFault>
        ensures { result ≡ rules.recursion (known self.now) n callee }
    {
        match callee {
            Referent::Declared(declaration) => {
                if (declaration as usize) < self.notes.len() {
                    None
                } else {
                    let at = self.place(n);
                    Some(TypeFault::Recursive { at })
                }
            }
            Referent::Library(_) => None,
        }
    }

    fn count_fault(&self, n: u32, callee: Referent, arguments: &[u32]) -> Option<TypeFault>
        ensures { result ≡ rules.count_fault (known self.now) n callee arguments.now }
    {
        self.unless(
            n,
            Rule::Arguments,
            arguments.len() == self.param_count(callee),
        )
    }

    fn called_fault(
        &self,
        n: u32,
        name: Name,
        arguments: &[u32],
        callee: Option<Referent>,
    ) -> Option<TypeFault>
        ensures { result ≡ rules.called_fault (known self.now) n name arguments.now callee }
    {
        match callee {
            None => self.fault_at(n, Rule::Declared),
            Some(callee) => {
                let borrowed = self.is_borrow(name, callee);
                let count = self.count_fault(n, callee, arguments);
                sooner(
                    sooner(self.recursion(n, callee), count),
                    self.arguments_fault(borrowed, callee, arguments),
                )
            }
        }
    }

    fn call_fault(&self, n: u32, name: Name, arguments: &[u32]) -> Option<TypeFault>
        ensures { result ≡ rules.call_fault (known self.now) n name arguments.now }
    {
        self.called_fault(n, name, arguments, self.called(n, name))
    }

    /// The rule that an expression breaks.
    pub fn expression_fault(&self, n: u32, kind: Kind) -> Option<TypeFault>
        ensures { result ≡ rules.expression_fault (known self.now) n kind }
    {
        match kind {
            Kind::Variable { name } => self.variable_fault(n, name),
            Kind::Parens { inner } => self.wants(inner, Demand::Value, Rule::Statement),
            Kind::Sizeof { base } => self.base_fault(n, base),
            Kind::Cast {
                base,
                pointer,
                operand,
            } => self.cast_fault(n, base, pointer, operand),
            Kind::Choose {
                condition,
                then,
                otherwise,
            } => self.choose_fault(condition, then, otherwise),
            Kind::Binary { op, left, right } => self.binary_fault(op, left, right),
            Kind::Unary { op, operand } => self.unary_fault(op, operand),
            Kind::Index { array, index } => self.index_fault(array, index),
            Kind::Member { whole, field } => self.member_fault(n, whole, field),
            Kind::Arrow { pointer, field } => self.arrow_fault(n, pointer, field),
            Kind::Call { name, arguments } => {
                self.call_fault(n, name, self.scopes.tree.listed(arguments))
            }
            _ => None,
        }
    }
}
