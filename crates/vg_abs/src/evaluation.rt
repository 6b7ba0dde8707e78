//! The values of rules and premises.
ghost use Rattle.std.specs.Prelude.{◌≡◌, ◌≤◌, true, fold, map, length, slice_get};
ghost use Rattle.std.specs.List.{list_all};
ghost use Rattle.vg_stree.specs.Depths.{has_few_arguments};
ghost use Rattle.vg_abs.specs.Scopes.{scope_of};
ghost use Rattle.vg_abs.specs.Expressions as expressions;
ghost use Rattle.vg_abs.specs.Expressions.{value_at, values_before, value_of};

use crate::fields::field_value;
use arrayvec::ArrayVec;
use vg_stree::{Code, Field, Operation, Operator, SExpr};

/// The cell of a rule: what its fields are, and its bytes. A premise has none of either.
#[derive(Clone, Copy)]
pub struct Cell<'a> {
    pub fields: &'a [Field],
    pub bytes: &'a [u8],
}

/// What an expression may speak of: the configuration's numbers, a rule's cell, and the names in scope.
#[derive(Clone, Copy)]
pub struct Scope<'a> {
    pub numbers: &'a [u64],
    pub cell: Cell<'a>,
    pub names: &'a [u64],
}

/// An operator on two values.
pub fn operate(operator: Operator, left: u64, right: u64) -> u64
    ensures { result ≡ expressions.operate operator left right }
{
    match operator {
        Operator::OrElse => u64::from(left != 0 || right != 0),
        Operator::AndThen => u64::from(left != 0 && right != 0),
        Operator::BitOr => left | right,
        Operator::BitXor => left ^ right,
        Operator::BitAnd => left & right,
        Operator::Equal => u64::from(left == right),
        Operator::NotEqual => u64::from(left != right),
        Operator::Less => u64::from(left < right),
        Operator::Greater => u64::from(left > right),
        Operator::LessEqual => u64::from(left <= right),
        Operator::GreaterEqual => u64::from(left >= right),
        Operator::ShiftLeft => shift_left(left, right),
        Operator::ShiftRight => shift_right(left, right),
        Operator::Add => left.wrapping_add(right),
        Operator::Subtract => left.saturating_sub(right),
        Operator::Multiply => left.wrapping_mul(right),
        Operator::Divide => left.checked_div(right).unwrap_or(u64::MAX),
        Operator::Remainder => left.checked_rem(right).unwrap_or(left),
    }
}

// A shift to the left; one by 64 or more gives 0.
fn shift_left(value: u64, by: u64) -> u64
    ensures { result ≡ expressions.operate Operator.ShiftLeft value by }
{
    if by < 64 { value << by } else { 0 }
}

// A shift to the right; one by 64 or more gives 0.
fn shift_right(value: u64, by: u64) -> u64
    ensures { result ≡ expressions.operate Operator.ShiftRight value by }
{
    if by < 64 { value >> by } else { 0 }
}

// The expression with a number.
fn expression_at(code: &Code, number: u32) -> Option<SExpr>
    ensures { result ≡ slice_get code.now.expressions number }
{
    code.expressions().get(number as usize).copied()
}

// The value with a number; 0 where there is none.
fn at(values: &[u64], number: usize) -> u64
    ensures { result ≡ value_at values.now number }
{
    values.get(number).copied().unwrap_or(0)
}

// The value of an expression that stands before a number; any other counts 0.
#[tactic(auto, using(crate::proofs::Evaluations::before_is, crate::proofs::Evaluations::before_none))]
#[cycle(evaluation)]
fn part(code: &Code, scope: &Scope<'_>, before: u32, number: u32) -> u64
    requires { list_all has_few_arguments code.now.expressions ≡ true }
    ensures { result ≡ values_before code.now before number (scope_of scope.now) }
{
    if number < before {
        value(code, scope, number)
    } else {
        0
    }
}

/// The value of an expression.
#[tactic(auto, using(crate::proofs::Evaluations::value_some, crate::proofs::Evaluations::value_none, crate::proofs::Evaluations::all_at))]
#[cycle(evaluation)]
pub fn value(code: &Code, scope: &Scope<'_>, number: u32) -> u64
    requires { list_all has_few_arguments code.now.expressions ≡ true }
    ensures { result ≡ value_of code.now number (scope_of scope.now) }
{
    match expression_at(code, number) {
        Some(expression) => value_by(code, scope, number, expression),
        None => 0,
    }
}

// The value of an expression whose number is told.
#[cycle(evaluation)]
fn value_by(code: &Code, scope: &Scope<'_>, number: u32, expression: SExpr) -> u64
    requires few { list_all has_few_arguments code.now.expressions ≡ true }
    requires here { has_few_arguments expression ≡ true }
    ensures { result ≡ expressions.value_by code.now (values_before code.now number) expression (scope_of scope.now) }
{
    match expression {
        SExpr::Number(value) => value,
        SExpr::Config(k) => at(scope.numbers, k as usize),
        SExpr::Local(k) => at(scope.names, k as usize),
        SExpr::CellField(k) => field_value(scope.cell.fields, scope.cell.bytes, k as usize),
        SExpr::Parens(inner) => part(code, scope, number, inner),
        SExpr::Not(operand) => u64::from(part(code, scope, number, operand) == 0),
        SExpr::Chain { first, rest } => {
            let left = part(code, scope, number, first);
            chain(code, scope, number, left, code.operations(rest))
        }
        SExpr::Choose {
            condition,
            then,
            otherwise,
        } => {
            if part(code, scope, number, condition) != 0 {
                part(code, scope, number, then)
            } else {
                part(code, scope, number, otherwise)
            }
        }
        SExpr::Call { body, arguments } => {
            let names = values(code, scope, number, code.items(arguments));
            let inner = Scope {
                numbers: scope.numbers,
                cell: scope.cell,
                names: names.as_slice(),
            };
            part(code, &inner, number, body)
        }
        _ => 0,
    }
}

// What a chain of operations makes of its first value.
#[cycle(evaluation)]
fn chain(code: &Code, scope: &Scope<'_>, number: u32, first: u64, operations: &[Operation]) -> u64
    requires { list_all has_few_arguments code.now.expressions ≡ true }
    ensures { result ≡ fold (λ left operation. expressions.operate operation.operator left
        (values_before code.now number operation.operand (scope_of scope.now))) first operations.now }
{
    let mut left = first;
    for operation in operations {
        let right = part(code, scope, number, operation.operand);
        left = operate(operation.operator, left, right);
    }
    left
}

// The values of a call's arguments.
#[cycle(evaluation)]
fn values(code: &Code, scope: &Scope<'_>, number: u32, arguments: &[u32]) -> ArrayVec<u64, 64>
    requires few { list_all has_few_arguments code.now.expressions ≡ true }
    requires fits { length arguments.now ≤ 64 }
    ensures { result.items ≡ map (λ argument. values_before code.now number argument (scope_of scope.now)) arguments.now }
{
    let mut names = ArrayVec::new();
    for argument in arguments {
        names.push(part(code, scope, number, *argument));
    }
    names
}
