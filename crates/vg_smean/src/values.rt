//! The values of a step's expressions.
ghost use Rattle.std.specs.Prelude.{◌≡◌, ◌≤◌, true, Some, fold, length, slice_get, IfSome};
ghost use Rattle.std.specs.Option.{option_map};
ghost use Rattle.vg_stree.specs.Depths.{has_few_arguments};
ghost use Rattle.vg_abs.specs.Expressions.{value_at, operate};
ghost use Rattle.vg_smean.specs.Values as values;
ghost use Rattle.vg_smean.specs.Values.{values_before, value_of, both};
ghost use Rattle.vg_smean.specs.Scenes.{scene_of};

use crate::telling::{field_of_cell, is_allocated};
use crate::words::word_at;
use arrayvec::ArrayVec;
use vg_abs::{LibState, operate};
use vg_stree::{Operation, SExpr, Spec};

/// What an expression of a step may speak of: the configuration's numbers, the port at which the frame came in, the time, the state and the
/// frame as they are now, and the names in scope.
#[derive(Clone, Copy)]
pub struct Scene<'a> {
    pub numbers: &'a [u64],
    pub port: u16,
    pub time: u64,
    pub state: &'a LibState,
    pub frame: &'a [u8],
    pub names: &'a [u64],
}

// The expression with a number, which has few arguments.
#[tactic(auto, using(crate::proofs::ValueLaws::all_at))]
fn expression_at(spec: &Spec, number: u32) -> Option<SExpr>
    ensures expression { result ≡ slice_get spec.now.code.expressions number }
    ensures few { IfSome result (λ expression. has_few_arguments expression ≡ true) }
{
    spec.code().expressions().get(number as usize).copied()
}

// The value with a number; 0 where there is none.
fn at(values: &[u64], number: usize) -> u64
    ensures { result ≡ value_at values.now number }
{
    values.get(number).copied().unwrap_or(0)
}

// The value of an expression that stands before a number; any other counts 0.
#[tactic(auto, using(crate::proofs::ValueLaws::before_is, crate::proofs::ValueLaws::before_none))]
#[cycle(values)]
fn part(spec: &Spec, scene: &Scene<'_>, before: u32, number: u32) -> Option<u64>
    ensures { result ≡ values_before spec.now before number (scene_of scene.now) }
{
    if number < before {
        value(spec, scene, number)
    } else {
        Some(0)
    }
}

/// The value of an expression, told by its number; none where the state doesn't tell all that is asked in it.
#[tactic(auto, using(crate::proofs::ValueLaws::value_some, crate::proofs::ValueLaws::value_none))]
#[cycle(values)]
pub fn value(spec: &Spec, scene: &Scene<'_>, number: u32) -> Option<u64>
    ensures { result ≡ value_of spec.now (scene_of scene.now) number }
{
    match expression_at(spec, number) {
        Some(expression) => value_by(spec, scene, number, expression),
        None => Some(0),
    }
}

// The value of an expression whose number is told.
#[cycle(values)]
fn value_by(spec: &Spec, scene: &Scene<'_>, number: u32, expression: SExpr) -> Option<u64>
    requires { has_few_arguments expression ≡ true }
    ensures { result ≡ values.value_by spec.now (values_before spec.now number) expression (scene_of scene.now) }
{
    match expression {
        SExpr::Number(value) => Some(value),
        SExpr::Config(k) => Some(at(scene.numbers, k as usize)),
        SExpr::Local(k) => Some(at(scene.names, k as usize)),
        SExpr::CellField(_) => Some(0),
        SExpr::Length => Some(scene.frame.len() as u64),
        SExpr::Port => Some(u64::from(scene.port)),
        SExpr::Now => Some(scene.time),
        SExpr::Parens(inner) => part(spec, scene, number, inner),
        SExpr::Not(operand) => {
            let value = part(spec, scene, number, operand)?;
            Some(u64::from(value == 0))
        }
        SExpr::Chain { first, rest } => {
            let left = part(spec, scene, number, first);
            chain(spec, scene, number, left, spec.code().operations(rest))
        }
        SExpr::Choose {
            condition,
            then,
            otherwise,
        } => {
            let test = part(spec, scene, number, condition)?;
            let one = part(spec, scene, number, then)?;
            let other = part(spec, scene, number, otherwise)?;
            Some(if test != 0 { one } else { other })
        }
        SExpr::Call { body, arguments } => {
            let names = arguments_of(spec, scene, number, spec.code().items(arguments))?;
            let inner = Scene {
                names: names.as_slice(),
                ..*scene
            };
            part(spec, &inner, number, body)
        }
        SExpr::Cell {
            vector,
            index,
            field,
        } => {
            let index = part(spec, scene, number, index)?;
            field_of_cell(spec, scene.state, vector, field, index)
        }
        SExpr::Frame { word, place } => {
            let place = part(spec, scene, number, place)?;
            Some(word_at(scene.frame, word, place))
        }
        SExpr::Has { link, index } => {
            let index = part(spec, scene, number, index)?;
            is_allocated(scene.state, link, index)
        }
    }
}

// An operator on two values, where both are told.
fn operate_told(operation: Operation, left: Option<u64>, right: Option<u64>) -> Option<u64>
    ensures { result ≡ both (operate operation.operator) left right }
{
    let left = left?;
    let right = right?;
    Some(operate(operation.operator, left, right))
}

// What a chain of operations makes of its first value.
#[cycle(values)]
fn chain(
    spec: &Spec,
    scene: &Scene<'_>,
    number: u32,
    first: Option<u64>,
    operations: &[Operation],
) -> Option<u64>
    ensures { result ≡ fold (λ left operation. both (operate operation.operator) left
        (values_before spec.now number operation.operand (scene_of scene.now))) first operations.now }
{
    let mut left = first;
    for operation in operations {
        let right = part(spec, scene, number, operation.operand);
        left = operate_told(*operation, left, right);
    }
    left
}

// The values of a call's arguments.
#[cycle(values)]
fn arguments_of(
    spec: &Spec,
    scene: &Scene<'_>,
    number: u32,
    arguments: &[u32],
) -> Option<ArrayVec<u64, 64>>
    requires { length arguments.now ≤ 64 }
    ensures { option_map (λ made. made.items) result ≡ values.values_by (values_before spec.now number) arguments.now (scene_of scene.now) }
{
    let mut made = ArrayVec::new();
    for argument in arguments {
        made.push(part(spec, scene, number, *argument)?);
    }
    Some(made)
}
