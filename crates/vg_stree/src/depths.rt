//! How deep a specification nests.
ghost use Rattle.std.specs.Prelude.{◌≡◌, ◌≤◌, ◌++◌, ◌∷◌, [], All, IfOk, OnOk};
ghost use Rattle.std.specs.List.{list_all};
ghost use Rattle.vg_stree.specs.Depths as depths;
ghost use Rattle.vg_stree.specs.Depths.{deepest_nesting, NestsLittle, has_few_arguments};

use crate::code::{Code, Operation, Parts, SExpr, SStmt};
use std::alloc::Global;
use vg_parts::Memory;

/// How deep a specification may nest.
pub const DEEPEST: u32 = 1000;

/// How many arguments a call may have.
pub const MOST_ARGUMENTS: u32 = 64;

// How deep an earlier one nests.
fn depth_at(known: &[u16], number: u32) -> u16
    ensures { result ≡ depths.depth_at known.now number }
{
    known.get(number as usize).copied().unwrap_or(0)
}

// How deep the deepest of earlier ones nests.
fn deepest_of(known: &[u16], numbers: &[u32]) -> u16
    ensures { result ≡ depths.deepest (depths.depth_at known.now) numbers.now }
{
    numbers.iter().fold(
        0,
        |greatest, number| u16::max(greatest, depth_at(known, *number)),
    )
}

// How deep the deepest right operand of a chain nests.
fn deepest_operand(known: &[u16], operations: &[Operation]) -> u16
    ensures { result ≡ depths.deepest (λ operation. depths.depth_at known.now operation.operand) operations.now }
{
    operations.iter().fold(0, |greatest, operation| {
        u16::max(greatest, depth_at(known, operation.operand))
    })
}

// How deep an expression nests, by how deep those before it do.
fn expression_depth(code: &Code, known: &[u16], expression: SExpr) -> u32
    ensures { result ≡ depths.expression_depth code.now known.now expression }
{
    match expression {
        SExpr::Parens(inner) => 1 + u32::from(depth_at(known, inner)),
        SExpr::Not(operand) => 1 + u32::from(depth_at(known, operand)),
        SExpr::Chain { first, rest } => {
            let others = deepest_operand(known, code.operations(rest));
            u32::from(u16::max(depth_at(known, first), others))
        }
        SExpr::Choose {
            condition,
            then,
            otherwise,
        } => {
            let sides = u16::max(depth_at(known, then), depth_at(known, otherwise));
            u32::max(u32::from(depth_at(known, condition)), 1 + u32::from(sides))
        }
        SExpr::Call { body, arguments } => {
            let greatest = deepest_of(known, code.items(arguments));
            1 + u32::from(u16::max(depth_at(known, body), greatest))
        }
        SExpr::Cell { index, .. } => 1 + u32::from(depth_at(known, index)),
        SExpr::Frame { place, .. } => 1 + u32::from(depth_at(known, place)),
        SExpr::Has { index, .. } => 1 + u32::from(depth_at(known, index)),
        _ => 0,
    }
}

// How deep a block nests, by how deep the statements before it do.
fn block(code: &Code, known: &[u16], statements: Parts) -> u32
    ensures { result ≡ depths.block_depth code.now known.now statements }
{
    1 + u32::from(deepest_of(known, code.items(statements)))
}

// How deep two blocks nest.
fn blocks(code: &Code, known: &[u16], then: Parts, otherwise: Parts) -> u32
    ensures { result ≡ depths.blocks_depth code.now known.now then otherwise }
{
    u32::max(block(code, known, then), block(code, known, otherwise))
}

// How deep the parts of a key nest.
fn key(code: &Code, expressions: &[u16], parts: Parts) -> u32
    ensures { result ≡ depths.key_depth code.now expressions.now parts }
{
    1 + u32::from(deepest_of(expressions, code.items(parts)))
}

// How deep a place in brackets nests beside a value.
fn place_and_value(expressions: &[u16], place: u32, value: u32) -> u32
    ensures { result ≡ depths.place_and_value_depth expressions.now place value }
{
    u32::max(
        1 + u32::from(depth_at(expressions, place)),
        u32::from(depth_at(expressions, value)),
    )
}

// How deep a statement nests, by how deep the expressions and the statements before it do.
fn statement_depth(code: &Code, expressions: &[u16], known: &[u16], statement: SStmt) -> u32
    ensures { result ≡ depths.statement_depth code.now expressions.now known.now statement }
{
    match statement {
        SStmt::Let { value } => u32::from(depth_at(expressions, value)),
        SStmt::Drop | SStmt::Flood => 0,
        SStmt::Send { port } => u32::from(depth_at(expressions, port)),
        SStmt::If {
            condition,
            then,
            otherwise,
        } => u32::max(
            u32::from(depth_at(expressions, condition)),
            blocks(code, known, then, otherwise),
        ),
        SStmt::SetFrame { place, value, .. } => place_and_value(expressions, place, value),
        SStmt::SetCell { index, value, .. } => place_and_value(expressions, index, value),
        SStmt::Expire { before, .. } => u32::from(depth_at(expressions, before)),
        SStmt::Find {
            key: parts,
            then,
            otherwise,
            ..
        }
        | SStmt::Add {
            key: parts,
            then,
            otherwise,
            ..
        } => u32::max(
            key(code, expressions, parts),
            blocks(code, known, then, otherwise),
        ),
        SStmt::Touch { index, .. } | SStmt::Remove { index, .. } => {
            u32::from(depth_at(expressions, index))
        }
        SStmt::Lookup {
            address,
            then,
            otherwise,
            ..
        } => u32::max(
            u32::from(depth_at(expressions, address)),
            blocks(code, known, then, otherwise),
        ),
    }
}

// Adds a depth, where it isn't too deep.
fn add_depth(known: &mut Vec<u16>, depth: u32) -> Result<(), Memory>
    ensures added { OnOk result (known.new.items ≡ known.old.items ++ depth ∷ []) }
    ensures within { OnOk result (depth ≤ deepest_nesting) }
{
    if depth > DEEPEST {
        return Err(Memory);
    }
    known.push(depth as u16)?;
    Ok(())
}

// How deep each expression nests.
fn of_expressions(alloc: Global, code: &Code) -> Result<Vec<u16>, Memory>
    ensures depths { IfOk result (λ made. made.items ≡ depths.expression_depths code.now) }
    ensures within { IfOk result (λ made. All (λ depth. depth ≤ deepest_nesting) made.items) }
{
    let mut known = Vec::new(alloc);
    for expression in code.expressions() {
        let depth = expression_depth(code, &known, *expression);
        add_depth(&mut known, depth)?;
    }
    Ok(known)
}

// How deep each statement nests.
fn of_statements(alloc: Global, code: &Code, expressions: &[u16]) -> Result<Vec<u16>, Memory>
    requires { expressions.now ≡ depths.expression_depths code.now }
    ensures depths { IfOk result (λ made. made.items ≡ depths.statement_depths code.now) }
    ensures within { IfOk result (λ made. All (λ depth. depth ≤ deepest_nesting) made.items) }
{
    let mut known = Vec::new(alloc);
    for statement in code.statements() {
        let depth = statement_depth(code, expressions, &known, *statement);
        add_depth(&mut known, depth)?;
    }
    Ok(known)
}

// How many arguments a call has.
fn argument_count(expression: SExpr) -> u32
    ensures { result ≡ depths.argument_count expression }
{
    match expression {
        SExpr::Call { arguments, .. } => arguments.count,
        _ => 0,
    }
}

// Whether no call has more arguments than it may.
fn have_few_arguments(expressions: &[SExpr]) -> bool
    ensures { result ≡ list_all has_few_arguments expressions.now }
{
    expressions
        .iter()
        .all(|expression| argument_count(*expression) <= MOST_ARGUMENTS)
}

/// Tells that no expression and no statement nests too deep, nor the block of the step, and that no call has too many arguments.
pub fn check_nesting(alloc: Global, code: &Code, step: Parts) -> Result<(), Memory>
    ensures { OnOk result (NestsLittle code.now step) }
{
    if !have_few_arguments(code.expressions()) {
        return Err(Memory);
    }
    let expressions = of_expressions(alloc, code)?;
    let statements = of_statements(alloc, code, &expressions)?;
    if block(code, &statements, step) > DEEPEST {
        return Err(Memory);
    }
    Ok(())
}
