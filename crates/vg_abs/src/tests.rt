use super::*;
use std::alloc::Global;
use std::test::Fail;
use vg_parts::Memory;
use vg_stree::{
    Code, Config, Field, FieldType, Fill, Names, ObjectKind, Operation, Operator, Parts, Route,
    SExpr, Shape, Size, Spec, Struct, Width,
};

const EMPTY: Parts = Parts { from: 0, count: 0 };

// What C11 6.5.5 to 6.5.14 gives for `uint64_t`, but for the difference that stops at 0, shifts by 64 or more, and divisors of 0.
const ROWS: [(Operator, u64, u64, u64); 14] = [
    (Operator::Add, u64::MAX, 2, 1),
    (Operator::Subtract, 3, 5, 0),
    (Operator::Subtract, 5, 3, 2),
    (Operator::Multiply, 1 << 63, 2, 0),
    (Operator::Divide, 7, 2, 3),
    (Operator::Divide, 7, 0, u64::MAX),
    (Operator::Remainder, 7, 0, 7),
    (Operator::ShiftLeft, 1, 63, 1 << 63),
    (Operator::ShiftLeft, 1, 64, 0),
    (Operator::ShiftRight, 1 << 63, 63, 1),
    (Operator::AndThen, 2, 1, 1),
    (Operator::BitAnd, 2, 1, 0),
    (Operator::OrElse, 0, 8, 1),
    (Operator::GreaterEqual, 4, 4, 1),
];

#[test]
fn operators(rt: HostRuntime) -> Result<(), Fail> {
    for (operator, left, right, expected) in ROWS {
        assert_eq!(rt; operate(operator, left, right), expected, "{operator:?}");
    }
    Ok(())
}

// `fits(first + 1023)` with `define fits(x) = x <= 65535;`, where `first` is the first declared number.
fn made(alloc: Global) -> Result<(Code, u32), Memory> {
    let mut code = Code::new(alloc);
    let x = code.add_expression(SExpr::Local(0))?;
    let limit = code.add_expression(SExpr::Number(65535))?;
    let body = chain(&mut code, x, Operator::LessEqual, limit)?;
    let first = code.add_expression(SExpr::Config(0))?;
    let count = code.add_expression(SExpr::Number(1023))?;
    let last = chain(&mut code, first, Operator::Add, count)?;
    let arguments = code.add_items(&[last])?;
    let call = code.add_expression(SExpr::Call { body, arguments })?;
    Ok((code, call))
}

fn chain(code: &mut Code, first: u32, operator: Operator, operand: u32) -> Result<u32, Memory> {
    let rest = code.add_operations(&[Operation { operator, operand }])?;
    code.add_expression(SExpr::Chain { first, rest })
}

#[test]
fn a_premise_with_a_define(rt: HostRuntime) -> Result<(), Fail> {
    let (code, call) = made(rt.alloc())?;
    let shape = Shape::new(rt.alloc(), 1);
    let spec = Spec::new(rt.alloc(), Names::new(rt.alloc()), shape, code, EMPTY)?;
    for (first, expected) in [(64512, 1), (64513, 0)] {
        let numbers = [first];
        let scope = Scope {
            numbers: &numbers,
            cell: Cell {
                fields: &[],
                bytes: &[],
            },
            names: &[],
        };
        assert_eq!(rt; value(spec.code(), &scope, call), expected);
    }
    Ok(())
}

// A struct of a `u16` and a `b2`; a link of it with 2 keys, a vector of it with 3 cells, and a prefix table.
fn made_shape(alloc: Global) -> Result<Shape, Memory> {
    let mut shape = Shape::new(alloc, 1);
    for of in [FieldType::Number(Width::Bits16), FieldType::Bytes(2)] {
        shape.add_field(Field { at: 0, of })?;
    }
    let fields = Parts { from: 0, count: 2 };
    shape.add_struct(Struct { at: 0, fields })?;
    let capacity = Size::Number(0);
    let length = Size::Count(3);
    let kinds = [
        ObjectKind::Map { key: 0, capacity },
        ObjectKind::Chain,
        ObjectKind::Keys,
        ObjectKind::Vector { cell: 0, length },
        ObjectKind::Table { low: 0, high: 9 },
    ];
    for kind in kinds {
        shape.add_object(vg_stree::Object { at: 0, kind })?;
    }
    Ok(shape)
}

// Three routes, the second of which replaces the first; and three fills of a cell, the last of which replaces the first.
fn made_config(alloc: Global) -> Result<Config, Memory> {
    let mut numbers = Vec::new(alloc);
    numbers.push(2)?;
    let mut routes = Vec::new(alloc);
    for (address, len, value) in [
        (0x0A00_0000, 8, 1),
        (0x0A00_0001, 8, 2),
        (0x0A01_0000, 16, 3),
    ] {
        routes.push(Route {
            table: 4,
            address,
            len,
            value,
        })?;
    }
    let mut fills = Vec::new(alloc);
    for (field, value) in [(0, 0x0102), (1, 0x0304), (0, 0x0506)] {
        fills.push(Fill {
            vector: 3,
            index: 1,
            field,
            value,
        })?;
    }
    Ok(Config::new(numbers, routes, fills))
}

fn opened(alloc: Global) -> Result<LibState, Memory> {
    let code = Code::new(alloc);
    let spec = Spec::new(alloc, Names::new(alloc), made_shape(alloc)?, code, EMPTY)?;
    let config = made_config(alloc)?;
    opening(alloc, &spec, &config)?.copy(alloc)
}

#[test]
fn an_opening_state(rt: HostRuntime) -> Result<(), Fail> {
    let state = opened(rt.alloc())?;
    assert!(rt; state.full);
    assert_eq!(rt; state.objects.len(), 5);
    if let Object::Map(link) = &state.objects[0] {
        assert_eq!(rt; (link.capacity, link.key_length, link.size), (2, 4, 0));
        assert!(rt; link.keys.get(&[0, 0, 0, 0]).is_none() && link.times.get(0).is_none());
        assert_eq!(rt;
            link.cells.get(1).map(|cell| cell.as_slice().len()),
            Some(4)
        );
    } else {
        assert!(rt; false);
    }
    if let Object::Cells(vector) = &state.objects[3] {
        assert_eq!(rt; vector.cell_count, 3);
        assert!(rt;
            vector
                .cells
                .get(1)
                .is_some_and(|cell| cell.as_slice() == [6, 5, 3, 4].as_slice())
        );
        assert!(rt;
            vector
                .cells
                .get(2)
                .is_some_and(|cell| cell.as_slice() == [0, 0, 0, 0].as_slice())
        );
        assert!(rt; vector.cells.get(3).is_none());
    } else {
        assert!(rt; false);
    }
    if let Object::Prefixes(prefixes) = &state.objects[4] {
        assert_eq!(rt; prefixes.routes.len(), 2);
        assert_eq!(rt;
            (prefixes.routes[0].value, prefixes.routes[1].value),
            (2, 3)
        );
    } else {
        assert!(rt; false);
    }
    Ok(())
}

// A partial state tells no cell without its index, and has no routes.
#[test]
fn a_full_state_is_lawful_and_not_as_a_partial_one(rt: HostRuntime) -> Result<(), Fail> {
    let alloc = rt.alloc();
    let code = Code::new(alloc);
    let spec = Spec::new(alloc, Names::new(alloc), made_shape(alloc)?, code, EMPTY)?;
    let config = made_config(alloc)?;
    let mut state = opening(alloc, &spec, &config)?;
    assert!(rt; lawful(&spec, &config, &state, 0));
    state.full = false;
    assert!(rt; !lawful(&spec, &config, &state, 0));
    Ok(())
}
