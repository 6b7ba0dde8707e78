use super::*;
use std::alloc::Global;
use std::test::Fail;
use vg_parts::Memory;
use vg_stree::{
    Code, Field, FieldType, Names, Number, Object, ObjectKind, Operation, Operator, Parts, Rule,
    SExpr, Shape, Size, Spec, Struct, Width,
};

const EMPTY: Parts = Parts { from: 0, count: 0 };

// A number of at most 65,535, a prefix table with values 0 to 9, and a vector of 8 cells of a byte.
fn made_shape(alloc: Global) -> Result<Shape, Memory> {
    let mut shape = Shape::new(alloc, 1);
    shape.add_number(Number {
        at: 10,
        of: Width::Bits64,
        low: 1,
        high: 65535,
    })?;
    let of = FieldType::Number(Width::Bits8);
    shape.add_field(Field { at: 40, of })?;
    let fields = Parts { from: 0, count: 1 };
    shape.add_struct(Struct { at: 50, fields })?;
    let kind = ObjectKind::Table { low: 0, high: 9 };
    shape.add_object(Object { at: 20, kind })?;
    let length = Size::Count(8);
    let kind = ObjectKind::Vector { cell: 0, length };
    shape.add_object(Object { at: 30, kind })?;
    Ok(shape)
}

fn made(alloc: Global) -> Result<Spec, Memory> {
    let mut names = Names::new(alloc);
    for (at, name) in [
        (10, "start_port"),
        (20, "hops"),
        (30, "owners"),
        (40, "tag"),
    ] {
        names.add(alloc, at, name)?;
    }
    Spec::new(alloc, names, made_shape(alloc)?, Code::new(alloc), EMPTY)
}

// A text of each form, and each reason for which a line is refused.
const ROWS: [(&str, Option<ConfFault>); 16] = [
    ("start_port 1024\n", None),
    ("# a comment\n\nstart_port 0x0400", None),
    ("start_port 0.0.4.0", None),
    ("start_port 65536", Some(ConfFault::Range(10))),
    ("start_port 1\nstart_port 1", Some(ConfFault::Twice(10))),
    ("start_port 01", Some(ConfFault::Line(1))),
    ("start_port  1", Some(ConfFault::Line(1))),
    ("start_port 18446744073709551616", Some(ConfFault::Line(1))),
    ("\nfirst_port 1", Some(ConfFault::Line(2))),
    ("route hops 10.0.0.0/8 9", None),
    ("route hops 10.0.0.0/8 10", Some(ConfFault::Range(20))),
    ("route hops 10.0.0.0/33 1", Some(ConfFault::Line(1))),
    ("route hops 10.0.0.256/8 1", Some(ConfFault::Line(1))),
    ("cell owners 99 tag 255", None),
    ("cell owners 0 tag 256", Some(ConfFault::Line(1))),
    ("cell hops 0 tag 1", Some(ConfFault::Line(1))),
];

#[test]
fn lines_of_each_form(rt: HostRuntime) -> Result<(), Fail> {
    let spec = made(rt.alloc())?;
    for (text, expected) in ROWS {
        let fault = gathered(rt.alloc(), &spec, text.as_bytes()).err();
        assert_eq!(rt; fault, expected, "{text}");
    }
    Ok(())
}

// `NAME : u64 LOW .. HIGH`.
fn number(at: u32, low: u64, high: u64) -> Number {
    Number {
        at,
        of: Width::Bits64,
        low,
        high,
    }
}

// What nat declares of its numbers, with its premise `start_port + capacity <= 65536`; and a vector of 2 cells of a byte `owner`, with the
// rule `cell.owner < 4`.
fn made_nat(alloc: Global) -> Result<Spec, Memory> {
    let mut names = Names::new(alloc);
    for (at, name) in [
        (10, "start_port"),
        (20, "capacity"),
        (30, "owners"),
        (40, "owner"),
    ] {
        names.add(alloc, at, name)?;
    }
    let mut code = Code::new(alloc);
    let mut shape = Shape::new(alloc, 2);
    shape.add_number(number(10, 1, 65535))?;
    shape.add_number(number(20, 1, 65535))?;
    let start = code.add_expression(SExpr::Config(0))?;
    let capacity = code.add_expression(SExpr::Config(1))?;
    let sum = chain(&mut code, start, Operator::Add, capacity)?;
    let end = code.add_expression(SExpr::Number(65536))?;
    shape.add_premise(chain(&mut code, sum, Operator::LessEqual, end)?)?;
    let of = FieldType::Number(Width::Bits8);
    shape.add_field(Field { at: 40, of })?;
    let fields = Parts { from: 0, count: 1 };
    shape.add_struct(Struct { at: 50, fields })?;
    let length = Size::Count(2);
    let kind = ObjectKind::Vector { cell: 0, length };
    shape.add_object(Object { at: 30, kind })?;
    let owner = code.add_expression(SExpr::CellField(0))?;
    let four = code.add_expression(SExpr::Number(4))?;
    let value = chain(&mut code, owner, Operator::Less, four)?;
    shape.add_rule(Rule { vector: 0, value })?;
    Spec::new(alloc, names, shape, code, EMPTY)
}

fn chain(code: &mut Code, first: u32, operator: Operator, operand: u32) -> Result<u32, Memory> {
    let rest = code.add_operations(&[Operation { operator, operand }])?;
    code.add_expression(SExpr::Chain { first, rest })
}

// Each fault of a whole text, in the order in which they come.
const WHOLE: [(&str, Option<ConfFault>); 8] = [
    ("start_port 1024\ncapacity 64512", None),
    (
        "start_port 1024\ncapacity 64513",
        Some(ConfFault::Premise(1)),
    ),
    ("start_port 1024\ncapacity 0", Some(ConfFault::Range(20))),
    ("capacity 1\ncapacity 1", Some(ConfFault::Twice(20))),
    ("capacity 64513", Some(ConfFault::Absent(10))),
    (
        "start_port 9\ncapacity 65535\ncell owners 2 owner 4",
        Some(ConfFault::Premise(1)),
    ),
    (
        "start_port 9\ncapacity 9\ncell owners 1 owner 4\ncell owners 2 owner 0",
        Some(ConfFault::Line(4)),
    ),
    (
        "start_port 9\ncapacity 9\ncell owners 1 owner 4",
        Some(ConfFault::Rule(1)),
    ),
];

#[test]
fn whole_texts(rt: HostRuntime) -> Result<(), Fail> {
    let spec = made_nat(rt.alloc())?;
    for (text, expected) in WHOLE {
        let fault = read_conf(rt.alloc(), &spec, text.as_bytes()).err();
        assert_eq!(rt; fault, expected, "{text}");
    }
    Ok(())
}
