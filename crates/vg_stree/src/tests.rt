ghost use Rattle.std.specs.Prelude.{◌≤◌, length};

use super::*;
use std::alloc::Global;
use std::test::Fail;
use vg_parts::Memory;

const EMPTY: Parts = Parts { from: 0, count: 0 };

// A struct of a `u16`, a `b4` and a `u64`, whose fields' names stand at 10, 20 and 30 and its own at 5; and a vector of it at 40.
fn made_shape(alloc: Global) -> Result<Shape, Memory> {
    let mut shape = Shape::new(alloc, 2);
    let types = [
        FieldType::Number(Width::Bits16),
        FieldType::Bytes(4),
        FieldType::Number(Width::Bits64),
    ];
    let mut at = 10;
    for of in types {
        shape.add_field(Field { at, of })?;
        at = u32::min(at, 1000) + 10;
    }
    let fields = Parts { from: 0, count: 3 };
    shape.add_struct(Struct { at: 5, fields })?;
    let kind = ObjectKind::Vector {
        cell: 0,
        length: Size::Count(7),
    };
    shape.add_object(Object { at: 40, kind })?;
    Ok(shape)
}

// Names at 5 and 40, a field's at 10.
fn made_names(alloc: Global) -> Result<Names, Memory> {
    let mut names = Names::new(alloc);
    names.add(alloc, 5, "flow")?;
    names.add(alloc, 10, "port")?;
    names.add(alloc, 40, "flows")?;
    Ok(names)
}

// A define whose body calls the one before, so many times, and a step that sends by the last.
fn made_calls(alloc: Global, calls: u32) -> Result<Spec, Memory> {
    let mut code = Code::new(alloc);
    let mut body = code.add_expression(SExpr::Port)?;
    for _ in 0..calls {
        body = code.add_expression(SExpr::Call {
            body,
            arguments: EMPTY,
        })?;
    }
    let statement = code.add_statement(SStmt::Send { port: body })?;
    let step = code.add_items(&[statement])?;
    Spec::new(alloc, made_names(alloc)?, made_shape(alloc)?, code, step)
}

// A sum of so many ports.
fn made_sum(alloc: Global, more: u32) -> Result<Spec, Memory> {
    let mut code = Code::new(alloc);
    let first = code.add_expression(SExpr::Port)?;
    let mut operations = Vec::new(alloc);
    for _ in 0..more {
        let operand = code.add_expression(SExpr::Port)?;
        operations.push(Operation {
            operator: Operator::Add,
            operand,
        })?;
    }
    let rest = code.add_operations(&operations)?;
    code.add_expression(SExpr::Chain { first, rest })?;
    Spec::new(alloc, Names::new(alloc), Shape::new(alloc, 1), code, EMPTY)
}

#[test]
fn names_and_places(rt: HostRuntime) -> Result<(), Fail> {
    let made = made_calls(rt.alloc(), 1)?;
    let spec = made.copy(rt.alloc())?;
    assert_eq!(rt; name_at(&spec, 5), "flow");
    assert_eq!(rt; name_at(&spec, 6), "");
    assert_eq!(rt; object_name(&spec, 0), "flows");
    assert_eq!(rt; object_name(&spec, 1), "");
    assert!(rt; is_declared(&spec, b"flow"));
    assert!(rt; !is_declared(&spec, b"port"));
    let shape = spec.shape();
    assert_eq!(rt; shape.ports(), 2);
    assert_eq!(rt; shape.struct_bytes(0), 14);
    assert_eq!(rt; shape.struct_bytes(1), 0);
    assert_eq!(rt; shape.field_place(0, 2), 6);
    assert_eq!(rt; shape.field_place(0, 9), 14);
    assert_eq!(rt; shape.fields_of(0).len(), 3);
    assert_eq!(rt; shape.objects().len(), 1);
    assert_eq!(rt; spec.code().expressions().len(), 2);
    assert_eq!(rt; spec.code().items(spec.step()).len(), 1);
    Ok(())
}

#[test]
fn calls_nest_and_chains_do_not(rt: HostRuntime) -> Result<(), Fail> {
    assert!(rt; made_calls(rt.alloc(), 999).is_ok());
    assert!(rt; made_calls(rt.alloc(), 1000).is_err());
    assert!(rt; made_sum(rt.alloc(), 3000).is_ok());
    Ok(())
}

#[test]
fn a_configuration_is_copied(rt: HostRuntime) -> Result<(), Fail> {
    let alloc = rt.alloc();
    let route = Route {
        table: 3,
        address: 0x0A00_0000,
        len: 8,
        value: 2,
    };
    let fill = Fill {
        vector: 4,
        index: 9,
        field: 1,
        value: 77,
    };
    let numbers = vec![in alloc; 5u64, 6]?;
    let routes = vec![in alloc; route]?;
    let fills = vec![in alloc; fill]?;
    let copied = Config::new(numbers, routes, fills).copy(alloc)?;
    assert_eq!(rt; copied.numbers(), [5, 6].as_slice());
    assert_eq!(rt; copied.routes(), [route].as_slice());
    assert_eq!(rt; copied.fills(), [fill].as_slice());
    Ok(())
}
