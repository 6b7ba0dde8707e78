use super::*;
use std::alloc::Global;
use std::test::Fail;
use vg_core::{Base, CType, HandleKind, IntType, Kind, Name, Note, Target, Tree, Unit};
use vg_parts::Memory;
use vg_stree::{
    Code, Field, FieldType, Names, Number, Object, ObjectKind, Parts, Shape, Size, Spec, Struct,
    Width,
};

// The names of the C text: an extern number, a map, and a struct.
const TEXT: &[u8] = b"limit flows key";

const BLANK: Note = Note {
    of: None,
    stands_for: None,
    constant: None,
    layout: None,
    offset: None,
    steps: 0,
};

const U32: CType = CType::Int {
    bits: 32,
    signed: false,
};

const BYTE: Target = Target::Int {
    bits: 8,
    signed: false,
};

// What a C text declares, and of which type the field of its struct is.
#[derive(Clone, Copy)]
struct Text {
    number: IntType,
    handle: HandleKind,
    field: CType,
}

const GOOD: Text = Text {
    number: IntType::Uint32,
    handle: HandleKind::Map,
    field: U32,
};

fn made_unit(alloc: Global, text: Text) -> Result<Unit, Memory> {
    let mut tree = Tree::new(alloc);
    let name = Name { from: 0, to: 5 };
    tree.add(
        0,
        Kind::ExternNumber {
            of: text.number,
            name,
        },
    )?;
    let name = Name { from: 6, to: 11 };
    tree.add(
        6,
        Kind::ExternHandle {
            handle: text.handle,
            name,
        },
    )?;
    let base = Base::Int(IntType::Uint32);
    let name = Name { from: 12, to: 15 };
    let field = tree.add(
        12,
        Kind::Field {
            base,
            name,
            length: None,
        },
    )?;
    let fields = tree.add_parts(&[field])?;
    let attribute = None;
    tree.add(
        12,
        Kind::Struct {
            tag: name,
            fields,
            attribute,
        },
    )?;
    let of = Some(text.field);
    let notes = vec![in alloc; BLANK, BLANK, Note { of, ..BLANK }, BLANK]?;
    Ok(Unit::new(Vec::from_slice(alloc, TEXT)?, tree, notes))
}

// A specification that declares a number at 100, a struct with one field at 200, whose name stands at 250, and a link whose map stands at 300.
fn made_spec(alloc: Global, number: &str, tag: &str, map: &str) -> Result<Spec, Memory> {
    let mut names = Names::new(alloc);
    names.add(alloc, 100, number)?;
    names.add(alloc, 200, tag)?;
    names.add(alloc, 250, "inside")?;
    names.add(alloc, 300, map)?;
    let mut shape = Shape::new(alloc, 2);
    shape.add_number(Number {
        at: 100,
        of: Width::Bits32,
        low: 0,
        high: 9,
    })?;
    shape.add_field(Field {
        at: 250,
        of: FieldType::Number(Width::Bits32),
    })?;
    let fields = Parts { from: 0, count: 1 };
    shape.add_struct(Struct { at: 200, fields })?;
    let capacity = Size::Count(8);
    let kind = ObjectKind::Map { key: 0, capacity };
    shape.add_object(Object { at: 300, kind })?;
    Spec::new(
        alloc,
        names,
        shape,
        Code::new(alloc),
        Parts { from: 0, count: 0 },
    )
}

#[test]
fn a_text_that_fits(rt: HostRuntime) -> Result<(), Fail> {
    let alloc = rt.alloc();
    let spec = made_spec(alloc, "limit", "key", "flows")?;
    let signed = Text {
        number: IntType::Int,
        ..GOOD
    };
    for text in [GOOD, signed] {
        let unit = made_unit(alloc, text)?;
        assert!(rt; fit(&unit, &spec).is_ok());
    }
    assert_eq!(rt; bound_to(&spec, b"limit"), Some(Binding::Number(0)));
    assert_eq!(rt; bound_to(&spec, b"flows"), Some(Binding::Object(0)));
    assert_eq!(rt; bound_to(&spec, b"key"), None);
    Ok(())
}

#[test]
fn texts_that_do_not_fit(rt: HostRuntime) -> Result<(), Fail> {
    let alloc = rt.alloc();
    let spec = made_spec(alloc, "limit", "key", "flows")?;
    let signed = CType::Int {
        bits: 32,
        signed: true,
    };
    let rows = [
        (
            Text {
                number: IntType::Uint16,
                ..GOOD
            },
            Misfit::Kind(0),
        ),
        (
            Text {
                handle: HandleKind::Chain,
                ..GOOD
            },
            Misfit::Kind(6),
        ),
        (
            Text {
                field: signed,
                ..GOOD
            },
            Misfit::Layout(200),
        ),
        (
            Text {
                field: CType::Array(BYTE, 4),
                ..GOOD
            },
            Misfit::Layout(200),
        ),
    ];
    for (text, fault) in rows {
        let unit = made_unit(alloc, text)?;
        assert_eq!(rt; fit(&unit, &spec), Err(fault));
    }
    Ok(())
}

#[test]
fn names_that_are_missing(rt: HostRuntime) -> Result<(), Fail> {
    let alloc = rt.alloc();
    let unit = made_unit(alloc, GOOD)?;
    let rows = [
        ("bound", "key", "flows", Misfit::Missing(Place::Text(0))),
        ("inside", "key", "flows", Misfit::Missing(Place::Text(0))),
        ("limit", "key", "ages", Misfit::Missing(Place::Text(6))),
        ("limit", "flows", "ages", Misfit::Kind(6)),
        (
            "limit",
            "place",
            "flows",
            Misfit::Missing(Place::Specification(200)),
        ),
    ];
    for (number, tag, map, fault) in rows {
        let spec = made_spec(alloc, number, tag, map)?;
        assert_eq!(rt; fit(&unit, &spec), Err(fault));
    }
    Ok(())
}
