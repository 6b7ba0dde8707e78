use super::*;
use std::alloc::Global;
use std::test::Fail;
use vg_parts::Memory;

const BLANK: Note = Note {
    of: None,
    stands_for: None,
    constant: None,
    layout: None,
    offset: None,
    steps: 0,
};

const NAME: Name = Name { from: 0, to: 0 };

const U32: Target = Target::Int {
    bits: 32,
    signed: false,
};

fn field(tree: &mut Tree, notes: &mut Vec<Note>, offset: u32) -> Result<u32, Memory> {
    notes.push(Note {
        offset: Some(offset),
        ..BLANK
    })?;
    tree.add(
        0,
        Kind::Field {
            base: Base::Int(IntType::Uint32),
            name: NAME,
            length: None,
        },
    )
}

// A struct of an 8-bit and a 32-bit number, as the System V psABI for x86-64 lays it out: node 2, with its fields 0 and 1.
fn pair(alloc: Global) -> Result<Unit, Memory> {
    let mut tree = Tree::new(alloc);
    let mut notes = Vec::new(alloc);
    let first = field(&mut tree, &mut notes, 0)?;
    let second = field(&mut tree, &mut notes, 4)?;
    let fields = tree.add_parts(&[first, second])?;
    tree.add(
        0,
        Kind::Struct {
            tag: NAME,
            fields,
            attribute: None,
        },
    )?;
    notes.push(Note {
        layout: Some(Layout { size: 8, align: 4 }),
        ..BLANK
    })?;
    Ok(Unit::new(Vec::new(alloc), tree, notes))
}

#[test]
fn lays_types_out(rt: HostRuntime) -> Result<(), Fail> {
    let unit = pair(rt.alloc()).ok().ok_or("no memory")?;
    let byte = CType::Int {
        bits: 8,
        signed: true,
    };
    assert_eq!(rt; layout_of(&unit, &byte), Layout { size: 1, align: 1 });
    assert_eq!(rt;
        layout_of(&unit, &CType::Void),
        Layout { size: 0, align: 1 }
    );
    let pointer = CType::Pointer(Target::Void);
    assert_eq!(rt; layout_of(&unit, &pointer), Layout { size: 8, align: 8 });
    let numbers = CType::Array(U32, 3);
    assert_eq!(rt; layout_of(&unit, &numbers), Layout { size: 12, align: 4 });
    let whole = target_layout(unit.notes(), Target::Struct(2));
    assert_eq!(rt; whole, Layout { size: 8, align: 4 });
    assert_eq!(rt; offset_of(&unit, 2, 0), 0);
    assert_eq!(rt; offset_of(&unit, 2, 1), 4);
    assert_eq!(rt; erase(&unit).nodes().len(), 3);
    assert_eq!(rt; unit.notes().len(), 3);
    assert_eq!(rt; unit.text().len(), 0);
    Ok(())
}

#[test]
fn knows_the_calls_of_the_library(rt: HostRuntime) {
    assert_eq!(rt; library_row(b"packet_length"), Some(1));
    assert_eq!(rt; library_row(b"prefix_lookup"), Some(15));
    assert_eq!(rt; library_row(b"packet_len"), None);
    assert_eq!(rt; library_answer(3), Some(CType::Void));
    assert_eq!(rt; library_answer(16), None);
    assert_eq!(rt; library_takes(12).len(), 4);
    assert_eq!(rt; library_takes(0).len(), 0);
}
