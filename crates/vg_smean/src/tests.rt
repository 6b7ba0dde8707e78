use super::*;
use std::alloc::Global;
use std::test::Fail;
use vg_abs::{LibState, lawful};
use vg_core::Verdict;
use vg_parts::Memory;
use vg_stree::{Code, Config, FrameWord, Names, Operation, Operator, SExpr, SStmt, Shape, Spec};

// Words of the frame 1 2 3: what each reads at a place, and the frame once 0x0a0b0c0d0e0f is written there.
const WORDS: [(FrameWord, u64, u64, [u8; 3]); 6] = [
    (FrameWord::U8, 0, 0x01, [0x0f, 2, 3]),
    (FrameWord::Be16, 1, 0x0203, [1, 0x0e, 0x0f]),
    (FrameWord::Be16, 2, 0x0300, [1, 2, 0x0e]),
    (FrameWord::Be32, 0, 0x0102_0300, [0x0c, 0x0d, 0x0e]),
    (FrameWord::Be48, 1, 0x0203_0000_0000, [1, 0x0a, 0x0b]),
    (FrameWord::Be64, 3, 0, [1, 2, 3]),
];

#[test]
fn words_of_a_frame(rt: HostRuntime) -> Result<(), Fail> {
    for (word, place, number, written) in WORDS {
        let mut frame = [1, 2, 3];
        assert_eq!(rt; word_at(&frame, word, place), number, "{word:?}");
        set_word(&mut frame, word, place, 0x0a0b_0c0d_0e0f);
        assert_eq!(rt; frame, written, "{word:?}");
    }
    Ok(())
}

// `send 1 - port;` on two ports.
fn swap(alloc: Global) -> Result<Spec, Memory> {
    let mut code = Code::new(alloc);
    let first = code.add_expression(SExpr::Number(1))?;
    let operand = code.add_expression(SExpr::Port)?;
    let rest = code.add_operations(&[Operation {
        operator: Operator::Subtract,
        operand,
    }])?;
    let port = code.add_expression(SExpr::Chain { first, rest })?;
    let send = code.add_statement(SStmt::Send { port })?;
    let step = code.add_items(&[send])?;
    Spec::new(alloc, Names::new(alloc), Shape::new(alloc, 2), code, step)
}

#[test]
fn a_swap(rt: HostRuntime) -> Result<(), Fail> {
    let spec = swap(rt.alloc())?;
    let config = Config::new(
        Vec::new(rt.alloc()),
        Vec::new(rt.alloc()),
        Vec::new(rt.alloc()),
    );
    let rows = [
        (0, 0, Ok(Verdict::Send(1))),
        (1, 0, Ok(Verdict::Send(0))),
        (0, 1, Err(SpecStop::Choice)),
    ];
    for (port, count, expected) in rows {
        let mut state = LibState {
            full: true,
            objects: Vec::new(rt.alloc()),
        };
        let mut frame = vec![in rt.alloc(); 9; 2]?;
        let choices = vec![in rt.alloc(); 7; count]?;
        let fits = lawful(&spec, &config, &state, 5);
        assert_eq!(rt; fits, true);
        if fits {
            let end = spec_step(
                rt.alloc(),
                &spec,
                &config,
                &mut state,
                port,
                &mut frame,
                5,
                &choices,
            );
            assert_eq!(rt; end, expected);
        }
    }
    Ok(())
}
