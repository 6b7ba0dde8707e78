//! Machines that run several frames, the longest frame, chains, and texts that nest too deep.

use super::running::{HEAD, run, run_marked, unit_of};
use std::alloc::Global;
use std::test::Fail;
use vg_cmean::{Done, Machine, has_externs};
use vg_core::Reason;

const FIRST_BYTES: &str =
    "int nf_process(uint16_t port, uint64_t now) { int x; uint8_t *q = packet_borrow(2); if (q[0]) x = q[1]; q[1] = 0; return x + port; }";

fn ret(value: i32, steps: u32, left: u32) -> Done {
    Done::Ret { value, steps, left }
}

// Nothing of a frame is left for the next one: no variable is set, no chunk is lent, no step is counted.
#[test]
fn one_machine_runs_several_frames(rt: HostRuntime) -> Result<(), Fail> {
    let Ok(unit) = unit_of(rt.alloc(), FIRST_BYTES)? else {
        return Err(Fail::from("not typed"));
    };
    if has_externs(&unit) {
        return Err(Fail::from("externs"));
    }
    let mut machine = Machine::new(rt.alloc(), &unit)?;
    let mut frame = [1, 7];
    assert_eq!(rt; machine.frame(&unit, 0, &mut frame, 0), ret(7, 6, 1));
    assert_eq!(rt; frame, [1, 0]);
    let mut frame = [0, 7];
    let at = FIRST_BYTES.find("x + port").ok_or("no sum")? as u32;
    let reason = Reason::Unset;
    assert_eq!(rt;
        machine.frame(&unit, 0, &mut frame, 0),
        Done::Wrong { at, reason }
    );
    assert_eq!(rt; frame, [0, 0]);
    let mut frame = [1];
    let at = FIRST_BYTES.find("packet_borrow").ok_or("no borrow")? as u32;
    let reason = Reason::Before(2);
    assert_eq!(rt;
        machine.frame(&unit, 0, &mut frame, 0),
        Done::Wrong { at, reason }
    );
    let mut frame = [2, 9, 5];
    assert_eq!(rt;
        machine.frame(&unit, 65535, &mut frame, 0),
        ret(65544, 6, 1)
    );
    assert_eq!(rt; frame, [2, 0, 5]);
    Ok(())
}

const CLOCK: &str =
    "int nf_process(uint16_t p, uint64_t t) { if (t == 0xffffffffffffffff) return -2; return t + p; }";

#[test]
fn port_and_time_are_the_parameters(rt: HostRuntime) -> Result<(), Fail> {
    let Ok(unit) = unit_of(rt.alloc(), CLOCK)? else {
        return Err(Fail::from("not typed"));
    };
    if has_externs(&unit) {
        return Err(Fail::from("externs"));
    }
    let mut machine = Machine::new(rt.alloc(), &unit)?;
    let mut frame: [u8; 0] = [];
    assert_eq!(rt;
        machine.frame(&unit, 2, &mut frame, u64::MAX),
        ret(-2, 3, 0)
    );
    assert_eq!(rt;
        machine.frame(&unit, 65535, &mut frame, 0),
        ret(65535, 3, 0)
    );
    assert_eq!(rt;
        machine.frame(&unit, 1, &mut frame, 4294967295),
        ret(0, 3, 0)
    );
    assert_eq!(rt;
        machine.frame(&unit, 0, &mut frame, 2147483648),
        ret(i32::MIN, 3, 0)
    );
    Ok(())
}

// The longest frame.
#[test]
fn a_frame_of_262144_bytes(rt: HostRuntime) -> Result<(), Fail> {
    let mut frame = Vec::new(rt.alloc());
    for _byte in 0..262144 {
        frame.push(5)?;
    }
    let body =
        "uint8_t *q = packet_borrow(262144); q[262143] += packet_length() / 131072; int v = q[262143]; packet_return(q); return v;";
    let (found, _) = run_marked(rt.alloc(), "", body, &mut frame)?;
    assert_eq!(rt; found.as_str(), "ret 7 steps 6 left 0");
    assert_eq!(rt; frame.last().copied(), Some(7));
    let body = "uint8_t *q = packet_borrow(262144); return @q[262144];";
    let (found, at) = run_marked(rt.alloc(), "", body, &mut frame)?;
    assert_eq!(rt; found, format!(in rt.alloc(); "wrong {at} out-of-object")?);
    let body = "uint8_t *q = @packet_borrow(262145); return 0;";
    let (found, at) = run_marked(rt.alloc(), "", body, &mut frame)?;
    assert_eq!(rt; found, format!(in rt.alloc(); "wrong {at} before 2")?);
    Ok(())
}

// A text that adds so many ones.
fn sum_of_ones(alloc: Global, count: u32) -> Result<String, Fail> {
    let mut text = String::new(alloc);
    text.push_str("int nf_process(uint16_t port, uint64_t now) { return 1")?;
    for _one in 1..count {
        text.push_str(" + 1")?;
    }
    text.push_str("; }")?;
    Ok(text)
}

// A text with so many declarations, each from the one before.
fn declarations(alloc: Global, count: u32) -> Result<String, Fail> {
    let mut text = String::new(alloc);
    text.push_str("int nf_process(uint16_t port, uint64_t now) { int x0 = 7; ")?;
    for n in 1..count {
        let before = n - 1;
        text.push_str(format!(in alloc; "int x{n} = x{before}; ")?.as_str())?;
    }
    let last = count.max(1) - 1;
    text.push_str(format!(in alloc; "return x{last}; }}")?.as_str())?;
    Ok(text)
}

// An expression in so many parentheses.
fn in_parens(alloc: Global, count: u32, inner: &str) -> Result<String, Fail> {
    let mut text = String::new(alloc);
    for _paren in 0..count {
        text.push('(')?;
    }
    text.push_str(inner)?;
    for _paren in 0..count {
        text.push(')')?;
    }
    Ok(text)
}

// A function `f0`, 71 more that each return a call of the one before in 11 parentheses, and `nf_process` with one in so many.
fn calls_in_parens(alloc: Global, parens: u32) -> Result<String, Fail> {
    let mut text = String::new(alloc);
    text.push_str("int f0(int x) { return x; } ")?;
    for n in 1..72u32 {
        let before = n - 1;
        let called = in_parens(alloc, 11, format!(in alloc; "f{before}(x)")?.as_str())?;
        text.push_str(format!(in alloc; "int f{n}(int x) {{ return {called}; }} ")?.as_str())?;
    }
    let called = in_parens(alloc, parens, "f71(5)")?;
    text.push_str(format!(in alloc; "{HEAD}return {called}; }}")?.as_str())?;
    Ok(text)
}

#[test]
fn chains_nest_nothing(rt: HostRuntime) -> Result<(), Fail> {
    let alloc = rt.alloc();
    let mut frame: [u8; 0] = [];
    let sum = run(alloc, sum_of_ones(alloc, 2000)?.as_str(), &mut frame)?;
    assert_eq!(rt; sum.as_str(), "ret 2000 steps 1 left 0");
    let declared = run(alloc, declarations(alloc, 334)?.as_str(), &mut frame)?;
    assert_eq!(rt; declared.as_str(), "ret 7 steps 1 left 0");
    Ok(())
}

// The block of `f0`, its statement and the expression there are 3 constructs; each other function has 14, with its parentheses; and `nf_process` has 3:
// together 1,000, and one more with one pair of parentheses more.
#[test]
fn texts_that_nest_too_deep_get_no_machine(rt: HostRuntime) -> Result<(), Fail> {
    let alloc = rt.alloc();
    let mut frame: [u8; 0] = [];
    let deep = run(alloc, calls_in_parens(alloc, 0)?.as_str(), &mut frame)?;
    assert_eq!(rt; deep.as_str(), "ret 5 steps 145 left 0");
    let text = calls_in_parens(alloc, 1)?;
    let Ok(unit) = unit_of(alloc, text.as_str())? else {
        return Err(Fail::from("not typed"));
    };
    assert!(rt; Machine::new(alloc, &unit).is_err());
    Ok(())
}
