use super::*;
use crate::functions;
use std::alloc::{AllocError, Global};
use std::test::Fail;

// A text between two others.
fn joined(alloc: Global, front: &str, text: &str, back: &str) -> Result<String, AllocError> {
    let mut whole = String::from_str(alloc, front)?;
    whole.push_str(text)?;
    whole.push_str(back)?;
    Ok(whole)
}

// What becomes of a text: `read`, or its fault.
fn told(alloc: Global, text: &str) -> Result<String, Fail> {
    if text.len() >= 65536 {
        return Ok(String::new(alloc));
    }
    match read_written(alloc, text.as_bytes()) {
        Ok(_) => Ok(String::from_str(alloc, "read")?),
        Err(fault) => Ok(format!(in alloc; "{fault}")?),
    }
}

// A text so many times.
fn repeated(alloc: Global, text: &str, count: usize) -> Result<String, AllocError> {
    let mut whole = String::new(alloc);
    for _ in 0..count {
        whole.push_str(text)?;
    }
    Ok(whole)
}

#[test]
fn whole_texts(rt: HostRuntime) -> Result<(), Fail> {
    let rows = [
        ("", "syntax at 0"),
        ("ports 1; step {}", "read"),
        ("step {}", "read"),
        ("ports 1;", "syntax at 8"),
        ("ports 1; step {} x", "syntax at 17"),
        ("ports x; step {}", "syntax at 6"),
        ("ports 01; step {}", "syntax at 6"),
        ("ports 1u; step {}", "syntax at 6"),
        ("ports 1 step {}", "syntax at 8"),
        ("struct s { } step {}", "syntax at 11"),
        ("struct s { a : b8; c : u64; } step {}", "read"),
        ("struct s { a : b9; } step {}", "syntax at 15"),
        ("struct s { a : u8; }; step {}", "syntax at 20"),
        ("config c : u8 0..3; step {}", "read"),
        ("config c : b1 0..3; step {}", "syntax at 11"),
        ("config c : u8 0.3; step {}", "syntax at 15"),
        ("link a, b, c : k, 4; step {}", "read"),
        ("link a, b : k, 4; step {}", "syntax at 10"),
        ("vector v : c, n; step {}", "read"),
        ("prefix p : 0 .. 3; step {}", "read"),
        ("rule v : cell.f < 4; step {}", "read"),
        ("define f() = 1; step {}", "read"),
        ("define f(a, b) = a + b; step {}", "read"),
        ("define f(a,) = a; step {}", "syntax at 11"),
        ("define f(a) a; step {}", "syntax at 12"),
        ("define port() = 1; step {}", "syntax at 7"),
        ("premise 1; step {}", "read"),
        ("premise; step {}", "syntax at 7"),
        ("step { /* }", "syntax at 7"),
        ("step { ~ }", "syntax at 7"),
    ];
    for (text, want) in rows {
        assert_eq!(rt; told(rt.alloc(), text)?.as_str(), want);
    }
    Ok(())
}

#[test]
fn statements(rt: HostRuntime) -> Result<(), Fail> {
    let rows = [
        ("let x = 1;", "read"),
        ("let port = 1;", "syntax at 20"),
        ("let u8 = 1;", "syntax at 20"),
        ("drop; flood;", "read"),
        ("drop", "syntax at 21"),
        ("if 1 { } else { drop; }", "read"),
        ("if 1 drop;", "syntax at 21"),
        ("else { }", "syntax at 16"),
        ("if 1 { } else if 1 { }", "syntax at 30"),
        ("frame.be16[12] = 1;", "read"),
        ("frame.u16[0] = 1;", "syntax at 22"),
        ("frame.u8[n] = 1;", "syntax at 25"),
        ("v[1].f = 2;", "read"),
        ("v.f = 2;", "syntax at 17"),
        ("v[1] = 2;", "syntax at 21"),
        ("expire L before now - 1;", "read"),
        ("find L {1, 2} as i { } else { }", "read"),
        ("find L {} as i { }", "syntax at 24"),
        ("add L {1} as i { }", "read"),
        ("touch L i; remove L i + 1;", "read"),
        ("touch L;", "syntax at 23"),
        ("lookup T 1 as v { }", "read"),
        ("f(1);", "syntax at 17"),
        (";", "syntax at 16"),
        ("{ }", "syntax at 16"),
    ];
    for (text, want) in rows {
        let whole = joined(rt.alloc(), "ports 1; step { ", text, " }")?;
        assert_eq!(rt; told(rt.alloc(), whole.as_str())?.as_str(), want);
    }
    Ok(())
}

#[test]
fn expressions(rt: HostRuntime) -> Result<(), Fail> {
    let rows = [
        ("1 + 2 * 3", "read"),
        ("-1", "syntax at 21"),
        ("!!a", "read"),
        ("~a", "syntax at 21"),
        ("a ? b : c ? d : e", "read"),
        ("a ? b", "syntax at 26"),
        ("f()", "read"),
        ("f(1, 2)", "read"),
        ("f(1,)", "syntax at 25"),
        ("v[i].f", "read"),
        ("v[i]", "syntax at 25"),
        ("frame.be48[0]", "read"),
        ("frame", "syntax at 26"),
        ("cell.f", "read"),
        ("cell", "syntax at 25"),
        ("has(L, 1)", "read"),
        ("has(1, 1)", "syntax at 25"),
        ("length + port + now", "read"),
        ("(1", "syntax at 23"),
        ("a b", "syntax at 23"),
        ("a.b", "syntax at 22"),
        ("1..2", "syntax at 22"),
        ("0x10 << 2 >> a || b && c | d ^ e & f", "read"),
        ("a == b != c <= d >= e", "read"),
    ];
    for (text, want) in rows {
        let whole = joined(rt.alloc(), "ports 1; step { send ", text, "; }")?;
        assert_eq!(rt; told(rt.alloc(), whole.as_str())?.as_str(), want);
    }
    Ok(())
}

// Of what is opened so many times, one behind the other, inside a step: the step's block, the statement and its expression count too.
#[test]
fn nesting(rt: HostRuntime) -> Result<(), Fail> {
    let alloc = rt.alloc();
    let rows = [
        ("ports 1; step { send ", "(", 61, "1", ")", "; }", "read"),
        (
            "ports 1; step { send ",
            "(",
            62,
            "1",
            ")",
            "; }",
            "too deep at 83",
        ),
        ("ports 1; step { send ", "!", 61, "1", "", "; }", "read"),
        (
            "ports 1; step { send ",
            "!",
            62,
            "1",
            "",
            "; }",
            "too deep at 83",
        ),
        (
            "ports 1; step { send ",
            "!",
            62,
            ";",
            "",
            " }",
            "syntax at 83",
        ),
        (
            "ports 1; step { ",
            "if 1 { ",
            31,
            "drop;",
            "}",
            " }",
            "read",
        ),
        (
            "ports 1; step { ",
            "if 1 { ",
            32,
            "drop;",
            "}",
            " }",
            "too deep at 236",
        ),
        (
            "ports 1; step { send ",
            "1 + ",
            2000,
            "1",
            "",
            "; }",
            "read",
        ),
    ];
    for (front, open, count, inner, close, back, want) in rows {
        let opened = repeated(alloc, open, count)?;
        let closed = repeated(alloc, close, count)?;
        let half = joined(alloc, front, opened.as_str(), inner)?;
        let whole = joined(alloc, half.as_str(), closed.as_str(), back)?;
        assert_eq!(rt; told(alloc, whole.as_str())?.as_str(), want);
    }
    Ok(())
}

// The texts of the six functions that come with the program.
#[test]
fn functions_are_read(rt: HostRuntime) -> Result<(), Fail> {
    for text in functions::TEXTS {
        assert_eq!(rt; told(rt.alloc(), text)?.as_str(), "read");
    }
    Ok(())
}
