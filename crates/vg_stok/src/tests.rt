use super::*;
use std::alloc::Global;
use std::test::Fail;

// The tokens of a text as text: each kind with its place.
fn shown(alloc: Global, text: &str) -> Result<String, Fail> {
    let mut line = String::new(alloc);
    if text.len() >= 4096 {
        return Ok(line);
    }
    for token in &tokens(alloc, text.as_bytes())? {
        let kind = token.kind;
        let from = token.from;
        let to = token.to;
        let one = format!(in alloc; "{kind:?} {from} {to};")?;
        line.push_str(one.as_str())?;
    }
    Ok(line)
}

#[test]
fn texts_have_their_tokens(rt: HostRuntime) -> Result<(), Fail> {
    let rows = [
        ("", ""),
        (" \t\r\n", ""),
        (
            "ports port portx",
            "Word(Ports) 0 5;Word(Port) 6 10;Name 11 16;",
        ),
        (
            "u8 u16 b8 b9",
            "Word(U8) 0 2;Word(U16) 3 6;Word(B8) 7 9;Name 10 12;",
        ),
        ("0..3", "Number(0) 0 1;Sign(Range) 1 3;Number(3) 3 4;"),
        (
            "a.b...",
            "Name 0 1;Sign(Dot) 1 2;Name 2 3;Sign(Range) 3 5;Sign(Dot) 5 6;",
        ),
        ("<<=", "Sign(ShiftLeft) 0 2;Sign(Assign) 2 3;"),
        ("0x00fF", "Number(255) 0 6;"),
        ("18446744073709551615", "Number(18446744073709551615) 0 20;"),
        ("18446744073709551616", "Other 0 20;"),
        ("0xffffffffffffffff", "Number(18446744073709551615) 0 18;"),
        ("0x10000000000000000", "Other 0 19;"),
        ("00 01 0", "Other 0 2;Other 3 5;Number(0) 6 7;"),
        (
            "0x 0X1 1u 0xg",
            "Other 0 2;Other 3 6;Other 7 9;Other 10 13;",
        ),
        ("a/*b*/c//d\ne", "Name 0 1;Name 6 7;Name 11 12;"),
        ("a /*/ b", "Name 0 1;Other 2 7;"),
        ("~ #x", "Other 0 1;Other 2 3;Name 3 4;"),
        (
            "a23456789012345678901234567890123456789012345678901234567890123 b",
            "Name 0 63;Name 64 65;",
        ),
        (
            "a2345678901234567890123456789012345678901234567890123456789012345 b",
            "Other 0 65;Name 66 67;",
        ),
    ];
    for (text, want) in rows {
        assert_eq!(rt; shown(rt.alloc(), text)?.as_str(), want);
    }
    Ok(())
}
