use super::*;
use std::alloc::Global;
use std::test::Fail;

// Why a text is refused, in words.
fn refusal(alloc: Global, text: &str) -> Result<String, Fail> {
    if text.len() >= 4096 {
        return Err(Fail::from("too long"));
    }
    match read_c(alloc, text.as_bytes()) {
        Ok(_) => Ok(format!(in alloc; "typed")?),
        Err(fault) => Ok(format!(in alloc; "{fault}")?),
    }
}

const ROWS: [(&str, &str); 12] = [
    (
        "int nf_process(uint16_t port, uint64_t now) { return 0; }",
        "typed",
    ),
    ("'a'", "bad byte at 0"),
    ("int f(void) { return 0xe+1; }", "bad number at 21"),
    ("\n#if 1", "directive at 1"),
    ("int f(void) { *p++; }", "syntax at 16"),
    ("int f() { }", "syntax at 6"),
    ("int f(int a) { return a; }", "type 3 at 0"),
    (
        "int nf_process(uint16_t port, uint64_t now) { x = 1; return 0; }",
        "type 1 at 46",
    ),
    (
        "struct s { uint8_t a; uint32_t b; }; int nf_process(uint16_t p, uint64_t n) { return 0; }",
        "padded at 7",
    ),
    (
        "int f(int a) { return f(a); } int nf_process(uint16_t p, uint64_t n) { return 0; }",
        "recursive at 22",
    ),
    (
        "int nf_process(uint16_t p, uint64_t n) { for (int i = 0; i < 4097; i++) ; return 0; }",
        "turns at 41",
    ),
    (
        "static inline int f(void) { return 1; } int nf_process(uint16_t p, uint64_t n) { return f(); }",
        "typed",
    ),
];

#[test]
fn texts_and_their_refusals(rt: HostRuntime) -> Result<(), Fail> {
    for (text, want) in ROWS {
        let said = refusal(rt.alloc(), text)?;
        assert_eq!(rt; said.as_str(), want, "{text}");
    }
    Ok(())
}

#[test]
fn lines_and_columns(rt: HostRuntime) -> Result<(), Fail> {
    let text = b"ab\n\ncd";
    let rows = [
        (0, 1, 1),
        (2, 1, 3),
        (3, 2, 1),
        (4, 3, 1),
        (5, 3, 2),
        (99, 3, 3),
    ];
    for (at, line, column) in rows {
        assert_eq!(rt; line_column(text, at), LineColumn { line, column });
    }
    Ok(())
}
