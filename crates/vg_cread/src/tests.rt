use super::*;
use crate::shown::shown;
use std::alloc::{AllocError, Global};
use std::test::Fail;
use vg_core::Kind;
use vg_ctok::tokens;

// A text between two others.
fn joined(alloc: Global, front: &[u8], text: &[u8], back: &[u8]) -> Result<Vec<u8>, AllocError> {
    let mut whole = Vec::new(alloc);
    whole.extend_from_slice(front)?;
    whole.extend_from_slice(text)?;
    whole.extend_from_slice(back)?;
    Ok(whole)
}

// A text so many times.
fn repeated(alloc: Global, text: &[u8], count: usize) -> Result<Vec<u8>, AllocError> {
    let mut whole = Vec::new(alloc);
    for _ in 0..count {
        whole.extend_from_slice(text)?;
    }
    Ok(whole)
}

// What a text is: its tree as text, or `syntax at PLACE`, `too deep at PLACE`, or `tokens` where it has none.
fn read(alloc: Global, text: &[u8]) -> Result<Vec<u8>, Fail> {
    if text.len() >= 65536 {
        return Ok(Vec::new(alloc));
    }
    let Ok(toks) = tokens(alloc, text) else {
        return Ok(Vec::from_slice(alloc, b"tokens")?);
    };
    match read_unit(alloc, &toks) {
        Ok(tree) => Ok(shown(alloc, text, &tree)?),
        Err(fault) => {
            let line = format!(in alloc; "{fault}")?;
            Ok(Vec::from_slice(alloc, line.as_str().as_bytes())?)
        }
    }
}

// Whether a text between two others is a tree, told by its text between two others.
fn is_read(
    alloc: Global,
    around: (&str, &str),
    text: &str,
    shown_around: (&str, &str),
    want: &str,
) -> Result<bool, Fail> {
    let whole = joined(
        alloc,
        around.0.as_bytes(),
        text.as_bytes(),
        around.1.as_bytes(),
    )?;
    let tree = joined(
        alloc,
        shown_around.0.as_bytes(),
        want.as_bytes(),
        shown_around.1.as_bytes(),
    )?;
    Ok(read(alloc, &whole)?.as_slice() == tree.as_slice())
}

#[test]
fn expressions_group_by_rank(rt: HostRuntime) -> Result<(), Fail> {
    let around = ("int f(void) { return ", "; }");
    let shown_around = ("(unit (function int f (block (return ", "))))");
    let rows = [
        ("1", "1"),
        ("a", "a"),
        ("5u", "(5 uint32_t)"),
        ("0x10", "16"),
        ("a - b - c", "(- (- a b) c)"),
        ("a - (b - c)", "(- a (() (- b c)))"),
        ("a + b * c", "(+ a (* b c))"),
        ("a * b + c", "(+ (* a b) c)"),
        ("a / b % c", "(% (/ a b) c)"),
        ("a << b + c", "(<< a (+ b c))"),
        ("a < b << c", "(< a (<< b c))"),
        ("a == b < c", "(== a (< b c))"),
        ("a & b == c", "(& a (== b c))"),
        ("a ^ b & c", "(^ a (& b c))"),
        ("a | b ^ c", "(| a (^ b c))"),
        ("a && b | c", "(&& a (| b c))"),
        ("a || b && c", "(|| a (&& b c))"),
        ("a && b || c && d", "(|| (&& a b) (&& c d))"),
        ("a <= b >= c", "(>= (<= a b) c)"),
        ("a != b == c", "(== (!= a b) c)"),
        ("a >> b << c", "(<< (>> a b) c)"),
        ("a ? b : c ? d : e", "(? a b (? c d e))"),
        ("a ? b ? c : d : e", "(? a (? b c d) e)"),
        ("a || b ? c : d", "(? (|| a b) c d)"),
        ("-a - -b", "(- (- a) (- b))"),
        ("!a == b", "(== (! a) b)"),
        ("~a & b", "(& (~ a) b)"),
        ("- - a", "(- (- a))"),
        ("*p * *q", "(* (* p) (* q))"),
        ("&a[1]", "(& ([] a 1))"),
        ("a[b + 1][c]", "([] ([] a (+ b 1)) c)"),
        ("p->x.y", "(. (-> p x) y)"),
        ("*p->x", "(* (-> p x))"),
        ("(*p).x", "(. (() (* p)) x)"),
        ("((a))", "(() (() a))"),
        ("(int)a + b", "(+ (cast int a) b)"),
        ("(uint8_t)(a + b)", "(cast uint8_t (() (+ a b)))"),
        ("(struct s *)p", "(cast struct s * p)"),
        ("(uint32_t *)p->x", "(cast uint32_t * (-> p x))"),
        ("(int)-a", "(cast int (- a))"),
        ("(unsigned int)a", "(cast unsigned a)"),
        ("sizeof(int) + 1", "(+ (sizeof int) 1)"),
        ("sizeof(struct s)", "(sizeof struct s)"),
        ("f()", "(call f)"),
        ("f(a, b + 1, g(c))", "(call f a (+ b 1) (call g c))"),
        ("f(a)[1]", "([] (call f a) 1)"),
    ];
    for (text, want) in rows {
        assert!(rt; is_read(rt.alloc(), around, text, shown_around, want)?);
    }
    Ok(())
}

#[test]
fn statements_and_declarations(rt: HostRuntime) -> Result<(), Fail> {
    let around = ("void f(void) { ", " }");
    let shown_around = ("(unit (function void f (block ", ")))");
    let rows = [
        (";", "empty"),
        ("x = 1;", "(set x 1)"),
        ("x += y * 2;", "(set + x (* y 2))"),
        ("x >>= 1;", "(set >> x 1)"),
        (
            "a -= b; a *= b; a /= b; a %= b;",
            "(set - a b) (set * a b) (set / a b) (set % a b)",
        ),
        (
            "a &= b; a |= b; a ^= b; a <<= b;",
            "(set & a b) (set | a b) (set ^ a b) (set << a b)",
        ),
        ("x++;", "(++ x)"),
        ("a[0]--;", "(-- ([] a 0))"),
        ("(*p)++;", "(++ (() (* p)))"),
        ("a[i]++;", "(++ ([] a i))"),
        ("p->n++;", "(++ (-> p n))"),
        ("p->n = a ? b : c;", "(set (-> p n) (? a b c))"),
        ("*p = 0;", "(set (* p) 0)"),
        ("f(x);", "(evaluate (call f x))"),
        ("(f());", "(evaluate (() (call f)))"),
        ("if (a) x = 1;", "(if a (set x 1))"),
        (
            "if (a) x = 1; else y = 2;",
            "(if a (set x 1) else (set y 2))",
        ),
        (
            "if (a) if (b) x = 1; else y = 2;",
            "(if a (if b (set x 1) else (set y 2)))",
        ),
        (
            "if (a) { if (b) x = 1; } else y = 2;",
            "(if a (block (if b (set x 1))) else (set y 2))",
        ),
        (
            "if (a) ; else if (b) ; else ;",
            "(if a empty else (if b empty else empty))",
        ),
        (
            "for (int i = 0; i < 4; i++) x = i;",
            "(int i 0 i 4 i (set x i))",
        ),
        (
            "for (uint8_t i = 0; i < n; i += 2) { }",
            "(uint8_t i 0 i n i 2 block)",
        ),
        ("return;", "return"),
        ("return a;", "(return a)"),
        ("{ }", "block"),
        ("{ { x = 1; } }", "(block (block (set x 1)))"),
        ("int x;", "(declare int x)"),
        ("int x = 1;", "(declare int x = 1)"),
        ("uint8_t a[4];", "(declare uint8_t a 4)"),
        ("struct s *p = q;", "(declare struct s * p = q)"),
        (
            "unsigned int u; unsigned v;",
            "(declare unsigned u) (declare unsigned v)",
        ),
        (
            "int8_t a; int16_t b; int32_t c;",
            "(declare int8_t a) (declare int16_t b) (declare int32_t c)",
        ),
        (
            "int x; x = 1; int64_t y;",
            "(declare int x) (set x 1) (declare int64_t y)",
        ),
    ];
    for (text, want) in rows {
        assert!(rt; is_read(rt.alloc(), around, text, shown_around, want)?);
    }
    Ok(())
}

// Where the blocks of a text begin and end, the inner before the outer.
fn ends_of_blocks(alloc: Global, text: &[u8]) -> Result<Vec<(u32, u32)>, Fail> {
    let mut ends = Vec::new(alloc);
    if text.len() >= 65536 {
        return Ok(ends);
    }
    let Ok(toks) = tokens(alloc, text) else {
        return Ok(ends);
    };
    let Ok(tree) = read_unit(alloc, &toks) else {
        return Ok(ends);
    };
    for node in tree.nodes() {
        if let Kind::Block { end, .. } = node.kind {
            ends.push((node.at, end))?;
        }
    }
    Ok(ends)
}

#[test]
fn blocks_end_at_their_last_brace(rt: HostRuntime) -> Result<(), Fail> {
    let text = b"void f(void) { { ; } if (a) { g(); /* } */ } }";
    let ends = ends_of_blocks(rt.alloc(), text)?;
    assert!(rt; ends.as_slice() == [(15, 19), (28, 43), (13, 45)].as_slice());
    Ok(())
}

#[test]
fn items(rt: HostRuntime) -> Result<(), Fail> {
    let rows = [
        ("", "unit"),
        ("struct s { int a; };", "(unit (struct s (field int a)))"),
        (
            "struct s { uint8_t a[4]; struct t b; } __attribute__((packed));",
            "(unit (struct s (field uint8_t a 4) (field struct t b) packed))",
        ),
        (
            "extern map_t m; extern chain_t c;",
            "(unit (extern map_t m) (extern chain_t c))",
        ),
        (
            "extern vector_t v; extern prefix_t p;",
            "(unit (extern vector_t v) (extern prefix_t p))",
        ),
        (
            "extern const uint32_t n;",
            "(unit (extern const uint32_t n))",
        ),
        (
            "static inline int f(int a, struct s *p) { return a; }",
            "(unit (function static inline int f (param int a) (param struct s * p) (block (return a))))",
        ),
        ("void f(void) { }", "(unit (function void f block))"),
        (
            "uint8_t f(void) { } int g(unsigned a) { }",
            "(unit (function uint8_t f block) (function int g (param unsigned a) block))",
        ),
        (
            "int nf_process(uint16_t port, uint64_t now) { return 0; }",
            "(unit (function int nf_process (param uint16_t port) (param uint64_t now) (block (return 0))))",
        ),
    ];
    for (text, want) in rows {
        assert!(rt; is_read(rt.alloc(), ("", ""), text, ("", ""), want)?);
    }
    Ok(())
}

#[test]
fn refusals_at_the_first_wrong_token(rt: HostRuntime) -> Result<(), Fail> {
    let rows = [
        ("int nf_process(", "15"),
        ("int", "3"),
        ("x", "0"),
        ("int x;", "5"),
        ("int f() { }", "6"),
        ("int f(int) { }", "9"),
        ("int f(void) {", "13"),
        ("int f(void) { } }", "16"),
        ("extern int n;", "7"),
        ("static struct s { int a; };", "7"),
        ("struct s { };", "11"),
        ("struct s { int a; }", "19"),
        ("int f(void) { int a, b; }", "19"),
        ("int f(void) { else x = 1; }", "14"),
        ("int f(void) { if a) x = 1; }", "17"),
        ("int f(void) { goto x; }", "19"),
        ("int f(void) { while (a) x = 1; }", "24"),
        ("int f(void) { a + b; }", "16"),
        ("int f(void) { x = y = 1; }", "20"),
        ("int f(void) { x[1 = 2; }", "18"),
        ("int f(void) { for (int i = 0; i <= 4; i++) ; }", "32"),
        ("int f(void) { return 1.5; }", "23"),
        ("int f(void) { return a +; }", "24"),
        ("int f(void) { return +a; }", "21"),
        ("int f(void) { return (a; }", "23"),
        ("int f(void) { return a b; }", "23"),
        ("int f(void) { return f(a,); }", "25"),
        ("int f(void) { return a ? b; }", "26"),
        ("int f(void) { return sizeof(int)[1]; }", "32"),
        ("int f(void) { return sizeof a; }", "28"),
        ("int f(void) { return (int)sizeof(int)[0]; }", "37"),
        ("int f(void) { return -sizeof(int)[0]; }", "33"),
        ("int f(void) { *p++; }", "16"),
        ("int f(void) { (int)x++; }", "20"),
        ("int f(void) { sizeof(int)--; }", "25"),
    ];
    for (text, want) in rows {
        assert!(rt; is_read(rt.alloc(), ("", ""), text, ("syntax at ", ""), want)?);
    }
    Ok(())
}

// The answer to so many blocks in one another.
fn blocks(alloc: Global, count: usize) -> Result<Vec<u8>, Fail> {
    let head = joined(
        alloc,
        b"int nf_process(uint16_t port, uint64_t now) ",
        b"",
        b"",
    )?;
    let front = joined(alloc, &head, &repeated(alloc, b"{", count)?, b"return 0;")?;
    let whole = joined(alloc, &front, &repeated(alloc, b"}", count)?, b"")?;
    read(alloc, &whole)
}

#[test]
fn sixty_four_constructs_in_one_another(rt: HostRuntime) -> Result<(), Fail> {
    let alloc = rt.alloc();
    let head = b"(unit (function int nf_process (param uint16_t port) (param uint64_t now) ";
    let front = joined(
        alloc,
        head,
        &repeated(alloc, b"(block ", 62)?,
        b"(return 0)",
    )?;
    let want = joined(alloc, &front, &repeated(alloc, b")", 64)?, b"")?;
    assert!(rt; blocks(alloc, 62)?.as_slice() == want.as_slice());
    assert!(rt; blocks(alloc, 63)?.as_slice() == b"too deep at 114".as_slice());
    assert!(rt; blocks(alloc, 65)?.as_slice() == b"too deep at 108".as_slice());
    Ok(())
}

// The answer to an expression with so many of a sign before it.
fn signs(alloc: Global, sign: &[u8], count: usize) -> Result<Vec<u8>, Fail> {
    let front = joined(
        alloc,
        b"int f(void) { return ",
        &repeated(alloc, sign, count)?,
        b"a; }",
    )?;
    read(alloc, &front)
}

#[test]
fn signs_and_parentheses_nest_and_chains_do_not(rt: HostRuntime) -> Result<(), Fail> {
    let alloc = rt.alloc();
    let front = joined(
        alloc,
        b"(unit (function int f (block (return ",
        &repeated(alloc, b"(~ ", 61)?,
        b"a",
    )?;
    let want = joined(alloc, &front, &repeated(alloc, b")", 65)?, b"")?;
    assert!(rt; signs(alloc, b"~", 61)?.as_slice() == want.as_slice());
    assert!(rt; signs(alloc, b"~", 62)?.as_slice() == b"too deep at 83".as_slice());
    assert!(rt; signs(alloc, b"(", 62)?.as_slice() == b"too deep at 83".as_slice());
    let sums = joined(
        alloc,
        b"(unit (function int f (block (return ",
        &repeated(alloc, b"(+ ", 300)?,
        b"a",
    )?;
    let want = joined(alloc, &sums, &repeated(alloc, b" a)", 300)?, b"))))")?;
    assert!(rt; signs(alloc, b"a + ", 300)?.as_slice() == want.as_slice());
    Ok(())
}

#[test]
fn nodes_stand_behind_their_parts_at_their_first_tokens(rt: HostRuntime) -> Result<(), Fail> {
    let toks = tokens(rt.alloc(), b"int f(void) { return a-b; }")
        .ok()
        .ok_or("no tokens")?;
    let tree = read_unit(rt.alloc(), &toks).ok().ok_or("no tree")?;
    let mut places = Vec::new(rt.alloc());
    for node in tree.nodes() {
        places.push(node.at)?;
    }
    assert!(rt; places.as_slice() == [21, 23, 21, 14, 12, 0, 0].as_slice());
    assert!(rt; tree.items() == [3, 5].as_slice());
    Ok(())
}
