use super::*;
use std::alloc::Global;
use std::test::Fail;
use vg_core::Unit;
use vg_cread::read_unit;
use vg_ctok::tokens;

// What typing answers of a text that can be read.
fn typed(alloc: Global, text: &str) -> Result<Result<Unit, TypeFault>, Fail> {
    if text.len() >= 65536 {
        return Err(Fail::from("too long"));
    }
    let toks = tokens(alloc, text.as_bytes()).ok().ok_or("no tokens")?;
    let tree = read_unit(alloc, &toks).ok().ok_or("no tree")?;
    Ok(type_unit(alloc, text.as_bytes(), tree))
}

// Whether a text has no fault, or which.
fn fault_of(alloc: Global, text: &str) -> Result<Option<TypeFault>, Fail> {
    Ok(typed(alloc, text)?.err())
}

// The head of `nf_process`, 45 bytes long, before a body that begins at byte 45.
const HEAD: &str = "int nf_process(uint16_t port, uint64_t now) {";

// Bodies, and the rule that each breaks, with its place in the body.
const BODIES: [(&str, Rule, u32); 49] = [
    ("x = 1;", Rule::Declared, 0),
    ("int a = b;", Rule::Declared, 8),
    ("f();", Rule::Declared, 0),
    ("nf_process = 1;", Rule::Declared, 0),
    ("port();", Rule::Declared, 0),
    ("struct s v;", Rule::Declared, 0),
    ("x = undeclared;", Rule::Declared, 0),
    ("int x; x = undeclared;", Rule::Declared, 11),
    ("int a; int a;", Rule::DeclaredOnce, 7),
    ("int port;", Rule::DeclaredOnce, 0),
    ("int packet_length;", Rule::DeclaredOnce, 0),
    ("int a; { int a; }", Rule::DeclaredOnce, 9),
    (
        "for (int port = 0; port < 1; port++) ;",
        Rule::DeclaredOnce,
        0,
    ),
    ("int a[0];", Rule::Sizes, 0),
    ("int a[65536];", Rule::Sizes, 0),
    ("uint8_t a[65536]; int b;", Rule::Sizes, 18),
    ("int *a[2];", Rule::Sizes, 0),
    ("int a[now];", Rule::Sizes, 0),
    ("int a[2 - 3];", Rule::Sizes, 0),
    ("int a[2147483647 + 1];", Rule::Sizes, 0),
    ("int a; int *p = &a; a = p + 1;", Rule::Arithmetic, 24),
    ("int a; int *p = &a; a = p << 1;", Rule::Shift, 24),
    ("int a; int *p = &a; a = !p;", Rule::Comparison, 25),
    ("int a; int *p = &a; a = p ? 1 : 2;", Rule::Conditional, 24),
    ("1 = 2;", Rule::Lvalue, 0),
    ("int a; int *p = &a; a = p;", Rule::Assignment, 20),
    ("int a[2] = 1;", Rule::Assignment, 0),
    ("uint8_t b; int *p = &b;", Rule::Assignment, 11),
    ("int a; *a = 1;", Rule::Indirection, 8),
    ("int a; a[0] = 1;", Rule::Indirection, 7),
    ("int a[2]; int *p = &a[0]; a[p] = 1;", Rule::Indirection, 28),
    ("int a; a.b = 1;", Rule::Member, 7),
    ("int a[2]; int *p = &a;", Rule::Address, 20),
    ("packet_length(1);", Rule::Arguments, 0),
    ("packet_borrow();", Rule::Arguments, 0),
    ("uint8_t b = 1; packet_return(b);", Rule::Arguments, 29),
    ("return;", Rule::Return, 0),
    ("int a; int *p = &a; if (p) ;", Rule::Condition, 24),
    ("for (int i = 0; i < 3; i += 0) ;", Rule::Loop, 28),
    ("for (int i = 0; j < 3; i++) ;", Rule::Loop, 0),
    ("for (int i = port; i < 3; i++) ;", Rule::Loop, 13),
    ("for (uint8_t i = 0; i < 255; i++) ;", Rule::Loop, 0),
    ("for (int i = 0; i < 3; i++) i = 1;", Rule::Loop, 28),
    ("int a; int *p = &a; a = (int)p;", Rule::Cast, 24),
    ("(packet_length());", Rule::Statement, 0),
    ("*b;", Rule::Declared, 1),
    ("int a[2]; a[b];", Rule::Declared, 12),
    ("int a; (a + b);", Rule::Declared, 12),
    ("packet_borrow(port);", Rule::Borrow, 14),
];

#[test]
fn each_rule_is_asked_for_in_bodies(rt: HostRuntime) -> Result<(), Fail> {
    for (body, rule, place) in BODIES {
        let text = format!(in rt.alloc(); "{HEAD}{body} return 0; }}")?;
        let wanted = Some(TypeFault::Typing {
            at: place.saturating_add(45),
            rule,
        });
        assert_eq!(rt; fault_of(rt.alloc(), &text)?, wanted, "{body}");
    }
    Ok(())
}

// Bodies that break no rule.
const SOUND: [&str; 16] = [
    "",
    "uint8_t a[65536];",
    "int a[1u - 2u + 2];",
    "{ int a; } int a;",
    "int nf_process2 = 1; if (nf_process2 < 2) return 1;",
    "for (uint8_t i = 0; i < 254; i++) ;",
    "for (uint8_t i = 300; i < 3; i++) ;",
    "for (int i = 0; i < 4096; i++) ;",
    "uint64_t a = (uint64_t)port + sizeof(int);",
    "uint8_t *p = packet_borrow(14); packet_return(p);",
    "int a = port > 1 && now != 0 || !port;",
    "uint32_t x = port; x <<= 3; x++; x = x ? ~x : -x;",
    "int a[4]; a[port] = 1; *a = 2; int *p = a; p[1] = *p;",
    "int x = sizeof(int) * 2;",
    "int x = x;",
    "(port) = 1;",
];

#[test]
fn sound_bodies_are_typed(rt: HostRuntime) -> Result<(), Fail> {
    for body in SOUND {
        let text = format!(in rt.alloc(); "{HEAD}{body} return 0; }}")?;
        assert_eq!(rt; fault_of(rt.alloc(), &text)?, None, "{body}");
    }
    Ok(())
}

const NF: &str = "int nf_process(uint16_t p, uint64_t n) { return -1; }";

// What stands before `nf_process`, and the fault.
const HEADS: [(&str, TypeFault); 19] = [
    (
        "struct s { int a; int a; }; ",
        TypeFault::Typing {
            at: 18,
            rule: Rule::Fields,
        },
    ),
    (
        "struct s { int a; } __attribute__((pack)); ",
        TypeFault::Typing {
            at: 0,
            rule: Rule::Fields,
        },
    ),
    (
        "struct t { int a; }; struct s { struct t x[2]; }; ",
        TypeFault::Typing {
            at: 32,
            rule: Rule::Fields,
        },
    ),
    (
        "struct s { struct s x; }; ",
        TypeFault::Typing {
            at: 11,
            rule: Rule::Declared,
        },
    ),
    (
        "struct s { int a; }; struct s { int b; }; ",
        TypeFault::Typing {
            at: 21,
            rule: Rule::DeclaredOnce,
        },
    ),
    (
        "struct s { uint8_t a[65536]; uint8_t b; }; ",
        TypeFault::Typing {
            at: 29,
            rule: Rule::Sizes,
        },
    ),
    (
        "struct s { uint8_t a; uint32_t b; }; ",
        TypeFault::Padded { tag: 7, offset: 1 },
    ),
    (
        "struct s { uint32_t a; uint8_t b; }; ",
        TypeFault::Padded { tag: 7, offset: 5 },
    ),
    (
        "extern map_t m; extern const int m; ",
        TypeFault::Typing {
            at: 16,
            rule: Rule::DeclaredOnce,
        },
    ),
    (
        "int f(int a) { return f(a); } ",
        TypeFault::Recursive { at: 22 },
    ),
    (
        "void f(void) { return 1; } ",
        TypeFault::Typing {
            at: 15,
            rule: Rule::Return,
        },
    ),
    (
        "int f(void) { return; } ",
        TypeFault::Typing {
            at: 14,
            rule: Rule::Return,
        },
    ),
    (
        "void f(void) { } int g(void) { return f(); } ",
        TypeFault::Typing {
            at: 38,
            rule: Rule::Statement,
        },
    ),
    (
        "void f(void) { } void g(void) { (f()); } ",
        TypeFault::Typing {
            at: 33,
            rule: Rule::Statement,
        },
    ),
    (
        "extern map_t m; int f(void) { return m; } ",
        TypeFault::Typing {
            at: 37,
            rule: Rule::Handle,
        },
    ),
    (
        "extern map_t m; void f(void) { chain_count(m); } ",
        TypeFault::Typing {
            at: 31,
            rule: Rule::Declared,
        },
    ),
    (
        "extern map_t m; void f(void) { chain_free(m, 1); } ",
        TypeFault::Typing {
            at: 42,
            rule: Rule::Arguments,
        },
    ),
    (
        "extern const int e; void f(void) { e = 1; } ",
        TypeFault::Typing {
            at: 35,
            rule: Rule::Lvalue,
        },
    ),
    (
        "struct s { int a; }; int f(struct s *q) { return q->b; } ",
        TypeFault::Typing {
            at: 49,
            rule: Rule::Member,
        },
    ),
];

#[test]
fn the_first_fault_before_the_last_item(rt: HostRuntime) -> Result<(), Fail> {
    for (head, fault) in HEADS {
        let text = format!(in rt.alloc(); "{head}{NF}")?;
        assert_eq!(rt; fault_of(rt.alloc(), &text)?, Some(fault), "{head}");
    }
    Ok(())
}

// Whole texts.
const WHOLE: [(&str, Option<TypeFault>); 10] = [
    (
        "",
        Some(TypeFault::Typing {
            at: 0,
            rule: Rule::LastItem,
        }),
    ),
    (
        "int f(int a) { return a; }",
        Some(TypeFault::Typing {
            at: 0,
            rule: Rule::LastItem,
        }),
    ),
    (
        "int32_t nf_process(uint16_t p, uint64_t n) { return 0; }",
        Some(TypeFault::Typing {
            at: 0,
            rule: Rule::LastItem,
        }),
    ),
    (
        "static int nf_process(uint16_t p, uint64_t n) { return 0; }",
        Some(TypeFault::Typing {
            at: 0,
            rule: Rule::LastItem,
        }),
    ),
    (
        "int nf_process(uint16_t p) { return 0; }",
        Some(TypeFault::Typing {
            at: 0,
            rule: Rule::LastItem,
        }),
    ),
    (
        "int nf_process(uint16_t port, uint64_t now) { return nf_process(port, now); }",
        Some(TypeFault::Recursive { at: 53 }),
    ),
    (
        "int nf_process(uint16_t port, uint64_t now) { for (int i = 0; i < 4097; i++) ; return 0; }",
        Some(TypeFault::Turns { at: 46 }),
    ),
    (
        "int nf_process(uint16_t p, uint64_t n) { for (int i = 0; i < 4096; i++) for (int j = 0; j < 4096; j++) ; return 0; }",
        Some(TypeFault::Turns { at: 4 }),
    ),
    (
        "struct s { uint8_t a; uint32_t b; } __attribute__((packed)); int nf_process(uint16_t p, uint64_t n) { struct s v; v.b = 1; return 0; }",
        None,
    ),
    (
        "extern map_t m; extern const uint32_t size; int nf_process(uint16_t p, uint64_t n) { uint32_t i; uint8_t key[4]; if (map_get(m, key, &i)) return 1; return size; }",
        None,
    ),
];

#[test]
fn whole_texts(rt: HostRuntime) -> Result<(), Fail> {
    for (text, fault) in WHOLE {
        assert_eq!(rt; fault_of(rt.alloc(), text)?, fault, "{text}");
    }
    Ok(())
}
