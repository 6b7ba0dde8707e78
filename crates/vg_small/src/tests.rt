use super::*;
use std::alloc::Global;
use std::test::Fail;
use vg_core::Verdict;

const SWAP_C: &str =
    "int nf_process(uint16_t port, uint64_t now) { if (port == 0) return 1; return 0; }";

const SWAP_SPEC: &str = "ports 2; step { if port == 0 { send 1; } send 0; }";

// Whether a text is read.
fn is_small(alloc: Global, text: &str, lang: Lang) -> Result<bool, SmallFault> {
    if text.len() >= 4096 {
        return Ok(false);
    }
    match read_small(alloc, text.as_bytes(), lang) {
        Ok(_) => Ok(true),
        Err(SmallFault::Form) => Ok(false),
        Err(SmallFault::Memory) => Err(SmallFault::Memory),
    }
}

#[test]
fn swaps_two_ports(rt: HostRuntime) -> Result<(), Fail> {
    for (text, lang, ports, at) in [(SWAP_C, Lang::C, 0, 4), (SWAP_SPEC, Lang::Spec, 2, 0)] {
        if text.len() >= 4096 {
            return Err("a long text".into());
        }
        let swap = read_small(rt.alloc(), text.as_bytes(), lang)?;
        assert_eq!(rt; swap.ports, ports);
        assert_eq!(rt; swap.at, at);
        assert_eq!(rt;
            swap.tests.as_slice(),
            [Test { port: 0, value: 1 }].as_slice()
        );
        assert_eq!(rt; swap.last, 0);
        assert_eq!(rt; swap.verdict(0), Verdict::Send(1));
        assert_eq!(rt; swap.verdict(1), Verdict::Send(0));
        // The `if`, its condition and a `return` either way.
        assert_eq!(rt; swap.steps(0), 3);
        assert_eq!(rt; swap.steps(1), 3);
        assert!(rt; !swap.same_sides(0, 1));
        assert!(rt; swap.same_sides(1, 2));
        assert!(rt; swap.sends_below(2));
        assert!(rt; !swap.sends_below(1));
    }
    Ok(())
}

#[test]
fn places_the_name(rt: HostRuntime) -> Result<(), Fail> {
    let text = b" \tint\r\n  nf_process ( uint16_t port,uint64_t now){return 1;}\n";
    let small = read_small(rt.alloc(), text, Lang::C)?;
    assert_eq!(rt; small.at, 9);
    assert_eq!(rt; small.tests.as_slice().len(), 0);
    assert_eq!(rt; small.verdict(5), Verdict::Send(1));
    assert_eq!(rt; small.steps(5), 1);
    Ok(())
}

#[test]
fn the_first_test_that_names_a_port_holds(rt: HostRuntime) -> Result<(), Fail> {
    let text =
        b"ports 2;step{if port==7{send 1;}if port==7{send 0;}if port==65535{send 1;}send 0;}";
    let small = read_small(rt.alloc(), text, Lang::Spec)?;
    assert_eq!(rt; small.verdict(7), Verdict::Send(1));
    assert_eq!(rt; small.verdict(65535), Verdict::Send(1));
    assert_eq!(rt; small.steps(7), 3);
    assert_eq!(rt; small.steps(65535), 7);
    assert_eq!(rt; small.steps(0), 7);
    assert!(rt; !small.same_sides(65535, 0));
    Ok(())
}

#[test]
fn reads_specifications_of_the_form_alone(rt: HostRuntime) -> Result<(), Fail> {
    for (text, want) in [
        ("ports 2;step{send 0;}", true),
        ("\n ports\t2 ;\r\nstep { send\n1 ; }\n", true),
        ("ports 2; step { if port==65535 { send 1; } send 0; }", true),
        (
            "ports 2; step { if port==65536 { send 1; } send 0; }",
            false,
        ),
        ("ports 2; step { if port==00 { send 1; } send 0; }", false),
        ("ports 2; step { if port==01 { send 1; } send 0; }", false),
        ("ports 2; step { if port===0 { send 1; } send 0; }", false),
        ("ports 2; step { if port= =0 { send 1; } send 0; }", false),
        ("ports 2; step { if port_==0 { send 1; } send 0; }", false),
        ("ports 2; step { if port==0 { send 2; } send 0; }", false),
        ("ports 2; step { if port==0 { send 1; } send 2; }", false),
        ("ports 2; step { send 0; } ;", false),
        ("ports 2; step { send 0;", false),
        ("ports 3; step { send 2; }", true),
        ("ports 3; step { send 3; }", false),
        ("ports 3; step { if port==3 { send 2; } send 0; }", true),
        ("ports 3; step { if port==0 { send 3; } send 0; }", false),
        ("ports 0; step { send 0; }", false),
        ("ports 1; step { send 0; }", true),
        ("ports 02; step { send 0; }", false),
        ("ports 16; step { send 15; }", true),
        ("ports 17; step { send 0; }", false),
        ("ports; step { send 0; }", false),
        ("ports2; step { send 0; }", false),
        ("", false),
        (SWAP_C, false),
    ] {
        assert_eq!(rt; is_small(rt.alloc(), text, Lang::Spec)?, want, "{text}");
    }
    Ok(())
}

#[test]
fn reads_c_texts_of_the_form_alone(rt: HostRuntime) -> Result<(), Fail> {
    for (text, want) in [
        (
            "int nf_process(uint16_t port,uint64_t now){if(port==0)return 1;return 0;}",
            true,
        ),
        (
            "int nf_process(uint16_t port,uint64_t now){if(port==0)return1;return 0;}",
            false,
        ),
        (
            "int nf_process(uint16_t port,uint64_t now){if(port==0u)return 1;return 0;}",
            false,
        ),
        (
            "int nf_process(uint16_t port,uint64_t now){return 0;",
            false,
        ),
        (
            "int nf_process(uint16_t port,uint64_t now){return 0;}}",
            false,
        ),
        (
            "int nf_process(uint16_t port,uint64_t now){return 15;}",
            true,
        ),
        (
            "int nf_process(uint16_t port,uint64_t now){return 16;}",
            false,
        ),
        ("int nf_process(uint16_t port){return 0;}", false),
        (
            "/* swap */ int nf_process(uint16_t port,uint64_t now){return 0;}",
            false,
        ),
        (SWAP_SPEC, false),
    ] {
        assert_eq!(rt; is_small(rt.alloc(), text, Lang::C)?, want, "{text}");
    }
    Ok(())
}

#[test]
fn answers_the_ports_that_are_declared(rt: HostRuntime) -> Result<(), Fail> {
    let text = b"ports 12; step { if port == 0 { send 11; } send 3; }";
    let small = read_small(rt.alloc(), text, Lang::Spec)?;
    assert_eq!(rt; small.ports, 12);
    assert_eq!(rt; small.verdict(0), Verdict::Send(11));
    assert_eq!(rt; small.verdict(11), Verdict::Send(3));
    Ok(())
}
