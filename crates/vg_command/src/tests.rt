use super::*;
use std::alloc::{AllocError, Global};
use std::test::Fail;

fn words_of(alloc: Global, line: &str) -> Result<Vec<String>, AllocError> {
    let mut words = Vec::new(alloc);
    for word in line.split(' ') {
        words.push(String::from_str(alloc, word)?)?;
    }
    Ok(words)
}

// Whether the words of a line, which one space parts, spell a command.
fn is_command(alloc: Global, line: &str) -> Result<bool, AllocError> {
    let words = words_of(alloc, line)?;
    Ok(command_in(words.as_slice()).is_some())
}

// `run c spec - log`, then as many captures in, all `-`, and as many out.
fn ports_line(alloc: Global, ports: u32) -> Result<String, AllocError> {
    let mut line = String::from_str(alloc, "run c spec - log")?;
    for _ in 0..ports {
        line.push_str(" -")?;
    }
    for port in 0..ports {
        line.push_str(&format!(in alloc; " out{port}")?)?;
    }
    Ok(line)
}

#[test]
fn reads_the_files_of_a_run(rt: HostRuntime) -> Result<(), Fail> {
    let alloc = rt.alloc();
    let words = words_of(alloc, "run nf.c nf.spec nf.conf log in0 - out0 out1")?;
    let Some(Command::Run(files)) = command_in(words.as_slice()) else {
        return Err(Fail::from("no run"));
    };
    assert_eq!(rt; files.c, "nf.c");
    assert_eq!(rt; files.spec, "nf.spec");
    assert_eq!(rt; files.conf, "nf.conf");
    assert_eq!(rt; files.log, "log");
    assert_eq!(rt; files.ins.len(), 2);
    assert_eq!(rt; files.ins[0].as_str(), "in0");
    assert_eq!(rt; files.ins[1].as_str(), "-");
    assert_eq!(rt; files.outs.len(), 2);
    assert_eq!(rt; files.outs[0].as_str(), "out0");
    assert_eq!(rt; files.outs[1].as_str(), "out1");
    Ok(())
}

#[test]
fn reads_the_files_of_a_try_and_a_replay(rt: HostRuntime) -> Result<(), Fail> {
    let alloc = rt.alloc();
    let words = words_of(alloc, "try nf.c nf.spec - log in0 out0")?;
    let Some(Command::Try(files)) = command_in(words.as_slice()) else {
        return Err(Fail::from("no try"));
    };
    assert_eq!(rt; files.conf, "-");
    assert_eq!(rt; files.ins.len(), 1);
    let words = words_of(alloc, "replay nf.c nf.spec cert - log in0 out0")?;
    let Some(Command::Replay { certificate, files }) = command_in(words.as_slice()) else {
        return Err(Fail::from("no replay"));
    };
    assert_eq!(rt; certificate, "cert");
    assert_eq!(rt; files.log, "log");
    assert_eq!(rt; files.outs[0].as_str(), "out0");
    Ok(())
}

#[test]
fn reads_the_texts_and_the_limit_of_a_verify(rt: HostRuntime) -> Result<(), Fail> {
    let words = words_of(rt.alloc(), "verify nf.c nf.spec cert 10000000")?;
    let Some(
        Command::Verify {
            c,
            spec,
            certificate,
            limit,
        },
    ) = command_in(words.as_slice())
    else {
        return Err(Fail::from("no verify"));
    };
    assert_eq!(rt; c, "nf.c");
    assert_eq!(rt; spec, "nf.spec");
    assert_eq!(rt; certificate, "cert");
    assert_eq!(rt; limit, 10_000_000);
    Ok(())
}

#[test]
fn reads_the_names_of_a_check_and_a_rerun(rt: HostRuntime) -> Result<(), Fail> {
    let alloc = rt.alloc();
    let words = words_of(alloc, "check nf.c nf.spec cert")?;
    let Some(
        Command::Check {
            c,
            spec,
            certificate,
        },
    ) = command_in(words.as_slice())
    else {
        return Err(Fail::from("no check"));
    };
    assert_eq!(rt; c, "nf.c");
    assert_eq!(rt; spec, "nf.spec");
    assert_eq!(rt; certificate, "cert");
    let words = words_of(alloc, "rerun nf.c nf.spec wrong")?;
    let Some(Command::Rerun { c, spec, file }) = command_in(words.as_slice()) else {
        return Err(Fail::from("no rerun"));
    };
    assert_eq!(rt; c, "nf.c");
    assert_eq!(rt; spec, "nf.spec");
    assert_eq!(rt; file, "wrong");
    Ok(())
}

#[test]
fn reads_the_words_of_a_show_and_a_bench(rt: HostRuntime) -> Result<(), Fail> {
    let alloc = rt.alloc();
    let words = words_of(alloc, "show router conf")?;
    let Some(Command::Show { name, part }) = command_in(words.as_slice()) else {
        return Err(Fail::from("no show"));
    };
    assert_eq!(rt; name, "router");
    assert_eq!(rt; part, "conf");
    let words = words_of(alloc, "bench nat 18446744073709551615 1000000")?;
    let Some(Command::Bench { name, seed, count }) = command_in(words.as_slice()) else {
        return Err(Fail::from("no bench"));
    };
    assert_eq!(rt; name, "nat");
    assert_eq!(rt; seed, 18_446_744_073_709_551_615);
    assert_eq!(rt; count, 1_000_000);
    Ok(())
}

#[test]
fn counts_the_ports(rt: HostRuntime) -> Result<(), Fail> {
    let alloc = rt.alloc();
    for (ports, want) in [(0, false), (1, true), (16, true), (17, false)] {
        let line = ports_line(alloc, ports)?;
        assert_eq!(rt; is_command(alloc, line.as_str())?, want, "{line}");
    }
    Ok(())
}

#[test]
fn asks_for_names_of_their_own(rt: HostRuntime) -> Result<(), Fail> {
    for (line, want) in [
        ("run c spec - log in0 in0 out0 out1", true),
        ("run c c c log c out", true),
        ("run c spec - log in0 in1 out out", false),
        ("run c spec - log in0 in1 in1 out1", false),
        ("run c spec - log in0 in1 out0 spec", false),
        ("run c spec conf log in0 conf", false),
        ("run c spec - c in0 out0", false),
        ("run c spec - in0 in0 out0", false),
        ("run c spec - log in0 log", false),
        ("run - spec - log in0 out0", false),
        ("run c - - log in0 out0", false),
        ("run c spec - - in0 out0", false),
        ("run c spec - log - -", false),
        ("run c spec - log - out0", true),
        ("replay c spec log - log in0 out0", false),
        ("replay c spec out0 - log in0 out0", false),
        ("replay c spec - - log in0 out0", false),
        ("replay c spec in0 - log in0 out0", true),
        ("verify c spec c 1", false),
        ("verify c spec spec 1", false),
        ("verify c spec - 1", false),
        ("check - spec cert", false),
        ("check c c c", true),
        ("rerun c spec -", false),
    ] {
        assert_eq!(rt; is_command(rt.alloc(), line)?, want, "{line}");
    }
    Ok(())
}

#[test]
fn reads_numbers_in_their_ranges_alone(rt: HostRuntime) -> Result<(), Fail> {
    for (line, want) in [
        ("verify c spec cert 0", false),
        ("verify c spec cert 1", true),
        ("verify c spec cert 10000000", true),
        ("verify c spec cert 10000001", false),
        ("verify c spec cert 01", false),
        ("verify c spec cert +1", false),
        ("verify c spec cert 1x", false),
        ("verify c spec cert ", false),
        ("bench bridge 0 1", true),
        ("bench bridge 00 1", false),
        ("bench bridge 18446744073709551615 1", true),
        ("bench bridge 18446744073709551616 1", false),
        ("bench bridge 0 0", false),
        ("bench bridge 0 1000000", true),
        ("bench bridge 0 1000001", false),
        ("bench switch 0 1", false),
    ] {
        assert_eq!(rt; is_command(rt.alloc(), line)?, want, "{line}");
    }
    Ok(())
}

#[test]
fn knows_no_other_words(rt: HostRuntime) -> Result<(), Fail> {
    let alloc = rt.alloc();
    let none = Vec::new(alloc);
    assert!(rt; command_in(none.as_slice()).is_none());
    for line in [
        "",
        "run",
        "Run c spec - log in0 out0",
        "run c spec",
        "run c spec -",
        "run c spec - log in0",
        "run c spec - log in0 in1 out0",
        "verify c spec cert",
        "verify c spec cert 1 1",
        "check c spec",
        "check c spec cert more",
        "show nat",
        "show switch c",
        "show nat C",
        "show nat c c",
        "bench nat 1",
        "rerun c",
    ] {
        assert!(rt; !is_command(alloc, line)?, "{line}");
    }
    Ok(())
}
