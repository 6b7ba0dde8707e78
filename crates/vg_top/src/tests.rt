ghost use Rattle.std.specs.Prelude.{◌≡◌, IfOk};
ghost use Rattle.vg_doubles.specs.Memory.{disk_of};

use super::*;
use std::alloc::{AllocError, Global};
use std::test::Fail;
use vg_doubles::{MemFiles, MemSink};

const SWAP_C: &str =
    "int nf_process(uint16_t port, uint64_t now) { if (port == 0) return 1; return 0; }";

const SWAP_SPEC: &str = "ports 2; step { if port == 0 { send 1; } send 0; }";

const WORDS: &str = "run swap.c swap.spec - log in0 - out0 out1";

const TWO_INPUTS: &str = "run swap.c swap.spec - log in0 in1 out0 out1";

// A header: little-endian, microseconds, version 2.4, snap length 65,535, Ethernet.
const MICROSECONDS: [u8; 24] = [
    0xd4, 0xc3, 0xb2, 0xa1, 2, 0, 4, 0, 0, 0, 0, 0, 0, 0, 0, 0, 255, 255, 0, 0, 1, 0, 0, 0,
];

// The same with nanoseconds and snap length 262,144, which is also the header that is written.
const NANOSECONDS: [u8; 24] = [
    0x4d, 0x3c, 0xb2, 0xa1, 2, 0, 4, 0, 0, 0, 0, 0, 0, 0, 0, 0, 0, 0, 4, 0, 1, 0, 0, 0,
];

// What stands before 60 zero bytes that came at 1 s and 2 us: in a capture with microseconds, and in one with nanoseconds.
const IN_HEAD: [u8; 16] = [1, 0, 0, 0, 2, 0, 0, 0, 60, 0, 0, 0, 60, 0, 0, 0];

const OUT_HEAD: [u8; 16] = [1, 0, 0, 0, 0xd0, 7, 0, 0, 60, 0, 0, 0, 60, 0, 0, 0];

// A whole big-endian capture of the same frame, but for its 60 zeros.
const BIG_ENDIAN: [u8; 40] = [
    0xa1, 0xb2, 0xc3, 0xd4, 0, 2, 0, 4, 0, 0, 0, 0, 0, 0, 0, 0, 0, 0, 255, 255, 0, 0, 0, 1, 0, 0,
    0, 1, 0, 0, 0, 2, 0, 0, 0, 60, 0, 0, 0, 60,
];

// These bytes, and then 60 zeros.
fn with_zeros(alloc: Global, first: &[u8], second: &[u8]) -> Result<Vec<u8>, AllocError> {
    let mut bytes = Vec::from_slice(alloc, first)?;
    bytes.extend_from_slice(second)?;
    bytes.extend_from_slice(&[0; 60])?;
    Ok(bytes)
}

// A capture with nanoseconds: a frame of 60 zeros at each of these times, all within the first second.
fn at_times(alloc: Global, times: &[u8]) -> Result<Vec<u8>, AllocError> {
    let mut bytes = Vec::from_slice(alloc, &NANOSECONDS)?;
    for time in times {
        bytes.extend_from_slice(&[0, 0, 0, 0, *time, 0, 0, 0, 60, 0, 0, 0, 60, 0, 0, 0])?;
        bytes.extend_from_slice(&[0; 60])?;
    }
    Ok(bytes)
}

fn named(alloc: Global, name: &str, bytes: Vec<u8>) -> Result<(String, Vec<u8>), AllocError> {
    Ok((String::from_str(alloc, name)?, bytes))
}

fn words_of(alloc: Global, line: &str) -> Result<Vec<String>, AllocError> {
    let mut words = Vec::new(alloc);
    for word in line.split(' ') {
        words.push(String::from_str(alloc, word)?)?;
    }
    Ok(words)
}

// Files with these two texts and captures, where the call of this number fails. No call has number 0.
fn files_of(
    alloc: Global,
    texts: (&[u8], &[u8]),
    captures: (Vec<u8>, Vec<u8>),
    fails: u64,
) -> Result<MemFiles, Fail>
    ensures { IfOk result (λ m. (disk_of m).open_count ≡ 0) }
{
    let mut held = Vec::new(alloc);
    let c = Vec::from_slice(alloc, texts.0)?;
    let spec = Vec::from_slice(alloc, texts.1)?;
    held.push(named(alloc, "swap.c", c)?)?;
    held.push(named(alloc, "swap.spec", spec)?)?;
    held.push(named(alloc, "in0", captures.0)?)?;
    held.push(named(alloc, "in1", captures.1)?)?;
    let files = MemFiles::new(alloc, held, 8, 1000, Vec::from_slice(alloc, &[fails])?)?;
    Ok(files)
}

// Runs a line of words on these two texts and captures, where the file call of this number fails.
fn ran(
    alloc: Global,
    texts: (&str, &str),
    captures: (Vec<u8>, Vec<u8>),
    line: &str,
    fails: u64,
) -> Result<(Status, MemFiles, MemSink), Fail> {
    let texts = (texts.0.as_bytes(), texts.1.as_bytes());
    let mut files = files_of(alloc, texts, captures, fails)?;
    let mut out = MemSink::new(alloc, 1000, Vec::new(alloc))?;
    let words = words_of(alloc, line)?;
    let status = run(alloc, words.as_slice(), &mut files, &mut out);
    Ok((status, files, out))
}

// The same on a capture of one frame at port 0.
fn ran_one(
    alloc: Global,
    texts: (&str, &str),
    line: &str,
    fails: u64,
) -> Result<(Status, MemFiles, MemSink), Fail> {
    let in0 = with_zeros(alloc, &MICROSECONDS, &IN_HEAD)?;
    ran(alloc, texts, (in0, Vec::new(alloc)), line, fails)
}

#[test]
fn swaps_one_frame(rt: HostRuntime) -> Result<(), Fail> {
    let alloc = rt.alloc();
    let little = with_zeros(alloc, &MICROSECONDS, &IN_HEAD)?;
    let big = with_zeros(alloc, &BIG_ENDIAN, &[])?;
    for in0 in [little, big] {
        let in1 = Vec::new(alloc);
        let (status, files, out) = ran(alloc, (SWAP_C, SWAP_SPEC), (in0, in1), WORDS, 0)?;
        assert_eq!(rt; status, Status(0));
        assert_eq!(rt;
            out.written(),
            b"verified paths 2 steps 3\nframes 1 sent 1 dropped 0 flooded 0\n".as_slice()
        );
        let log = files.written("log").ok_or("no log")?;
        assert_eq!(rt; log, b"1 in 0 to 1 steps 3\n".as_slice());
        assert_eq!(rt;
            files.written("out0").ok_or("no out0")?,
            NANOSECONDS.as_slice()
        );
        assert_eq!(rt;
            files.written("out1").ok_or("no out1")?,
            with_zeros(alloc, &NANOSECONDS, &OUT_HEAD)?.as_slice()
        );
    }
    Ok(())
}

#[test]
fn nothing_comes_in(rt: HostRuntime) -> Result<(), Fail> {
    let alloc = rt.alloc();
    let line = "run swap.c swap.spec - log - - out0 out1";
    let (status, files, out) = ran_one(alloc, (SWAP_C, SWAP_SPEC), line, 0)?;
    assert_eq!(rt; status, Status(0));
    assert_eq!(rt;
        out.written(),
        b"verified paths 2 steps 3\nframes 0 sent 0 dropped 0 flooded 0\n".as_slice()
    );
    assert_eq!(rt;
        files.written("out0").ok_or("no out0")?,
        NANOSECONDS.as_slice()
    );
    assert_eq!(rt;
        files.written("out1").ok_or("no out1")?,
        NANOSECONDS.as_slice()
    );
    assert_eq!(rt; files.written("log").ok_or("no log")?, b"".as_slice());
    Ok(())
}

#[test]
fn merges_two_captures(rt: HostRuntime) -> Result<(), Fail> {
    let alloc = rt.alloc();
    let captures = (at_times(alloc, &[5, 3, 9])?, at_times(alloc, &[5])?);
    let (status, files, out) = ran(alloc, (SWAP_C, SWAP_SPEC), captures, TWO_INPUTS, 0)?;
    assert_eq!(rt; status, Status(0));
    assert_eq!(rt;
        out.written(),
        b"verified paths 2 steps 3\nframes 4 sent 4 dropped 0 flooded 0\n".as_slice()
    );
    assert_eq!(rt;
        files.written("log").ok_or("no log")?,
        b"1 in 0 to 1 steps 3\n2 in 0 to 1 steps 3\n3 in 1 to 0 steps 3\n4 in 0 to 1 steps 3\n".as_slice()
    );
    // The time that falls is raised to the latest before it.
    assert_eq!(rt;
        files.written("out1").ok_or("no out1")?,
        at_times(alloc, &[5, 5, 9])?.as_slice()
    );
    assert_eq!(rt;
        files.written("out0").ok_or("no out0")?,
        at_times(alloc, &[5])?.as_slice()
    );
    Ok(())
}

#[test]
fn a_cut_record_ends_the_run(rt: HostRuntime) -> Result<(), Fail> {
    let alloc = rt.alloc();
    let mut in0 = at_times(alloc, &[5, 3, 9])?;
    in0.truncate(24 + 3 * 76 - 1);
    let captures = (in0, at_times(alloc, &[5])?);
    let (status, files, out) = ran(alloc, (SWAP_C, SWAP_SPEC), captures, TWO_INPUTS, 0)?;
    assert_eq!(rt; status, Status(5));
    assert_eq!(rt; out.written(), b"capture 0 nth 3 cut\n".as_slice());
    assert_eq!(rt;
        files.written("log").ok_or("no log")?,
        b"1 in 0 to 1 steps 3\n2 in 0 to 1 steps 3\n".as_slice()
    );
    assert_eq!(rt;
        files.written("out1").ok_or("no out1")?,
        at_times(alloc, &[5, 5])?.as_slice()
    );
    Ok(())
}

#[test]
fn refused_captures(rt: HostRuntime) -> Result<(), Fail> {
    let alloc = rt.alloc();
    // A place in the second capture, which has one record, the byte that stands there instead, and what is printed.
    let table = [
        (0, 0x34, "capture 1 header magic\n"),
        (4, 3, "capture 1 header version\n"),
        (20, 2, "capture 1 header link\n"),
        (31, 0x3c, "capture 1 nth 1 fraction\n"),
        (34, 4, "capture 1 nth 1 long\n"),
        (32, 61, "capture 1 nth 1 cut\n"),
    ];
    for (place, byte, printed) in table {
        let mut in1 = at_times(alloc, &[5])?;
        if let Some(at) = in1.get_mut(place) {
            *at = byte;
        }
        let captures = (at_times(alloc, &[5])?, in1);
        let (status, files, out) = ran(alloc, (SWAP_C, SWAP_SPEC), captures, TWO_INPUTS, 0)?;
        assert_eq!(rt; status, Status(5), "{printed}");
        assert_eq!(rt; out.written(), printed.as_bytes(), "{printed}");
        // Before a header is good nothing is created; a record is read when all is.
        assert_eq!(rt; files.written("out0").is_some(), place > 24, "{printed}");
        assert_eq!(rt; files.written("log").is_some(), place > 24, "{printed}");
    }
    let (status, _, out) = ran(
        alloc,
        (SWAP_C, SWAP_SPEC),
        (
            Vec::from_slice(alloc, b"\x34\xcd\xb2\xa1")?,
            Vec::new(alloc),
        ),
        WORDS,
        0,
    )?;
    assert_eq!(rt; status, Status(5));
    assert_eq!(rt; out.written(), b"capture 0 header length\n".as_slice());
    Ok(())
}

#[test]
fn refusals_create_nothing(rt: HostRuntime) -> Result<(), Fail> {
    let alloc = rt.alloc();
    let swap = (SWAP_C, SWAP_SPEC);
    let stays =
        "int nf_process(uint16_t port, uint64_t now) { if (port == 0) return 0; return 0; }";
    let third = "int nf_process(uint16_t port, uint64_t now) { return 2; }";
    let three = "ports 3; step { if port == 0 { send 1; } send 0; }";
    let usage = "usage: run|verify|check|replay|try|rerun|show|bench\n";
    let wrong = "wrong at byte 4: verdict\nwrong-run 1\nport 0\nnow 0\nframe -\n";
    let at_1 = "wrong at byte 4: verdict\nwrong-run 1\nport 1\nnow 0\nframe -\n";
    let table = [
        ((stays, SWAP_SPEC), WORDS, 0, 1, wrong),
        ((SWAP_C, "ports 2; step { send 1; }"), WORDS, 0, 1, at_1),
        ((SWAP_C, three), WORDS, 0, 2, usage),
        ((stays, three), WORDS, 0, 2, usage),
        (("int", SWAP_SPEC), WORDS, 0, 12, "not built c\n"),
        ((SWAP_C, "ports 2;"), WORDS, 0, 12, "not built spec\n"),
        ((third, SWAP_SPEC), WORDS, 0, 12, "not built c\n"),
        (swap, "run swap.c swap.spec - log in0 out0", 0, 2, usage),
        (
            swap,
            "run swap.c swap.spec - log in0 - out0 out0",
            0,
            2,
            usage,
        ),
        (
            swap,
            "run swap.c swap.spec - log in0 - out0 in0",
            0,
            2,
            usage,
        ),
        (
            swap,
            "run swap.c swap.spec - out0 in0 - out0 out1",
            0,
            2,
            usage,
        ),
        (swap, "run", 0, 2, usage),
        (
            swap,
            "run swap.c swap.spec in1 log in0 - out0 out1",
            0,
            12,
            "not built words\n",
        ),
        (
            swap,
            "try swap.c swap.spec - log in0 - out0 out1",
            0,
            12,
            "not built words\n",
        ),
        (
            swap,
            "verify swap.c swap.spec certificate 1000",
            0,
            12,
            "not built words\n",
        ),
        (
            swap,
            "run none.c swap.spec - log in0 - out0 out1",
            0,
            6,
            "read fault\n",
        ),
        (
            swap,
            "run swap.c swap.spec - log none - out0 out1",
            0,
            6,
            "read fault\n",
        ),
        (swap, WORDS, 3, 6, "read fault\n"),
    ];
    for (texts, line, fails, status, printed) in table {
        let (got, files, out) = ran_one(alloc, texts, line, fails)?;
        assert_eq!(rt; got, Status(status), "{line}");
        assert_eq!(rt; out.written(), printed.as_bytes(), "{line}");
        for name in ["out0", "out1", "log"] {
            assert!(rt; files.written(name).is_none(), "{line}");
        }
    }
    Ok(())
}

#[test]
fn long_texts(rt: HostRuntime) -> Result<(), Fail> {
    let alloc = rt.alloc();
    let blanks = vec![in alloc; 32u8; 1_048_577]?;
    let long = blanks.as_slice();
    let (fits, _) = long.split_at(1_048_576);
    let table = [
        ((long, SWAP_SPEC.as_bytes()), 11, "limit c\n"),
        ((SWAP_C.as_bytes(), long), 11, "limit spec\n"),
        ((fits, SWAP_SPEC.as_bytes()), 12, "not built c\n"),
        ((SWAP_C.as_bytes(), fits), 12, "not built spec\n"),
    ];
    for (texts, status, printed) in table {
        let captures = (Vec::new(alloc), Vec::new(alloc));
        let mut files = files_of(alloc, texts, captures, 0)?;
        let mut out = MemSink::new(alloc, 1000, Vec::new(alloc))?;
        let words = words_of(alloc, WORDS)?;
        let got = run(alloc, words.as_slice(), &mut files, &mut out);
        assert_eq!(rt; got, Status(status), "{printed}");
        assert_eq!(rt; out.written(), printed.as_bytes());
        assert!(rt; files.written("out0").is_none(), "{printed}");
    }
    Ok(())
}

#[test]
fn no_words(rt: HostRuntime) -> Result<(), Fail> {
    let alloc = rt.alloc();
    let mut files = MemFiles::new(alloc, Vec::new(alloc), 7, 1000, Vec::new(alloc))?;
    let mut out = MemSink::new(alloc, 1000, Vec::new(alloc))?;
    let status = run(alloc, &[], &mut files, &mut out);
    assert_eq!(rt; status, Status(2));
    assert_eq!(rt;
        out.written(),
        b"usage: run|verify|check|replay|try|rerun|show|bench\n".as_slice()
    );
    Ok(())
}

#[test]
fn texts_of_other_forms(rt: HostRuntime) -> Result<(), Fail> {
    let alloc = rt.alloc();
    let longer =
        "int nf_process(uint16_t port,uint64_t now){if(port==7)return 0;if(port==1)return 0;return 1;}";
    let always = "int nf_process(uint16_t port, uint64_t now) { return 1; }";
    let table = [
        (
            (longer, SWAP_SPEC),
            "verified paths 2 steps 5\nframes 1 sent 1 dropped 0 flooded 0\n",
            "1 in 0 to 1 steps 5\n",
        ),
        (
            (always, "ports 2; step { send 1; }"),
            "verified paths 1 steps 1\nframes 1 sent 1 dropped 0 flooded 0\n",
            "1 in 0 to 1 steps 1\n",
        ),
    ];
    for (texts, printed, log) in table {
        let (got, files, out) = ran_one(alloc, texts, WORDS, 0)?;
        assert_eq!(rt; got, Status(0));
        assert_eq!(rt; out.written(), printed.as_bytes());
        assert_eq!(rt; files.written("log").ok_or("no log")?, log.as_bytes());
    }
    Ok(())
}

#[test]
fn three_ports(rt: HostRuntime) -> Result<(), Fail> {
    let alloc = rt.alloc();
    let c = "int nf_process(uint16_t port, uint64_t now) { if (port == 2) return 0; return 2; }";
    let spec = "ports 3; step { if port == 2 { send 0; } send 2; }";
    let captures = (at_times(alloc, &[7])?, at_times(alloc, &[6])?);
    let line = "run swap.c swap.spec - log in0 - in1 out0 out1 out2";
    let (status, files, out) = ran(alloc, (c, spec), captures, line, 0)?;
    assert_eq!(rt; status, Status(0));
    // Ports 0 and 1 go one way, port 2 another.
    assert_eq!(rt;
        out.written(),
        b"verified paths 2 steps 3\nframes 2 sent 2 dropped 0 flooded 0\n".as_slice()
    );
    assert_eq!(rt;
        files.written("log").ok_or("no log")?,
        b"1 in 2 to 0 steps 3\n2 in 0 to 2 steps 3\n".as_slice()
    );
    assert_eq!(rt;
        files.written("out2").ok_or("no out2")?,
        at_times(alloc, &[7])?.as_slice()
    );
    Ok(())
}

#[test]
fn a_sink_that_fails(rt: HostRuntime) -> Result<(), Fail> {
    let alloc = rt.alloc();
    let in0 = with_zeros(alloc, &MICROSECONDS, &IN_HEAD)?;
    let texts = (SWAP_C.as_bytes(), SWAP_SPEC.as_bytes());
    let mut files = files_of(alloc, texts, (in0, Vec::new(alloc)), 0)?;
    let mut out = MemSink::new(alloc, 1000, Vec::from_slice(alloc, &[1])?)?;
    let words = words_of(alloc, WORDS)?;
    let status = run(alloc, words.as_slice(), &mut files, &mut out);
    assert_eq!(rt; status, Status(7));
    // The replay was done before.
    let log = files.written("log").ok_or("no log")?;
    assert_eq!(rt; log, b"1 in 0 to 1 steps 3\n".as_slice());
    assert_eq!(rt; out.written(), b"".as_slice());
    Ok(())
}
