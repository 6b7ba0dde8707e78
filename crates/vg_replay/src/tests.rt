ghost use Rattle.std.specs.Prelude.{◌≡◌, ◌+◌, IfOk, [], ◌∷◌, map, string_bytes, vec_len};
ghost use Rattle.vg_doubles.specs.Memory.{disk_of};

use super::*;
use arrayvec::ArrayVec;
use std::alloc::{AllocError, Global};
use std::test::Fail;
use vg_base::Files;
use vg_core::Verdict;
use vg_doubles::MemFiles;
use vg_pcap::{CaptureRefusal, Damage, HeaderField};

// Sends what port 0 gets to port 2, and the rest to port 0, in three steps, and stops after so many frames.
#[derive(Drop)]
struct ToTwo {
    left: u32,
}

#[derive(Clone, Copy, Debug, PartialEq, Eq)]
struct Enough;

impl Handler for ToTwo {
    type Stop = Enough;

    ghost takes = { λ handler. record { ports = 3; since = 0 } };

    ghost handles = { λ old h new. (new.left + 1 ≡ old.left) × (h.steps ≡ 3) };

    ghost stops_at = { λ old a reason. old.left ≡ 0 };

    fn handle(&mut self, head: FrameHead, frame: &mut [u8]) -> Result<Outcome, Enough> {
        if self.left == 0 {
            return Err(Enough);
        }
        self.left -= 1;
        Ok(Outcome {
            verdict: Verdict::Send(if head.port == 0 { 2 } else { 0 }),
            steps: 3,
            handed: ArrayVec::new(),
        })
    }
}

// Puts a byte over a frame's first one, hands out two indices, and sends the frame back.
#[derive(Drop)]
struct Marking {
    byte: u8,
}

impl Handler for Marking {
    type Stop = Enough;

    ghost takes = { λ handler. record { ports = 3; since = 0 } };

    ghost handles = { λ old h new. (new.byte ≡ old.byte) × (h.steps ≡ 1) };

    ghost stops_at = { λ old a reason. ⊥ };

    fn handle(&mut self, head: FrameHead, frame: &mut [u8]) -> Result<Outcome, Enough> {
        if let Some(first) = frame.first_mut() {
            *first = self.byte;
        }
        let mut handed = ArrayVec::new();
        handed.push(Handed {
            chain: 1,
            index: 4_294_967_295,
        });
        handed.push(Handed { chain: 0, index: 5 });
        Ok(Outcome {
            verdict: Verdict::Send(head.port),
            steps: 1,
            handed,
        })
    }
}

// More frames than come.
const ALL: ToTwo = ToTwo { left: 100 };

// The header of a capture: little-endian, nanoseconds, version 2.4, snap length 262,144, Ethernet.
const HEADER: [u8; 24] = [
    0x4d, 0x3c, 0xb2, 0xa1, 2, 0, 4, 0, 0, 0, 0, 0, 0, 0, 0, 0, 0, 0, 4, 0, 1, 0, 0, 0,
];

// A record of a frame of two bytes that was three bytes long, at this time in nanoseconds.
fn record(time: u8, byte: u8) -> [u8; 18] {
    [0, 0, 0, 0, time, 0, 0, 0, 2, 0, 0, 0, 3, 0, 0, 0, byte, 7]
}

// A capture of frames at these times; the first byte of each tells its place.
fn capture(alloc: Global, times: &[u8]) -> Result<Vec<u8>, AllocError> {
    let mut bytes = Vec::from_slice(alloc, &HEADER)?;
    let mut place = 0;
    for time in times {
        bytes.extend_from_slice(&record(*time, place))?;
        place = if place < 9 { place + 1 } else { place };
    }
    Ok(bytes)
}

fn named(alloc: Global, name: &str, bytes: Vec<u8>) -> Result<(String, Vec<u8>), AllocError> {
    Ok((String::from_str(alloc, name)?, bytes))
}

// Files with the captures of port 0 and of port 1, of which calls fail as planned.
fn files_of(alloc: Global, first: Vec<u8>, second: Vec<u8>, fails: &[u64]) -> Result<MemFiles, Fail>
    ensures { IfOk result (λ m. (disk_of m).open_count ≡ 0) }
{
    let mut held = Vec::new(alloc);
    held.push(named(alloc, "in0", first)?)?;
    held.push(named(alloc, "in1", second)?)?;
    let files = MemFiles::new(alloc, held, 8, 1000, Vec::from_slice(alloc, fails)?)?;
    Ok(files)
}

// Three names.
fn three(alloc: Global, a: &str, b: &str, c: &str) -> Result<Vec<String>, AllocError>
    ensures names { IfOk result (λ names. map string_bytes names.items ≡ a.now ∷ b.now ∷ c.now ∷ []) }
    ensures three { IfOk result (λ names. vec_len names ≡ 3) }
{
    let mut names = Vec::new(alloc);
    names.push(String::from_str(alloc, a)?)?;
    names.push(String::from_str(alloc, b)?)?;
    names.push(String::from_str(alloc, c)?)?;
    Ok(names)
}

// Replays three ports, of which the last gets nothing.
fn replay_three(
    alloc: Global,
    handler: ToTwo,
    files: &mut MemFiles,
) -> Result<Result<Totals, RunStop<Enough>>, Fail>
    requires { (disk_of files.old).open_count ≡ 0 }
{
    let ins = three(alloc, "in0", "in1", "-")?;
    let outs = three(alloc, "out0", "out1", "out2")?;
    Ok(replay(alloc, handler, files, "log", &ins, &outs))
}

#[test]
fn frames_are_merged(rt: HostRuntime) -> Result<(), Fail> {
    let alloc = rt.alloc();
    let mut files = files_of(
        alloc,
        capture(alloc, &[5, 3, 9])?,
        capture(alloc, &[5])?,
        &[],
    )?;
    let totals = Totals {
        frames: 4,
        sent: 4,
        dropped: 0,
        flooded: 0,
        steps: 12,
    };
    assert_eq!(rt; replay_three(alloc, ALL, &mut files)?, Ok(totals));
    let log =
        "1 in 0 to 2 steps 3\n2 in 0 to 2 steps 3\n3 in 1 to 0 steps 3\n4 in 0 to 2 steps 3\n";
    assert_eq!(rt; files.written("log").ok_or("no log")?, log.as_bytes());
    assert_eq!(rt;
        files.written("out0").ok_or("no out0")?,
        capture(alloc, &[5])?.as_slice()
    );
    assert_eq!(rt; files.written("out1").ok_or("no out1")?, HEADER.as_slice());
    assert_eq!(rt;
        files.written("out2").ok_or("no out2")?,
        capture(alloc, &[5, 5, 9])?.as_slice()
    );
    Ok(())
}

#[test]
fn a_cut_record_ends_it(rt: HostRuntime) -> Result<(), Fail> {
    let alloc = rt.alloc();
    let mut cut = capture(alloc, &[5, 3, 9])?;
    cut.truncate(24 + 3 * 18 - 1);
    let mut files = files_of(alloc, cut, capture(alloc, &[5])?, &[])?;
    let stop = RunStop::Capture {
        port: 0,
        refusal: CaptureRefusal::Record {
            number: 3,
            why: Damage::Cut,
        },
    };
    assert_eq!(rt; replay_three(alloc, ALL, &mut files)?, Err(stop));
    let log = "1 in 0 to 2 steps 3\n2 in 0 to 2 steps 3\n";
    assert_eq!(rt; files.written("log").ok_or("no log")?, log.as_bytes());
    assert_eq!(rt; files.written("out0").ok_or("no out0")?, HEADER.as_slice());
    assert_eq!(rt;
        files.written("out2").ok_or("no out2")?,
        capture(alloc, &[5, 5])?.as_slice()
    );
    Ok(())
}

// What goes out is the frame as the handler left it, and the log tells the indices that it handed out, in order.
#[test]
fn a_handler_changes_frames(rt: HostRuntime) -> Result<(), Fail> {
    let alloc = rt.alloc();
    let mut files = files_of(alloc, capture(alloc, &[5])?, capture(alloc, &[])?, &[])?;
    let ins = three(alloc, "in0", "in1", "-")?;
    let outs = three(alloc, "out0", "out1", "out2")?;
    let replayed = replay(alloc, Marking { byte: 200 }, &mut files, "log", &ins, &outs);
    assert!(rt; replayed.is_ok());
    let mut marked = Vec::from_slice(alloc, &HEADER)?;
    marked.extend_from_slice(&record(5, 200))?;
    assert_eq!(rt; files.written("out0").ok_or("no out0")?, marked.as_slice());
    let log = "1 in 0 to 0 steps 1 new 1:4294967295 new 0:5\n";
    assert_eq!(rt; files.written("log").ok_or("no log")?, log.as_bytes());
    Ok(())
}

// The frame at which a handler stops is neither written nor told, though it was read.
#[test]
fn a_handler_stops(rt: HostRuntime) -> Result<(), Fail> {
    let alloc = rt.alloc();
    let mut files = files_of(
        alloc,
        capture(alloc, &[5, 3, 9])?,
        capture(alloc, &[5])?,
        &[],
    )?;
    assert_eq!(rt;
        replay_three(alloc, ToTwo { left: 2 }, &mut files)?,
        Err(RunStop::Handler(Enough))
    );
    let log = "1 in 0 to 2 steps 3\n2 in 0 to 2 steps 3\n";
    assert_eq!(rt; files.written("log").ok_or("no log")?, log.as_bytes());
    assert_eq!(rt; files.written("out0").ok_or("no out0")?, HEADER.as_slice());
    assert_eq!(rt;
        files.written("out2").ok_or("no out2")?,
        capture(alloc, &[5, 5])?.as_slice()
    );
    Ok(())
}

#[test]
fn a_bad_header_creates_nothing(rt: HostRuntime) -> Result<(), Fail> {
    let alloc = rt.alloc();
    let short = Vec::from_slice(alloc, &HEADER[..23])?;
    let mut files = files_of(alloc, capture(alloc, &[5])?, short, &[])?;
    let stop = RunStop::Capture {
        port: 1,
        refusal: CaptureRefusal::Header(HeaderField::Length),
    };
    assert_eq!(rt; replay_three(alloc, ALL, &mut files)?, Err(stop));
    assert!(rt; files.written("out0").is_none());
    assert!(rt; files.written("log").is_none());
    Ok(())
}

// Each call on the files fails in turn. That is told at two opens and four reads, at four creations and the headers of three captures, at a frame and a
// line for each of three frames, and at the closing of four outputs; and not at the closing of two inputs.
#[test]
fn each_fault_is_told(rt: HostRuntime) -> Result<(), Fail> {
    let alloc = rt.alloc();
    let mut reads = Vec::new(alloc);
    let mut writes = Vec::new(alloc);
    for call in 1..60u64 {
        let mut files = files_of(
            alloc,
            capture(alloc, &[5, 3])?,
            capture(alloc, &[4])?,
            &[call],
        )?;
        match replay_three(alloc, ALL, &mut files)? {
            Ok(totals) => assert_eq!(rt; totals.frames, 3),
            Err(RunStop::Read) => reads.push(call)?,
            Err(RunStop::Write) => writes.push(call)?,
            Err(_) => return Err("another stop".into()),
        }
    }
    assert_eq!(rt; reads.len(), 6);
    assert_eq!(rt; writes.len(), 17);
    Ok(())
}

// The captures are created in the order of their ports, and then the log: where the second one can't be created, only the first stands.
#[test]
fn a_capture_is_not_created(rt: HostRuntime) -> Result<(), Fail> {
    let alloc = rt.alloc();
    let mut files = files_of(alloc, capture(alloc, &[5])?, capture(alloc, &[4])?, &[7])?;
    assert_eq!(rt; replay_three(alloc, ALL, &mut files)?, Err(RunStop::Write));
    assert_eq!(rt; files.written("out0").ok_or("no out0")?, HEADER.as_slice());
    assert!(rt; files.written("out1").is_none());
    assert!(rt; files.written("out2").is_none());
    assert!(rt; files.written("log").is_none());
    Ok(())
}

#[test]
fn frame_by_frame(rt: HostRuntime) -> Result<(), Fail> {
    let alloc = rt.alloc();
    let mut files = files_of(alloc, capture(alloc, &[5, 3])?, capture(alloc, &[])?, &[])?;
    let ins = three(alloc, "in0", "in1", "-")?;
    let outs = three(alloc, "out0", "out1", "out2")?;
    let Ok(begun) = Replay::start(alloc, ALL, &mut files, "log", &ins, &outs) else {
        return Err("not begun".into());
    };
    assert_eq!(rt; files.written("out2").ok_or("no out2")?, HEADER.as_slice());
    let Ok(Next::Again(next)) = begun.next_frame(&mut files) else {
        return Err("no frame".into());
    };
    assert_eq!(rt;
        files.written("out2").ok_or("no out2")?,
        capture(alloc, &[5])?.as_slice()
    );
    let Ok(totals) = next.run(&mut files) else {
        return Err("not run".into());
    };
    assert_eq!(rt; totals.frames, 2);
    Ok(())
}
