ghost use Rattle.std.specs.Prelude.{◌<◌, IfOk};
ghost use Rattle.vg_doubles.specs.Memory.{disk_of};

use super::*;
use std::alloc::{AllocError, Global};
use std::test::Fail;
use vg_base::Failed;
use vg_doubles::MemFiles;

const MICROSECONDS: u32 = 0xa1b2_c3d4;

const NANOSECONDS: u32 = 0xa1b2_3c4d;

// The bytes of a number: the least first, or the greatest.
fn number(big: bool, number: u32) -> [u8; 4] {
    if big {
        number.to_be_bytes()
    } else {
        number.to_le_bytes()
    }
}

// A header: the magic, version 2.4, zone, accuracy and snap length 7, which are ignored, and link type 1.
fn header(alloc: Global, big: bool, magic: u32) -> Result<Vec<u8>, AllocError> {
    let mut bytes = Vec::new(alloc);
    bytes.extend_from_slice(&number(big, magic))?;
    let version = if big { [0, 2, 0, 4] } else { [2, 0, 4, 0] };
    bytes.extend_from_slice(&version)?;
    for field in [7, 7, 7, 1] {
        bytes.extend_from_slice(&number(big, field))?;
    }
    Ok(bytes)
}

// Puts a record after others: seconds, fraction, captured and original length, and so many bytes 9.
fn add_record(
    bytes: &mut Vec<u8>,
    big: bool,
    numbers: [u32; 4],
    size: usize,
) -> Result<(), AllocError> {
    for field in numbers {
        bytes.extend_from_slice(&number(big, field))?;
    }
    for _ in 0..size {
        bytes.push(9)?;
    }
    Ok(())
}

// A file `in` of these bytes; the calls with these numbers fail.
fn file(alloc: Global, bytes: &[u8], fails: &[u64]) -> Result<MemFiles, Fail>
    ensures { IfOk result (λ files. (disk_of files).open_count < 64) }
{
    let mut held = Vec::new(alloc);
    held.push((
        String::from_str(alloc, "in")?,
        Vec::from_slice(alloc, bytes)?,
    ))?;
    Ok(MemFiles::new(alloc, held, 2, 100_000, Vec::from_slice(alloc, fails)?)?)
}

// The refusal of a record of this number.
fn damaged(number: u64, why: Damage) -> CaptureFault {
    CaptureFault::Refused(CaptureRefusal::Record { number, why })
}

// The refusal of a header.
fn bad_header(field: HeaderField) -> CaptureFault {
    CaptureFault::Refused(CaptureRefusal::Header(field))
}

// How the reader of a file starts.
fn started(alloc: Global, bytes: &[u8]) -> Result<Option<CaptureFault>, Fail> {
    let mut files = file(alloc, bytes, &[])?;
    Ok(CaptureReader::start(alloc, &mut files, "in").err())
}

#[test]
fn reads_each_encoding(rt: HostRuntime) -> Result<(), Fail> {
    let alloc = rt.alloc();
    let table = [
        (false, MICROSECONDS, 1_000_002_000),
        (false, NANOSECONDS, 1_000_000_002),
        (true, MICROSECONDS, 1_000_002_000),
        (true, NANOSECONDS, 1_000_000_002),
    ];
    for (big, magic, time) in table {
        let mut bytes = header(alloc, big, magic)?;
        add_record(&mut bytes, big, [1, 2, 3, 60], 3)?;
        let mut files = file(alloc, bytes.as_slice(), &[])?;
        let mut reader = CaptureReader::start(alloc, &mut files, "in")?;
        assert_eq!(rt; reader.next(&mut files), Ok(true));
        assert_eq!(rt; reader.time(), time);
        assert_eq!(rt; reader.captured(), 3);
        assert_eq!(rt; reader.original(), 60);
        assert_eq!(rt; reader.frame(), [9u8, 9, 9].as_slice());
        assert_eq!(rt; reader.next(&mut files), Ok(false));
        reader.close(&mut files)?;
    }
    Ok(())
}

#[test]
fn refuses_headers(rt: HostRuntime) -> Result<(), Fail> {
    let alloc = rt.alloc();
    let good = header(alloc, false, NANOSECONDS)?;
    assert_eq!(rt; started(alloc, good.as_slice())?, None);
    // Each byte is changed too: of several parts that are refused the first is told.
    let table = [
        (20, HeaderField::Link),
        (6, HeaderField::Version),
        (4, HeaderField::Version),
        (3, HeaderField::Magic),
    ];
    let mut bytes = good;
    for (place, field) in table {
        if let Some(byte) = bytes.get_mut(place) {
            *byte = 0x55;
        }
        let refused = started(alloc, bytes.as_slice())?;
        assert_eq!(rt; refused, Some(bad_header(field)), "at {place}");
    }
    bytes.truncate(23);
    let refused = started(alloc, bytes.as_slice())?;
    assert_eq!(rt; refused, Some(bad_header(HeaderField::Length)));
    Ok(())
}

// How the second record of a capture is read, of which so many bytes are there.
fn second(
    alloc: Global,
    magic: u32,
    numbers: [u32; 4],
    size: usize,
) -> Result<Result<bool, CaptureFault>, Fail> {
    let mut bytes = header(alloc, false, magic)?;
    add_record(&mut bytes, false, [1, 1, 0, 0], 0)?;
    let mut last = Vec::new(alloc);
    add_record(&mut last, false, numbers, size.saturating_sub(16))?;
    bytes.extend_from_slice(&last[..size.min(last.len())])?;
    let mut files = file(alloc, bytes.as_slice(), &[])?;
    let mut reader = CaptureReader::start(alloc, &mut files, "in")?;
    if reader.next(&mut files) != Ok(true) {
        return Err(Fail::from("the first record is good"));
    }
    let found = reader.next(&mut files);
    reader.close(&mut files)?;
    Ok(found)
}

#[test]
fn tells_records(rt: HostRuntime) -> Result<(), Fail> {
    let alloc = rt.alloc();
    let table = [
        ("the end", MICROSECONDS, [1, 2, 3, 60], 0, Ok(false)),
        (
            "a byte",
            MICROSECONDS,
            [1, 1_000_000, 3, 60],
            1,
            Err(damaged(2, Damage::Cut)),
        ),
        (
            "half a head",
            MICROSECONDS,
            [1, 1_000_000, 3, 60],
            15,
            Err(damaged(2, Damage::Cut)),
        ),
        (
            "a head alone",
            MICROSECONDS,
            [1, 2, 3, 60],
            16,
            Err(damaged(2, Damage::Cut)),
        ),
        (
            "one byte is missing",
            MICROSECONDS,
            [1, 2, 3, 60],
            18,
            Err(damaged(2, Damage::Cut)),
        ),
        ("whole", MICROSECONDS, [1, 2, 3, 60], 19, Ok(true)),
        (
            "the last microsecond",
            MICROSECONDS,
            [1, 999_999, 0, 0],
            16,
            Ok(true),
        ),
        (
            "a second",
            MICROSECONDS,
            [1, 1_000_000, 262_145, 0],
            16,
            Err(damaged(2, Damage::Fraction)),
        ),
        (
            "the last nanosecond",
            NANOSECONDS,
            [1, 999_999_999, 0, 0],
            16,
            Ok(true),
        ),
        (
            "a second again",
            NANOSECONDS,
            [1, 1_000_000_000, 0, 0],
            16,
            Err(damaged(2, Damage::Fraction)),
        ),
        (
            "the longest",
            MICROSECONDS,
            [1, 2, 262_144, 0],
            262_160,
            Ok(true),
        ),
        (
            "one byte longer",
            MICROSECONDS,
            [1, 2, 262_145, 0],
            16,
            Err(damaged(2, Damage::Long)),
        ),
    ];
    for (name, magic, numbers, size, want) in table {
        assert_eq!(rt; second(alloc, magic, numbers, size)?, want, "{name}");
    }
    Ok(())
}

#[test]
fn times_do_not_fall(rt: HostRuntime) -> Result<(), Fail> {
    let alloc = rt.alloc();
    let mut bytes = header(alloc, false, NANOSECONDS)?;
    for seconds in [5, 3, 9] {
        add_record(&mut bytes, false, [seconds, 0, 0, 0], 0)?;
    }
    let mut files = file(alloc, bytes.as_slice(), &[])?;
    let mut reader = CaptureReader::start(alloc, &mut files, "in")?;
    for time in [5_000_000_000, 5_000_000_000, 9_000_000_000] {
        assert_eq!(rt; reader.next(&mut files), Ok(true));
        assert_eq!(rt; reader.time(), time);
    }
    reader.close(&mut files)?;
    Ok(())
}

#[test]
fn nothing_comes_under_a_dash(rt: HostRuntime) -> Result<(), Fail> {
    let alloc = rt.alloc();
    // The first call on the files fails: there is none.
    let mut files = file(alloc, &[], &[1])?;
    let mut reader = CaptureReader::start(alloc, &mut files, "-")?;
    assert_eq!(rt; reader.next(&mut files), Ok(false));
    assert_eq!(rt; reader.close(&mut files), Ok(()));
    Ok(())
}

#[test]
fn a_fault_is_told(rt: HostRuntime) -> Result<(), Fail> {
    let alloc = rt.alloc();
    let mut bytes = header(alloc, false, NANOSECONDS)?;
    add_record(&mut bytes, false, [1, 2, 3, 3], 3)?;
    add_record(&mut bytes, false, [1, 2, 70_000, 70_000], 70_000)?;
    // The third call, after opening and one read, reads more than is ahead.
    let mut files = file(alloc, bytes.as_slice(), &[3])?;
    let mut reader = CaptureReader::start(alloc, &mut files, "in")?;
    assert_eq!(rt; reader.next(&mut files), Ok(true));
    assert_eq!(rt; reader.next(&mut files), Err(CaptureFault::Read));
    assert_eq!(rt; reader.close(&mut files), Ok(()));
    Ok(())
}

// A capture of two frames, as it stands in the file.
const WRITTEN: [u8; 58] = [
    0x4d, 0x3c, 0xb2, 0xa1, 2, 0, 4, 0, 0, 0, 0, 0, 0, 0, 0, 0, 0, 0, 4, 0, 1, 0, 0, 0, // the header
    1, 0, 0, 0, 0xd0, 7, 0, 0, 2, 0, 0, 0, 60, 0, 0, 0, 8, 9, // a frame of two bytes
    2, 0, 0, 0, 3, 0, 0, 0, 0xf1, 7, 0, 0, 0xf1, 7, 0, 0, // the head of one with 2,033
];

#[test]
fn writes_frames(rt: HostRuntime) -> Result<(), Fail> {
    let alloc = rt.alloc();
    // Calls: creating, the header, a small frame, and a long one in two.
    let mut files = file(alloc, &[], &[6])?;
    let mut writer = CaptureWriter::start(&mut files, "out")?;
    writer.put(&mut files, 1_000_002_000, 60, &[8, 9])?;
    let long = vec![in alloc; 7u8; 2033]?;
    writer.put(&mut files, 2_000_000_003, 2033, long.as_slice())?;
    assert_eq!(rt; writer.put(&mut files, 2_000_000_004, 0, &[]), Err(Failed));
    writer.close(&mut files)?;
    let mut want = Vec::from_slice(alloc, &WRITTEN)?;
    want.extend_from_slice(long.as_slice())?;
    assert_eq!(rt; files.written("out"), Some(want.as_slice()));
    Ok(())
}
