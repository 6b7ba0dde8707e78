ghost use Rattle.std.specs.Prelude.{List, ℕ};
ghost use Rattle.vg_pcap.specs.Arrivals.{Arrival};
ghost use Rattle.vg_pcap.specs.Merge.{AreReadable, IsNext, IsNextAt};
ghost use Rattle.vg_pcap.specs.Lending.{IsWritten};

use super::*;
use crate::faults::{CaptureRefusal, Damage, HeaderField};
use std::alloc::AllocError;
use std::test::Fail;
use vg_doubles::MemFiles;

// A header: the magic of nanoseconds in little-endian order, version 2.4, zone and accuracy 0, snap length 262,144, and link type 1.
const HEADER: [u8; 24] = [
    0x4d, 0x3c, 0xb2, 0xa1, 2, 0, 4, 0, 0, 0, 0, 0, 0, 0, 0, 0, 0, 0, 4, 0, 1, 0, 0, 0,
];

// A capture of frames of one byte each: how many nanoseconds after 1970 each came, and the byte.
fn capture(alloc: Global, frames: &[(u8, u8)]) -> Result<Vec<u8>, AllocError> {
    let mut bytes = Vec::from_slice(alloc, &HEADER)?;
    for (time, byte) in frames {
        let record = [0, 0, 0, 0, *time, 0, 0, 0, 1, 0, 0, 0, 1, 0, 0, 0, *byte];
        bytes.extend_from_slice(&record)?;
    }
    Ok(bytes)
}

// The port of the next frame, when it came, and its byte; it is handled then.
fn next<F: Files>(
    merge: &mut Merge,
    files: &mut F,
) -> Result<Option<(u16, u64, Option<u8>)>, MergeFault>
    requires { AreReadable (F.disk files.old) merge.old }
    ensures { AreReadable (F.disk files.new) merge.new }
{
    let Some(port) = merge.next_port() else {
        return Ok(None);
    };
    let time = merge.time(port);
    let byte = merge.frame(port).first().copied();
    merge.advance(files, port)?;
    Ok(Some((port, time, byte)))
}

// Puts this byte in the place of each one of the next frame.
fn fill_next(merge: &mut Merge, port: u16, byte: u8)
    requires { IsNextAt merge.old port }
    ensures { (a : Arrival) → IsNext merge.old a → (bytes : List ℕ) × IsWritten merge.old merge.new a bytes }
{
    merge.frame_mut(port).fill(byte);
}

// The same as `next`, where the frame is filled with a byte before.
fn next_filled<F: Files>(
    merge: &mut Merge,
    files: &mut F,
    byte: u8,
) -> Result<Option<(u16, u64, Option<u8>)>, MergeFault>
    requires { AreReadable (F.disk files.old) merge.old }
    ensures { AreReadable (F.disk files.new) merge.new }
{
    let Some(port) = merge.next_port() else {
        return Ok(None);
    };
    fill_next(merge, port, byte);
    next(merge, files)
}

#[test]
fn frames_come_by_time_then_port_then_place(rt: HostRuntime) -> Result<(), Fail> {
    let alloc = rt.alloc();
    let ins = [
        String::from_str(alloc, "in0")?,
        String::from_str(alloc, "in1")?,
    ];
    let mut held = Vec::new(alloc);
    held.push((ins[0].clone()?, capture(alloc, &[(5, 1), (3, 2), (9, 3)])?))?;
    held.push((ins[1].clone()?, capture(alloc, &[(5, 4)])?))?;
    let mut files = MemFiles::new(alloc, held, 2, 0, Vec::new(alloc))?;
    let mut merge = Merge::start(alloc, &mut files, &ins)?;
    merge.fill(&mut files)?;
    assert_eq!(rt; next(&mut merge, &mut files), Ok(Some((0, 5, Some(1)))));
    assert_eq!(rt; next(&mut merge, &mut files), Ok(Some((0, 5, Some(2)))));
    assert_eq!(rt; next(&mut merge, &mut files), Ok(Some((1, 5, Some(4)))));
    assert_eq!(rt; next(&mut merge, &mut files), Ok(Some((0, 9, Some(3)))));
    assert_eq!(rt; next(&mut merge, &mut files), Ok(None));
    assert_eq!(rt; merge.close(&mut files), Ok(()));
    Ok(())
}

#[test]
fn a_frame_that_is_changed_in_place_keeps_its_time(rt: HostRuntime) -> Result<(), Fail> {
    let alloc = rt.alloc();
    let ins = [
        String::from_str(alloc, "in0")?,
        String::from_str(alloc, "in1")?,
    ];
    let mut held = Vec::new(alloc);
    held.push((ins[0].clone()?, capture(alloc, &[(6, 1), (9, 2)])?))?;
    held.push((ins[1].clone()?, capture(alloc, &[(5, 3), (6, 4)])?))?;
    let mut files = MemFiles::new(alloc, held, 2, 0, Vec::new(alloc))?;
    let mut merge = Merge::start(alloc, &mut files, &ins)?;
    merge.fill(&mut files)?;
    assert_eq!(rt;
        next_filled(&mut merge, &mut files, 77),
        Ok(Some((1, 5, Some(77))))
    );
    assert_eq!(rt; next(&mut merge, &mut files), Ok(Some((0, 6, Some(1)))));
    assert_eq!(rt;
        next_filled(&mut merge, &mut files, 88),
        Ok(Some((1, 6, Some(88))))
    );
    assert_eq!(rt; next(&mut merge, &mut files), Ok(Some((0, 9, Some(2)))));
    assert_eq!(rt; next_filled(&mut merge, &mut files, 99), Ok(None));
    assert_eq!(rt; merge.close(&mut files), Ok(()));
    Ok(())
}

#[test]
fn a_cut_record_comes_right_after_the_one_before(rt: HostRuntime) -> Result<(), Fail> {
    let alloc = rt.alloc();
    let ins = [
        String::from_str(alloc, "in0")?,
        String::from_str(alloc, "in1")?,
    ];
    let mut cut = capture(alloc, &[(5, 1), (3, 2), (9, 3)])?;
    let _ = cut.pop();
    let mut held = Vec::new(alloc);
    held.push((ins[0].clone()?, cut))?;
    held.push((ins[1].clone()?, capture(alloc, &[(5, 4)])?))?;
    let mut files = MemFiles::new(alloc, held, 2, 0, Vec::new(alloc))?;
    let mut merge = Merge::start(alloc, &mut files, &ins)?;
    merge.fill(&mut files)?;
    assert_eq!(rt; next(&mut merge, &mut files), Ok(Some((0, 5, Some(1)))));
    let refused = MergeFault {
        port: 0,
        fault: CaptureFault::Refused(CaptureRefusal::Record {
            number: 3,
            why: Damage::Cut,
        }),
    };
    assert_eq!(rt; next(&mut merge, &mut files), Err(refused));
    assert_eq!(rt; merge.close(&mut files), Ok(()));
    Ok(())
}

#[test]
fn nothing_comes_in_at_an_empty_port(rt: HostRuntime) -> Result<(), Fail> {
    let alloc = rt.alloc();
    let ins = [
        String::from_str(alloc, "-")?,
        String::from_str(alloc, "in1")?,
    ];
    let mut held = Vec::new(alloc);
    held.push((ins[1].clone()?, capture(alloc, &[(7, 4)])?))?;
    let mut files = MemFiles::new(alloc, held, 1, 0, Vec::new(alloc))?;
    let mut merge = Merge::start(alloc, &mut files, &ins)?;
    merge.fill(&mut files)?;
    assert_eq!(rt; next(&mut merge, &mut files), Ok(Some((1, 7, Some(4)))));
    assert_eq!(rt; next(&mut merge, &mut files), Ok(None));
    assert_eq!(rt; merge.close(&mut files), Ok(()));
    Ok(())
}

#[test]
fn the_port_of_a_short_header_is_told(rt: HostRuntime) -> Result<(), Fail> {
    let alloc = rt.alloc();
    let ins = [
        String::from_str(alloc, "in0")?,
        String::from_str(alloc, "in1")?,
    ];
    let mut held = Vec::new(alloc);
    held.push((ins[0].clone()?, capture(alloc, &[])?))?;
    held.push((ins[1].clone()?, Vec::new(alloc)))?;
    let mut files = MemFiles::new(alloc, held, 2, 0, Vec::new(alloc))?;
    let refused = MergeFault {
        port: 1,
        fault: CaptureFault::Refused(CaptureRefusal::Header(HeaderField::Length)),
    };
    assert_eq!(rt; Merge::start(alloc, &mut files, &ins).err(), Some(refused));
    Ok(())
}

#[test]
fn a_fault_at_reading_is_told(rt: HostRuntime) -> Result<(), Fail> {
    let alloc = rt.alloc();
    let ins = [
        String::from_str(alloc, "in0")?,
        String::from_str(alloc, "in1")?,
    ];
    let mut held = Vec::new(alloc);
    held.push((ins[0].clone()?, capture(alloc, &[(5, 1)])?))?;
    held.push((ins[1].clone()?, capture(alloc, &[(7, 4)])?))?;
    // Each file is opened and read whole; the fifth call looks for more of the first.
    let fails = Vec::from_slice(alloc, &[5])?;
    let mut files = MemFiles::new(alloc, held, 2, 0, fails)?;
    let mut merge = Merge::start(alloc, &mut files, &ins)?;
    merge.fill(&mut files)?;
    let fault = MergeFault {
        port: 0,
        fault: CaptureFault::Read,
    };
    assert_eq!(rt; next(&mut merge, &mut files), Err(fault));
    assert_eq!(rt; merge.close(&mut files), Ok(()));
    Ok(())
}
