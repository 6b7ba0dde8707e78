use super::*;
use std::alloc::{AllocError, Global};
use std::test::Fail;
use vg_base::{Failed, Files, LoadFault, Sink, load, say_all};

fn named(alloc: Global, name: &str, bytes: &[u8]) -> Result<(String, Vec<u8>), AllocError> {
    Ok((
        String::from_str(alloc, name)?,
        Vec::from_slice(alloc, bytes)?,
    ))
}

#[test]
fn the_third_call_fails(rt: HostRuntime) -> Result<(), Fail> {
    let alloc = rt.alloc();
    let fails = Vec::from_slice(alloc, &[3])?;
    let mut files = MemFiles::new(alloc, Vec::new(alloc), 2, 8, fails)?;
    let id = files.create("out")?;
    assert_eq!(rt; files.write(id, b"ab"), Ok(2));
    assert_eq!(rt; files.write(id, b"cd"), Err(Failed));
    assert_eq!(rt; files.write(id, b"ef"), Ok(2));
    assert_eq!(rt; files.close(id), Ok(()));
    assert_eq!(rt; files.written("out"), Some(b"abef".as_slice()));
    assert_eq!(rt; files.written("in"), None);
    Ok(())
}

#[test]
fn room_ends_within_a_write(rt: HostRuntime) -> Result<(), Fail> {
    let alloc = rt.alloc();
    let mut files = MemFiles::new(alloc, Vec::new(alloc), 1, 5, Vec::new(alloc))?;
    let id = files.create("out")?;
    assert_eq!(rt; files.write(id, b"abc"), Ok(3));
    assert_eq!(rt; files.write(id, b"def"), Ok(2));
    assert_eq!(rt; files.write(id, b"g"), Err(Failed));
    assert_eq!(rt; files.write(id, b""), Ok(0));
    assert_eq!(rt; files.written("out"), Some(b"abcde".as_slice()));

    let mut sink = MemSink::new(alloc, 5, Vec::from_slice(alloc, &[2])?)?;
    assert_eq!(rt; sink.write(b"abc"), Ok(3));
    assert_eq!(rt; sink.write(b"d"), Err(Failed));
    assert_eq!(rt; say_all(&mut sink, b"def"), Err(Failed));
    assert_eq!(rt; sink.write(b""), Ok(0));
    assert_eq!(rt; sink.written(), b"abcde".as_slice());
    Ok(())
}

#[test]
fn files_and_names_end(rt: HostRuntime) -> Result<(), Fail> {
    let alloc = rt.alloc();
    let mut files = MemFiles::new(alloc, Vec::new(alloc), 2, 1, Vec::new(alloc))?;
    let long = "n".repeat(alloc, 257)?;
    let (fits, _) = long.as_str().split_at(256);
    assert_eq!(rt; files.create(long.as_str()), Err(Failed));
    assert_eq!(rt; files.create(fits), Ok(0));
    assert_eq!(rt; files.create("last"), Ok(1));
    assert_eq!(rt; files.create("one more"), Err(Failed));
    assert_eq!(rt; files.written(fits), Some(b"".as_slice()));
    assert_eq!(rt; files.written(long.as_str()), None);
    let none = MemFiles::new(alloc, Vec::new(alloc), 2, u64::MAX, Vec::new(alloc));
    assert!(rt; none.is_err());
    Ok(())
}

#[test]
fn loads_the_first_of_equal_names(rt: HostRuntime) -> Result<(), Fail> {
    let alloc = rt.alloc();
    let mut held = Vec::new(alloc);
    held.push(named(alloc, "in", b"first")?)?;
    held.push(named(alloc, "in", b"second")?)?;
    let mut files = MemFiles::new(alloc, held, 4, 1, Vec::from_slice(alloc, &[4, 9])?)?;
    assert_eq!(rt;
        load(alloc, &mut files, "in", 5)?.as_slice(),
        b"first".as_slice()
    );
    assert_eq!(rt;
        load(alloc, &mut files, "in", 4).err(),
        Some(LoadFault::TooLong)
    );
    assert_eq!(rt;
        load(alloc, &mut files, "in", 5).err(),
        Some(LoadFault::Read)
    );
    assert_eq!(rt;
        load(alloc, &mut files, "out", 5).err(),
        Some(LoadFault::Read)
    );
    Ok(())
}
