use super::*;
use std::fs;
use std::test::Fail;

const PATH: &str = "vg_base_test_file";

#[test]
fn the_system_keeps_a_file(rt: HostRuntime) -> Result<(), Fail> {
    let alloc = rt.alloc();
    let mut files = HostFiles::new(alloc, &rt);
    let id = files.create(PATH)?;
    put_all(&mut files, id, b"some bytes\n")?;
    files.close(id)?;
    let got = load(alloc, &mut files, PATH, 100)?;
    assert_eq!(rt; got.as_slice(), b"some bytes\n".as_slice());
    say_all(&mut HostSink::new(&rt), got.as_slice())?;
    fs::remove_file(&rt, PATH)?;
    assert_eq!(rt;
        load(alloc, &mut files, PATH, 100).err(),
        Some(LoadFault::Read)
    );
    Ok(())
}
