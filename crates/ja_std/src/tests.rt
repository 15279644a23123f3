use crate::{FileShelf, StdSink};
use ja_outside::{Shelf, Sink};
use std::fs;
use std::test::Fail;

// One call on a shelf at a type parameter, as the program makes it.
fn first_bytes<F: Shelf>(shelf: &mut F, name: &str, buf: &mut [u8]) -> usize {
    match shelf.select(name) {
        Ok(()) => shelf.read(buf).unwrap_or(0),
        Err(_) => 0,
    }
}

#[test]
fn a_missing_file_is_one_fault(rt: HostRuntime) -> Result<(), Fail> {
    let mut shelf = FileShelf::new(&rt);
    assert!(rt; shelf.select("no such folder/no such file").is_err());
    assert_eq!(rt; shelf.faults(), 1);
    Ok(())
}

#[test]
fn a_folder_opens_and_its_read_is_a_fault(rt: HostRuntime) -> Result<(), Fail> {
    let mut shelf = FileShelf::new(&rt);
    let mut buf = [0u8; 4];
    assert_eq!(rt; first_bytes(&mut shelf, "/", &mut buf), 0);
    assert_eq!(rt; shelf.faults(), 1);
    Ok(())
}

#[test]
fn a_real_file_is_read_without_a_fault(rt: HostRuntime) -> Result<(), Fail> {
    let path = std::env::temp_dir(&rt)?.join(rt.alloc(), "jasign-shelf-test")?;
    fs::write(&rt, path.as_path(), b"12345".as_slice())?;
    let mut shelf = FileShelf::new(&rt);
    let mut buf = [0u8; 8];
    let name = path.to_str().ok_or("a path that is text")?;
    assert_eq!(rt; first_bytes(&mut shelf, name, &mut buf), 5);
    assert_eq!(rt; buf[4], b'5');
    assert_eq!(rt; shelf.faults(), 0);
    fs::remove_file(&rt, path.as_path())?;
    Ok(())
}

#[test]
fn what_is_written_is_no_fault(rt: HostRuntime) -> Result<(), Fail> {
    let mut sink = StdSink::new(&rt);
    assert_eq!(rt; sink.write(b"a line of a test\n").unwrap_or(0), 17);
    assert_eq!(rt; sink.write(b"").unwrap_or(1), 0);
    assert_eq!(rt; sink.faults(), 0);
    Ok(())
}
