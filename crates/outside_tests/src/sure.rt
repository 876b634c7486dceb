//! Files and bytes in memory that never fail.

use crate::real::{reads, writes};
use outside::{ReadRefusal, Sink, SureShelf, SureSink};
use std::test::Fail;

#[test]
fn files_that_never_fail(rt: HostRuntime) -> Result<(), Fail> {
    let alloc = rt.alloc();
    let mut shelf = SureShelf::new(alloc, &[("a", b"12345".as_slice())])?;
    assert!(rt; reads(&mut shelf, alloc, "a", 5, Ok(b"12345".as_slice())));
    assert!(rt; reads(&mut shelf, alloc, "a", 4, Err(ReadRefusal::TooLong(5))));
    assert!(rt; reads(&mut shelf, alloc, "b", 5, Err(ReadRefusal::Missing)));
    assert!(rt; writes(&mut shelf, alloc, "b", b"67"));
    assert!(rt; writes(&mut shelf, alloc, "a", b"8"));
    assert!(rt; shelf.file("a") == Some(b"8".as_slice()));
    assert!(rt; shelf.file("b") == Some(b"67".as_slice()));
    assert_eq!(rt; shelf.file_count(), 2);
    Ok(())
}

#[test]
fn bytes_that_are_always_taken(rt: HostRuntime) -> Result<(), Fail> {
    let mut sink = SureSink::new(rt.alloc());
    assert_eq!(rt; sink.put(b"12"), Ok(()));
    assert_eq!(rt; sink.put(b""), Ok(()));
    assert_eq!(rt; sink.put(b"3"), Ok(()));
    assert!(rt; sink.bytes() == b"123".as_slice());
    Ok(())
}
