//! Real files and outputs, and a writer that fails in the middle.
ghost use Rattle.std.specs.Prelude.{◌≤◌, IfOk};

use outside::{FolderShelf, OutSink, ReadRefusal, Shelf, Sink, WriteRefusal};
use std::alloc::Global;
use std::io::{ErrorKind, Write};
use std::test::Fail;
use std::{fs, io};

/// Whether a read came to what is wanted.
fn is_read(read: &Result<Vec<u8>, ReadRefusal>, want: Result<&[u8], ReadRefusal>) -> bool {
    match (read, want) {
        (Ok(bytes), Ok(wanted)) => bytes.as_slice() == wanted,
        (Err(refusal), Err(wanted)) => *refusal == wanted,
        _ => false,
    }
}

/// Whether a file of at most so many bytes is read as it is wanted.
pub fn reads<S: Shelf>(
    shelf: &mut S,
    alloc: Global,
    name: &str,
    max: u64,
    want: Result<&[u8], ReadRefusal>,
) -> bool {
    let read = shelf.read(alloc, name, max);
    is_read(&read, want)
}

/// Whether a file is written.
pub fn writes<S: Shelf>(shelf: &mut S, alloc: Global, name: &str, bytes: &[u8]) -> bool {
    shelf.write(alloc, name, bytes).is_ok()
}

/// Whether a file is read back, up to its length, and not as one that may have a byte less.
fn reads_back<S: Shelf>(shelf: &mut S, alloc: Global, name: &str, bytes: &[u8]) -> bool {
    let length = bytes.len() as u64;
    let most = length.saturating_sub(1);
    writes(shelf, alloc, name, bytes)
        && reads(shelf, alloc, name, length, Ok(bytes))
        && reads(shelf, alloc, name, most, Err(ReadRefusal::TooLong(length)))
}

#[test]
fn real_files(rt: HostRuntime) -> Result<(), Fail> {
    let alloc = rt.alloc();
    let name = "outside_test.bin";
    let long = [b'x'; 5000];
    let mut shelf = FolderShelf::new(&rt);
    assert!(rt; reads_back(&mut shelf, alloc, name, long.as_slice()));
    assert!(rt; reads_back(&mut shelf, alloc, name, b"12345"));
    fs::remove_file(&rt, name)?;
    assert!(rt; reads(&mut shelf, alloc, name, 5, Err(ReadRefusal::Missing)));
    assert_eq!(rt; shelf.failures(), 0);
    Ok(())
}

#[test]
fn no_real_files(rt: HostRuntime) -> Result<(), Fail> {
    let alloc = rt.alloc();
    let mut shelf = FolderShelf::new(&rt);
    // A folder can't be read, and a file can't be made in a folder that isn't there.
    assert!(rt; reads(&mut shelf, alloc, ".", 5, Err(ReadRefusal::Failed)));
    assert_eq!(rt;
        shelf.write(alloc, "outside_none/file", b"1"),
        Err(WriteRefusal::Failed)
    );
    assert_eq!(rt; shelf.failures(), 2);
    Ok(())
}

#[test]
fn the_standard_output(rt: HostRuntime) -> Result<(), Fail> {
    let mut out = OutSink::new(rt.stdout());
    assert_eq!(rt; out.put(b"a line\n"), Ok(()));
    assert_eq!(rt; out.failures(), 0);
    Ok(())
}

/// A writer that takes at most three bytes at a time, `left` in all. Then it fails, or takes none.
#[derive(Drop)]
struct Narrow {
    left: usize,
    fails: bool,
}

impl Narrow {
    fn next(&mut self, room: usize) -> io::Result<usize>
        ensures { IfOk result (λ count. count ≤ room) }
    {
        let count = self.left.min(room).min(3);
        self.left -= count;
        if count == 0 && self.fails {
            return Err(io::Error::from(ErrorKind::Other));
        }
        Ok(count)
    }
}

impl Write for Narrow {
    fn write(&mut self, buf: &[u8]) -> io::Result<usize> {
        self.next(buf.len())
    }

    fn flush(&mut self) -> io::Result<()> {
        Ok(())
    }
}

#[test]
fn a_writer_that_takes_nothing_has_failed(rt: HostRuntime) -> Result<(), Fail> {
    for fails in [false, true] {
        let mut sink = OutSink::new(Narrow { left: 7, fails });
        assert_eq!(rt; sink.put(b"1234567"), Ok(()));
        assert_eq!(rt; sink.put(b"8"), Err(WriteRefusal::Failed));
        assert_eq!(rt; sink.put(b""), Ok(()));
        assert_eq!(rt; sink.failures(), 1);
    }
    Ok(())
}
