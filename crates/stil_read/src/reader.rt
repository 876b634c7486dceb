//! Reading: what the text could stand for, whether that is a file, and whether the text spells it.
ghost use Rattle.stil_read.specs.Reading.{IsReadStil};

use crate::expected::same_tokens;
use crate::finding::find;
use std::alloc::Global;
use stil_write::{StilFile, write_stil};

/// Why there is no file.
#[derive(Clone, Copy, PartialEq, Eq)]
pub enum StilFault {
    NotStil,
    NoMemory,
}

/// The file that the bytes stand for; `NotStil` exactly where they stand for none.
pub fn read_stil(alloc: Global, bytes: &[u8]) -> Result<StilFile, StilFault>
    ensures { IsReadStil bytes.now result }
{
    let parts = match find(alloc, bytes) {
        Ok(Some(parts)) => parts,
        Ok(None) => return Err(StilFault::NotStil),
        Err(_) => return Err(StilFault::NoMemory),
    };
    match parts.is_file(alloc) {
        Ok(true) => {}
        Ok(false) => return Err(StilFault::NotStil),
        Err(_) => return Err(StilFault::NoMemory),
    }
    let file = StilFile::new(parts);
    let Ok(text) = write_stil(alloc, &file) else {
        return Err(StilFault::NoMemory);
    };
    if same_tokens(text.as_slice(), bytes) {
        Ok(file)
    } else {
        Err(StilFault::NotStil)
    }
}
