//! Files and bytes in memory whose reads and writes never fail.
ghost use Rattle.std.specs.Prelude.{◌≡◌, [], Some, IfOk, true};
ghost use Rattle.std.specs.Option.{option_copied};

use crate::stored::StoredFiles;
use crate::{ReadRefusal, Shelf, Sink, WriteRefusal};
use std::alloc::{AllocError, Global};
use std::marker::Model;

/// Files in memory whose reads and writes never fail.
#[derive(Drop)]
pub struct SureShelf {
    files: StoredFiles,
}

impl Model for SureShelf {
    ghost use Rattle.outside.specs.FileMap.{FileMap, file_map_code};

    ghost Value = { FileMap };

    ghost coded = { file_map_code };

    ghost view = { λ a. a.files };
}

impl SureShelf {
    ghost use Rattle.std.specs.FinMap as map;
    ghost use Rattle.outside.specs.Memory.{file_map_of};

    /// A shelf with these files, given as names and bytes, where of two with one name the last
    /// stays.
    pub fn new(alloc: Global, files: &[(&str, &[u8])]) -> Result<SureShelf, AllocError>
        ensures { IfOk result (λ shelf. shelf ≡ file_map_of files.now) }
    {
        Ok(SureShelf {
            files: StoredFiles::with_files(alloc, files)?,
        })
    }

    /// The bytes of a file, where there is one.
    pub fn file(&self, name: &str) -> Option<&[u8]>
        ensures { option_copied result ≡ map.get self.now name.now }
    {
        self.files.get(name)
    }

    /// How many files there are.
    pub fn file_count(&self) -> usize
        ensures { result ≡ map.len self.now }
    {
        self.files.file_count()
    }
}

impl Shelf for SureShelf {
    ghost use Rattle.std.specs.FinMap as map;

    ghost files = { λ shelf. Some (map.get shelf) };

    ghost failures = { λ _. 0 };

    fn read(&mut self, alloc: Global, name: &str, max: u64) -> Result<Vec<u8>, ReadRefusal> {
        self.files.read(alloc, name, max)
    }

    fn write(&mut self, alloc: Global, name: &str, bytes: &[u8]) -> Result<(), WriteRefusal> {
        match self.files.put(alloc, name, bytes) {
            Ok(()) => Ok(()),
            Err(_) => Err(WriteRefusal::NoMemory),
        }
    }
}

/// Bytes in memory whose taking never fails.
#[derive(Drop)]
pub struct SureSink {
    bytes: Vec<u8>,
}

impl Model for SureSink {
    ghost use Rattle.std.specs.Prelude.{ℕ, List};

    ghost Value = { List ℕ };

    ghost view = { λ a. a.bytes.items };
}

impl SureSink {
    /// A sink that has taken nothing.
    pub fn new(alloc: Global) -> SureSink
        ensures { result ≡ [] }
    {
        SureSink {
            bytes: Vec::new(alloc),
        }
    }

    /// The bytes that it has taken.
    pub fn bytes(&self) -> &[u8]
        ensures { result.now ≡ self.now }
    {
        self.bytes.as_slice()
    }
}

impl Sink for SureSink {
    ghost taken = { λ sink. Some sink };

    ghost failures = { λ _. 0 };

    ghost takes_memory = { true };

    fn put(&mut self, bytes: &[u8]) -> Result<(), WriteRefusal> {
        match self.bytes.extend_from_slice(bytes) {
            Ok(()) => Ok(()),
            Err(_) => Err(WriteRefusal::NoMemory),
        }
    }
}
