//! Files in memory.
ghost use Rattle.std.specs.Prelude.{◌≡◌, ◌≢◌, OnOk, OnErr, IfOk, Err};
ghost use Rattle.std.specs.Option.{option_copied};
ghost use Rattle.outside.specs.Shelf.{GainsFile, IsWithin, Tells};

use crate::ReadRefusal;
use indexmap::IndexMap;
use std::alloc::{AllocError, Global};
use std::marker::Model;

/// Files in memory, seen as a map from names to bytes.
#[derive(Drop)]
pub(crate) struct StoredFiles {
    files: IndexMap<String, Vec<u8>>,
}

impl Model for StoredFiles {
    ghost use Rattle.outside.specs.FileMap.{FileMap, file_map_code, file_map};

    ghost Value = { FileMap };

    ghost coded = { file_map_code };

    ghost view = { λ a. file_map a.files.entries };
}

impl StoredFiles {
    ghost use Rattle.std.specs.FinMap as map;
    ghost use Rattle.outside.specs.Memory.{file_map_of};

    pub(crate) fn new(alloc: Global) -> StoredFiles
        ensures { result ≡ map.empty }
    {
        StoredFiles {
            files: IndexMap::new(alloc),
        }
    }

    /// The files of these names and bytes. Of two with one name the last stays.
    pub(crate) fn with_files(
        alloc: Global,
        files: &[(&str, &[u8])],
    ) -> Result<StoredFiles, AllocError>
        ensures { IfOk result (λ stored. stored ≡ file_map_of files.now) }
    {
        let mut stored = StoredFiles::new(alloc);
        for &(name, bytes) in files {
            stored.put(alloc, name, bytes)?;
        }
        Ok(stored)
    }

    pub(crate) fn file_count(&self) -> usize
        ensures { result ≡ map.len self.now }
    {
        self.files.len()
    }

    pub(crate) fn get(&self, name: &str) -> Option<&[u8]>
        ensures { option_copied result ≡ map.get self.now name.now }
    {
        match self.files.get(name) {
            Some(bytes) => Some(bytes.as_slice()),
            None => None,
        }
    }

    pub(crate) fn put(&mut self, alloc: Global, name: &str, bytes: &[u8]) -> Result<(), AllocError>
        ensures ok { OnOk result (self.new ≡ map.insert self.old name.now bytes.now) }
        ensures holds { OnOk result (GainsFile (map.get self.old) name.now bytes.now (map.get self.new)) }
        ensures err { OnErr result (self.new ≡ self.old) }
    {
        let name = String::from_str(alloc, name)?;
        let bytes = Vec::from_slice(alloc, bytes)?;
        self.files.insert(name, bytes)?;
        Ok(())
    }

    /// A read as of a shelf, which never fails.
    pub(crate) fn read(&self, alloc: Global, name: &str, max: u64) -> Result<Vec<u8>, ReadRefusal>
        ensures told { Tells (map.get self.now name.now) max result }
        ensures within { IsWithin max result }
        ensures unfailed { result ≢ Err ReadRefusal.Failed }
    {
        let Some(bytes) = self.get(name) else {
            return Err(ReadRefusal::Missing);
        };
        if bytes.len() as u64 > max {
            return Err(ReadRefusal::TooLong(max + 1));
        }
        match Vec::from_slice(alloc, bytes) {
            Ok(copy) => Ok(copy),
            Err(_) => Err(ReadRefusal::NoMemory),
        }
    }
}
