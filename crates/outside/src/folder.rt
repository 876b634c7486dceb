//! The files of the folder in which the program runs.
ghost use Rattle.std.specs.Prelude.{◌≡◌, ◌≢◌, None, Err};
ghost use Rattle.outside.specs.Causes.{HasWriteCause};
ghost use Rattle.outside.specs.Shelf.{Writes};

use crate::stream::{read_up_to, write_whole};
use crate::{ReadRefusal, Shelf, WriteRefusal};
use std::alloc::Global;
use std::fs;
use std::io::ErrorKind;
use std::marker::Model;
use std::rt::Files;

/// The files of the folder in which the program runs, by their paths.
///
/// Nothing is told of their bytes, since others may change them.
#[derive(Drop)]
pub struct FolderShelf<'a, R: Files> {
    rt: &'a R,
    failures: u64,
}

impl<'a, R: Files> Model for FolderShelf<'a, R> {
    ghost use Rattle.std.specs.Prelude.{ℕ};

    ghost Value = { ℕ };

    ghost view = { λ a. a.failures };
}

impl<'a, R: Files> FolderShelf<'a, R> {
    /// A shelf that has not failed yet.
    pub fn new(rt: &'a R) -> FolderShelf<'a, R>
        ensures { result ≡ 0 }
    {
        FolderShelf { rt, failures: 0 }
    }

    /// How many reads and writes have failed.
    pub fn failures(&self) -> u64
        ensures { result ≡ self.now }
    {
        self.failures
    }
}

impl<R: Files> Shelf for FolderShelf<'_, R> {
    ghost files = { λ _. None };

    ghost failures = { λ shelf. shelf };

    fn read(&mut self, alloc: Global, name: &str, max: u64) -> Result<Vec<u8>, ReadRefusal> {
        let answer = match fs::open(self.rt, name) {
            Ok(mut file) => read_up_to(alloc, &mut file, max),
            Err(error) if error.kind() == ErrorKind::NotFound => Err(ReadRefusal::Missing),
            Err(_) => Err(ReadRefusal::Failed),
        };
        if let Err(ReadRefusal::Failed) = answer {
            self.failures = self.failures.saturating_add(1);
        }
        answer
    }

    fn write(&mut self, _alloc: Global, name: &str, bytes: &[u8]) -> Result<(), WriteRefusal>
        ensures told { Writes None None name.now bytes.now result }
        ensures cause { HasWriteCause self.old self.new result }

        // It takes no memory.
        ensures unrefused { result ≢ Err WriteRefusal.NoMemory }
    {
        let done = match fs::create(self.rt, name) {
            Ok(mut file) => write_whole(&mut file, bytes),
            Err(_) => false,
        };
        if done {
            return Ok(());
        }
        self.failures = self.failures.saturating_add(1);
        Err(WriteRefusal::Failed)
    }
}
