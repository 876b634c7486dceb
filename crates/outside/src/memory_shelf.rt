//! Files in memory whose reads and writes fail at given calls.
ghost use Rattle.std.specs.Prelude.{◌≡◌, ◌↔◌, Some, Err, IsSome, IfOk};
ghost use Rattle.std.specs.Option.{option_copied};
ghost use Rattle.outside.specs.Causes.{HasReadCause, HasWriteCause};
ghost use Rattle.outside.specs.Memory.{WritesAsPlanned};
ghost use Rattle.outside.specs.Plan.{after_call, begun, next_failure};
ghost use Rattle.outside.specs.Shelf.{IsWithin, Tells, WritesFile};

use crate::failing::FailingCalls;
use crate::stored::StoredFiles;
use crate::{FailingCall, ReadRefusal, Shelf, WriteRefusal};
use std::alloc::{AllocError, Global};
use std::marker::Model;

/// Files in memory whose reads and writes fail at given calls.
#[derive(Drop)]
pub struct MemoryShelf {
    files: StoredFiles,
    calls: FailingCalls,
    failures: u64,
}

impl Model for MemoryShelf {
    ghost use Rattle.outside.specs.Memory.{ShelfInMemory, shelf_code};

    ghost Value = { ShelfInMemory };

    ghost coded = { shelf_code };

    ghost view = { λ a. record { files = a.files; plan = a.calls; failures = a.failures } };
}

impl MemoryShelf {
    ghost use Rattle.std.specs.FinMap as map;
    ghost use Rattle.outside.specs.Memory.{file_map_of};

    /// A shelf with these files, given as names and bytes, where of two with one name the last
    /// stays. The calls in `failing` fail.
    pub fn new(
        alloc: Global,
        files: &[(&str, &[u8])],
        failing: &[FailingCall],
    ) -> Result<MemoryShelf, AllocError>
        ensures { IfOk result (λ shelf. shelf ≡ record { files = file_map_of files.now; plan = begun failing.now; failures = 0 }) }
    {
        Ok(MemoryShelf {
            files: StoredFiles::with_files(alloc, files)?,
            calls: FailingCalls::new(alloc, failing)?,
            failures: 0,
        })
    }

    /// The bytes of a file, where there is one. This is no call that could fail.
    pub fn file(&self, name: &str) -> Option<&[u8]>
        ensures { option_copied result ≡ map.get self.now.files name.now }
    {
        self.files.get(name)
    }

    /// How many files there are.
    pub fn file_count(&self) -> usize
        ensures { result ≡ map.len self.now.files }
    {
        self.files.file_count()
    }

    /// How many reads and writes have been asked for.
    pub fn calls(&self) -> u64
        ensures { result ≡ self.now.plan.made }
    {
        self.calls.made()
    }

    /// How many of them have failed.
    pub fn failures(&self) -> u64
        ensures { result ≡ self.now.failures }
    {
        self.failures
    }
}

impl Shelf for MemoryShelf {
    ghost use Rattle.std.specs.FinMap as map;

    ghost files = { λ shelf. Some (map.get shelf.files) };

    ghost failures = { λ shelf. shelf.failures };

    fn read(&mut self, alloc: Global, name: &str, max: u64) -> Result<Vec<u8>, ReadRefusal>
        ensures told { Tells (map.get self.old.files name.now) max result }
        ensures within { IsWithin max result }
        ensures kept { self.new.files ≡ self.old.files }
        ensures cause { HasReadCause self.old.failures self.new.failures result }

        // It fails at the calls of the plan, and at no other.
        ensures planned { (result ≡ Err ReadRefusal.Failed) ↔ IsSome (next_failure self.old.plan) }
        ensures counted { self.new.plan ≡ after_call self.old.plan }
    {
        if self.calls.next_call().is_some() {
            self.failures = self.failures.saturating_add(1);
            return Err(ReadRefusal::Failed);
        }
        self.files.read(alloc, name, max)
    }

    fn write(&mut self, alloc: Global, name: &str, bytes: &[u8]) -> Result<(), WriteRefusal>
        ensures told { WritesFile (map.get self.old.files) (map.get self.new.files) name.now bytes.now result }
        ensures cause { HasWriteCause self.old.failures self.new.failures result }

        // It fails at the calls of the plan, and at no other, and leaves what the plan says.
        ensures planned { WritesAsPlanned (next_failure self.old.plan) self.old.files self.new.files name.now bytes.now result }
        ensures counted { self.new.plan ≡ after_call self.old.plan }
    {
        match self.calls.next_call() {
            Some(call) => {
                let part = &bytes[..call.kept.min(bytes.len())];
                if self.files.put(alloc, name, part).is_err() {
                    return Err(WriteRefusal::NoMemory);
                }
                self.failures = self.failures.saturating_add(1);
                Err(WriteRefusal::Failed)
            }
            None => match self.files.put(alloc, name, bytes) {
                Ok(()) => Ok(()),
                Err(_) => Err(WriteRefusal::NoMemory),
            },
        }
    }
}
