//! Files by their names.
ghost use Rattle.std.specs.Prelude.{◌≡◌, ℕ, Option};
ghost use Rattle.outside.specs.Causes.{HasReadCause, HasWriteCause};
ghost use Rattle.outside.specs.Shelf.{Files, IsWithin, Tells, Writes};
ghost use Rattle.outside.specs.Told.{OnTold};

use crate::{ReadRefusal, WriteRefusal};
use std::alloc::Global;

/// Files by their names.
///
/// The bytes are told or not: where they are, a read answers by them and a write changes them.
pub trait Shelf {
    /// The files, where the shelf tells them.
    ghost files: { Self → Option Files };

    /// How many of its calls have failed. A count that has reached its type's last value stands.
    ghost failures: { Self → ℕ };

    /// The bytes of a file that has at most `max` of them.
    fn read(&mut self, alloc: Global, name: &str, max: u64) -> Result<Vec<u8>, ReadRefusal>
        ensures told { OnTold (files self.old) (λ old. Tells (old name.now) max result) }
        ensures within { IsWithin max result }
        ensures kept { files self.new ≡ files self.old }
        ensures cause { HasReadCause (failures self.old) (failures self.new) result };

    /// Puts these bytes in place of the file of that name, or makes one.
    fn write(&mut self, alloc: Global, name: &str, bytes: &[u8]) -> Result<(), WriteRefusal>
        ensures told { Writes (files self.old) (files self.new) name.now bytes.now result }
        ensures cause { HasWriteCause (failures self.old) (failures self.new) result };
}
