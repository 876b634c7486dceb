//! Where bytes go, one after another.
ghost use Rattle.std.specs.Prelude.{◌≡◌, ℕ, Bool, List, Option, Err, IsTrue};
ghost use Rattle.outside.specs.Causes.{HasWriteCause};
ghost use Rattle.outside.specs.Sink.{Puts};

use crate::WriteRefusal;

/// Where bytes go, one after another, as the standard output.
pub trait Sink {
    /// The bytes that it has taken, where the sink tells them.
    ghost taken: { Self → Option (List ℕ) };

    /// How many of its calls have failed. A count that has reached its type's last value stands.
    ghost failures: { Self → ℕ };

    /// Whether it keeps the bytes in memory, so that it may be refused some.
    ghost takes_memory: { Bool };

    /// Adds these bytes to those that it has taken.
    fn put(&mut self, bytes: &[u8]) -> Result<(), WriteRefusal>
        ensures told { Puts (taken self.old) (taken self.new) bytes.now result }
        ensures cause { HasWriteCause (failures self.old) (failures self.new) result }
        ensures memory { result ≡ Err WriteRefusal.NoMemory → IsTrue takes_memory };
}
