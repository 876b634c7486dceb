//! Failures of a test, and the logs that tell them.
ghost use Rattle.std.specs.Prelude.{◌≡◌, ◌<◌, ◌++◌, ◌∷◌, [], length, IfOk, slice_get, Some};

use netlist::NameTable;
use std::alloc::{AllocError, Global};
use std::marker::Model;

/// What a tester saw fail, in the order in which it says so. A failure may stand there more than once.
#[derive(Drop)]
pub struct FailureLines {
    cycles: Vec<u64>,
    signals: NameTable,
}

impl Model for FailureLines {
    ghost use Rattle.std.specs.Prelude.{◌≡◌, List, length};
    ghost use Rattle.diagnose.specs.Failures.{Failing};
    ghost use Rattle.diagnose.specs.inner.Tables.{failures_of};

    ghost Value = { List Failing };

    ghost view = { λ l. failures_of l.cycles.items l.signals };

    ghost invariant = { λ l. length l.signals ≡ length l.cycles.items };
}

/// A log: what a tester saw fail, and, where its memory was full, the first cycle of whose strobes it knows nothing.
#[derive(Drop)]
pub struct FailLog {
    pub failures: FailureLines,
    pub end: Option<u64>,
}

/// A failure, by reference: the cycle, and the name of the pin.
#[derive(Clone, Copy)]
pub struct Failure<'a> {
    pub cycle: u64,
    pub signal: &'a [u8],
}

impl FailureLines {
    /// Nothing failed.
    pub fn new(alloc: Global) -> FailureLines
        ensures { result ≡ [] }
    {
        FailureLines {
            cycles: Vec::new(alloc),
            signals: NameTable::new(alloc),
        }
    }

    /// How many failures there are.
    pub fn len(&self) -> usize
        ensures { result ≡ length self.now }
    {
        self.cycles.len()
    }

    /// The failure at a place.
    pub fn get(&self, place: usize) -> Failure<'_>
        requires { place < length self.now }
        ensures { slice_get self.now place ≡ Some (record { cycle = result.cycle; signal = result.signal.now }) }
    {
        Failure {
            cycle: self.cycles[place],
            signal: self.signals.get(place),
        }
    }

    /// Adds a failure behind the others.
    pub fn push(mut self, cycle: u64, signal: &[u8]) -> Result<FailureLines, AllocError>
        ensures { IfOk result (λ lines. lines ≡ self ++ (record { cycle = cycle; signal = signal.now }) ∷ []) }
    {
        self.cycles.push(cycle)?;
        self.signals.push(signal)?;
        Ok(self)
    }
}
