//! The lines of faults, each part in one table.
ghost use Rattle.std.specs.Prelude.{◌≡◌, ◌<◌, ◌++◌, ◌∷◌, [], length, IfOk, slice_get, Some};

use netlist::NameTable;
use statement::Outcome;
use std::alloc::{AllocError, Global};
use std::marker::Model;

/// A line for each fault: its text, what came of it, and the name of the pin where it is detected (else empty).
#[derive(Drop)]
pub struct FaultLines {
    faults: NameTable,
    outcomes: Vec<Outcome>,
    pins: NameTable,
}

impl Model for FaultLines {
    ghost use Rattle.std.specs.Prelude.{◌≡◌, List, length};
    ghost use Rattle.statement.specs.Reports.{Line};
    ghost use Rattle.report.specs.inner.Tables.{lines_of};

    ghost Value = { List Line };

    ghost view = { λ l. lines_of l.faults l.outcomes.items l.pins };

    ghost invariant = { λ l. (length l.faults ≡ length l.outcomes.items) × (length l.pins ≡ length l.outcomes.items) };
}

/// A line as it stands in the tables: its fault and its pin are lent.
#[derive(Clone, Copy)]
pub struct FaultLine<'a> {
    pub fault: &'a [u8],
    pub outcome: Outcome,
    pub pin: &'a [u8],
}

impl FaultLines {
    /// No lines, and no memory yet.
    pub fn new(alloc: Global) -> FaultLines
        ensures { result ≡ [] }
    {
        FaultLines {
            faults: NameTable::new(alloc),
            outcomes: Vec::new(alloc),
            pins: NameTable::new(alloc),
        }
    }

    /// How many lines there are.
    pub fn len(&self) -> usize
        ensures { result ≡ length self.now }
    {
        self.outcomes.len()
    }

    /// The line at a place.
    pub fn get(&self, place: usize) -> FaultLine<'_>
        requires { place < length self.now }
        ensures { slice_get self.now place ≡ Some (record { fault = result.fault.now; outcome = result.outcome; pin = result.pin.now }) }
    {
        FaultLine {
            fault: self.faults.get(place),
            outcome: self.outcomes[place],
            pin: self.pins.get(place),
        }
    }

    /// Adds a line behind the others.
    pub fn push(
        mut self,
        fault: &[u8],
        outcome: Outcome,
        pin: &[u8],
    ) -> Result<FaultLines, AllocError>
        ensures { IfOk result (λ lines. lines ≡ self ++ (record { fault = fault.now; outcome = outcome; pin = pin.now }) ∷ []) }
    {
        self.faults.push(fault)?;
        self.outcomes.push(outcome)?;
        self.pins.push(pin)?;
        Ok(self)
    }
}
