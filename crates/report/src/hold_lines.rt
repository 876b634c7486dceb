//! The lines of held inputs.
ghost use Rattle.std.specs.Prelude.{◌≡◌, ◌<◌, ◌++◌, ◌∷◌, [], length, IfOk, slice_get, Some};

use netlist::NameTable;
use std::alloc::{AllocError, Global};
use std::marker::Model;

/// The inputs that are held, each with its bit.
#[derive(Drop)]
pub struct HoldLines {
    names: NameTable,
    bits: Vec<bool>,
}

impl Model for HoldLines {
    ghost use Rattle.std.specs.Prelude.{◌≡◌, List, length};
    ghost use Rattle.report.specs.Reports.{Hold};
    ghost use Rattle.report.specs.inner.Tables.{holds_of};

    ghost Value = { List Hold };

    ghost view = { λ h. holds_of h.names h.bits.items };

    ghost invariant = { λ h. length h.names ≡ length h.bits.items };
}

/// A held input, by reference.
#[derive(Clone, Copy)]
pub struct HoldLine<'a> {
    pub name: &'a [u8],
    pub bit: bool,
}

impl HoldLines {
    /// No lines, and no memory yet.
    pub fn new(alloc: Global) -> HoldLines
        ensures { result ≡ [] }
    {
        HoldLines {
            names: NameTable::new(alloc),
            bits: Vec::new(alloc),
        }
    }

    /// How many lines there are.
    pub fn len(&self) -> usize
        ensures { result ≡ length self.now }
    {
        self.bits.len()
    }

    /// The line at a place.
    pub fn get(&self, place: usize) -> HoldLine<'_>
        requires { place < length self.now }
        ensures { slice_get self.now place ≡ Some (record { name = result.name.now; bit = result.bit }) }
    {
        HoldLine {
            name: self.names.get(place),
            bit: self.bits[place],
        }
    }

    /// Adds a line behind the others.
    pub fn push(mut self, name: &[u8], bit: bool) -> Result<HoldLines, AllocError>
        ensures { IfOk result (λ lines. lines ≡ self ++ (record { name = name.now; bit = bit }) ∷ []) }
    {
        self.names.push(name)?;
        self.bits.push(bit)?;
        Ok(self)
    }
}
