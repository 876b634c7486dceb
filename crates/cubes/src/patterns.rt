//! Patterns and cubes.
ghost use Rattle.std.specs.Prelude.{◌≡◌, ◌↔◌, IsTrue, IfOk, length};
ghost use Rattle.cubes.specs.inner.Joining.{are_opposed, IsJoined};

use netlist::Tri;
use std::alloc::{AllocError, Global};
use std::marker::Model;

/// A bit for each input and for each cell, in their orders.
#[derive(Drop)]
pub struct Pattern {
    inputs: Vec<bool>,
    cells: Vec<bool>,
}

impl Model for Pattern {
    ghost use Rattle.statement.specs.Patterns.{Pattern};

    ghost Value = { Pattern };

    ghost view = { λ p. record { inputs = p.inputs.items; cells = p.cells.items } };
}

impl Pattern {
    pub fn new(inputs: Vec<bool>, cells: Vec<bool>) -> Pattern
        ensures { result ≡ record { inputs = inputs.items; cells = cells.items } }
    {
        Pattern { inputs, cells }
    }

    pub fn inputs(&self) -> &[bool]
        ensures { result.now ≡ self.now.inputs }
    {
        &self.inputs
    }

    pub fn cells(&self) -> &[bool]
        ensures { result.now ≡ self.now.cells }
    {
        &self.cells
    }
}

/// A pattern some of whose bits are left open: a value for each input and for each cell, in their orders.
#[derive(Drop)]
pub struct Cube {
    inputs: Vec<Tri>,
    cells: Vec<Tri>,
}

impl Model for Cube {
    ghost use Rattle.cubes.specs.Cubes.{Cube};

    ghost Value = { Cube };

    ghost view = { λ c. record { inputs = c.inputs.items; cells = c.cells.items } };
}

impl Cube {
    ghost use Rattle.cubes.specs.Cubes.{Contradicts, HaveSameWidths};
    ghost use Rattle.cubes.specs.inner.Joining.{IsJoinedCube};

    pub fn new(inputs: Vec<Tri>, cells: Vec<Tri>) -> Cube
        ensures { result ≡ record { inputs = inputs.items; cells = cells.items } }
    {
        Cube { inputs, cells }
    }

    pub fn inputs(&self) -> &[Tri]
        ensures { result.now ≡ self.now.inputs }
    {
        &self.inputs
    }

    pub fn cells(&self) -> &[Tri]
        ensures { result.now ≡ self.now.cells }
    {
        &self.cells
    }

    pub fn copy(&self, alloc: Global) -> Result<Cube, AllocError>
        ensures { IfOk result (λ c. c ≡ self.now) }
    {
        Ok(Cube {
            inputs: Vec::from_slice(alloc, &self.inputs)?,
            cells: Vec::from_slice(alloc, &self.cells)?,
        })
    }

    /// Whether somewhere one has a bit where the other has the other bit.
    pub fn contradicts(&self, other: &Cube) -> bool
        requires { HaveSameWidths self.now other.now }
        ensures { IsTrue result ↔ Contradicts self.now other.now }
    {
        are_opposed(&self.inputs, &other.inputs) || are_opposed(&self.cells, &other.cells)
    }

    /// Takes the bits of the other where it has none.
    pub(crate) fn join(&mut self, other: &Cube)
        requires { HaveSameWidths self.old other.now }
        ensures { IsJoinedCube self.old other.now self.new }
    {
        join_values(&mut self.inputs, &other.inputs);
        join_values(&mut self.cells, &other.cells);
    }
}

/// Whether somewhere one has a bit where the other has the other bit.
fn are_opposed(values: &[Tri], others: &[Tri]) -> bool
    ensures { result ≡ are_opposed values.now others.now }
{
    values.iter().zip(others).any(|(v, w)| {
        matches!(v, Tri::Zero) && matches!(w, Tri::One)
            || matches!(v, Tri::One) && matches!(w, Tri::Zero)
    })
}

/// Each X takes the other's value.
fn join_values(values: &mut Vec<Tri>, others: &[Tri])
    requires { length values.old.items ≡ length others.now }
    ensures { IsJoined values.old.items others.now values.new.items }
{
    for k in 0..values.len() {
        if matches!(values[k], Tri::X) {
            values[k] = others[k];
        }
    }
}
