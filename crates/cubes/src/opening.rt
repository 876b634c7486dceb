//! The cube from which patterns are drawn before any fault is searched.

ghost use Rattle.std.specs.Prelude.{◌≡◌, IfOk, length, map};
ghost use Rattle.netlist.specs.Holds.{AreHoldsOf};
ghost use Rattle.tri.specs.Labels.{held_value};
ghost use Rattle.cubes.specs.Cubes.{open_cube};

use crate::patterns::Cube;
use netlist::{Core, Holds, Tri};
use std::alloc::{AllocError, Global};

/// Its bit, where an input is held.
fn value_of(bit: Option<bool>) -> Tri
    ensures { result ≡ held_value bit }
{
    match bit {
        Some(true) => Tri::One,
        Some(false) => Tri::Zero,
        None => Tri::X,
    }
}

/// A value for each input: an X where it isn't held.
fn values_of(alloc: Global, holds: &Holds, inputs: u32) -> Result<Vec<Tri>, AllocError>
    requires { length holds.now ≡ inputs }
    ensures { IfOk result (λ v. v.items ≡ map held_value holds.now) }
{
    let mut values = Vec::with_capacity(alloc, inputs as usize)?;
    for input in 0..inputs {
        values.push(value_of(holds.held(input)))?;
    }
    Ok(values)
}

/// The cube that leaves each bit open but those of held inputs.
pub fn open_cube(alloc: Global, core: &Core, holds: &Holds) -> Result<Cube, AllocError>
    requires { AreHoldsOf core.now holds.now }
    ensures { IfOk result (λ c. c ≡ open_cube core.now holds.now) }
{
    core.netlist().sound();
    let inputs = values_of(alloc, holds, core.netlist().inputs().len() as u32)?;
    let cells = vec![in alloc; Tri::X; core.netlist().cells().len()]?;
    Ok(Cube::new(inputs, cells))
}
