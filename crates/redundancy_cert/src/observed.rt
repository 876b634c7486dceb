//! The signals that are observed: those that an output or a cell's pin reads.
ghost use Rattle.std.specs.Prelude.{◌≡◌, length, IfOk};
ghost use Rattle.std.specs.List.{flat_map};
ghost use Rattle.statement.specs.Netlists.{Definition as Equation, cells, signals};
ghost use Rattle.redundancy_cert.specs.inner.Passing.{AreObserved, Marks};

use netlist::Core;
use std::alloc::{AllocError, Global};

/// Marks the signals that outputs read.
fn mark_outputs(core: &Core, marks: &mut Vec<bool>)
    requires { length marks.old.items ≡ length (signals core.now) }
    ensures { Marks core.now.outputs marks.old.items marks.new.items }
{
    core.netlist().sound();
    for x in core.netlist().outputs() {
        marks[x.index()] = true;
    }
}

/// Marks the signals that cells' pins read.
fn mark_pins(core: &Core, marks: &mut Vec<bool>)
    requires { length marks.old.items ≡ length (signals core.now) }
    ensures { Marks (flat_map (λ (d : Equation). d.pins) (cells core.now)) marks.old.items marks.new.items }
{
    core.netlist().sound();
    for cell in core.netlist().cells() {
        let pin = core.netlist().definition(*cell).pins()[0];
        marks[pin.index()] = true;
    }
}

/// A mark for each signal that is observed.
pub(crate) fn observed_marks(alloc: Global, core: &Core) -> Result<Vec<bool>, AllocError>
    ensures { IfOk result (λ v. AreObserved core.now v.items) }
{
    let count = core.netlist().inputs().len() + core.netlist().definitions().len();
    let mut marks = vec![in alloc; false; count]?;
    mark_outputs(core, &mut marks);
    mark_pins(core, &mut marks);
    Ok(marks)
}
