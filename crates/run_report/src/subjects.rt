//! What a report speaks of: the faults of a netlist, and their classes.
ghost use Rattle.std.specs.Prelude.{IfOk};
ghost use Rattle.netlist.specs.Designs.{IsDesign};
ghost use Rattle.run_report.specs.Subjects.{IsSubjectOf};

use fault_collapse::{Classes, collapse};
use fault_universe::{FaultSet, few_faults, universe};
use netlist::{Netlist, NoMemory};
use std::alloc::Global;

/// The faults of a netlist, and their classes.
#[derive(Drop)]
pub struct Subject {
    pub faults: FaultSet,
    pub classes: Classes,
}

/// All faults of a netlist, in order, and their classes.
pub fn subject_of(alloc: Global, netlist: &Netlist) -> Result<Subject, NoMemory>
    requires { IsDesign netlist.now }
    ensures { IfOk result (IsSubjectOf netlist.now) }
{
    netlist.sound();
    few_faults();
    let faults = universe(alloc, netlist)?;
    let classes = collapse(alloc, netlist, &faults)?;
    Ok(Subject { faults, classes })
}
