//! Classes of a design's faults.
ghost use Rattle.std.specs.Prelude.{IfOk};
ghost use Rattle.std.specs.List.{All};
ghost use Rattle.netlist.specs.Designs.{IsDesign};
ghost use Rattle.netlist.specs.Lines.{IsLineOf};
ghost use Rattle.statement.specs.declared.lines.Fault.{Fault as FaultOf};
ghost use Rattle.fault_collapse.specs.Classes.{AreClasses};

use fault_collapse::{Classes, collapse};
use fault_universe::{faults_have_lines, few_faults, universe};
use netlist::{Netlist, NoMemory};
use std::alloc::Global;

/// The classes of a netlist's faults.
pub fn classes_of(alloc: Global, netlist: &Netlist) -> Result<Classes, NoMemory>
    requires { IsDesign netlist.now }
    ensures { IfOk result (AreClasses netlist.now) }
{
    netlist.sound();
    few_faults();
    let faults = universe(alloc, netlist)?;
    collapse(alloc, netlist, &faults)
}

/// Each representative stands on a line of the netlist.
pub fn have_lines(netlist: &Netlist, classes: &Classes)
    requires { AreClasses netlist.now classes.now }
    ensures { All (λ (f : FaultOf). IsLineOf netlist.now f.line) classes.now.representatives }
{
    let _ = classes;
    netlist.sound();
    faults_have_lines();
}
