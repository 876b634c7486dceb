//! A design's cells in chains.
ghost use Rattle.std.specs.Prelude.{◌≡◌, ◌≤◌, IfOk};
ghost use Rattle.good_files.specs.ScanOff.{design_chains};

use netlist::{Netlist, NoMemory};
use scan_insert::{Chains, stitch};
use std::alloc::Global;

/// The cells of a design in at most so many chains.
pub(crate) fn stitched(alloc: Global, netlist: &Netlist, asked: u32) -> Result<Chains, NoMemory>
    requires { 1 ≤ asked }
    ensures { IfOk result (λ chains. chains ≡ design_chains netlist.now asked) }
{
    netlist.sound();
    stitch(alloc, netlist.cells(), asked)
}
