//! Chains of a design's cells.
ghost use Rattle.std.specs.Prelude.{◌<◌, IfOk};
ghost use Rattle.netlist.specs.Designs.{IsDesign};
ghost use Rattle.scan_insert.specs.Scanned.{AreChainsOf};

use netlist::Netlist;
use scan_insert::{Chains, stitch};
use std::alloc::{AllocError, Global};

/// The cells in so many chains.
pub fn chains_of(alloc: Global, netlist: &Netlist, asked: u32) -> Result<Chains, AllocError>
    requires some { 0 < asked }
    requires design { IsDesign netlist.now }
    ensures { IfOk result (AreChainsOf netlist.now) }
{
    netlist.sound();
    match stitch(alloc, netlist.cells(), asked) {
        Ok(chains) => Ok(chains),
        Err(_) => Err(AllocError),
    }
}
