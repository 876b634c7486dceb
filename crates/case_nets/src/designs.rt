//! Netlists of texts.
ghost use Rattle.std.specs.Prelude.{IfOk};
ghost use Rattle.netlist.specs.Designs.{IsDesign};

use bench_text::{BenchFault, Names, read};
use netlist::{Core, Netlist};
use std::alloc::Global;

/// No text of a row has more bytes.
const LONGEST: usize = 1_000_000_000;

/// The design of a text.
fn design(alloc: Global, text: &[u8]) -> Result<Netlist, BenchFault>
    ensures { IfOk result IsDesign }
{
    if text.len() > LONGEST {
        return Err(BenchFault::NoMemory);
    }
    read(alloc, text, Names::Design)
}

/// The same in an order of evaluation.
pub fn design_core(alloc: Global, text: &[u8]) -> Result<Core, BenchFault>
    ensures { IfOk result IsDesign }
{
    match Core::of(alloc, design(alloc, text)?) {
        Ok(core) => Ok(core),
        Err(_) => Err(BenchFault::NoMemory),
    }
}

/// The netlist of a text with any names.
pub fn scanned(alloc: Global, text: &[u8]) -> Result<Netlist, BenchFault> {
    if text.len() > LONGEST {
        return Err(BenchFault::NoMemory);
    }
    read(alloc, text, Names::Scanned)
}

/// The same in an order of evaluation.
pub fn scanned_core(alloc: Global, text: &[u8]) -> Result<Core, BenchFault> {
    match Core::of(alloc, scanned(alloc, text)?) {
        Ok(core) => Ok(core),
        Err(_) => Err(BenchFault::NoMemory),
    }
}
