//! The file of patterns.
ghost use Rattle.std.specs.Prelude.{◌≡◌, IfOk};
ghost use Rattle.std.specs.List.{All};
ghost use Rattle.netlist.specs.Designs.{IsDesign};
ghost use Rattle.netlist.specs.Holds.{AreHoldsOf};
ghost use Rattle.cubes.specs.Cubes.{IsPatternOf};
ghost use Rattle.scan_insert.specs.Scanned.{AreChainsOf};
ghost use Rattle.stil_write.specs.Parts.{file_of};
ghost use Rattle.statement.specs.Tests.{file_with, IsFileOf};

use crate::applying::items_of;
use crate::names::{chain_names, input_names, output_names, shift_word};
use cubes::Pattern;
use netlist::{Core, Holds, NoMemory};
use scan_insert::Chains;
use std::alloc::Global;
use stil_write::{Items, StilFile, StilParts};

/// The parts of a file of these items.
pub fn parts_with(
    alloc: Global,
    core: &Core,
    chains: &Chains,
    holds: &Holds,
    items: Items,
) -> Result<StilParts, NoMemory>
    requires holds { AreHoldsOf core.now holds.now }
    requires chains { AreChainsOf core.now chains.now }
    ensures { IfOk result (λ parts. file_of parts ≡ file_with core.now holds.now chains.now items) }
{
    let netlist = core.netlist();
    netlist.sound();
    let count = chains.count() as usize;
    let inputs = netlist.inputs().len();
    let po = output_names(alloc, netlist)?;
    let pi = match input_names(alloc, netlist, count) {
        Ok(pi) => pi,
        Err(_) => return Err(NoMemory),
    };
    let names = match chain_names(alloc, netlist, chains) {
        Ok(names) => names,
        Err(_) => return Err(NoMemory),
    };
    let word = match shift_word(alloc, inputs, holds, chains) {
        Ok(word) => word,
        Err(_) => return Err(NoMemory),
    };
    Ok(StilParts {
        pi,
        po,
        chains: names,
        shift_word: word,
        items,
    })
}

/// The parts of the patterns' file.
fn parts_of(
    alloc: Global,
    core: &Core,
    chains: &Chains,
    patterns: &[Pattern],
    holds: &Holds,
) -> Result<StilParts, NoMemory>
    requires holds { AreHoldsOf core.now holds.now }
    requires chains { AreChainsOf core.now chains.now }
    requires patterns { All (IsPatternOf core.now holds.now) patterns.now }
    ensures { IfOk result (λ parts. IsFileOf core.now holds.now chains.now patterns.now (file_of parts)) }
{
    let Ok(items) = items_of(alloc, core, chains, patterns, holds) else {
        return Err(NoMemory);
    };
    let parts = parts_with(alloc, core, chains, holds, items)?;
    Ok(parts)
}

/// The file of patterns, which strobes the responses of the fault-free netlist. It is refused for want of memory alone.
pub fn stil_of(
    alloc: Global,
    core: &Core,
    chains: &Chains,
    patterns: &[Pattern],
    holds: &Holds,
) -> Result<StilFile, NoMemory>
    requires design { IsDesign core.now }
    requires holds { AreHoldsOf core.now holds.now }
    requires chains { AreChainsOf core.now chains.now }
    requires patterns { All (IsPatternOf core.now holds.now) patterns.now }
    ensures { IfOk result (λ f. IsFileOf core.now holds.now chains.now patterns.now f) }
{
    core.netlist().sound();
    let parts = parts_of(alloc, core, chains, patterns, holds)?;
    Ok(StilFile::new(parts))
}
