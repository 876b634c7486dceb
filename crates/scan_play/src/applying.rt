//! The vectors of patterns.
ghost use Rattle.std.specs.Prelude.{◌≡◌, ◌++◌, ◌∷◌, [], ◌<◌, ◌^◌, not, map, length, replicate, false, None, IfOk, OnOk};
ghost use Rattle.std.specs.List.{All};
ghost use Rattle.netlist.specs.Conditions.{IsSound};
ghost use Rattle.statement.specs.Netlists.{cells};
ghost use Rattle.netlist.specs.Holds.{AreHoldsOf};
ghost use Rattle.statement.specs.declared.kinds.Tri.TheVariants.{X};
ghost use Rattle.statement.specs.Values.{known};
ghost use Rattle.statement.specs.Tests.{cells_of, Response, Responds, flush};
ghost use Rattle.scan_insert.specs.Scanned.{AreChainsOf};
ghost use Rattle.scan_play.specs.Shifts.{load};
ghost use Rattle.scan_play.specs.Vectors.{capture, AreVectors};
ghost use Rattle.scan_play.specs.Bursts.{cycles_of, all_cycles};
ghost use Rattle.cubes.specs.Cubes.{IsPatternOf};
ghost use Rattle.scan_play.specs.inner.Applied.{IsApplied, flushing, plain_cycle};

use crate::cycles::{Burst, Vectors, push_known, strobes_of};
use crate::flushing::{complement, flush, push_zeros};
use crate::loading::{load, no_strobes, zero_load};
use cubes::Pattern;
use netlist::{Bits, Core, Holds, Netlist, NoMemory, Tri};
use scan_insert::Chains;
use std::alloc::{AllocError, Global};

/// One cycle as a burst.
pub fn single(alloc: Global, drive: Vec<bool>, strobe: Vec<Tri>, pulse: bool) -> Burst
    ensures { cycles_of result ≡ record { drive = drive.items; strobe = strobe.items; pulse = pulse } ∷ [] }
{
    Burst {
        drive,
        strobe,
        pulse,
        width: 0,
        ins: Vec::new(alloc),
        outs: Vec::new(alloc),
        count: 1,
    }
}

/// A cycle with scan off, in which the functional inputs have these bits and the functional outputs these strobes.
pub fn plain(
    alloc: Global,
    chains: &Chains,
    inputs: &[bool],
    mut strobe: Vec<Tri>,
) -> Result<Burst, AllocError>
    ensures { IfOk result (λ b. cycles_of b ≡ plain_cycle chains.now inputs.now strobe.items ∷ []) }
{
    let mut drive = Vec::from_slice(alloc, inputs)?;
    let count = chains.count() as usize;
    if count == 0 {
        return Ok(single(alloc, drive, strobe, false));
    }
    drive.push(false)?;
    push_zeros(count, &mut drive)?;
    for _done in 0..count {
        strobe.push(Tri::X)?;
    }
    Ok(single(alloc, drive, strobe, true))
}

/// A capture, which strobes these outputs.
pub fn capture(
    alloc: Global,
    chains: &Chains,
    pattern: &Pattern,
    outputs: &[bool],
) -> Result<Burst, AllocError>
    ensures { IfOk result (λ b. (r : Response) → r.outputs ≡ outputs.now → cycles_of b ≡ capture chains.now pattern.now r ∷ []) }
{
    let strobe = strobes_of(alloc, outputs)?;
    let captured = plain(alloc, chains, pattern.inputs(), strobe)?;
    Ok(captured)
}

/// The fault-free response to a pattern.
pub fn respond(
    alloc: Global,
    core: &Core,
    pattern: &Pattern,
    outputs: &mut Vec<bool>,
    captured: &mut Vec<bool>,
) -> Result<(), AllocError>
    requires inputs { length pattern.now.inputs ≡ length core.now.inputs }
    requires state { length pattern.now.cells ≡ length (cells core.now) }
    ensures { OnOk result (Responds core.now None pattern.now (record { outputs = outputs.new.items; cells = captured.new.items })) }
{
    let rule = Bits { fault: None };
    let values = core.settle(alloc, &rule, pattern.inputs(), pattern.cells())?;
    core.outs_into(&rule, &values, outputs)?;
    core.next_into(&rule, &values, captured)?;
    Ok(())
}

/// Adds a pattern's load and its capture; what the cells then hold takes the place of what they held.
fn push_test(
    alloc: Global,
    core: &Core,
    chains: &Chains,
    pattern: &Pattern,
    held: &mut Vec<Tri>,
    bursts: &mut Vec<Burst>,
    holds: &Holds,
) -> Result<(), AllocError>
    requires holds { AreHoldsOf core.now holds.now }
    requires pattern { IsPatternOf core.now holds.now pattern.now }
    requires cells { length (cells core.now) ≡ length (cells_of chains.now) }
    requires few { length (cells core.now) < 2 ^ 32 }
    requires held { length held.old.items ≡ length (cells_of chains.now) }
    ensures { OnOk result (IsApplied core.now holds.now chains.now pattern.now held.old.items held.new.items bursts.old.items bursts.new.items) }
{
    let loaded = load(alloc, core.netlist(), chains, pattern.cells(), held, holds)?;
    bursts.push(loaded)?;
    let mut outputs = Vec::new(alloc);
    let mut cells = Vec::new(alloc);
    respond(alloc, core, pattern, &mut outputs, &mut cells)?;
    let captured = capture(alloc, chains, pattern, &outputs)?;
    bursts.push(captured)?;
    held.clear();
    push_known(&cells, held)?;
    Ok(())
}

/// The three loads that flush the chains.
pub fn flush_bursts(
    alloc: Global,
    netlist: &Netlist,
    chains: &Chains,
    cells: usize,
    holds: &Holds,
) -> Result<Vec<Burst>, AllocError>
    requires holds { AreHoldsOf netlist.now holds.now }
    requires all { cells ≡ length (cells_of chains.now) }
    requires few { cells < 2 ^ 32 }
    ensures { IfOk result (λ v. all_cycles v.items ≡ flushing netlist.now holds.now chains.now) }
{
    let first = flush(alloc, chains)?;
    let second = complement(alloc, &first)?;
    let idle = no_strobes(alloc, cells)?;
    let held_first = strobes_of(alloc, &first)?;
    let held_second = strobes_of(alloc, &second)?;
    let mut bursts = Vec::new(alloc);
    let one = load(alloc, netlist, chains, &first, &idle, holds)?;
    bursts.push(one)?;
    let two = load(alloc, netlist, chains, &second, &held_first, holds)?;
    bursts.push(two)?;
    let three = zero_load(alloc, netlist, chains, &held_second, holds)?;
    bursts.push(three)?;
    Ok(bursts)
}

/// How many cells the chains have: those of the netlist, and not many.
pub fn cell_count(core: &Core, chains: &Chains) -> usize
    requires { AreChainsOf core.now chains.now }
    ensures count { result ≡ length (cells_of chains.now) }
    ensures cells { length (cells core.now) ≡ length (cells_of chains.now) }
    ensures few { length (cells core.now) < 2 ^ 32 }
    ensures sound { IsSound core.now }
{
    core.netlist().sound();
    core.netlist().cells().len()
}

fn vector_bursts(
    alloc: Global,
    core: &Core,
    chains: &Chains,
    patterns: &[Pattern],
    holds: &Holds,
) -> Result<Vec<Burst>, AllocError>
    requires holds { AreHoldsOf core.now holds.now }
    requires chains { AreChainsOf core.now chains.now }
    requires patterns { All (IsPatternOf core.now holds.now) patterns.now }
    ensures { IfOk result (λ v. AreVectors core.now holds.now chains.now patterns.now (all_cycles v.items)) }
{
    let cells = cell_count(core, chains);
    let mut bursts = flush_bursts(alloc, core.netlist(), chains, cells, holds)?;
    let mut held = no_strobes(alloc, cells)?;
    for pattern in patterns {
        push_test(alloc, core, chains, pattern, &mut held, &mut bursts, holds)?;
    }
    let last = zero_load(alloc, core.netlist(), chains, &held, holds)?;
    bursts.push(last)?;
    Ok(bursts)
}

/// The vectors of patterns, with the strobes of the fault-free netlist. It is refused for want of memory alone.
pub fn vectors_of(
    alloc: Global,
    core: &Core,
    chains: &Chains,
    patterns: &[Pattern],
    holds: &Holds,
) -> Result<Vectors, NoMemory>
    requires holds { AreHoldsOf core.now holds.now }
    requires chains { AreChainsOf core.now chains.now }
    requires patterns { All (IsPatternOf core.now holds.now) patterns.now }
    ensures { IfOk result (λ v. AreVectors core.now holds.now chains.now patterns.now v) }
{
    let bursts = vector_bursts(alloc, core, chains, patterns, holds)?;
    Ok(Vectors::new(bursts))
}
