//! The patterns of a file by launch on capture.
ghost use Rattle.std.specs.Prelude.{◌≡◌, ◌++◌, ◌∷◌, [], cond, List, IfOk, MatchOption, OnOk};
ghost use Rattle.std.specs.List.{All};
ghost use Rattle.netlist.specs.Designs.{IsDesign};
ghost use Rattle.netlist.specs.Holds.{AreHoldsOf};
ghost use Rattle.cubes.specs.Cubes.{IsPatternOf};
ghost use Rattle.statement.specs.Patterns.{Pattern as Test};
ghost use Rattle.scan_insert.specs.Scanned.{AreChainsOf};
ghost use Rattle.transition_files.specs.LaunchFiles.{IsLaunchFileOf};
ghost use Rattle.transition_files.specs.inner.Reading.{launched_in, every_second};

use crate::launch_files::stil2_of;
use cubes::Pattern;
use netlist::{Core, Holds, NoMemory};
use scan_insert::Chains;
use std::alloc::{AllocError, Global};
use stil_patterns::{applied_patterns, are_same};
use stil_write::StilFile;

/// Adds a pattern where it is to be kept.
fn push_if(kept: &mut Vec<Pattern>, is_kept: bool, pattern: Pattern) -> Result<(), AllocError>
    ensures { OnOk result (kept.new.items ≡ kept.old.items ++ cond is_kept (pattern ∷ []) []) }
{
    if is_kept {
        kept.push(pattern)?;
    }
    Ok(())
}

/// Every second pattern, from the first on.
fn every_second(alloc: Global, patterns: Vec<Pattern>) -> Result<Vec<Pattern>, AllocError>
    ensures { IfOk result (λ kept. kept.items ≡ every_second patterns.items) }
{
    let mut kept = Vec::new(alloc);
    let mut is_launch = true;
    for pattern in patterns {
        push_if(&mut kept, is_launch, pattern)?;
        is_launch = !is_launch;
    }
    Ok(kept)
}

/// The patterns that a file launches and that obey the held inputs: those that it applies, each load with the launch behind it. Without chains nothing
/// is loaded, and each launch has a capture behind it that would be one too.
fn launched_patterns(
    alloc: Global,
    core: &Core,
    chains: &Chains,
    file: &StilFile,
    holds: &Holds,
) -> Result<Vec<Pattern>, NoMemory>
    requires { AreHoldsOf core.now holds.now }
    ensures are { IfOk result (λ patterns. patterns.items ≡ launched_in core.now holds.now chains.now file.now) }
    ensures obey { IfOk result (λ patterns. All (IsPatternOf core.now holds.now) patterns.items) }
{
    let applied = applied_patterns(alloc, core.netlist(), chains, holds, file)?;
    if chains.count() > 0 {
        return Ok(applied);
    }
    let kept = every_second(alloc, applied)?;
    Ok(kept)
}

/// The patterns that obey the held inputs and of which this is the file by launch on capture; None where it is that of no such patterns.
pub fn launch_patterns_of(
    alloc: Global,
    core: &Core,
    chains: &Chains,
    file: &StilFile,
    holds: &Holds,
) -> Result<Option<Vec<Pattern>>, NoMemory>
    requires design { IsDesign core.now }
    requires holds { AreHoldsOf core.now holds.now }
    requires chains { AreChainsOf core.now chains.now }
    ensures { IfOk result (λ found. MatchOption found
        ((patterns : List Test) → All (IsPatternOf core.now holds.now) patterns → ¬ IsLaunchFileOf core.now holds.now chains.now patterns file.now)
        (λ patterns. All (IsPatternOf core.now holds.now) patterns.items × IsLaunchFileOf core.now holds.now chains.now patterns.items file.now)) }
{
    let netlist = core.netlist();
    netlist.sound();
    let patterns = launched_patterns(alloc, core, chains, file, holds)?;
    let own = stil2_of(alloc, core, chains, &patterns, holds)?;
    match are_same(alloc, &own, file) {
        Ok(true) => Ok(Some(patterns)),
        Ok(false) => Ok(None),
        Err(_) => Err(NoMemory),
    }
}
