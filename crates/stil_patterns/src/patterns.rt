//! The patterns of a file.
ghost use Rattle.std.specs.Prelude.{◌≡◌, IfOk, List, MatchBool, MatchOption};
ghost use Rattle.cubes.specs.Cubes.{IsPatternOf};
ghost use Rattle.statement.specs.Patterns.{Pattern as Test};
ghost use Rattle.std.specs.List.{All};
ghost use Rattle.netlist.specs.Designs.{IsDesign};
ghost use Rattle.netlist.specs.Holds.{AreHoldsOf};
ghost use Rattle.scan_insert.specs.Scanned.{AreChainsOf};
ghost use Rattle.statement.specs.Tests.{IsFileOf};

use crate::pattern_files::stil_of;
use crate::reading::applied_patterns;
use cubes::Pattern;
use netlist::{Core, Holds, NoMemory};
use scan_insert::Chains;
use std::alloc::{AllocError, Global};
use stil_read::laws::{at_most_one, written_stands};
use stil_write::{StilFile, write_stil};

/// Whether two files are the same, as they are where their texts are.
pub fn are_same(alloc: Global, file: &StilFile, other: &StilFile) -> Result<bool, AllocError>
    ensures { IfOk result (λ yes. MatchBool yes (file.now ≡ other.now) (file.now ≡ other.now → ⊥)) }
{
    file.sound();
    other.sound();
    written_stands();
    at_most_one();
    let text = write_stil(alloc, file)?;
    let other_text = write_stil(alloc, other)?;
    Ok(text.as_slice() == other_text.as_slice())
}

/// The patterns that obey the held inputs and of which this is the file; None where it is that of no such patterns.
pub fn patterns_of(
    alloc: Global,
    core: &Core,
    chains: &Chains,
    file: &StilFile,
    holds: &Holds,
) -> Result<Option<Vec<Pattern>>, NoMemory>
    requires design { IsDesign core.now }
    requires holds { AreHoldsOf core.now holds.now }
    requires chains { AreChainsOf core.now chains.now }
    ensures { IfOk result (λ found. MatchOption found
        ((patterns : List Test) → All (IsPatternOf core.now holds.now) patterns → ¬ IsFileOf core.now holds.now chains.now patterns file.now)
        (λ patterns. All (IsPatternOf core.now holds.now) patterns.items × IsFileOf core.now holds.now chains.now patterns.items file.now)) }
{
    let netlist = core.netlist();
    netlist.sound();
    let patterns = applied_patterns(alloc, netlist, chains, holds, file)?;
    let own = stil_of(alloc, core, chains, &patterns, holds)?;
    let same = are_same(alloc, &own, file);
    drop(own);
    match same {
        Ok(true) => Ok(Some(patterns)),
        Ok(false) => Ok(None),
        Err(_) => Err(NoMemory),
    }
}
