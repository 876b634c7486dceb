//! The patterns of which a file is the test, if it is that of some.
ghost use Rattle.std.specs.Prelude.{◌≡◌, ◌+◌, ◌^◌, ◌≤◌, IfOk, IfSome, length};
ghost use Rattle.std.specs.List.{All};
ghost use Rattle.netlist.specs.Designs.{IsDesign};
ghost use Rattle.netlist.specs.Holds.{AreHoldsOf};
ghost use Rattle.scan_insert.specs.Scanned.{AreChainsOf};
ghost use Rattle.statement.specs.Tests.{vectors_in};
ghost use Rattle.grade.specs.inner.ByPatterns.{AreTestCycles};

use cubes::Pattern;
use netlist::{Core, Holds, NoMemory};
use scan_insert::Chains;
use std::alloc::Global;
use stil_patterns::laws::file_vectors;
use stil_patterns::patterns_of;
use stil_write::StilFile;

/// As many as the simulator takes.
const MOST_PATTERNS: usize = (1 << 32) - 64;

/// The inputs that a file holds at 1 while the chains shift; those at 0 may be held or not.
fn holds_of(alloc: Global, core: &Core, file: &StilFile) -> Result<Holds, NoMemory>
    ensures { IfOk result (λ holds. AreHoldsOf core.now holds) }
{
    let netlist = core.netlist();
    netlist.sound();
    let word = file.shift_word();
    let count = netlist.inputs().len();
    let mut holds = Holds::none(alloc, core)?;
    for k in 0..count.min(word.len()) {
        if word[k] == b'1' {
            holds.set(k as u32, true);
        }
    }
    Ok(holds)
}

/// The patterns whose vectors a file has, if it is the file of some, and those aren't too many.
pub(crate) fn test_patterns(
    alloc: Global,
    core: &Core,
    chains: &Chains,
    file: &StilFile,
) -> Result<Option<Vec<Pattern>>, NoMemory>
    requires design { IsDesign core.now }
    requires chains { AreChainsOf core.now chains.now }
    ensures { IfOk result (λ found. IfSome found (λ patterns. AreTestCycles core.now chains.now (vectors_in file.now) patterns.items)) }
{
    file_vectors();
    let holds = holds_of(alloc, core, file)?;
    let Some(patterns) = patterns_of(alloc, core, chains, file, &holds)? else {
        return Ok(None);
    };
    if patterns.len() > MOST_PATTERNS {
        return Ok(None);
    }
    Ok(Some(patterns))
}
