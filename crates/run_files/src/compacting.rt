//! Compaction of what a search found.
ghost use Rattle.std.specs.Prelude.{◌≡◌, ◌+◌, ◌≤◌, ◌^◌, IfOk, length, map};
ghost use Rattle.std.specs.List.{AllZip};
ghost use Rattle.word_sim.specs.Hits.{LastDetected};
ghost use Rattle.word_sim.specs.Never.{AreNever, unmarked};
ghost use Rattle.list_core.specs.Finished.{AreFinished};
ghost use Rattle.run_files.specs.inner.Verdicts.{is_redundant};

use fewer_patterns::ToldPatterns;
use list_core::{Finished, Verdict, compact};
use netlist::{Core, Fault, NoMemory};
use std::alloc::{AllocError, Global};
use word_sim::told_of_all;

fn is_redundant(verdict: &Verdict) -> bool
    ensures { result ≡ is_redundant verdict.now }
{
    matches!(verdict, Verdict::Redundant(_))
}

/// Marks the classes that are Redundant: nothing detects them.
pub(crate) fn redundant_marks(alloc: Global, verdicts: &[Verdict]) -> Result<Vec<bool>, AllocError>
    ensures { IfOk result (λ v. v.items ≡ map is_redundant verdicts.now) }
{
    let mut marks = Vec::with_capacity(alloc, verdicts.len())?;
    for verdict in verdicts {
        marks.push(is_redundant(verdict))?;
    }
    Ok(marks)
}

/// The patterns that are the last to detect one of these faults, and each verdict by them, where this is told of the faults that aren't redundant.
pub(crate) fn compact_told(
    alloc: Global,
    core: &Core,
    faults: &[Fault],
    redundant: &[bool],
    told: ToldPatterns,
    verdicts: Vec<Verdict>,
) -> Result<Finished, NoMemory>
    requires count { length verdicts.items ≡ length faults.now }
    requires redundant { AreNever core.now told.patterns.items faults.now redundant.now }
    requires told { AllZip (LastDetected core.now told.patterns.items) (unmarked redundant.now faults.now) told.last.items }
    requires few { length told.patterns.items + 64 ≤ 2 ^ 32 }
    ensures { IfOk result (λ f. AreFinished core.now faults.now told.patterns.items verdicts.items f.patterns.items f.verdicts.items) }
{
    let last = told_of_all(alloc, redundant, &told.last)?;
    compact(alloc, told.patterns, verdicts, &last)
}
