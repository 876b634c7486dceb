//! What the patterns detect that a run begins with.
ghost use Rattle.std.specs.Prelude.{◌≡◌, ◌+◌, ◌<◌, ◌≤◌, ◌^◌, IfOk, length};
ghost use Rattle.std.specs.List.{All};
ghost use Rattle.cubes.specs.Cubes.{IsPatternOf};
ghost use Rattle.run_files.specs.inner.Plans.{AreFaultsOf, MayRun};
ghost use Rattle.run_files.specs.inner.Searches.{AreDetectedMarks, AreMarksOf};

use crate::asked::RunPlan;
use crate::last::last_told;
use cubes::Pattern;
use evidence::Engine;
use netlist::{Fault, NoMemory, Point};
use outside::Gate;
use std::alloc::{AllocError, Global};
use std::thread::Threads;
use worker::Errand;

/// Marks the faults of which something is told.
fn told_marks(alloc: Global, told: &[Option<(u32, Point)>]) -> Result<Vec<bool>, AllocError>
    ensures { IfOk result (λ v. AreMarksOf told.now v.items) }
{
    let mut marks = Vec::with_capacity(alloc, told.len())?;
    for one in told {
        marks.push(one.is_some())?;
    }
    Ok(marks)
}

/// Marks the faults that some pattern detects. Where there are no patterns nothing is simulated.
#[tactic(auto, using(crate::proofs::FoundLemmas::told_detected))]
pub(crate) fn detected_marks<E: Engine, G: Gate, R: Threads + Sync>(
    errand: &Errand<'_, E, G, R>,
    plan: RunPlan,
    faults: &[Fault],
    patterns: &[Pattern],
) -> Result<Vec<bool>, NoMemory>
    requires ready { MayRun errand.now.core.now errand.now.holds.now plan }
    requires faults { AreFaultsOf errand.now.core.now faults.now }
    requires obey { All (IsPatternOf errand.now.core.now errand.now.holds.now) patterns.now }
    requires few { length patterns.now + 64 ≤ 2 ^ 32 }
    ensures { IfOk result (λ v. AreDetectedMarks errand.now.core.now patterns.now faults.now v.items) }
{
    if patterns.is_empty() {
        return Ok(vec![in errand.alloc; false; faults.len()]?);
    }
    let told = last_told(errand, plan, faults, patterns)?;
    Ok(told_marks(errand.alloc, &told)?)
}
