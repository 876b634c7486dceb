//! The last patterns that detect faults.
ghost use Rattle.std.specs.Prelude.{◌+◌, ◌≤◌, ◌^◌, IfOk, length};
ghost use Rattle.std.specs.List.{All};
ghost use Rattle.statement.specs.declared.lines.Fault.{Fault as FaultOf};
ghost use Rattle.netlist.specs.Lines.{IsLineOf};
ghost use Rattle.word_sim.specs.Words.{HasWidthsOf};
ghost use Rattle.run_files.specs.inner.Often.{AreLastFew, AreLastTold};
ghost use Rattle.run_files.specs.inner.Plans.{AreFaultsOf, MayRun};

use crate::asked::RunPlan;
use cubes::Pattern;
use detections::{LastFew, last_few_of};
use evidence::Engine;
use list_core::kept;
use netlist::{Core, Fault, NoMemory, Point};
use outside::Gate;
use std::alloc::Global;
use std::thread::Threads;
use worker::{Errand, last_tells_beside};

/// For each fault the last pattern that detects it, by the workers of the plan.
pub(crate) fn last_told<E: Engine, G: Gate, R: Threads + Sync>(
    errand: &Errand<'_, E, G, R>,
    plan: RunPlan,
    faults: &[Fault],
    patterns: &[Pattern],
) -> Result<Vec<Option<(u32, Point)>>, NoMemory>
    requires ready { MayRun errand.now.core.now errand.now.holds.now plan }
    requires faults { AreFaultsOf errand.now.core.now faults.now }
    requires wide { All (HasWidthsOf errand.now.core.now) patterns.now }
    requires few { length patterns.now + 64 ≤ 2 ^ 32 }
    ensures { IfOk result (λ v. AreLastTold errand.now.core.now patterns.now faults.now v.items) }
{
    let told = last_tells_beside(
        errand.rt,
        errand.alloc,
        errand.core,
        faults,
        patterns,
        plan.workers,
    )?;
    Ok(told)
}

/// The patterns that are among the last so many to detect one of the faults.
pub(crate) fn last_few(
    alloc: Global,
    core: &Core,
    faults: &[Fault],
    patterns: Vec<Pattern>,
    times: u32,
) -> Result<Vec<Pattern>, NoMemory>
    requires wide { All (HasWidthsOf core.now) patterns.items }
    requires lines { All (λ (f : FaultOf). IsLineOf core.now f.line) faults.now }
    ensures few { IfOk result (λ v. AreLastFew core.now times faults.now patterns.items v.items) }
    ensures fewer { IfOk result (λ v. length v.items ≤ length patterns.items) }
    ensures wide { IfOk result (λ v. All (HasWidthsOf core.now) v.items) }
{
    let LastFew { needed, .. } = last_few_of(alloc, core, faults, &patterns, times)?;
    Ok(kept(alloc, patterns, &needed)?)
}
