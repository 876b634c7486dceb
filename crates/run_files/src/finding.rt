//! Patterns and verdicts of some faults, by workers.
ghost use Rattle.std.specs.Prelude.{◌≡◌, ◌+◌, ◌<◌, ◌≤◌, IfOk, length};
ghost use Rattle.std.specs.Option.{option_copied};
ghost use Rattle.plain_text.specs.Limits.{most_workers};
ghost use Rattle.fault_universe.specs.Laws.{most_design_faults};
ghost use Rattle.list_core.specs.Subjects.{class_count};
ghost use Rattle.worker.specs.Working.{IsDone, MaySearch};
ghost use Rattle.run_files.specs.inner.Plans.{AreFaultsOf, MayRun};
ghost use Rattle.run_files.specs.inner.Searches.{AreKnown};

use crate::asked::RunPlan;
use cubes::Pattern;
use evidence::Engine;
use list_core::{About, FaultList, Goal, Verdict};
use netlist::{Fault, NoMemory};
use outside::{Gate, Stage};
use std::marker::Brand;
use std::sync::Wait;
use std::thread::Threads;
use worker::{Errand, run_all};

/// What is passed once the workers have ended.
fn answered<J: About>(list: &FaultList<J>) -> Stage {
    let mut detected = 0u64;
    for class in 0..list.count() {
        let is_detected = matches!(list.verdict(class), Verdict::Detected(_, _));
        detected = detected.saturating_add(is_detected as u64);
    }
    Stage::Answered {
        count: list.count() as u64,
        detected,
    }
}

/// The search under a name for what the list is about.
fn search_named<J: About + Send + Sync, E: Engine + Sync, G: Gate + Sync, R: Threads + Wait + Sync>(
    errand: &Errand<'_, E, G, R>,
    plan: RunPlan,
    faults: &[Fault],
    goal: Option<&Goal>,
) -> Result<(Vec<Pattern>, Vec<Verdict>), NoMemory>
    requires subject { MaySearch J.subject errand.now.core.now errand.now.holds.now E.refutes }
    requires faults { faults.now ≡ J.subject.faults }
    requires few { class_count J.subject ≤ most_design_faults }
    requires limit { plan.limit ≡ J.subject.limit }
    requires workers { (0 < plan.workers) × (plan.workers ≤ most_workers) }
    ensures known { IfOk result (λ r. AreKnown errand.now.core.now errand.now.holds.now plan.limit E.refutes faults.now r.0.items r.1.items) }
    ensures done { IfOk result (λ r. IsDone (option_copied goal.entry) r.1.items) }
    ensures few { IfOk result (λ r. length r.0.items ≤ length faults.now + length faults.now) }
{
    errand.stage.at(
        0,
        Stage::Begun {
            count: faults.len() as u64,
        },
    );
    let list = FaultList::<J>::new(errand.alloc, errand.core, faults, plan.limit, errand.holds)?;
    let list = run_all(errand, list, plan.workers, plan.seed, goal)?;
    errand.stage.at(0, answered(&list));
    Ok(list.into_parts())
}

/// Patterns and verdicts for these faults, each a class of its own.
pub(crate) fn search_faults<E: Engine + Sync, G: Gate + Sync, R: Threads + Wait + Sync>(
    errand: &Errand<'_, E, G, R>,
    plan: RunPlan,
    faults: &[Fault],
    goal: Option<&Goal>,
) -> Result<(Vec<Pattern>, Vec<Verdict>), NoMemory>
    requires ready { MayRun errand.now.core.now errand.now.holds.now plan }
    requires faults { AreFaultsOf errand.now.core.now faults.now }
    ensures known { IfOk result (λ r. AreKnown errand.now.core.now errand.now.holds.now plan.limit E.refutes faults.now r.0.items r.1.items) }
    ensures done { IfOk result (λ r. IsDone (option_copied goal.entry) r.1.items) }
    ensures few { IfOk result (λ r. length r.0.items ≤ length faults.now + length faults.now) }
{
    search_named::<Brand, E, G, R>(errand, plan, faults, goal)
}
