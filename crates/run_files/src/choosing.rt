//! Which of the patterns that were found are kept, and the verdicts by them.
ghost use Rattle.std.specs.Prelude.{◌≡◌, ◌+◌, ◌<◌, ◌≤◌, ◌^◌, IfOk, length};
ghost use Rattle.std.specs.List.{All};
ghost use Rattle.word_sim.specs.Words.{HasWidthsOf};
ghost use Rattle.run_files.specs.inner.Often.{AreChosen, AreFewTold};
ghost use Rattle.run_files.specs.inner.Plans.{AreFaultsOf, MayRun};
ghost use Rattle.run_files.specs.inner.Searches.{AreKnown};

use crate::asked::RunPlan;
use crate::compacting::{compact_told, redundant_marks};
use crate::last::{last_few, last_told};
use crate::repeating::repeated;
use crate::telling::tell;
use cubes::Pattern;
use evidence::{Engine, shown_is_redundant};
use fewer_patterns::{Rounds, fewer};
use list_core::{Finished, Verdict};
use netlist::{Fault, NoMemory};
use outside::Gate;
use std::sync::Wait;
use std::thread::Threads;
use word_sim::unmarked;
use worker::Errand;

/// Fewer patterns that detect as much, of which each is the last to detect some fault. Redundant ones are left out, since nothing detects them.
fn chosen_once<E: Engine, G: Gate, R: Threads + Sync>(
    errand: &Errand<'_, E, G, R>,
    plan: RunPlan,
    faults: &[Fault],
    found: Finished,
) -> Result<Finished, NoMemory>
    requires ready { MayRun errand.now.core.now errand.now.holds.now plan }
    requires faults { AreFaultsOf errand.now.core.now faults.now }
    requires small { length found.patterns.items + 64 ≤ 2 ^ 32 }
    requires known { AreKnown errand.now.core.now errand.now.holds.now plan.limit E.refutes faults.now found.patterns.items found.verdicts.items }
    ensures { IfOk result (λ f. AreChosen errand.now.core.now errand.now.holds.now 1 faults.now found.patterns.items found.verdicts.items f.patterns.items f.verdicts.items) }
{
    let alloc = errand.alloc;
    let core = errand.core;
    core.netlist().sound();
    shown_is_redundant();
    let rounds = Rounds {
        count: plan.rounds,
        workers: plan.workers,
        seed: plan.seed,
    };
    let Finished { patterns, verdicts } = found;
    let redundant = redundant_marks(alloc, &verdicts)?;
    let left = unmarked(alloc, faults, &redundant)?;
    let told = fewer(
        errand.rt,
        alloc,
        core,
        errand.holds,
        &left,
        patterns,
        rounds,
    )?;
    compact_told(alloc, core, faults, &redundant, told, verdicts)
}

/// The patterns that are among the last so many to detect some fault, and the verdicts by them.
#[tactic(auto, using(crate::proofs::NearLemmas::told_size, crate::proofs::NearLemmas::few_told))]
fn last_few_kept<E: Engine, G: Gate, R: Threads + Sync>(
    errand: &Errand<'_, E, G, R>,
    plan: RunPlan,
    faults: &[Fault],
    patterns: Vec<Pattern>,
    verdicts: Vec<Verdict>,
) -> Result<Finished, NoMemory>
    requires ready { MayRun errand.now.core.now errand.now.holds.now plan }
    requires faults { AreFaultsOf errand.now.core.now faults.now }
    requires count { length verdicts.items ≡ length faults.now }
    requires wide { All (HasWidthsOf errand.now.core.now) patterns.items }
    requires small { length patterns.items + 64 ≤ 2 ^ 32 }
    ensures { IfOk result (λ f. AreFewTold errand.now.core.now plan.times faults.now patterns.items verdicts.items f.patterns.items f.verdicts.items) }
{
    let kept = last_few(errand.alloc, errand.core, faults, patterns, plan.times)?;
    let last = last_told(errand, plan, faults, &kept)?;
    let mut verdicts = verdicts;
    tell(&mut verdicts, &last);
    Ok(Finished {
        patterns: kept,
        verdicts,
    })
}

/// The patterns that are kept so that each fault is detected so many times, where so many were found. What makes patterns fewer would lose detections.
fn chosen_often<E: Engine + Sync, G: Gate + Sync, R: Threads + Wait + Sync>(
    errand: &Errand<'_, E, G, R>,
    plan: RunPlan,
    faults: &[Fault],
    found: Finished,
) -> Result<Finished, NoMemory>
    requires ready { MayRun errand.now.core.now errand.now.holds.now plan }
    requires faults { AreFaultsOf errand.now.core.now faults.now }
    requires small { length found.patterns.items + 64 ≤ 2 ^ 32 }
    requires known { AreKnown errand.now.core.now errand.now.holds.now plan.limit E.refutes faults.now found.patterns.items found.verdicts.items }
    ensures { IfOk result (λ f. AreChosen errand.now.core.now errand.now.holds.now plan.times faults.now found.patterns.items found.verdicts.items f.patterns.items f.verdicts.items) }
{
    let Finished { patterns, verdicts } = found;
    let patterns = repeated(errand, plan, faults, patterns)?;
    let found = last_few_kept(errand, plan, faults, patterns, verdicts)?;
    Ok(found)
}

/// The patterns that are kept, and the verdicts by them.
pub(crate) fn chosen<E: Engine + Sync, G: Gate + Sync, R: Threads + Wait + Sync>(
    errand: &Errand<'_, E, G, R>,
    plan: RunPlan,
    faults: &[Fault],
    found: Finished,
) -> Result<Finished, NoMemory>
    requires ready { MayRun errand.now.core.now errand.now.holds.now plan }
    requires faults { AreFaultsOf errand.now.core.now faults.now }
    requires small { length found.patterns.items + 64 ≤ 2 ^ 32 }
    requires known { AreKnown errand.now.core.now errand.now.holds.now plan.limit E.refutes faults.now found.patterns.items found.verdicts.items }
    ensures { IfOk result (λ f. AreChosen errand.now.core.now errand.now.holds.now plan.times faults.now found.patterns.items found.verdicts.items f.patterns.items f.verdicts.items) }
{
    if plan.times == 1 {
        chosen_once(errand, plan, faults, found)
    } else {
        chosen_often(errand, plan, faults, found)
    }
}
