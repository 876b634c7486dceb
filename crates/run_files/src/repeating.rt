//! Further patterns for the faults that too few detect: first of searches, each by other bits where cubes leave them open, then near to those that are there.
ghost use Rattle.std.specs.Prelude.{◌≡◌, ◌+◌, List, ◌≤◌, ◌^◌, IfOk, length};
ghost use Rattle.std.specs.List.{All};
ghost use Rattle.statement.specs.declared.lines.Fault.{Fault as FaultOf};
ghost use Rattle.statement.specs.Netlists.{Netlist as Equations};
ghost use Rattle.statement.specs.Patterns.{Holds as Held, Pattern as Bits};
ghost use Rattle.cubes.specs.Cubes.{IsPatternOf};
ghost use Rattle.word_sim.specs.Words.{HasWidthsOf};
ghost use Rattle.run_files.specs.inner.Often.{AreGathered};
ghost use Rattle.run_files.specs.inner.Plans.{AreFaultsOf, MayRun};

use crate::asked::RunPlan;
use crate::differing::joined;
use crate::finding::search_faults;
use crate::near::found_near;
use cubes::Pattern;
use detections::times_of;
use evidence::Engine;
use netlist::{Core, Fault, NoMemory};
use outside::Gate;
use std::alloc::{AllocError, Global};
use std::sync::Wait;
use std::thread::Threads;
use word_sim::unmarked;
use worker::Errand;

/// So many patterns can be simulated together.
const MOST_PATTERNS: usize = (1 << 32) - 64;

/// Marks the faults that aren't searched again: no pattern detects them, or enough do.
fn settled_marks(alloc: Global, times: &[u32], most: u32) -> Result<Vec<bool>, AllocError>
    ensures { IfOk result (λ v. length v.items ≡ length times.now) }
{
    let mut marks = Vec::with_capacity(alloc, times.len())?;
    for count in times {
        marks.push(*count == 0 || *count >= most)?;
    }
    Ok(marks)
}

/// The faults that some of these patterns detect, but too few.
pub(crate) fn unsettled(
    alloc: Global,
    core: &Core,
    faults: &[Fault],
    patterns: &[Pattern],
    most: u32,
) -> Result<Vec<Fault>, NoMemory>
    requires faults { AreFaultsOf core.now faults.now }
    requires wide { All (HasWidthsOf core.now) patterns.now }
    ensures { IfOk result (λ v. AreFaultsOf core.now v.items) }
{
    let times = times_of(alloc, core, faults, patterns, most)?;
    let settled = settled_marks(alloc, &times, most)?;
    Ok(unmarked(alloc, faults, &settled)?)
}

/// What a search of the faults finds that some of these patterns detect, but too few.
#[tactic(auto, using(crate::proofs::FoundLemmas::faults_lent))]
fn found_again<E: Engine + Sync, G: Gate + Sync, R: Threads + Wait + Sync>(
    errand: &Errand<'_, E, G, R>,
    plan: RunPlan,
    faults: &[Fault],
    patterns: &[Pattern],
) -> Result<Vec<Pattern>, NoMemory>
    requires ready { MayRun errand.now.core.now errand.now.holds.now plan }
    requires faults { AreFaultsOf errand.now.core.now faults.now }
    requires obey { All (IsPatternOf errand.now.core.now errand.now.holds.now) patterns.now }
    ensures obey { IfOk result (λ v. All (IsPatternOf errand.now.core.now errand.now.holds.now) v.items) }
{
    let left = unsettled(errand.alloc, errand.core, faults, patterns, plan.times)?;
    if left.is_empty() {
        return Ok(Vec::new(errand.alloc));
    }
    let (found, _) = search_faults(errand, plan, &left, None)?;
    Ok(found)
}

/// The patterns with others behind them, unless those are too many.
fn with_more(patterns: Vec<Pattern>, more: Vec<Pattern>) -> Result<Vec<Pattern>, AllocError>
    requires { length patterns.items + 64 ≤ 2 ^ 32 }
    ensures { IfOk result (λ v. (n : Equations) (holds : Held) (faults : List FaultOf) (given : List Bits) → All (IsPatternOf n holds) more.items
        → AreGathered n holds faults given patterns.items → AreGathered n holds faults given v.items) }
{
    if more.len() > MOST_PATTERNS - patterns.len() {
        return Ok(patterns);
    }
    joined(patterns, more)
}

/// The plan of a further search: other bits fill what cubes leave open.
fn plan_of_round(plan: RunPlan, round: u32) -> RunPlan
    ensures { (n : Equations) (holds : Held) → MayRun n holds plan → MayRun n holds result }
{
    RunPlan {
        seed: plan.seed.wrapping_add(round as u64),
        ..plan
    }
}

/// What a round adds: in the first rounds what a search finds, and then, or where it finds nothing, what is near to patterns that are there.
fn found_more<E: Engine + Sync, G: Gate + Sync, R: Threads + Wait + Sync>(
    errand: &Errand<'_, E, G, R>,
    plan: RunPlan,
    faults: &[Fault],
    patterns: &[Pattern],
    is_search: bool,
) -> Result<Vec<Pattern>, NoMemory>
    requires ready { MayRun errand.now.core.now errand.now.holds.now plan }
    requires faults { AreFaultsOf errand.now.core.now faults.now }
    requires obey { All (IsPatternOf errand.now.core.now errand.now.holds.now) patterns.now }
    requires small { length patterns.now + 64 ≤ 2 ^ 32 }
    ensures obey { IfOk result (λ v. All (IsPatternOf errand.now.core.now errand.now.holds.now) v.items) }
{
    if is_search {
        let found = found_again(errand, plan, faults, patterns)?;
        if !found.is_empty() {
            return Ok(found);
        }
    }
    found_near(errand, plan, faults, patterns)
}

/// These patterns, each once, with more of them: of each fault as many as are asked for, where searches and what is near come to them. A round that has
/// nothing to add is the last.
pub(crate) fn repeated<E: Engine + Sync, G: Gate + Sync, R: Threads + Wait + Sync>(
    errand: &Errand<'_, E, G, R>,
    plan: RunPlan,
    faults: &[Fault],
    patterns: Vec<Pattern>,
) -> Result<Vec<Pattern>, NoMemory>
    requires ready { MayRun errand.now.core.now errand.now.holds.now plan }
    requires faults { AreFaultsOf errand.now.core.now faults.now }
    requires obey { All (IsPatternOf errand.now.core.now errand.now.holds.now) patterns.items }
    requires small { length patterns.items + 64 ≤ 2 ^ 32 }
    ensures { IfOk result (λ v. AreGathered errand.now.core.now errand.now.holds.now faults.now patterns.items v.items) }
{
    let mut all = joined(Vec::new(errand.alloc), patterns)?;
    for round in 1..plan.times.saturating_mul(2) {
        let is_search = round < plan.times;
        let more = found_more(errand, plan_of_round(plan, round), faults, &all, is_search)?;
        if more.is_empty() {
            break;
        }
        all = with_more(all, more)?;
    }
    Ok(all)
}
