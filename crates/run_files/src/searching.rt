//! The search, by workers, of the classes that are asked for.
ghost use Rattle.std.specs.Prelude.{◌≡◌, ◌+◌, ◌<◌, ◌≤◌, ◌^◌, IfOk, length};
ghost use Rattle.std.specs.List.{All};
ghost use Rattle.cubes.specs.Cubes.{IsPatternOf};
ghost use Rattle.netlist.specs.Designs.{IsDesign};
ghost use Rattle.fault_collapse.specs.Classes.{AreClasses};
ghost use Rattle.fault_universe.specs.Laws.{most_design_faults};
ghost use Rattle.run_files.specs.inner.Plans.{AreFaultsOf, AreFew, AreRepresented, MayBeSearched, MayRun};
ghost use Rattle.run_files.specs.inner.Searches.{AreAdded, AreBehind, AreDrawn, AreFoundBy, AreSearched, AreSpread, IsLeft, IsLeftBeside, IsSpreadOver};

use crate::asked::{AskedClasses, RunPlan, asked_classes};
use crate::choosing::chosen;
use crate::drawing::drawn_patterns;
use crate::finding::search_faults;
use crate::first::detected_marks;
use crate::spreading::{goal_of, spread};
use cubes::Pattern;
use evidence::Engine;
use fault_collapse::Classes;
use fault_universe::{faults_have_lines, few_faults};
use list_core::{Finished, Goal};
use netlist::{Core, Fault, NoMemory};
use outside::Gate;
use std::alloc::{AllocError, Global};
use std::sync::Wait;
use std::thread::Threads;
use word_sim::unmarked;
use worker::Errand;

/// What patterns leave of the classes that are asked for.
#[derive(Drop)]
pub(crate) struct Left {
    /// Marks those that some pattern detects.
    pub found: Vec<bool>,
    /// The faults of the others.
    pub faults: Vec<Fault>,
    /// How much of these is to be detected, where less than all is enough.
    pub goal: Option<Goal>,
}

/// What is left of the classes that are asked for beside those that are marked.
fn left_beside(
    alloc: Global,
    percent: Option<u32>,
    asked: &AskedClasses,
    found: Vec<bool>,
) -> Result<Left, AllocError>
    requires size { length found.items ≡ length asked.now.faults.items }
    requires weights { length asked.now.weights.items ≡ length asked.now.faults.items }
    requires few { length asked.now.faults.items ≤ most_design_faults }
    ensures { IfOk result (IsLeftBeside percent asked.now found.items) }
{
    let faults = unmarked(alloc, &asked.faults, &found)?;
    let goal = goal_of(alloc, percent, asked.count, &asked.weights, &found)?;
    Ok(Left {
        found,
        faults,
        goal,
    })
}

/// What these patterns leave of the classes that are asked for.
#[tactic(auto, using(crate::proofs::FoundLemmas::faults_lent, crate::proofs::FoundLemmas::marks_sized))]
fn left_by<E: Engine, G: Gate, R: Threads + Sync>(
    errand: &Errand<'_, E, G, R>,
    plan: RunPlan,
    asked: &AskedClasses,
    patterns: &[Pattern],
) -> Result<Left, NoMemory>
    requires ready { MayRun errand.now.core.now errand.now.holds.now plan }
    requires asked { MayBeSearched errand.now.core.now asked.now }
    requires obey { All (IsPatternOf errand.now.core.now errand.now.holds.now) patterns.now }
    requires few { length patterns.now + 64 ≤ 2 ^ 32 }
    ensures { IfOk result (IsLeft errand.now.core.now plan.percent asked.now patterns.now) }
{
    let found = detected_marks(errand, plan, asked.faults.as_slice(), patterns)?;
    let left = left_beside(errand.alloc, plan.percent, asked, found)?;
    Ok(left)
}

/// The patterns with more behind them.
pub(crate) fn with_behind(
    patterns: Vec<Pattern>,
    more: Vec<Pattern>,
) -> Result<Vec<Pattern>, AllocError>
    ensures { IfOk result (λ v. AreBehind patterns.items more.items v.items) }
{
    let mut all = patterns;
    let mut more = more;
    all.append(&mut more)?;
    Ok(all)
}

/// The same patterns, and verdicts of those that aren't marked over all.
fn spread_over(alloc: Global, marks: &[bool], found: Finished) -> Result<Finished, AllocError>
    ensures { IfOk result (λ f. IsSpreadOver marks.now found.patterns.items found.verdicts.items f.patterns.items f.verdicts.items) }
{
    let Finished { patterns, verdicts } = found;
    let verdicts = spread(alloc, marks, verdicts)?;
    Ok(Finished { patterns, verdicts })
}

/// The first patterns, and behind them those that are drawn for what they don't detect.
fn with_drawn<E: Engine, G: Gate, R: Threads + Sync>(
    errand: &Errand<'_, E, G, R>,
    plan: RunPlan,
    asked: &AskedClasses,
    first: Vec<Pattern>,
) -> Result<Vec<Pattern>, NoMemory>
    requires ready { MayRun errand.now.core.now errand.now.holds.now plan }
    requires asked { MayBeSearched errand.now.core.now asked.now }
    requires first { AreFew errand.now.core.now errand.now.holds.now (2 ^ 27) first.items }
    ensures { IfOk result (λ v. AreDrawn errand.now.core.now errand.now.holds.now first.items v.items) }
{
    let left = left_by(errand, plan, asked, &first)?;
    let drawn = drawn_patterns(errand, plan, &left);
    drop(left);
    Ok(with_behind(first, drawn?)?)
}

/// What a search finds of what patterns leave, with its verdicts over all that is asked for. Those that the patterns detect are Open.
#[tactic(auto, using(crate::proofs::FoundLemmas::faults_lent, crate::proofs::FoundLemmas::are_spread))]
fn searched<E: Engine + Sync, G: Gate + Sync, R: Threads + Wait + Sync>(
    errand: &Errand<'_, E, G, R>,
    plan: RunPlan,
    left: &Left,
) -> Result<Finished, NoMemory>
    requires ready { MayRun errand.now.core.now errand.now.holds.now plan }
    requires faults { AreFaultsOf errand.now.core.now left.now.faults.items }
    ensures { IfOk result (λ f. AreSpread errand.now.core.now errand.now.holds.now plan.limit E.refutes left.now f.patterns.items f.verdicts.items) }
{
    let (patterns, verdicts) = search_faults(errand, plan, &left.faults, left.goal.as_ref())?;
    let found = Finished { patterns, verdicts };
    Ok(spread_over(errand.alloc, &left.found, found)?)
}

/// The patterns, with what a search adds to them, and the verdicts of the classes that are asked for. Those that the first patterns detect aren't
/// searched, and are Open.
#[tactic(auto, using(crate::proofs::FoundLemmas::added))]
fn with_found<E: Engine + Sync, G: Gate + Sync, R: Threads + Wait + Sync>(
    errand: &Errand<'_, E, G, R>,
    plan: RunPlan,
    asked: &AskedClasses,
    first: Vec<Pattern>,
) -> Result<Finished, NoMemory>
    requires ready { MayRun errand.now.core.now errand.now.holds.now plan }
    requires asked { MayBeSearched errand.now.core.now asked.now }
    requires first { AreFew errand.now.core.now errand.now.holds.now (2 ^ 27 + 2 ^ 17) first.items }
    ensures { IfOk result (λ f. AreAdded errand.now.core.now errand.now.holds.now plan.limit E.refutes plan.percent asked.now first.items f.patterns.items f.verdicts.items) }
{
    let left = left_by(errand, plan, asked, &first)?;
    let found = searched(errand, plan, &left);
    drop(left);
    let Finished { patterns, verdicts } = found?;
    let patterns = with_behind(first, patterns)?;
    Ok(Finished { patterns, verdicts })
}

/// The patterns that are kept and the verdicts of the classes that are asked for. Some patterns are drawn before any class is searched.
#[tactic(auto, using(crate::proofs::FoundLemmas::faults_lent, crate::proofs::FoundLemmas::known_lent))]
fn search_asked<E: Engine + Sync, G: Gate + Sync, R: Threads + Wait + Sync>(
    errand: &Errand<'_, E, G, R>,
    plan: RunPlan,
    asked: &AskedClasses,
    first: Vec<Pattern>,
) -> Result<Finished, NoMemory>
    requires ready { MayRun errand.now.core.now errand.now.holds.now plan }
    requires asked { MayBeSearched errand.now.core.now asked.now }
    requires first { AreFew errand.now.core.now errand.now.holds.now (2 ^ 27) first.items }
    ensures { IfOk result (λ f. AreFoundBy errand.now.core.now errand.now.holds.now plan.limit E.refutes plan.times plan.percent asked.now first.items f.patterns.items f.verdicts.items) }
{
    let all = with_drawn(errand, plan, asked, first)?;
    let found = with_found(errand, plan, asked, all)?;
    let kept = chosen(errand, plan, asked.faults.as_slice(), found)?;
    Ok(kept)
}

/// Classes are few, and each representative stands on a line of the netlist.
pub(crate) fn represented(core: &Core, classes: &Classes)
    requires design { IsDesign core.now }
    requires classes { AreClasses core.now classes.now }
    ensures few { length classes.now.numbers < 2 ^ 32 }
    ensures represented { AreRepresented core.now classes.now }
{
    core.netlist().sound();
    few_faults();
    faults_have_lines();
}

/// The patterns that are kept and verdicts for all classes, by so many workers, where these faults are asked for.
pub(crate) fn search<E: Engine + Sync, G: Gate + Sync, R: Threads + Wait + Sync>(
    errand: &Errand<'_, E, G, R>,
    plan: RunPlan,
    classes: &Classes,
    faults: &[bool],
    first: Vec<Pattern>,
) -> Result<Finished, NoMemory>
    requires design { IsDesign errand.now.core.now }
    requires ready { MayRun errand.now.core.now errand.now.holds.now plan }
    requires classes { AreClasses errand.now.core.now classes.now }
    requires faults { length faults.now ≡ length classes.now.numbers }
    requires first { AreFew errand.now.core.now errand.now.holds.now (2 ^ 27) first.items }
    ensures { IfOk result (λ f. AreSearched errand.now.core.now errand.now.holds.now plan.limit E.refutes plan.times plan.percent classes.now faults.now first.items f.patterns.items f.verdicts.items) }
{
    represented(errand.core, classes);
    let asked = asked_classes(errand.alloc, classes, faults)?;
    let found = search_asked(errand, plan, &asked, first)?;
    Ok(spread_over(errand.alloc, &asked.others, found)?)
}
