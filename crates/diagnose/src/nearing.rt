//! The faults that come nearest to a log.
ghost use Rattle.std.specs.Prelude.{IfOk};
ghost use Rattle.diagnose.specs.Candidates.{IsDiagnosable};
ghost use Rattle.diagnose.specs.Explaining.{told_cycles};
ghost use Rattle.diagnose.specs.Ranking.{AreAllRanked, IsRanking};
ghost use Rattle.diagnose.specs.inner.Marks.{AreStrobed};
ghost use Rattle.diagnose.specs.inner.Ranks.{AreClassTallies};

use crate::cutting::told;
use crate::designs::ScannedDesign;
use crate::dividing::divide;
use crate::failures::{FailLog, FailureLines};
use crate::laws::equivalent_runs;
use crate::marking::marks_of;
use crate::playing::begun;
use crate::plays::Play;
use crate::ranks::Ranked;
use crate::sorting::sorted;
use crate::suspects::suspects_of;
use crate::tallying::tallies;
use fault_universe::faults_have_lines;
use lane_play::Counts;
use netlist::NoMemory;
use outside::Gate;
use scan_insert::laws::tester_names_differ;
use scan_play::Vectors;
use std::alloc::Global;

/// The counts of all classes, over failures that stand at strobes.
fn class_tallies<G: Gate>(
    alloc: Global,
    stage: &G,
    design: &ScannedDesign<'_>,
    vectors: &Vectors,
    strobed: &FailureLines,
) -> Result<Counts, NoMemory>
    requires design { IsDiagnosable design.now vectors.now }
    requires strobed { AreStrobed design.now.core.now vectors.now strobed.now }
    ensures { IfOk result (λ t. AreClassTallies design.now.core.now design.now.scanned.now.sites vectors.now strobed.now design.now.classes.now.representatives t.one.items t.other.items) }
{
    tester_names_differ();
    let Some(marks) = marks_of(alloc, design.core.netlist(), vectors, strobed)? else {
        unreachable!();
    };
    stage.at(0, begun(design.classes));
    let suspects = suspects_of(alloc, design)?;
    let play = Play {
        alloc,
        core: design.core,
        suspects: suspects.as_slice(),
        vectors,
        marks: &marks,
    };
    let counts = tallies(&play, stage)?;
    Ok(counts)
}

/// All faults in their order, over all cycles of the vectors.
fn all_ranked<G: Gate>(
    alloc: Global,
    stage: &G,
    design: &ScannedDesign<'_>,
    vectors: &Vectors,
    failures: &FailureLines,
) -> Result<Vec<Ranked>, NoMemory>
    requires { IsDiagnosable design.now vectors.now }
    ensures { IfOk result (λ all. AreAllRanked design.now.scanned.now design.now.faults.now vectors.now failures.now all.items) }
{
    design.core.netlist().sound();
    tester_names_differ();
    faults_have_lines();
    equivalent_runs();
    let divided = divide(alloc, design.core.netlist(), vectors, failures)?;
    let tallies = class_tallies(alloc, stage, design, vectors, &divided.strobed)?;
    let strangers = divided.strangers.len();
    let list = sorted(
        alloc,
        design.faults.len(),
        design.classes,
        &tallies,
        strangers,
    )?;
    Ok(list)
}

/// The faults of a design that come nearest to a log, so many or as many as there are, the nearest first. One fault of each class is played, on the scanned
/// netlist, up to the log's end, by one worker.
pub fn ranking<G: Gate>(
    alloc: Global,
    stage: &G,
    design: &ScannedDesign<'_>,
    vectors: Vectors,
    log: &FailLog,
    count: u64,
) -> Result<Vec<Ranked>, NoMemory>
    requires { IsDiagnosable design.now vectors }
    ensures { IfOk result (λ r. IsRanking design.now.scanned.now design.now.faults.now (told_cycles log.now.end vectors) log.now.failures count r.items) }
{
    let told = told(alloc, vectors, log.end)?;
    let mut list = all_ranked(alloc, stage, design, &told, &log.failures)?;
    list.truncate(count as usize);
    Ok(list)
}
