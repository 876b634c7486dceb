//! From a design to its five files.
ghost use Rattle.std.specs.Prelude.{◌≡◌, ◌<◌, ◌≤◌, ◌^◌, IfOk, length};
ghost use Rattle.std.specs.List.{All};
ghost use Rattle.certificate.specs.Certificates.{IsNamed};
ghost use Rattle.run_files.specs.inner.Verdicts.{leaves_of};
ghost use Rattle.plain_text.specs.Limits.{most_limit};
ghost use Rattle.netlist.specs.Designs.{IsDesign};
ghost use Rattle.cubes.specs.Cubes.{IsPatternOf};
ghost use Rattle.netlist.specs.Holds.{AreHoldsOf};
ghost use Rattle.scan_insert.specs.Scanned.{scanned_of};
ghost use Rattle.run_files.specs.Runs.{IsRun, asked_by};
ghost use Rattle.statement.specs.Faults.{universe_of};
ghost use Rattle.run_files.specs.inner.Cases.{AreFoundOf, IsCase};
ghost use Rattle.run_files.specs.inner.Laws.{IsFinished, MayMake};
ghost use Rattle.run_files.specs.inner.Written.{IsMadeOf, IsWritten};
ghost use Rattle.run_files.specs.inner.Reports.{AreTimes, IsSaid};
ghost use Rattle.report.specs.Reports.{AreCounted};

use crate::asked::{RunPlan, Wanted};
use crate::case::Case;
use crate::lines::lines_of;
use crate::reporting::{report_of, times_said};
use crate::searching::search;
use crate::stitching::stitched;
use crate::texts::{NetlistTexts, TestTexts, netlist_texts, test_texts};
use crate::truth::written_is_run;
use evidence::Engine;
use fault_universe::faults_have_signals;
use list_core::Finished;
use netlist::{Netlist, NoMemory};
use outside::Gate;
use report::{Report, Times, write_report};
use run_report::{pin_names, subject_of};
use scan_insert::insert;
use std::alloc::Global;
use std::sync::Wait;
use std::thread::Threads;
use worker::Errand;

/// The texts of a run, and its report as a value.
#[derive(Drop)]
pub struct RunFiles {
    pub net: Vec<u8>,
    pub scan: Vec<u8>,
    pub stil: Vec<u8>,
    pub certificate: Vec<u8>,
    pub report: Vec<u8>,
    pub said: Report,
}

/// What the report says of these verdicts.
#[tactic(auto, using(crate::proofs::WrittenLemmas::said_is))]
fn said_of(
    case: &Case<'_>,
    scanned: &Netlist,
    found: &Finished,
    times: Times,
) -> Result<Report, NoMemory>
    requires case { IsCase case.now }
    requires scanned { scanned.now ≡ scanned_of case.now.netlist.now case.now.chains.now }
    requires found { AreFoundOf case.now found.now }
    requires times { AreCounted times }
    ensures said { IfOk result (IsSaid case.now.netlist.now case.now.chains.now case.now.holds.now case.now.subject.now.classes case.now.plan.limit case.now.asked.now found.now.patterns.items found.now.verdicts.items) }
    ensures times { IfOk result (λ said. said.times ≡ times) }
{
    let pins = pin_names(case.alloc, scanned)?;
    let lines = lines_of(case, &pins, found)?;
    let said = report_of(case, found.patterns.as_slice().len() as u32, times, lines)?;
    Ok(said)
}

/// What the report says, and how often each fault is detected, where that is counted.
fn counted_and_said(
    case: &Case<'_>,
    scanned: &Netlist,
    found: &Finished,
) -> Result<Report, NoMemory>
    requires case { IsCase case.now }
    requires scanned { scanned.now ≡ scanned_of case.now.netlist.now case.now.chains.now }
    requires found { AreFoundOf case.now found.now }
    ensures said { IfOk result (IsSaid case.now.netlist.now case.now.chains.now case.now.holds.now case.now.subject.now.classes case.now.plan.limit case.now.asked.now found.now.patterns.items found.now.verdicts.items) }
    ensures counted { IfOk result (λ said. AreTimes case.now.netlist.now found.now.patterns.items case.now.plan.times said.times) }
{
    let times = times_said(case, found)?;
    said_of(case, scanned, found, times)
}

/// The report's text beside the others.
fn with_report(
    alloc: Global,
    netlists: NetlistTexts,
    test: TestTexts,
    said: Report,
) -> Result<RunFiles, NoMemory>
    ensures { IfOk result (IsMadeOf netlists test said) }
{
    said.sound();
    let report = write_report(alloc, &said)?;
    Ok(RunFiles {
        net: netlists.net,
        scan: netlists.scan,
        stil: test.stil,
        certificate: test.certificate,
        report,
        said,
    })
}

/// The evidence of what was found is of faults of the netlist.
fn all_named(case: &Case<'_>, found: &Finished)
    requires case { IsCase case.now }
    requires found { AreFoundOf case.now found.now }
    ensures { All (IsNamed case.now.netlist.now) (leaves_of case.now.subject.now.classes.representatives found.now.verdicts.items) }
{
    case.netlist.sound();
    faults_have_signals();
}

/// The texts of what was found, where the netlist has been scanned.
fn texts_beside(case: &Case<'_>, scanned: &Netlist, found: Finished) -> Result<RunFiles, NoMemory>
    requires case { IsCase case.now }
    requires scanned { scanned.now ≡ scanned_of case.now.netlist.now case.now.chains.now }
    requires found { AreFoundOf case.now found }
    ensures { IfOk result (IsWritten case.now.netlist.now case.now.holds.now case.now.chains.now case.now.subject.now.classes case.now.plan.limit case.now.plan.times case.now.asked.now found.patterns.items found.verdicts.items) }
{
    all_named(case, &found);
    let said = counted_and_said(case, scanned, &found)?;
    let netlists = netlist_texts(case.alloc, case.netlist, scanned)?;
    let test = test_texts(case, found)?;
    let files = with_report(case.alloc, netlists, test, said)?;
    Ok(files)
}

/// The texts of what was found.
#[tactic(auto, using(crate::proofs::WrittenLemmas::scanned_lent))]
fn texts_of(case: &Case<'_>, found: Finished) -> Result<RunFiles, NoMemory>
    requires case { IsCase case.now }
    requires found { AreFoundOf case.now found }
    ensures { IfOk result (IsWritten case.now.netlist.now case.now.holds.now case.now.chains.now case.now.subject.now.classes case.now.plan.limit case.now.plan.times case.now.asked.now found.patterns.items found.verdicts.items) }
{
    let scanned = insert(case.alloc, case.netlist, case.chains)?;
    let files = texts_beside(case, scanned.netlist(), found);
    drop(scanned);
    files
}

/// The files of a design, made of what a search finds.
#[tactic(auto, using(crate::proofs::WrittenLemmas::finished))]
fn files_made<R: Threads + Wait + Sync, E: Engine + Sync, G: Gate + Sync>(
    errand: &Errand<'_, E, G, R>,
    plan: RunPlan,
    wanted: Wanted,
) -> Result<RunFiles, NoMemory>
    requires may { MayMake errand.now.core.now errand.now.holds.now plan wanted }
    ensures { IfOk result (IsFinished errand.now.core.now errand.now.holds.now E.refutes plan wanted) }
{
    let netlist = errand.core.netlist();
    netlist.sound();
    let chains = stitched(errand.alloc, netlist, plan.chains)?;
    let subject = subject_of(errand.alloc, netlist)?;
    let Wanted { faults, first } = wanted;
    let found = search(errand, plan, &subject.classes, &faults, first)?;
    let case = Case {
        alloc: errand.alloc,
        core: errand.core,
        netlist,
        holds: errand.holds,
        plan,
        chains: &chains,
        subject: &subject,
        asked: &faults,
    };
    let files = texts_of(&case, found);
    drop(subject);
    drop(chains);
    Ok(files?)
}

/// Makes the five files of a design: workers search and compact, and all texts are written. Whatever the number of workers and the
/// order in which they come, what the files say comes true.
pub fn make_files<R: Threads + Wait + Sync, E: Engine + Sync, G: Gate + Sync>(
    errand: &Errand<'_, E, G, R>,
    plan: RunPlan,
    wanted: Wanted,
) -> Result<RunFiles, NoMemory>
    requires design { IsDesign errand.now.core.now }
    requires some { 1 ≤ plan.chains }
    requires limit { (1 ≤ plan.limit) × (plan.limit ≤ most_limit) }
    requires times { 1 ≤ plan.times }
    requires workers { (0 < plan.workers) × (plan.workers ≤ 64) }
    requires held { AreHoldsOf errand.now.core.now errand.now.holds.now }
    requires faults { length wanted.faults.items ≡ length (universe_of errand.now.core.now) }
    requires first { All (IsPatternOf errand.now.core.now errand.now.holds.now) wanted.first.items }
    requires few { length wanted.first.items < 2 ^ 27 }
    ensures { IfOk result (IsRun errand.now.core.now (asked_by plan wanted errand.now.holds.now E.refutes)) }
{
    errand.core.netlist().sound();
    written_is_run();
    let files = files_made(errand, plan, wanted)?;
    Ok(files)
}
