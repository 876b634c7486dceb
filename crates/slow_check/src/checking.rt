//! The check of five files of slow lines.
//!
//! What is large is owned by one function, behind which one call borrows it, and is let go by `drop`, in one call. At the end of a scope each list in it
//! would be let go apart, and each takes the prover a step.
ghost use Rattle.std.specs.Prelude.{◌≡◌, ◌<◌, ◌≤◌, ◌+◌, ◌^◌, length, map, IfOk};
ghost use Rattle.bench_text.specs.Bytes.{lines};
ghost use Rattle.scan_insert.specs.Scanned.{scanned_of};
ghost use Rattle.statement.specs.Runs.{output_name};
ghost use Rattle.transition_frames.specs.Frames.{frame_names as names_of};
ghost use Rattle.check_parts.specs.Scanning.{IsStitched};
ghost use Rattle.good_files.specs.GoodFiles.{AreHeldBy};
ghost use Rattle.good_files.specs.ScanOff.{design_chains};
ghost use Rattle.good_slow_files.specs.Checks.{IsSlowAnswer, IsSlowChecked, PassesWhereTrueSlow};
ghost use Rattle.good_slow_files.specs.GoodSlowFiles.{AreLaunchPatternsOf, slow_chains_said, slow_limit_said};
ghost use Rattle.slow_check.specs.inner.Checking.{IsHeldAnswer, IsPosed, IsPosedAnswer, IsScanAnswer, IsVerdict};
ghost use Rattle.slow_check.specs.inner.Reading.{AreSaid, contents_of};
ghost use Rattle.slow_check.specs.inner.Trials.{IsSlowTrial, slow_test_of};
ghost use Rattle.slow_check.specs.inner.Walking.{IsReady};

use crate::faults::false_fault;
use crate::findings::findings_of;
use crate::reading::{Said, said_of};
use crate::totals::has_totals;
use crate::trials::SlowTrial;
use crate::walking::Walk;
use check_parts::{FiveTexts, Stitched, holds_by, scanned_as};
use cubes::Pattern;
use good_files::{CheckFault, Checked, Clause};
use good_slow_files::slow_checked_is_good;
use netlist::{Core, Holds, NameTable, Netlist, NoMemory};
use run_report::pin_names;
use std::alloc::Global;
use stil_read::laws::items_take_bytes;
use transition_files::launch_patterns_of;
use transition_frames::frame_names;
use transition_report::TransitionReport;

/// What is false of the slow lines or the totals, or how many there are.
fn verdict_of(alloc: Global, walk: &Walk<'_>, said: &TransitionReport) -> Result<Checked, NoMemory>
    requires ready { IsReady walk.now }
    requires lines { walk.now.lines.now ≡ said.now.lines }
    ensures { IfOk result (IsVerdict (slow_test_of walk.now.trial.now) said.now) }
{
    if let Some(text) = false_fault(alloc, walk)? {
        return Ok(Checked::False(Clause::Fault(text)));
    }
    let count = walk.faults.len();
    if !has_totals(walk.trial, count, said) {
        return Ok(Checked::False(Clause::TotalsDiffer));
    }
    Ok(Checked::Faults(count))
}

/// What is found of the test, by the names of its pins and of the signals of two frames.
fn tried_by(
    alloc: Global,
    core: &Core,
    trial: &SlowTrial<'_>,
    pins: &NameTable,
    names: &NameTable,
    said: &TransitionReport,
) -> Result<Checked, NoMemory>
    requires trial { IsSlowTrial trial.now }
    requires own { core.now ≡ trial.now.netlist.now }
    requires pins { pins.now ≡ map (output_name (scanned_of trial.now.netlist.now trial.now.chains.now)) (scanned_of trial.now.netlist.now trial.now.chains.now).outputs }
    requires names { names.now ≡ names_of trial.now.netlist.now }
    ensures { IfOk result (IsVerdict (slow_test_of trial.now) said.now) }
{
    let findings = findings_of(alloc, core, trial)?;
    let walk = Walk {
        trial,
        faults: &findings.faults,
        pins,
        names,
        lasts: &findings.lasts,
        firsts: &findings.firsts,
        lines: &said.lines,
    };
    let verdict = verdict_of(alloc, &walk, said);
    drop(findings);
    verdict
}

/// The same, with the names of the signals of two frames made for it.
fn tried_named(
    alloc: Global,
    core: &Core,
    trial: &SlowTrial<'_>,
    pins: &NameTable,
    said: &TransitionReport,
) -> Result<Checked, NoMemory>
    requires trial { IsSlowTrial trial.now }
    requires own { core.now ≡ trial.now.netlist.now }
    requires pins { pins.now ≡ map (output_name (scanned_of trial.now.netlist.now trial.now.chains.now)) (scanned_of trial.now.netlist.now trial.now.chains.now).outputs }
    ensures { IfOk result (IsVerdict (slow_test_of trial.now) said.now) }
{
    let names = frame_names(alloc, trial.netlist)?;
    let verdict = tried_by(alloc, core, trial, pins, &names, said);
    drop(names);
    verdict
}

/// What is found of the test: its patterns are simulated in two frames, and its evidence is checked, once for each slow line that is left.
fn tried(
    alloc: Global,
    core: &Core,
    trial: &SlowTrial<'_>,
    scanned: &Netlist,
    said: &TransitionReport,
) -> Result<Checked, NoMemory>
    requires trial { IsSlowTrial trial.now }
    requires own { core.now ≡ trial.now.netlist.now }
    requires scanned { scanned.now ≡ scanned_of trial.now.netlist.now trial.now.chains.now }
    ensures { IfOk result (IsVerdict (slow_test_of trial.now) said.now) }
{
    let pins = pin_names(alloc, scanned)?;
    let verdict = tried_named(alloc, core, trial, &pins, said);
    drop(pins);
    verdict
}

/// What is found of a test with these held inputs, chains and patterns.
fn posed(
    alloc: Global,
    said: &Said,
    made: &Stitched,
    holds: &Holds,
    patterns: Vec<Pattern>,
) -> Result<Checked, NoMemory>
    requires said { IsPosed said.now }
    requires made { IsStitched said.now.core (design_chains said.now.core (slow_chains_said said.now.report)) made.now }
    requires held { AreHeldBy said.now.core said.now.report.holds holds.now }
    requires patterns { AreLaunchPatternsOf said.now.core holds.now made.now.chains said.now.file patterns.items }
    ensures { IfOk result (IsPosedAnswer said.now holds.now patterns.items) }
{
    let trial = SlowTrial {
        netlist: said.core.netlist(),
        chains: &made.chains,
        holds,
        limit: said.report.counts.limit,
        patterns: &patterns,
        evidence: &said.evidence,
    };
    let answer = tried(
        alloc,
        &said.core,
        &trial,
        made.scanned.netlist(),
        &said.report,
    );
    drop(patterns);
    answer
}

/// The same, if the STIL file is that of patterns by launch on capture which obey the held inputs.
fn with_holds(
    alloc: Global,
    said: &Said,
    made: &Stitched,
    holds: &Holds,
) -> Result<Checked, NoMemory>
    requires said { IsPosed said.now }
    requires made { IsStitched said.now.core (design_chains said.now.core (slow_chains_said said.now.report)) made.now }
    requires held { AreHeldBy said.now.core said.now.report.holds holds.now }
    ensures { IfOk result (IsHeldAnswer said.now holds.now) }
{
    match launch_patterns_of(alloc, &said.core, &made.chains, &said.file, holds) {
        Ok(Some(patterns)) => posed(alloc, said, made, holds, patterns),
        Ok(None) => Ok(Checked::False(Clause::StilDiffers)),
        Err(NoMemory) => Err(NoMemory),
    }
}

/// The same, if the report's held inputs are inputs, each once at most, in their order.
fn with_scan(alloc: Global, said: &Said, made: &Stitched) -> Result<Checked, NoMemory>
    requires said { IsPosed said.now }
    requires made { IsStitched said.now.core (design_chains said.now.core (slow_chains_said said.now.report)) made.now }
    ensures { IfOk result (IsScanAnswer said.now) }
{
    match holds_by(alloc, &said.core, &said.report.holds) {
        Ok(Some(holds)) => {
            let answer = with_holds(alloc, said, made, &holds);
            drop(holds);
            answer
        }
        Ok(None) => Ok(Checked::False(Clause::HoldDiffers)),
        Err(NoMemory) => Err(NoMemory),
    }
}

/// The first clause that is false of what the texts stand for, or how many slow lines there are.
fn answer_of(alloc: Global, said: &Said, scan: &[u8]) -> Result<Checked, NoMemory>
    requires { IsPosed said.now }
    ensures { IfOk result (IsSlowAnswer (contents_of scan.now said.now)) }
{
    let count = said.report.counts.chains;
    match scanned_as(alloc, said.core.netlist(), count, scan) {
        Ok(Some(made)) => {
            let answer = with_scan(alloc, said, &made);
            drop(made);
            answer
        }
        Ok(None) => Ok(Checked::False(Clause::ScanDiffers)),
        Err(NoMemory) => Err(NoMemory),
    }
}

/// Whether the texts of a netlist, its scanned netlist, a test for slow lines, a certificate and a report are what they say: the first clause that is
/// false, or how many slow lines there are. Where none is false, what they say comes true, whoever made them.
pub fn check_slow_files(
    alloc: Global,
    net: &[u8],
    scan: &[u8],
    stil: &[u8],
    certificate: &[u8],
    report: &[u8],
) -> Result<Checked, CheckFault>
    requires lines { length (lines net.now) < 2 ^ 32 }
    requires patterns { length stil.now + 64 ≤ 2 ^ 32 }
    ensures checked { IsSlowChecked (record { net = net.now; scan = scan.now; stil = stil.now; certificate = certificate.now; report = report.now }) result }
    ensures good { IfOk result (PassesWhereTrueSlow (record { net = net.now; scan = scan.now; stil = stil.now; certificate = certificate.now; report = report.now })) }
{
    let texts = FiveTexts {
        net,
        scan,
        stil,
        certificate,
        report,
    };
    let said = match said_of(alloc, &texts) {
        Ok(said) => said,
        Err(fault) => return Err(fault),
    };
    said.core.netlist().sound();
    items_take_bytes();
    slow_checked_is_good();
    let answer = answer_of(alloc, &said, scan);
    drop(said);
    match answer {
        Ok(answer) => Ok(answer),
        Err(NoMemory) => Err(CheckFault::NoMemory),
    }
}
